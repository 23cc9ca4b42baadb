// The cipher clock: 48 bits, stamps, the raise and EPAM (01, Clock). All numbers are taken modulo their turn, so that every argument has an answer.
#![tactic(auto)]

ghost use Rattle.std.specs.Prelude.{◌≡◌};
ghost use Rattle.clock.specs.Ticks.{advanced, rewound, local_of, local_advanced, epam_of};
ghost use Rattle.clock.specs.Stamping.{captured_at, raise_of, moved_by, raised_to};
ghost use Rattle.clock.specs.Loop.{Stops, Leaves};

use octets::SIX_OCTETS;

pub const TICKS_PER_SECOND: u64 = 390_625_000;

pub const CLOCK_TURN: u64 = SIX_OCTETS;

pub const LOCAL_TURN: u64 = 0x1_0000_0000;

pub const EPAM_TURN: u8 = 64;

// Sends under a key stop this many ticks after its first: in fewer, no clock returns.
pub const KEY_LIFE: u64 = CLOCK_TURN;

// The highest tick that an end counts to.
pub const MAX_TICK: u64 = 0x4000_0000_0000_0000;

// The longest round trip, in ticks.
pub const MAX_ROUND_TRIP: u64 = 1_000_000;

// A clock message: the OLT's clock at the capture, and that clock plus the round trip. After the raise, a unit's Rx and Tx clocks.
#[repr(C)]
#[derive(Clone, Copy)]
pub struct Stamps {
    pub rx: u64,
    pub tx: u64,
}

pub fn clock_after(clock: u64, ticks: u64) -> u64
    ensures { result ≡ advanced clock ticks }
{
    (clock % CLOCK_TURN + ticks % CLOCK_TURN) % CLOCK_TURN
}

pub fn clock_before(clock: u64, ticks: u64) -> u64
    ensures { result ≡ rewound clock ticks }
{
    (clock % CLOCK_TURN + (CLOCK_TURN - ticks % CLOCK_TURN)) % CLOCK_TURN
}

pub fn local_after(time: u64, ticks: u64) -> u64
    ensures { result ≡ local_advanced time ticks }
{
    (time % LOCAL_TURN + ticks % LOCAL_TURN) % LOCAL_TURN
}

pub fn local_of(clock: u64) -> u32
    ensures { result ≡ local_of clock }
{
    (clock % LOCAL_TURN) as u32
}

pub fn epam_of(clock: u64) -> u8
    ensures { result ≡ epam_of clock }
{
    (clock % EPAM_TURN as u64) as u8
}

#[tactic(auto, unfolding(crate::specs::Stamping::captured_at))]
pub fn captured(clock: u64, trip: u64) -> Stamps
    ensures { result ≡ captured_at clock trip }
{
    Stamps {
        rx: clock % CLOCK_TURN,
        tx: clock_after(clock, trip),
    }
}

// One wrapping subtraction stands for the source's loop: both stop at the same place.
pub fn raise(time: u32, stamps: Stamps) -> u32
    ensures value { result ≡ raise_of time stamps.tx }
    ensures stops { Stops time stamps result }
{
    std::num::wrapping_sub_u32(time, local_of(stamps.tx))
}

#[tactic(auto, unfolding(crate::specs::Stamping::moved_by))]
pub fn moved(stamps: Stamps, ticks: u64) -> Stamps
    ensures { result ≡ moved_by ticks stamps }
{
    Stamps {
        rx: clock_after(stamps.rx, ticks),
        tx: clock_after(stamps.tx, ticks),
    }
}

// The clocks that a unit with that LocalTime takes from the stamps: what the source's loop leaves of them.
pub fn raised(time: u32, stamps: Stamps) -> Stamps
    ensures value { result ≡ raised_to time stamps }
    ensures left { Leaves time stamps result }
{
    moved(stamps, raise(time, stamps) as u64)
}
