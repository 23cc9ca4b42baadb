// The limits that the ends keep to, as in specs/Limits.antt; those of the clock are in crate clock.
use clock::MAX_TICK;
use octets::{MAX_EQS, SIX_OCTETS};

// A MAC is below this.
pub const MAC_TURN: u64 = SIX_OCTETS;

// LLIDs of a unit.
pub const MAX_LLIDS: u8 = 4;

// Units of an OLT.
pub const MAX_UNITS: u8 = 16;

// Ticks of a timer's interval.
pub const MAX_INTERVAL: u64 = 0x8000_0000_0000;

pub const MAX_KEY_NUMBER: u32 = 0xffff_ffff;

// A change of a unit's LocalTime, either way.
pub const MAX_TIME_CHANGE: u64 = 1_000_000;

// What the changes of a unit's LocalTime add up to, either way.
pub const MAX_CHANGES: u64 = 0x2000_0000_0000_0000;

// The latest tick from which a channel can be free: that of a longest payload at the last tick.
pub const MAX_FREE: u64 = MAX_TICK + (MAX_EQS as u64 + 1);
