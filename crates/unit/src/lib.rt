// What the OLT does on the record of one unit, and what both ends do alike with header, key choice and channel (01, Clock; Keys).
// Each call takes the verdict on the way to the unit; refused there or by the unit, the unit is the one that was there, and what is
// handed over is zeros.
#![tactic(auto)]

pub mod calls;
pub mod passing;
mod ticks;
pub mod timing;
pub mod unit_traffic;

ghost use Rattle.std.specs.Prelude.{◌≡◌, Err};

use ends::Channels;
use protocol::Sending;
use refusal::{Refusal, Verdict};

// What a call on a record decides: its verdict, the record after it, and what is handed over, `()` where that is nothing.
#[derive(Clone, Copy)]
pub struct Decided<S, T> {
    pub verdict: Verdict,
    pub after: S,
    pub handed: T,
}

impl<S, T> Decided<S, T> {
    // Refused, the record is the one that was there. Capture, measure and receive write the same out: made here, the record is copied once more,
    // and the OLT behind it (D120).
    pub fn refused(refusal: Refusal, before: S, nothing: T) -> Decided<S, T>
        ensures { result ≡ record { verdict = Err refusal; after = before; handed = nothing } }
    {
        Decided {
            verdict: Err(refusal),
            after: before,
            handed: nothing,
        }
    }
}

// What a send changes of the unit's keys (the timer's flag, the key in use, its first send), and not the whole unit.
#[derive(Clone, Copy)]
pub struct UnitSent {
    pub verdict: Verdict,
    pub flag: u8,
    pub active: u32,
    pub noted: u8,
    pub at: u64,
    pub channels: Channels,
    pub sending: Sending,
}
