// The records of both ends (01, Clock and Keys). A flag is a u8, 0 or 1. A place that is not in use
// holds zeros: a unit's place past the count, an LLID's place past the count, the count of a first send that was not noted, the tick of
// a capture that was not made, Rx while unsynced, a key that is no longer in use.

#![tactic(auto)]

pub mod changes;
pub mod check_olt;
pub mod check_onu;
pub mod in_use;
pub mod keyslots;
pub mod limits;
pub mod llids;
pub mod search;
pub mod sends;

use crate::limits::{MAX_LLIDS, MAX_UNITS};

// The key timer of a unit.
#[repr(C)]
#[derive(Clone, Copy)]
pub struct Timer {
    pub interval: u64,
    pub count: u64,
    pub flag: u8,
}

// Two keys: number n is at index n mod 2.
#[repr(C)]
#[derive(Clone, Copy)]
pub struct Slots {
    pub even: [u8; 16],
    pub odd: [u8; 16],
}

// The first send under the key in use, by the end's own count: the OLT's tick, the travel of a unit's Tx clock.
#[repr(C)]
#[derive(Clone, Copy)]
pub struct FirstSend {
    pub noted: u8,
    pub at: u64,
}

// The tick from which each channel of an end is free.
#[repr(C)]
#[derive(Clone, Copy)]
pub struct Channels {
    pub zero: u64,
    pub one: u64,
}

// A unit's MAC and its 1 to 4 LLIDs.
#[repr(C)]
#[derive(Clone, Copy)]
pub struct Identity {
    pub mac: u64,
    pub llids: [u16; MAX_LLIDS as usize],
    pub count: u8,
}

// What the OLT sends to a unit under: A, O, their keys and C's.
#[repr(C)]
#[derive(Clone, Copy)]
pub struct UnitKeys {
    pub timer: Timer,
    pub active: u32,
    pub offered: u32,
    pub slots: Slots,
    pub first: FirstSend,
}

// What the unit has shown: C, and whether it acknowledged O.
#[repr(C)]
#[derive(Clone, Copy)]
pub struct Confirmation {
    pub confirmed: u32,
    pub acknowledged: u8,
}

// The OLT's side of the unit's clock. A capture's stamps are those of its tick: they are worked out where it is sent.
#[repr(C)]
#[derive(Clone, Copy)]
pub struct UnitClock {
    pub trip: u64,
    pub captured: u8,
    pub tick: u64,
    pub sent: u8,
    pub acknowledged: u8,
}

// The OLT's record of a unit.
#[repr(C)]
#[derive(Clone, Copy)]
pub struct UnitRecord {
    pub identity: Identity,
    pub keys: UnitKeys,
    pub confirmation: Confirmation,
    pub clock: UnitClock,
}

// What all units share at the OLT.
#[repr(C)]
#[derive(Clone, Copy)]
pub struct Shared {
    pub mac: u64,
    pub tick: u64,
    pub clock: u64,
    pub channels: Channels,
}

#[repr(C)]
#[derive(Clone, Copy)]
pub struct Olt {
    pub shared: Shared,
    pub count: u8,
    pub units: [UnitRecord; MAX_UNITS as usize],
}

// A unit's own keys: a, and whether a + 1 is held.
#[repr(C)]
#[derive(Clone, Copy)]
pub struct OnuKeys {
    pub active: u32,
    pub held: u8,
    pub slots: Slots,
}

// A unit's own clocks. `time` is LocalTime while unsynced, and Tx, whose low 32 bits are LocalTime, once synced.
#[repr(C)]
#[derive(Clone, Copy)]
pub struct OnuClock {
    pub synced: u8,
    pub time: u64,
    pub rx: u64,
}

// The travel of a unit's Tx clock (02, C-16): ticks and changes of LocalTime. `changes` is the sum of the signed changes, modulo 2^64; travel is
// counted from 2^61 below zero, so that it is no negative number. `spent` is past the end of every enciphered send, and `bar` is what `spent`
// was at the last change: till travel has come to it, no enciphered send goes.
#[repr(C)]
#[derive(Clone, Copy)]
pub struct Travel {
    pub changes: u64,
    pub spent: u64,
    pub bar: u64,
}

#[repr(C)]
#[derive(Clone, Copy)]
pub struct Onu {
    pub identity: Identity,
    pub oltmac: u64,
    pub tick: u64,
    pub clock: OnuClock,
    pub keys: OnuKeys,
    pub first: FirstSend,
    pub travel: Travel,
    pub channels: Channels,
}

// Whether an OLT is valid and, if so, where the unit stands that has an LLID.
#[derive(Clone, Copy)]
pub struct Judged {
    pub valid: bool,
    pub found: Option<usize>,
}
