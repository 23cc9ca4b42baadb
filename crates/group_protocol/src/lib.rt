// Groups at both ends (02, C-14): their records. When these are valid, and what a call on one group does, is defined in specs/. An OLT with
// its groups is a head end, a unit with those that it joined a subscriber. A flag is a u8, 0 or 1. A place that is not in use holds zeros.
#![tactic(auto)]

use ends::{Olt, Onu, OnuKeys, UnitKeys};

// Members of a group.
pub const MAX_MEMBERS: u8 = 8;

// Places of the groups' table: units and groups together take no more.
pub const MAX_GROUPS: u8 = 16;

// Groups that a unit joins.
pub const MAX_JOINED: u8 = 4;

// The members of a group, by their places among the units, and a mark for each that acknowledged O.
#[repr(C)]
#[derive(Clone, Copy)]
pub struct Members {
    pub places: [u8; MAX_MEMBERS as usize],
    pub marks: [u8; MAX_MEMBERS as usize],
    pub count: u8,
}

// The OLT's record of a group: the key part of a unit's record, without its confirmation and clock.
#[repr(C)]
#[derive(Clone, Copy)]
pub struct GroupRecord {
    pub keys: UnitKeys,
    pub members: Members,
    pub llid: u16,
}

#[repr(C)]
#[derive(Clone, Copy)]
pub struct Groups {
    pub count: u8,
    pub table: [GroupRecord; MAX_GROUPS as usize],
}

// An OLT and its groups.
#[repr(C)]
#[derive(Clone, Copy)]
pub struct HeadEnd {
    pub olt: Olt,
    pub groups: Groups,
}

// The members that a registration names, each by an LLID of its unit.
#[repr(C)]
#[derive(Clone, Copy)]
pub struct Roster {
    pub llids: [u16; MAX_MEMBERS as usize],
    pub count: u8,
}

// A group that a unit joined: a, whether a + 1 is held, and whether a is.
#[repr(C)]
#[derive(Clone, Copy)]
pub struct Joined {
    pub keys: OnuKeys,
    pub kept: u8,
    pub llid: u16,
}

#[repr(C)]
#[derive(Clone, Copy)]
pub struct Memberships {
    pub count: u8,
    pub table: [Joined; MAX_JOINED as usize],
}

// A unit and the groups that it joined.
#[repr(C)]
#[derive(Clone, Copy)]
pub struct Subscriber {
    pub onu: Onu,
    pub memberships: Memberships,
}

// What a unit answers: for a group, also who it is, by an LLID of its own.
#[repr(C)]
#[derive(Clone, Copy)]
pub struct Answer {
    pub kind: u8,
    pub named: u8,
    pub unit: u16,
    pub number: u32,
}
