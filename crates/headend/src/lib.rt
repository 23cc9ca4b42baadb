// The calls of an OLT with its groups, a head end (02, C-14). A call that names a group's LLID is made on the group, any other on the OLT as 01
// has it. Each takes the end by value and gives back the code, the end and what is handed over; refused, the end and the output are those that
// were lent.

#![tactic(auto)]

mod answers;
pub mod at_head;
mod head_place;
pub mod head_traffic;
mod registering;

use clock::Stamps;
use ends::Olt;
use group_protocol::{Groups, HeadEnd};
use protocol::{Header, KeyMessage};

#[repr(C)]
#[derive(Clone, Copy)]
pub struct HeadAnswer {
    pub number: u8,
    pub head: HeadEnd,
}

// What an advance in place leaves with whoever lent a copy of its own.
#[derive(Clone, Copy)]
pub struct HeadMoved {
    pub head: HeadEnd,
    pub number: u8,
}

// The two parts of an end, each with a number of it behind, which the exported call stores again: so a part that was changed is handed on where it
// lies (D119). `mac` is the OLT's own, `count` the number of groups.
#[derive(Clone, Copy)]
pub struct Parts {
    pub olt: Olt,
    pub mac: u64,
    pub groups: Groups,
    pub count: u8,
}

// What a call leaves, and what it hands over: the stamps of clock send, the message of offer and retry, `()` where that is nothing.
#[derive(Clone, Copy)]
pub struct HeadDone<T> {
    pub parts: Parts,
    pub handed: T,
    pub number: u8,
}

// The answer of send.
#[derive(Clone, Copy)]
pub struct HeadSendDone {
    pub parts: Parts,
    pub header: Header,
    pub count: u64,
    pub runs: u64,
    pub number: u8,
}

// That of receive.
#[derive(Clone, Copy)]
pub struct HeadReceiptDone {
    pub parts: Parts,
    pub count: u64,
    pub runs: u64,
    pub number: u8,
}

#[repr(C)]
#[derive(Clone, Copy)]
pub struct HeadClockSent {
    pub number: u8,
    pub head: HeadEnd,
    pub message: Stamps,
}

#[repr(C)]
#[derive(Clone, Copy)]
pub struct HeadKeySent {
    pub number: u8,
    pub head: HeadEnd,
    pub message: KeyMessage,
}

#[repr(C)]
#[derive(Clone, Copy)]
pub struct HeadSent {
    pub number: u8,
    pub head: HeadEnd,
    pub header: Header,
    pub count: u64,
    pub runs: u64,
}

#[repr(C)]
#[derive(Clone, Copy)]
pub struct HeadReceived {
    pub number: u8,
    pub head: HeadEnd,
    pub count: u64,
    pub runs: u64,
}
