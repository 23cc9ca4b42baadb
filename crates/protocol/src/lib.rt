// What crosses between the ends, what an envelope goes under, and what the calls of both ends answer (01, Clock; Keys). The definition of every
// call stands in specs/ (D110).
#![tactic(auto)]

pub mod ticks;

use clock::Stamps;
use ends::{Olt, Onu};
use refusal::Refusal;

// A key message. A clock message is a `clock::Stamps`.
#[repr(C)]
#[derive(Clone, Copy)]
pub struct KeyMessage {
    pub llid: u16,
    pub number: u32,
    pub key: [u8; 16],
}

// The kinds of acknowledgements: of a clock message, and of a key message. Numbers and no enum: C gives and reads an `Acknowledgement`, with
// any octet for its kind.
pub const CLOCK_KIND: u8 = 1;

pub const KEY_KIND: u8 = 2;

// What a unit answers: its kind, with the key's number to a key message. Kind 0 is none.
#[repr(C)]
#[derive(Clone, Copy)]
pub struct Acknowledgement {
    pub kind: u8,
    pub number: u32,
}

// An envelope's header, start or continuation; `channel` is the channel index.
#[repr(C)]
#[derive(Clone, Copy)]
pub struct Header {
    pub channel: u8,
    pub llid: u16,
    pub encenabled: u8,
    pub enckey: u8,
    pub epam: u8,
}

// Under which key an envelope goes (D111).
#[derive(Clone, Copy)]
pub enum KeyChoice {
    // none
    Clear,
    // the key in use
    Current(u32),
    // the key that this envelope brings into use
    Next(u32),
    // it does not go
    Barred(Refusal),
}

// What an envelope is sealed or opened with, beside its channel index.
#[derive(Clone, Copy)]
pub struct Passage {
    pub choice: KeyChoice,
    pub key: [u8; 16],
    pub mac: u64,
    pub clock: u64,
}

// What a send decides: the header, and what the payload is sealed with.
#[derive(Clone, Copy)]
pub struct Sending {
    pub header: Header,
    pub passage: Passage,
}

#[repr(C)]
#[derive(Clone, Copy)]
pub struct OltAnswer {
    pub number: u8,
    pub olt: Olt,
}

#[repr(C)]
#[derive(Clone, Copy)]
pub struct ClockSent {
    pub number: u8,
    pub olt: Olt,
    pub message: Stamps,
}

#[repr(C)]
#[derive(Clone, Copy)]
pub struct KeySent {
    pub number: u8,
    pub olt: Olt,
    pub message: KeyMessage,
}

#[repr(C)]
#[derive(Clone, Copy)]
pub struct OnuAnswer {
    pub number: u8,
    pub onu: Onu,
}

#[repr(C)]
#[derive(Clone, Copy)]
pub struct OnuAcknowledged {
    pub number: u8,
    pub onu: Onu,
    pub acknowledgement: Acknowledgement,
}
