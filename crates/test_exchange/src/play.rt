// What the script plays on: an OLT and two units, what is under way, and what the last call gave.
ghost use Rattle.std.specs.Prelude.{◌≡◌, length};

use crate::script::Numbers;
use crate::values;
use clock::Stamps;
use group_protocol::{Answer, HeadEnd, Subscriber};
use jazmotip::at_olt::{jazmotip_olt_advance, jazmotip_olt_fresh};
use jazmotip::at_onu::{jazmotip_onu_advance, jazmotip_onu_fresh};
use protocol::{Header, KeyMessage};

#[derive(Clone, Copy)]
pub struct Envelope {
    pub header: Header,
    pub octets: [u8; 36],
}

// The end that the words speak of: the OLT, or the first or the second unit.
#[derive(Clone, Copy, PartialEq, Eq)]
pub enum Side {
    Olt,
    One,
    Two,
}

// What the words speak of: an end, the place of a unit's record in the OLT's table and that of a group in its end's. Of four EQs the first
// `length` octets are sent, and `room` octets are lent for the output.
#[derive(Clone, Copy)]
pub struct Aim {
    pub side: Side,
    pub place: usize,
    pub group: usize,
    pub eqs: [u8; 36],
    pub length: usize,
    pub room: usize,
}

// An envelope is under way in each of four places. `number` is that of the last call, `first` and `second` are the units' numbers of
// an advance of all ends, `passed` and `count` what the last send or receipt gave.
#[derive(Clone, Copy)]
pub struct Play {
    pub aim: Aim,
    pub number: u8,
    pub first: u8,
    pub second: u8,
    pub head: HeadEnd,
    pub one: Subscriber,
    pub two: Subscriber,
    pub stamps: Stamps,
    pub message: KeyMessage,
    pub acknowledgement: Answer,
    pub envelopes: [Envelope; 4],
    pub passed: Envelope,
    pub count: u64,
}

// Three EQs, and an output that fits.
fn usual(side: Side) -> Aim {
    Aim {
        side,
        place: 0,
        group: 0,
        eqs: values::payload(0x00, 0x81, 0x01),
        length: 27,
        room: 27,
    }
}

pub(crate) fn start() -> Play {
    let aim = usual(Side::Olt);
    let down = jazmotip_olt_fresh(values::OLT_MAC, 0);
    let up = jazmotip_onu_fresh(values::unit(), values::OLT_MAC, 0);
    let head = down.head;
    let unit = up.subscriber;
    let key = values::key(0);
    let octets = aim.eqs;
    let none = Envelope {
        header: Header {
            channel: 0,
            llid: 0,
            encenabled: 0,
            enckey: 0,
            epam: 0,
        },
        octets,
    };
    Play {
        aim,
        number: 0,
        first: 0,
        second: 0,
        head,
        one: unit,
        two: unit,
        stamps: Stamps { rx: 0, tx: 0 },
        message: KeyMessage {
            llid: 0,
            number: 0,
            key,
        },
        acknowledgement: Answer {
            kind: 0,
            named: 0,
            unit: 0,
            number: 0,
        },
        envelopes: [none; 4],
        passed: none,
        count: 0,
    }
}

// The unit that is spoken of.
pub(crate) fn unit(p: &Play) -> Subscriber {
    match p.aim.side {
        Side::Two => p.two,
        Side::Olt | Side::One => p.one,
    }
}

// An advance of all ends.
fn advance(p: &mut Play, n: u64) {
    p.number = jazmotip_olt_advance(&mut p.head, n);
    p.first = jazmotip_onu_advance(&mut p.one, n);
    p.second = jazmotip_onu_advance(&mut p.two, n);
}

// The words that say what the next ones speak of, and the advance of all ends; whether this is one of them. The first three speak of the usual
// payload again.
pub(crate) fn turn(p: &mut Play, word: &[u8], n: Numbers) -> bool {
    match word {
        b"olt" => p.aim = usual(Side::Olt),
        b"onu" => p.aim = usual(Side::One),
        b"onu2" => p.aim = usual(Side::Two),
        b"unit" => p.aim.place = (n.a % 16) as usize,
        b"lengths" => {
            p.aim.length = (n.a % 37) as usize;
            p.aim.room = (n.b % 37) as usize;
        }
        b"group" => p.aim.group = (n.a % 16) as usize,
        b"control" => p.aim.eqs = values::payload(n.a, n.b, n.c),
        b"all" => advance(p, n.a),
        _ => return false,
    }
    true
}

// The output that is lent.
pub(crate) fn lent() -> [u8; 36]
    ensures { 36 ≡ length result }
{
    [0xaa; 36]
}

// An envelope that is under way.
pub(crate) fn taken(p: &Play, n: Numbers) -> Envelope {
    p.envelopes[(n.a % 4) as usize]
}

// The payload that is spoken of, with a header of numbers.
pub(crate) fn spoken(p: &Play, n: Numbers) -> Envelope {
    let octets = p.aim.eqs;
    let header = values::header(n);
    Envelope { header, octets }
}

// What is sent is under way in the place that the third number says.
pub(crate) fn send(p: &mut Play, n: Numbers, sent: Envelope, count: u64) {
    p.envelopes[(n.c % 4) as usize] = sent;
    p.passed = sent;
    p.count = count;
}
