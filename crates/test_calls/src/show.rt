// A line: the call, its code, and what it handed over.
use group_protocol::Answer;
use jazmotip::blocks::{BlockDirectory, BlockVerdict};
use protocol::{Header, KeyMessage};
use std::fmt::{Display, Formatter};
use std::{fmt, io};

// Octets, two digits each.
#[derive(Clone, Copy)]
pub(crate) struct Hex<'a>(pub &'a [u8]);

impl Display for Hex<'_> {
    fn fmt<W: fmt::Write>(&self, f: &mut Formatter<W>) -> fmt::Result {
        for x in self.0 {
            write!(f, "{x:02x}")?;
        }
        Ok(())
    }
}

pub(crate) fn begin(rt: &impl Print, call: &str, number: u8) -> io::Result<()> {
    print!(rt; "jazmotip_{call} {number}")
}

pub(crate) fn row(rt: &impl Print, call: &str, number: u8) -> io::Result<()> {
    println!(rt; "jazmotip_{call} {number}")
}

pub(crate) fn header(rt: &impl Print, h: Header) -> io::Result<()> {
    let Header {
        channel,
        llid,
        encenabled,
        enckey,
        epam,
    } = h;
    print!(rt; " {channel:02x} {llid:04x} {encenabled} {enckey} {epam:02x}")
}

// What an envelope or a payload became.
pub(crate) fn passed(rt: &impl Print, count: u64, s: &[u8]) -> io::Result<()> {
    println!(rt; " {count} {}", Hex(s))
}

// Of a call in the near way: the smallest and the largest difference, octets of signed numbers.
pub(crate) fn between(rt: &impl Print, smallest: u8, largest: u8) -> io::Result<()> {
    print!(rt; " {} {}", smallest.cast_signed(), largest.cast_signed())
}

// The pair of a call on a block stands after its code.
pub(crate) fn at_pair(rt: &impl Print, call: &str, number: u8, pair: u16) -> io::Result<()> {
    print!(rt; "jazmotip_{call} {number} {pair}")
}

pub(crate) fn directory(rt: &impl Print, call: &str, answer: BlockDirectory) -> io::Result<()> {
    at_pair(rt, call, answer.number, answer.pair)?;
    print!(rt; " {}", answer.records)
}

pub(crate) fn verdict(rt: &impl Print, call: &str, answer: BlockVerdict) -> io::Result<()> {
    at_pair(rt, call, answer.number, answer.pair)?;
    println!(rt;
        " {} {} {:012x}",
        answer.encenabled, answer.enckey, answer.clock
    )
}

// How long a listing is, and the listing on lines of its own.
pub(crate) fn listing(rt: &impl Print, call: &str, text: &[u8]) -> io::Result<()> {
    println!(rt; "jazmotip_{call} {}", text.len())?;
    rt.write_all(text)
}

pub(crate) fn stamps(rt: &impl Print, rx: u64, tx: u64) -> io::Result<()> {
    print!(rt; " {rx:012x} {tx:012x}")
}

pub(crate) fn key_message(rt: &impl Print, m: KeyMessage) -> io::Result<()> {
    println!(rt; " {} {} {}", m.llid, m.number, Hex(&m.key))
}

pub(crate) fn acknowledgement(rt: &impl Print, a: Answer) -> io::Result<()> {
    println!(rt; " {} {}", a.kind, a.number)
}

pub(crate) fn group_acknowledgement(rt: &impl Print, a: Answer) -> io::Result<()> {
    println!(rt; " {} {} {} {}", a.kind, a.named, a.unit, a.number)
}
