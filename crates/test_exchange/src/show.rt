// What a row shows: the number of the last call, what it handed over, and how it left the end.
use crate::play::{Play, Side};
use crate::{named, play, values};
use ends::{Channels, Onu, OnuKeys, Slots, UnitKeys, UnitRecord};
use group_protocol::{GroupRecord, Joined, Members};
use protocol::Header;
use std::fmt::{Display, Formatter};
use std::{fmt, io, iter};

// Octets, two digits each.
#[derive(Clone, Copy)]
struct Hex<'a>(&'a [u8]);

impl Display for Hex<'_> {
    fn fmt<W: fmt::Write>(&self, f: &mut Formatter<W>) -> fmt::Result {
        for x in self.0 {
            write!(f, "{x:02x}")?;
        }
        Ok(())
    }
}

fn slots(rt: &impl Print, s: Slots) -> io::Result<()> {
    print!(rt; ", {} {}", Hex(&s.even), Hex(&s.odd))
}

// The key that a unit has in use at both ends.
fn keys(rt: &impl Print, u: &UnitRecord, o: &Onu) -> io::Result<()> {
    let UnitKeys { active, slots, .. } = u.keys;
    let own = o.keys;
    print!(rt;
        ", A {active}, C {}, a {}",
        u.confirmation.confirmed, own.active
    )?;
    let key = ends::keyslots::key_in(slots, active);
    let own_key = ends::keyslots::key_in(own.slots, own.active);
    print!(rt; ", key {} {}", Hex(&key), Hex(&own_key))
}

fn record(rt: &impl Print, u: &UnitRecord, free: Channels) -> io::Result<()> {
    let k = u.keys;
    let c = u.confirmation;
    print!(rt;
        ", A {} C {} O {}, acknowledged {}",
        k.active, c.confirmed, k.offered, c.acknowledged
    )?;
    print!(rt;
        ", flag {}, first {} {}",
        k.timer.flag, k.first.noted, k.first.at
    )?;
    print!(rt; ", free {} {}", free.zero, free.one)
}

fn unit(rt: &impl Print, o: &Onu) -> io::Result<()> {
    print!(rt; ", a {} held {}", o.keys.active, o.keys.held)?;
    print!(rt;
        ", first {} {}",
        o.first.noted,
        values::first_travel(o.first)
    )?;
    print!(rt; ", free {} {}", o.channels.zero, o.channels.one)
}

fn header(rt: &impl Print, h: Header) -> io::Result<()> {
    let Header {
        channel,
        llid,
        encenabled,
        enckey,
        epam,
    } = h;
    print!(rt; ", header {channel:02x} {llid:04x} {encenabled} {enckey} {epam:02x}")
}

fn stamps(rt: &impl Print, rx: u64, tx: u64) -> io::Result<()> {
    print!(rt; ", Rx {rx:012x}, Tx {tx:012x}")
}

// The first n octets as numbers; past the last a line end's.
fn list(rt: &impl Print, s: &[u8], n: u8) -> io::Result<()> {
    for x in s.iter().chain(iter::repeat(&b'\n')).take(n as usize) {
        print!(rt; " {x}")?;
    }
    Ok(())
}

fn members(rt: &impl Print, m: &Members) -> io::Result<()> {
    print!(rt; ", members")?;
    list(rt, &m.places, m.count)?;
    print!(rt; ", marks")?;
    list(rt, &m.marks, m.count)
}

// A group at the OLT.
fn group(rt: &impl Print, g: &GroupRecord, free: Channels) -> io::Result<()> {
    let k = g.keys;
    print!(rt; ", LLID {} A {} O {}", g.llid, k.active, k.offered)?;
    print!(rt;
        ", flag {}, first {} {}",
        k.timer.flag, k.first.noted, k.first.at
    )?;
    print!(rt; ", free {} {}", free.zero, free.one)?;
    members(rt, &g.members)
}

// A group that a unit joined.
fn joined(rt: &impl Print, j: &Joined) -> io::Result<()> {
    let OnuKeys { active, held, .. } = j.keys;
    print!(rt; ", LLID {} a {active} kept {} held {held}", j.llid, j.kept)
}

fn spoken_group(rt: &impl Print, p: &Play) -> io::Result<()> {
    match p.aim.side {
        Side::Olt => group(
            rt,
            &p.head.groups.table[p.aim.group % 16],
            p.head.olt.shared.channels,
        ),
        Side::One => joined(rt, &p.one.memberships.table[p.aim.group % 4]),
        Side::Two => joined(rt, &p.two.memberships.table[p.aim.group % 4]),
    }
}

fn group_slots(rt: &impl Print, p: &Play) -> io::Result<()> {
    let s = match p.aim.side {
        Side::Olt => p.head.groups.table[p.aim.group % 16].keys.slots,
        Side::One => p.one.memberships.table[p.aim.group % 4].keys.slots,
        Side::Two => p.two.memberships.table[p.aim.group % 4].keys.slots,
    };
    slots(rt, s)
}

fn output(rt: &impl Print, p: &Play) -> io::Result<()> {
    let passed = &p.passed.octets[..p.aim.room % 37];
    print!(rt; ", count {}, output {}", p.count, Hex(passed))
}

pub(crate) fn number(rt: &impl Print, number: u8) -> io::Result<()> {
    print!(rt; ": {number}")
}

// After an advance of all ends.
fn all_ends(rt: &impl Print, p: &Play) -> io::Result<()> {
    let shared = p.head.olt.shared;
    print!(rt;
        " {} {}, tick {}, clock {:012x}",
        p.first, p.second, shared.tick, shared.clock
    )
}

// The OLT's clock beside those of unit 1.
fn clocks(rt: &impl Print, p: &Play) -> io::Result<()> {
    let clock = p.one.onu.clock;
    print!(rt;
        ", OLT clock {}, Tx {}, Rx {}",
        p.head.olt.shared.clock, clock.time, clock.rx
    )
}

fn state(rt: &impl Print, p: &Play, u: &UnitRecord) -> io::Result<()> {
    match p.aim.side {
        Side::Olt => record(rt, u, p.head.olt.shared.channels),
        Side::One => unit(rt, &p.one.onu),
        Side::Two => unit(rt, &p.two.onu),
    }
}

// The stamps of the OLT's clock message, or the clocks of a unit.
fn stamps_at_end(rt: &impl Print, p: &Play) -> io::Result<()> {
    if p.aim.side == Side::Olt {
        return stamps(rt, p.stamps.rx, p.stamps.tx);
    }
    let clock = play::unit(p).onu.clock;
    stamps(rt, clock.rx, clock.time)
}

fn slots_at_end(rt: &impl Print, p: &Play, u: &UnitRecord) -> io::Result<()> {
    if p.aim.side == Side::Olt {
        return slots(rt, u.keys.slots);
    }
    slots(rt, play::unit(p).onu.keys.slots)
}

// What a word after the colon stands for; where it is none of these, a value by its name.
pub(crate) fn show(rt: &impl Print, p: &Play, word: &[u8]) -> io::Result<()> {
    let u = &p.head.olt.units[p.aim.place % 16];
    match word {
        b"sent" => {
            header(rt, p.passed.header)?;
            output(rt, p)?;
            state(rt, p, u)
        }
        b"received" => {
            output(rt, p)?;
            state(rt, p, u)
        }
        b"state" => state(rt, p, u),
        b"stamps" => stamps_at_end(rt, p),
        b"slots" => slots_at_end(rt, p, u),
        b"message" => {
            let [octet, ..] = p.message.key;
            print!(rt;
                ", LLID {}, number {}, octet {octet}",
                p.message.llid, p.message.number
            )
        }
        b"answer" => {
            let a = p.acknowledgement;
            print!(rt; ", kind {}, number {}", a.kind, a.number)
        }
        b"ends" => all_ends(rt, p),
        b"keys" => keys(
            rt,
            u,
            if p.aim.place == 1 {
                &p.two.onu
            } else {
                &p.one.onu
            },
        ),
        b"clocks" => clocks(rt, p),
        b"group" => spoken_group(rt, p),
        b"group_slots" => group_slots(rt, p),
        b"passed" => output(rt, p),
        b"named" => {
            let a = p.acknowledgement;
            print!(rt; ", named {}, unit {}", a.named, a.unit)
        }
        _ => named::show(rt, p, u, word),
    }
}
