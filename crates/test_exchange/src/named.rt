// Values that a row shows by name.
use crate::play::{Play, Side};
use clock::Stamps;
use ends::UnitRecord;
use group_protocol::{HeadEnd, Subscriber};
use std::io;

// A name of a unit's values shows a value of the OLT too, and a name that is unknown the clock message's Rx.
fn at_olt(h: &HeadEnd, u: &UnitRecord, sent: Stamps, name: &[u8]) -> u64 {
    let shared = &h.olt.shared;
    match name {
        b"clock" | b"LLIDs" => shared.clock,
        b"units" | b"held" => h.olt.count as u64,
        b"count" | b"LocalTime" => u.keys.timer.count,
        b"flag" | b"kind" => u.keys.timer.flag as u64,
        b"acknowledged" | b"changes" => u.confirmation.acknowledged as u64,
        b"MAC" | b"spent" => shared.mac,
        b"tick" | b"bar" => shared.tick,
        b"Tx" => sent.tx,
        b"groups" => h.groups.count as u64,
        _ => sent.rx,
    }
}

// A name of the OLT's values shows a value of the unit too, and a name that is unknown its MAC.
fn at_onu(s: &Subscriber, kind: u8, name: &[u8]) -> u64 {
    let o = &s.onu;
    match name {
        b"tick" | b"count" => o.tick,
        b"Rx" | b"flag" => o.clock.rx,
        b"Tx" | b"LocalTime" | b"acknowledged" => o.clock.time,
        b"groups" => s.memberships.count as u64,
        b"LLIDs" => o.identity.count as u64,
        b"held" => o.keys.held as u64,
        b"kind" => kind as u64,
        b"changes" => o.travel.changes,
        b"spent" => o.travel.spent,
        b"bar" | b"clock" => o.travel.bar,
        _ => o.identity.mac,
    }
}

fn is_name(word: &[u8]) -> bool {
    matches!(
        word,
        b"clock"
            | b"units"
            | b"count"
            | b"flag"
            | b"acknowledged"
            | b"MAC"
            | b"tick"
            | b"Rx"
            | b"Tx"
            | b"groups"
            | b"LLIDs"
            | b"held"
            | b"LocalTime"
            | b"kind"
            | b"changes"
            | b"spent"
            | b"bar"
    )
}

pub(crate) fn show(rt: &impl Print, p: &Play, u: &UnitRecord, name: &[u8]) -> io::Result<()> {
    if !is_name(name) {
        print!(rt; "?")?;
    }
    print!(rt; ", ")?;
    rt.write_all(name)?;
    let kind = p.acknowledgement.kind;
    let value = match p.aim.side {
        Side::Olt => at_olt(&p.head, u, p.stamps, name),
        Side::One => at_onu(&p.one, kind, name),
        Side::Two => at_onu(&p.two, kind, name),
    };
    print!(rt; " {value}")
}
