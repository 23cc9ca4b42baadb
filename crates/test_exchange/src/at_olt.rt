// Words at the OLT: the ends that rows start from, fields, and calls.
use crate::play::{Envelope, Play};
use crate::script::Numbers;
use crate::{play, script, values};
use ends::{Identity, UnitKeys, UnitRecord};
use group_protocol::{GroupRecord, HeadEnd};
use headend::HeadAnswer;
use jazmotip::at_olt::{
    jazmotip_olt_acknowledge, jazmotip_olt_advance, jazmotip_olt_capture, jazmotip_olt_clock_send,
    jazmotip_olt_fresh, jazmotip_olt_measure, jazmotip_olt_offer, jazmotip_olt_receive,
    jazmotip_olt_register, jazmotip_olt_register_group, jazmotip_olt_retry, jazmotip_olt_send,
};

// Clock 0, and a unit with LLIDs 5 and 6 and round trip 250.
fn one(interval: u64) -> HeadAnswer {
    let fresh = jazmotip_olt_fresh(values::OLT_MAC, 0);
    jazmotip_olt_register(fresh.head, values::unit(), 250, interval)
}

// At A and O. Key A has the first octet 17, that of the other slot is `other`.
fn set_keys(keys: &mut UnitKeys, active: u32, offered: u32, other: u64) {
    keys.active = active;
    keys.offered = offered;
    keys.slots = values::slots(active, other);
}

// At C, A and O, its clock sent and acknowledged.
fn set_numbers(unit: &mut UnitRecord, confirmed: u32, active: u32, offered: u32, other: u64) {
    set_keys(&mut unit.keys, active, offered, other);
    unit.confirmation.confirmed = confirmed;
    unit.clock.sent = 1;
    unit.clock.acknowledged = 1;
}

// Tick 100, clock 65, and that unit at C, A and O with interval 1000.
fn keyed(confirmed: u32, active: u32, offered: u32, other: u64) -> HeadAnswer {
    let start = one(1000);
    let mut head = start.head;
    set_numbers(&mut head.olt.units[0], confirmed, active, offered, other);
    head.olt.shared.tick = 100;
    head.olt.shared.clock = 65;
    HeadAnswer { number: 0, head }
}

// The OLT of `keyed`, a second unit with LLID 7 whose clock is acknowledged too, and a group of both with LLID 9 and interval 1000 at A and O.
fn viewers(active: u32, offered: u32, other: u64) -> HeadAnswer {
    let identity = Identity {
        mac: 0x0200_0000_0003,
        llids: [7, 0, 0, 0],
        count: 1,
    };
    let two = jazmotip_olt_register(keyed(0, 0, 0, 0).head, identity, 0, 1000);
    let mut units = two.head;
    set_numbers(&mut units.olt.units[1], 0, 0, 0, 0);
    let roster = values::roster(2, 6, 7, 0);
    let grouped = jazmotip_olt_register_group(units, 9, 1000, roster);
    let mut head = grouped.head;
    set_keys(&mut head.groups.table[0].keys, active, offered, other);
    HeadAnswer {
        number: grouped.number,
        head,
    }
}

// Sixteen units of four LLIDs, 0 to 63, with interval 100.
fn full() -> HeadAnswer {
    let mut answer = jazmotip_olt_fresh(values::OLT_MAC, 0);
    for n in 0..16 {
        let llid = n * 4;
        let identity = Identity {
            mac: 3,
            llids: [llid, llid + 1, llid + 2, llid + 3],
            count: 4,
        };
        answer = jazmotip_olt_register(answer.head, identity, 0, 100);
    }
    answer
}

// `viewers` starts from two units and a group of both, LLID 9, at A and O.
fn start(word: &[u8], n: Numbers) -> Option<HeadAnswer> {
    match word {
        b"one" => Some(one(n.a)),
        b"keyed" => Some(keyed(
            script::u32_of(n.a),
            script::u32_of(n.b),
            script::u32_of(n.c),
            n.d,
        )),
        b"full" => Some(full()),
        b"viewers" => Some(viewers(script::u32_of(n.a), script::u32_of(n.b), n.c)),
        _ => None,
    }
}

// `register_group` takes LLID, interval, how many members, and three LLIDs that name them; each one after is four higher than the one
// before. `acknowledge` gives any acknowledgement, `arrive` the one under way. `measure` takes LLID and round trip.
fn call(p: &Play, word: &[u8], n: Numbers) -> Option<HeadAnswer> {
    let head = p.head;
    let llid = script::u16_of(n.a);
    match word {
        b"fresh" => Some(jazmotip_olt_fresh(n.a, n.b)),
        b"register" => Some(jazmotip_olt_register(head, values::identity(n), n.e, n.f)),
        b"capture" => Some(jazmotip_olt_capture(head, llid)),
        b"acknowledge" => Some(jazmotip_olt_acknowledge(head, llid, values::acknowledgement(n))),
        b"arrive" => Some(jazmotip_olt_acknowledge(head, llid, p.acknowledgement)),
        b"register_group" => Some(jazmotip_olt_register_group(
            head,
            llid,
            n.b,
            values::roster(n.c, n.d, n.e, n.f),
        )),
        b"measure" => Some(jazmotip_olt_measure(head, llid, n.b)),
        _ => None,
    }
}

fn set_shared_field(head: &mut HeadEnd, word: &[u8], value: u64) -> bool {
    let shared = &mut head.olt.shared;
    match word {
        b"mac" => shared.mac = value,
        b"tick" => shared.tick = value,
        b"clock" => shared.clock = value,
        b"channel0" => shared.channels.zero = value,
        b"channel1" => shared.channels.one = value,
        b"units" => head.olt.count = script::u8_of(value),
        b"groups" => head.groups.count = script::u8_of(value),
        _ => return false,
    }
    true
}

// `marked` is the mark that the offer is acknowledged, `sent` and `clocked` that the clock is sent and acknowledged.
fn set_unit_field(unit: &mut UnitRecord, word: &[u8], n: Numbers) -> bool {
    let value = n.a;
    let low = script::u8_of(value);
    match word {
        b"interval" => unit.keys.timer.interval = value,
        b"count" => unit.keys.timer.count = value,
        b"flag" => unit.keys.timer.flag = low,
        b"noted" => unit.keys.first.noted = low,
        b"first" => unit.keys.first.at = value,
        b"marked" => unit.confirmation.acknowledged = low,
        b"trip" => unit.clock.trip = value,
        b"captured" => unit.clock.captured = low,
        b"captured_at" => unit.clock.tick = value,
        b"sent" => unit.clock.sent = low,
        b"clocked" => unit.clock.acknowledged = low,
        b"identity" => unit.identity = values::identity(n),
        _ => return false,
    }
    true
}

// `member` and `group_mark` take a place and a value: the place of a member's unit, or a member's mark.
fn set_group_field(group: &mut GroupRecord, word: &[u8], n: Numbers) -> bool {
    let value = n.a;
    let low = script::u8_of(value);
    let place = (value % 8) as usize;
    match word {
        b"group_llid" => group.llid = script::u16_of(value),
        b"group_interval" => group.keys.timer.interval = value,
        b"group_count" => group.keys.timer.count = value,
        b"group_flag" => group.keys.timer.flag = low,
        b"group_noted" => group.keys.first.noted = low,
        b"group_first" => group.keys.first.at = value,
        b"group_active" => group.keys.active = script::u32_of(value),
        b"group_offered" => group.keys.offered = script::u32_of(value),
        b"members" => group.members.count = low,
        b"member" => group.members.places[place] = script::u8_of(n.b),
        b"group_mark" => group.members.marks[place] = script::u8_of(n.b),
        _ => return false,
    }
    true
}

fn set_field(p: &mut Play, word: &[u8], n: Numbers) -> bool {
    let place = p.aim.place % 16;
    let group = p.aim.group % 16;
    set_shared_field(&mut p.head, word, n.a)
        || set_unit_field(&mut p.head.olt.units[place], word, n)
        || set_group_field(&mut p.head.groups.table[group], word, n)
}

fn send_clock(p: &mut Play, llid: u16) -> u8 {
    let sent = jazmotip_olt_clock_send(p.head, llid);
    p.head = sent.head;
    p.stamps = sent.message;
    sent.number
}

fn offer(p: &mut Play, llid: u16, first: u64) -> u8 {
    let key = values::key(first);
    let sent = jazmotip_olt_offer(p.head, llid, &key);
    p.head = sent.head;
    p.message = sent.message;
    sent.number
}

fn retry(p: &mut Play, llid: u16) -> u8 {
    let sent = jazmotip_olt_retry(p.head, llid);
    p.head = sent.head;
    p.message = sent.message;
    sent.number
}

// LLID and channel index.
fn send(p: &mut Play, n: Numbers) -> u8 {
    let mut octets = play::lent();
    let sent = jazmotip_olt_send(
        p.head,
        script::u16_of(n.a),
        script::u8_of(n.b),
        &p.aim.eqs[..p.aim.length % 37],
        &mut octets[..p.aim.room % 37],
    );
    p.head = sent.head;
    let header = sent.header;
    play::send(p, n, Envelope { header, octets }, sent.count);
    sent.number
}

fn receive(p: &mut Play, envelope: Envelope) -> u8 {
    let mut octets = play::lent();
    let header = envelope.header;
    let received = jazmotip_olt_receive(
        p.head,
        header,
        &envelope.octets[..p.aim.length % 37],
        &mut octets[..p.aim.room % 37],
    );
    p.head = received.head;
    p.count = received.count;
    p.passed = Envelope { header, octets };
    received.number
}

// The number of a word's call, none of a word that is unknown. `receive` gives a header with the payload that is spoken of, `take` an envelope
// that is under way. `timer` makes the flag of the timer the row's number.
pub(crate) fn command(p: &mut Play, word: &[u8], n: Numbers) -> Option<u8> {
    if let Some(answer) = call(p, word, n).or(start(word, n)) {
        p.head = answer.head;
        return Some(answer.number);
    }
    if set_field(p, word, n) {
        return Some(0);
    }
    let llid = script::u16_of(n.a);
    match word {
        b"advance" => Some(jazmotip_olt_advance(&mut p.head, n.a)),
        b"timer" => Some(p.head.olt.units[0].keys.timer.flag),
        b"clock_send" => Some(send_clock(p, llid)),
        b"offer" => Some(offer(p, llid, n.b)),
        b"retry" => Some(retry(p, llid)),
        b"send" => Some(send(p, n)),
        b"receive" => Some(receive(p, play::spoken(p, n))),
        b"take" => Some(receive(p, play::taken(p, n))),
        _ => None,
    }
}
