// Words at a unit: the ends that rows start from, fields, and calls.
use crate::play::{Envelope, Play, Side};
use crate::script::Numbers;
use crate::{play, script, values};
use clock::Stamps;
use ends::{Onu, OnuKeys};
use group_protocol::{Joined, Subscriber};
use jazmotip::at_onu::{
    jazmotip_onu_advance, jazmotip_onu_clock_message, jazmotip_onu_fresh, jazmotip_onu_join,
    jazmotip_onu_key_message, jazmotip_onu_new_time, jazmotip_onu_receive, jazmotip_onu_send,
};
use subscriber::{SubscriberAcknowledged, SubscriberAnswer};

// Key a is `active`, and a + 1 is held or not; tick 100, Tx 2^32 + 65, Rx 250 less.
fn keyed(active: u32, held: u8, other: u64) -> SubscriberAnswer {
    let fresh = jazmotip_onu_fresh(values::unit(), values::OLT_MAC, 65);
    let mut subscriber = fresh.subscriber;
    subscriber.onu.tick = 100;
    subscriber.onu.clock.synced = 1;
    subscriber.onu.clock.time = 0x1_0000_0041;
    subscriber.onu.clock.rx = 0xffff_ff47;
    subscriber.onu.keys = OnuKeys {
        active,
        held,
        slots: values::slots(active, other),
    };
    SubscriberAnswer {
        number: 0,
        subscriber,
    }
}

fn call(unit: Subscriber, word: &[u8], n: Numbers) -> Option<SubscriberAnswer> {
    match word {
        b"fresh" => Some(jazmotip_onu_fresh(values::identity(n), n.e, n.f)),
        b"keyed" => Some(keyed(script::u32_of(n.a), script::u8_of(n.b), n.c)),
        b"join" => Some(jazmotip_onu_join(unit, script::u16_of(n.a))),
        b"new_time" => Some(jazmotip_onu_new_time(unit, n.a)),
        _ => None,
    }
}

// `clock_arrives` and `key_arrives` are the messages that are under way.
fn take_message(
    p: &Play,
    unit: Subscriber,
    word: &[u8],
    n: Numbers,
) -> Option<SubscriberAcknowledged> {
    match word {
        b"clock_message" => Some(jazmotip_onu_clock_message(unit, Stamps { rx: n.a, tx: n.b })),
        b"clock_arrives" => Some(jazmotip_onu_clock_message(unit, p.stamps)),
        b"key_message" => Some(jazmotip_onu_key_message(unit, values::key_message(n))),
        b"key_arrives" => Some(jazmotip_onu_key_message(unit, p.message)),
        _ => None,
    }
}

// `changes`, `spent` and `bar` set the fields of travel, `first` and these last two by travel from zero.
fn set_unit_field(onu: &mut Onu, word: &[u8], n: Numbers) -> bool {
    let value = n.a;
    let low = script::u8_of(value);
    let travel = values::travelled(value);
    match word {
        b"tick" => onu.tick = value,
        b"channel0" => onu.channels.zero = value,
        b"channel1" => onu.channels.one = value,
        b"noted" => onu.first.noted = low,
        b"first" => onu.first.at = travel,
        b"synced" => onu.clock.synced = low,
        b"time" => onu.clock.time = value,
        b"rx" => onu.clock.rx = value,
        b"olt_mac" => onu.oltmac = value,
        b"identity" => onu.identity = values::identity(n),
        b"changes" => onu.travel.changes = value,
        b"spent" => onu.travel.spent = travel,
        b"bar" => onu.travel.bar = travel,
        _ => return false,
    }
    true
}

fn set_joined_field(joined: &mut Joined, word: &[u8], value: u64) -> bool {
    let low = script::u8_of(value);
    match word {
        b"joined_llid" => joined.llid = script::u16_of(value),
        b"joined_active" => joined.keys.active = script::u32_of(value),
        b"joined_held" => joined.keys.held = low,
        b"joined_kept" => joined.kept = low,
        _ => return false,
    }
    true
}

fn set_field(unit: &mut Subscriber, place: usize, word: &[u8], n: Numbers) -> bool {
    if matches!(word, b"groups") {
        unit.memberships.count = script::u8_of(n.a);
        return true;
    }
    set_unit_field(&mut unit.onu, word, n)
        || set_joined_field(&mut unit.memberships.table[place % 4], word, n.a)
}

// LLID and channel index.
fn send(p: &mut Play, unit: &mut Subscriber, n: Numbers) -> u8 {
    let mut octets = play::lent();
    let sent = jazmotip_onu_send(
        *unit,
        script::u16_of(n.a),
        script::u8_of(n.b),
        &p.aim.eqs[..p.aim.length % 37],
        &mut octets[..p.aim.room % 37],
    );
    *unit = sent.subscriber;
    let header = sent.header;
    play::send(p, n, Envelope { header, octets }, sent.count);
    sent.number
}

fn receive(p: &mut Play, unit: &mut Subscriber, envelope: Envelope) -> u8 {
    let mut octets = play::lent();
    let header = envelope.header;
    let received = jazmotip_onu_receive(
        *unit,
        header,
        &envelope.octets[..p.aim.length % 37],
        &mut octets[..p.aim.room % 37],
    );
    *unit = received.subscriber;
    p.count = received.count;
    p.passed = Envelope { header, octets };
    received.number
}

fn command_at(p: &mut Play, unit: &mut Subscriber, word: &[u8], n: Numbers) -> Option<u8> {
    if let Some(answer) = call(*unit, word, n) {
        *unit = answer.subscriber;
        return Some(answer.number);
    }
    if let Some(taken) = take_message(p, *unit, word, n) {
        *unit = taken.subscriber;
        p.acknowledgement = taken.answer;
        return Some(taken.number);
    }
    if set_field(unit, p.aim.group, word, n) {
        return Some(0);
    }
    match word {
        b"advance" => Some(jazmotip_onu_advance(unit, n.a)),
        b"send" => Some(send(p, unit, n)),
        b"receive" => Some(receive(p, unit, play::spoken(p, n))),
        b"take" => Some(receive(p, unit, play::taken(p, n))),
        _ => None,
    }
}

// The number of a word's call, none of a word that is unknown.
pub(crate) fn command(p: &mut Play, word: &[u8], n: Numbers) -> Option<u8> {
    let mut unit = play::unit(p);
    let number = command_at(p, &mut unit, word, n);
    match p.aim.side {
        Side::Two => p.two = unit,
        Side::Olt | Side::One => p.one = unit,
    }
    number
}
