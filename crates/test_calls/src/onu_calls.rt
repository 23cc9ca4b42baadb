// The calls of the ONU, each with its line.
use crate::{show, values};
use clock::Stamps;
use group_protocol::Subscriber;
use jazmotip::at_onu::{
    jazmotip_onu_advance, jazmotip_onu_clock_message, jazmotip_onu_fresh, jazmotip_onu_join,
    jazmotip_onu_key_message, jazmotip_onu_new_time, jazmotip_onu_receive, jazmotip_onu_send,
};
use protocol::{Header, KeyMessage};
use std::io;
use subscriber::{SubscriberAcknowledged, SubscriberSent};

// Its Rx and Tx.
fn stamps(rt: &impl Print, onu: Subscriber) -> io::Result<()> {
    show::stamps(rt, onu.onu.clock.rx, onu.onu.clock.time)
}

pub(crate) fn fresh(rt: &impl Print, mac: u64, time: u64) -> io::Result<Subscriber> {
    let answer = jazmotip_onu_fresh(values::unit(), mac, time);
    show::row(rt, "onu_fresh", answer.number)?;
    Ok(answer.subscriber)
}

pub(crate) fn join(rt: &impl Print, onu: Subscriber, llid: u16) -> io::Result<Subscriber> {
    let answer = jazmotip_onu_join(onu, llid);
    show::row(rt, "onu_join", answer.number)?;
    Ok(answer.subscriber)
}

// Lends its own copy, which the call changes in place.
pub(crate) fn advance(rt: &impl Print, onu: Subscriber, n: u64) -> io::Result<Subscriber> {
    let mut next = onu;
    let number = jazmotip_onu_advance(&mut next, n);
    print!(rt; "jazmotip_onu_advance {number} {}", next.onu.tick)?;
    stamps(rt, next)?;
    println!(rt)?;
    Ok(next)
}

pub(crate) fn new_time(rt: &impl Print, onu: Subscriber, time: u64) -> io::Result<Subscriber> {
    let answer = jazmotip_onu_new_time(onu, time);
    show::begin(rt, "onu_new_time", answer.number)?;
    stamps(rt, answer.subscriber)?;
    println!(rt)?;
    Ok(answer.subscriber)
}

pub(crate) fn clock_message(
    rt: &impl Print,
    onu: Subscriber,
    message: Stamps,
) -> io::Result<SubscriberAcknowledged> {
    let answer = jazmotip_onu_clock_message(onu, message);
    show::begin(rt, "onu_clock_message", answer.number)?;
    stamps(rt, answer.subscriber)?;
    show::acknowledgement(rt, answer.answer)?;
    Ok(answer)
}

pub(crate) fn key_message(
    rt: &impl Print,
    onu: Subscriber,
    message: KeyMessage,
) -> io::Result<SubscriberAcknowledged> {
    let answer = jazmotip_onu_key_message(onu, message);
    show::begin(rt, "onu_key_message", answer.number)?;
    show::acknowledgement(rt, answer.answer)?;
    Ok(answer)
}

// A group's message: the answer also names the unit.
pub(crate) fn group_message(
    rt: &impl Print,
    onu: Subscriber,
    message: KeyMessage,
) -> io::Result<SubscriberAcknowledged> {
    let answer = jazmotip_onu_key_message(onu, message);
    show::begin(rt, "onu_key_message", answer.number)?;
    show::group_acknowledgement(rt, answer.answer)?;
    Ok(answer)
}

pub(crate) fn send(
    rt: &impl Print,
    onu: Subscriber,
    llid: u16,
    channel: u8,
    output: &mut [u8],
) -> io::Result<SubscriberSent> {
    let payload = values::payload();
    let answer = jazmotip_onu_send(onu, llid, channel, &payload, output);
    show::begin(rt, "onu_send", answer.number)?;
    show::header(rt, answer.header)?;
    show::passed(rt, answer.count, output)?;
    Ok(answer)
}

pub(crate) fn receive(
    rt: &impl Print,
    onu: Subscriber,
    header: Header,
    octets: &[u8],
) -> io::Result<Subscriber> {
    let mut output = values::lent();
    let answer = jazmotip_onu_receive(onu, header, octets, &mut output);
    show::begin(rt, "onu_receive", answer.number)?;
    show::passed(rt, answer.count, &output)?;
    Ok(answer.subscriber)
}
