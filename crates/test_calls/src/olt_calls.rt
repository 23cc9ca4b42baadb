// The calls of the OLT, each with its line.
use crate::{show, values};
use group_protocol::{Answer, HeadEnd};
use headend::{HeadClockSent, HeadKeySent, HeadSent};
use jazmotip::at_olt::{
    jazmotip_olt_acknowledge, jazmotip_olt_advance, jazmotip_olt_capture, jazmotip_olt_clock_send,
    jazmotip_olt_fresh, jazmotip_olt_measure, jazmotip_olt_offer, jazmotip_olt_receive,
    jazmotip_olt_register, jazmotip_olt_register_group, jazmotip_olt_retry, jazmotip_olt_send,
};
use protocol::Header;
use std::io;

pub(crate) fn fresh(rt: &impl Print, mac: u64, clock: u64) -> io::Result<HeadEnd> {
    let answer = jazmotip_olt_fresh(mac, clock);
    show::row(rt, "olt_fresh", answer.number)?;
    Ok(answer.head)
}

pub(crate) fn register(rt: &impl Print, olt: HeadEnd, interval: u64) -> io::Result<HeadEnd> {
    let answer = jazmotip_olt_register(olt, values::unit(), 250, interval);
    show::row(rt, "olt_register", answer.number)?;
    Ok(answer.head)
}

// LLID 7, of a count of members that are named by LLIDs 6 and 5.
pub(crate) fn register_group(
    rt: &impl Print,
    olt: HeadEnd,
    interval: u64,
    count: u8,
) -> io::Result<HeadEnd> {
    let answer = jazmotip_olt_register_group(olt, 7, interval, values::roster(count));
    show::row(rt, "olt_register_group", answer.number)?;
    Ok(answer.head)
}

// Lends its own copy, which the call changes in place.
pub(crate) fn advance(rt: &impl Print, olt: HeadEnd, n: u64) -> io::Result<HeadEnd> {
    let mut next = olt;
    let number = jazmotip_olt_advance(&mut next, n);
    let shared = next.olt.shared;
    println!(rt;
        "jazmotip_olt_advance {number} {} {:012x}",
        shared.tick, shared.clock
    )?;
    Ok(next)
}

pub(crate) fn capture(rt: &impl Print, olt: HeadEnd, llid: u16) -> io::Result<HeadEnd> {
    let answer = jazmotip_olt_capture(olt, llid);
    show::row(rt, "olt_capture", answer.number)?;
    Ok(answer.head)
}

pub(crate) fn measure(rt: &impl Print, olt: HeadEnd, llid: u16, trip: u64) -> io::Result<HeadEnd> {
    let answer = jazmotip_olt_measure(olt, llid, trip);
    show::row(rt, "olt_measure", answer.number)?;
    Ok(answer.head)
}

pub(crate) fn clock_send(rt: &impl Print, olt: HeadEnd, llid: u16) -> io::Result<HeadClockSent> {
    let answer = jazmotip_olt_clock_send(olt, llid);
    show::begin(rt, "olt_clock_send", answer.number)?;
    show::stamps(rt, answer.message.rx, answer.message.tx)?;
    println!(rt)?;
    Ok(answer)
}

pub(crate) fn offer(rt: &impl Print, olt: HeadEnd, llid: u16) -> io::Result<HeadKeySent> {
    let key = values::key();
    let answer = jazmotip_olt_offer(olt, llid, &key);
    show::begin(rt, "olt_offer", answer.number)?;
    show::key_message(rt, answer.message)?;
    Ok(answer)
}

pub(crate) fn retry(rt: &impl Print, olt: HeadEnd, llid: u16) -> io::Result<HeadKeySent> {
    let answer = jazmotip_olt_retry(olt, llid);
    show::begin(rt, "olt_retry", answer.number)?;
    show::key_message(rt, answer.message)?;
    Ok(answer)
}

pub(crate) fn acknowledge(
    rt: &impl Print,
    olt: HeadEnd,
    llid: u16,
    acknowledgement: Answer,
) -> io::Result<HeadEnd> {
    let answer = jazmotip_olt_acknowledge(olt, llid, acknowledgement);
    show::row(rt, "olt_acknowledge", answer.number)?;
    Ok(answer.head)
}

pub(crate) fn send(
    rt: &impl Print,
    olt: HeadEnd,
    llid: u16,
    channel: u8,
    output: &mut [u8],
) -> io::Result<HeadSent> {
    let payload = values::payload();
    let answer = jazmotip_olt_send(olt, llid, channel, &payload, output);
    show::begin(rt, "olt_send", answer.number)?;
    show::header(rt, answer.header)?;
    show::passed(rt, answer.count, output)?;
    Ok(answer)
}

pub(crate) fn receive(
    rt: &impl Print,
    olt: HeadEnd,
    header: Header,
    octets: &[u8],
) -> io::Result<HeadEnd> {
    let mut output = values::lent();
    let answer = jazmotip_olt_receive(olt, header, octets, &mut output);
    show::begin(rt, "olt_receive", answer.number)?;
    show::passed(rt, answer.count, &output)?;
    Ok(answer.head)
}
