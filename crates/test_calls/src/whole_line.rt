// An OLT and one unit, 150 ticks apart downwards and 100 upwards: both are set up, set the clock, bring key 1 into use and send both ways,
// clear and sealed. The OLT's clock passes 2^48 on the way. Then a group of that unit does the same downwards, and the unit's path changes.
use crate::{olt_calls, onu_calls, values};
use clock::Stamps;
use group_protocol::{HeadEnd, Subscriber};
use protocol::{Header, KeyMessage};
use std::io;

#[derive(Clone, Copy)]
struct Line {
    pub olt: HeadEnd,
    pub onu: Subscriber,
}

fn ends_of(olt: HeadEnd, onu: Subscriber) -> Line {
    Line { olt, onu }
}

fn advance(rt: &impl Print, l: Line, n: u64) -> io::Result<Line> {
    let olt = olt_calls::advance(rt, l.olt, n)?;
    let onu = onu_calls::advance(rt, l.onu, n)?;
    Ok(ends_of(olt, onu))
}

// Interval 1000; the second registration is refused.
fn olt_start(rt: &impl Print) -> io::Result<HeadEnd> {
    let olt = olt_calls::fresh(rt, values::OLT_MAC, 0xffff_ffff_fc18)?;
    let named = olt_calls::register(rt, olt, 1000)?;
    olt_calls::register(rt, named, 1000)
}

fn start(rt: &impl Print) -> io::Result<Line> {
    let olt = olt_start(rt)?;
    let onu = onu_calls::fresh(rt, values::OLT_MAC, 0xffff_fc7c)?;
    Ok(ends_of(olt, onu))
}

// The envelope arrives so many ticks later.
fn down_after(rt: &impl Print, l: Line, llid: u16, channel: u8, ticks: u64) -> io::Result<Line> {
    let mut octets = values::lent();
    let sent = olt_calls::send(rt, l.olt, llid, channel, &mut octets)?;
    let there = advance(rt, ends_of(sent.head, l.onu), ticks)?;
    let onu = onu_calls::receive(rt, there.onu, sent.header, &octets)?;
    Ok(ends_of(there.olt, onu))
}

fn up_after(rt: &impl Print, l: Line, llid: u16, channel: u8, ticks: u64) -> io::Result<Line> {
    let mut octets = values::lent();
    let sent = onu_calls::send(rt, l.onu, llid, channel, &mut octets)?;
    let there = advance(rt, ends_of(l.olt, sent.subscriber), ticks)?;
    let olt = olt_calls::receive(rt, there.olt, sent.header, &octets)?;
    Ok(ends_of(olt, there.onu))
}

fn down(rt: &impl Print, l: Line, llid: u16, channel: u8) -> io::Result<Line> {
    down_after(rt, l, llid, channel, 150)
}

fn up(rt: &impl Print, l: Line, llid: u16, channel: u8) -> io::Result<Line> {
    up_after(rt, l, llid, channel, 100)
}

// The unit takes the clock message, and the OLT its acknowledgement.
fn take_clock(rt: &impl Print, l: Line, message: Stamps) -> io::Result<Line> {
    let set = onu_calls::clock_message(rt, l.onu, message)?;
    let there = advance(rt, ends_of(l.olt, set.subscriber), 100)?;
    let olt = olt_calls::acknowledge(rt, there.olt, 5, set.answer)?;
    Ok(ends_of(olt, there.onu))
}

// Captured, and sent 40 ticks later.
fn set_clock(rt: &impl Print, l: Line) -> io::Result<Line> {
    let captured = olt_calls::capture(rt, l.olt, 5)?;
    let later = advance(rt, ends_of(captured, l.onu), 40)?;
    let sent = olt_calls::clock_send(rt, later.olt, 6)?;
    let there = advance(rt, ends_of(sent.head, later.onu), 150)?;
    take_clock(rt, there, sent.message)
}

fn take_key(rt: &impl Print, l: Line, message: KeyMessage) -> io::Result<Line> {
    let taken = onu_calls::key_message(rt, l.onu, message)?;
    let there = advance(rt, ends_of(l.olt, taken.subscriber), 100)?;
    let olt = olt_calls::acknowledge(rt, there.olt, 6, taken.answer)?;
    Ok(ends_of(olt, there.onu))
}

// The offer is lost, the retry arrives.
fn give_key(rt: &impl Print, l: Line) -> io::Result<Line> {
    let lost = olt_calls::offer(rt, l.olt, 5)?;
    let sent = olt_calls::retry(rt, lost.head, 6)?;
    let there = advance(rt, ends_of(sent.head, l.onu), 150)?;
    take_key(rt, there, sent.message)
}

// Clear, there and back.
fn clear(rt: &impl Print) -> io::Result<Line> {
    up(rt, down(rt, start(rt)?, 5, 0x00)?, 5, 0x80)
}

// The timer is up: the OLT switches, and the unit follows.
fn switch(rt: &impl Print, l: Line) -> io::Result<Line> {
    up(rt, down(rt, advance(rt, l, 1000)?, 5, 0x01)?, 6, 0x81)
}

// LLID 9 is no unit's, nothing is offered, and ticks end at 2^62.
fn olt_refusals(rt: &impl Print, olt: HeadEnd) -> io::Result<()> {
    olt_calls::capture(rt, olt, 9)?;
    olt_calls::retry(rt, olt, 5)?;
    olt_calls::advance(rt, olt, 0x4000_0000_0000_0000)?;
    olt_calls::fresh(rt, 0x1_0000_0000_0000, 0)?;
    Ok(())
}

fn onu_refusals(rt: &impl Print, onu: Subscriber) -> io::Result<()> {
    let mut octets = values::lent();
    onu_calls::send(rt, onu, 9, 0x80, &mut octets)?;
    onu_calls::advance(rt, onu, 0x4000_0000_0000_0000)?;
    onu_calls::fresh(rt, 0x1_0000_0000_0000, 0)?;
    Ok(())
}

// No member, the unit twice, one member, and the LLID again; joined, and joined again.
fn join_group(rt: &impl Print, l: Line) -> io::Result<Line> {
    let none = olt_calls::register_group(rt, l.olt, 1000, 0)?;
    let twice = olt_calls::register_group(rt, none, 1000, 2)?;
    let one = olt_calls::register_group(rt, twice, 1000, 1)?;
    let olt = olt_calls::register_group(rt, one, 1000, 1)?;
    let onu = onu_calls::join(rt, onu_calls::join(rt, l.onu, 7)?, 7)?;
    Ok(ends_of(olt, onu))
}

// Key 1 of the group.
fn give_group_key(rt: &impl Print, l: Line) -> io::Result<Line> {
    let sent = olt_calls::offer(rt, l.olt, 7)?;
    let there = advance(rt, ends_of(sent.head, l.onu), 150)?;
    let taken = onu_calls::group_message(rt, there.onu, sent.message)?;
    let back = advance(rt, ends_of(there.olt, taken.subscriber), 100)?;
    let olt = olt_calls::acknowledge(rt, back.olt, 7, taken.answer)?;
    Ok(ends_of(olt, back.onu))
}

// LLID 7 upwards.
fn up_refused(rt: &impl Print, l: Line) -> io::Result<()> {
    let mut octets = values::lent();
    onu_calls::send(rt, l.onu, 7, 0x80, &mut octets)?;
    let header = Header {
        channel: 0x80,
        llid: 7,
        encenabled: 0,
        enckey: 0,
        epam: 0,
    };
    olt_calls::receive(rt, l.olt, header, &octets)?;
    Ok(())
}

// Clear, sealed, and upwards, where the group's LLID is refused at both ends.
fn view(rt: &impl Print, l: Line) -> io::Result<Line> {
    let clear = down(rt, join_group(rt, l)?, 7, 0x00)?;
    let sealed = down(rt, advance(rt, give_group_key(rt, clear)?, 1000)?, 7, 0x01)?;
    up_refused(rt, sealed)?;
    Ok(sealed)
}

// A send of the unit whose envelope does not arrive.
fn up_lost(rt: &impl Print, l: Line, llid: u16, channel: u8) -> io::Result<Line> {
    let mut octets = values::lent();
    let sent = onu_calls::send(rt, l.onu, llid, channel, &mut octets)?;
    Ok(ends_of(l.olt, sent.subscriber))
}

// The group's LLID, and a round trip that is too long; then 10 ticks down and 20 up, so that LocalTime goes back by 80.
fn move_path(rt: &impl Print, l: Line) -> io::Result<Line> {
    let grouped = olt_calls::measure(rt, l.olt, 7, 30)?;
    let long = olt_calls::measure(rt, grouped, 5, 1_000_001)?;
    let olt = olt_calls::measure(rt, long, 5, 30)?;
    let clock = std::num::wrapping_add_u64(olt.olt.shared.clock, 20);
    let far = onu_calls::new_time(rt, l.onu, 0x1_0000_0000)?;
    let onu = onu_calls::new_time(rt, far, clock % 0x1_0000_0000)?;
    Ok(ends_of(olt, onu))
}

// No clock at either end.
fn unset(rt: &impl Print, l: Line) -> io::Result<Line> {
    let mut octets = values::lent();
    olt_calls::send(rt, l.olt, 5, 0x00, &mut octets)?;
    up_lost(rt, l, 5, 0x80)
}

// Captured and sent at once. The unit has a clock again, which has not passed the end of its last envelope when the message is there, and has when
// its next goes.
fn set_clock_again(rt: &impl Print, l: Line) -> io::Result<Line> {
    let captured = olt_calls::capture(rt, l.olt, 5)?;
    let sent = olt_calls::clock_send(rt, captured, 5)?;
    let there = advance(rt, ends_of(sent.head, l.onu), 10)?;
    let set = onu_calls::clock_message(rt, there.onu, sent.message)?;
    let waiting = up_lost(rt, ends_of(there.olt, set.subscriber), 6, 0x81)?;
    let back = advance(rt, waiting, 20)?;
    let olt = olt_calls::acknowledge(rt, back.olt, 5, set.answer)?;
    advance(rt, ends_of(olt, back.onu), 54)
}

fn move_and_go_on(rt: &impl Print, l: Line) -> io::Result<()> {
    let moved = unset(rt, move_path(rt, up_lost(rt, l, 5, 0x80)?)?)?;
    down_after(
        rt,
        up_after(rt, set_clock_again(rt, moved)?, 6, 0x81, 20)?,
        5,
        0x00,
        10,
    )?;
    Ok(())
}

pub(crate) fn play(rt: &impl Print) -> io::Result<()> {
    let done = switch(rt, give_key(rt, set_clock(rt, clear(rt)?)?)?)?;
    olt_refusals(rt, done.olt)?;
    onu_refusals(rt, done.onu)?;
    move_and_go_on(rt, view(rt, done)?)
}
