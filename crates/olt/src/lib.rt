// The calls of the OLT but send and receive (01, Clock; Keys; 'When the reader says no'). Each takes the end by value and gives back
// the code, the end and what is handed over; refused, the end is the one that was lent.
#![tactic(auto)]

mod answers;
pub mod making;
pub mod place;
mod timing;

ghost use Rattle.std.specs.Prelude.{◌≡◌};
ghost use Rattle.octets.specs.Choice.{pick};
ghost use Rattle.refusal.specs.Number.{verdict_number};
ghost use Rattle.refusal.specs.Order.{and_then};
ghost use Rattle.protocol.specs.Replies.{advance_verdict, on_valid};
ghost use Rattle.protocol.specs.ClockCaptures.{Captures};
ghost use Rattle.olt.specs.Moves.{moved_of};
ghost use Rattle.protocol.specs.OltCalls.{acknowledge_of, acknowledge_order, advance_olt_of, capture_of, capture_order, clock_send_of, clock_send_order, fresh_olt_of, measure_of, measure_order, offer_of, offer_order, register_of, retry_of, retry_order};

use clock::{CLOCK_TURN, MAX_ROUND_TRIP};
use ends::check_olt::valid_olt;
use ends::llids::valid_mac;
use ends::{Identity, Olt};
use protocol::ticks::advance_verdict;
use protocol::{Acknowledgement, ClockSent, KeySent, OltAnswer};
use refusal::{Refusal, Verdict, refuse_if, verdict_number};
use unit::calls;

// Where the unit stands that a call names, and the verdict on the way there: refused, place 0.
#[derive(Clone, Copy)]
pub struct Located {
    pub verdict: Verdict,
    pub place: usize,
}

// What an advance leaves. The end stands first, where nothing pads it, so that it is handed on where it lies (D119).
#[derive(Clone, Copy)]
pub struct OltMoved {
    pub olt: Olt,
    pub number: u8,
}

#[tactic(auto, unfolding(octets::specs::Choice::pick))]
fn or_zero(keep: bool, x: u64) -> u64
    ensures { result ≡ pick keep x 0 }
{
    if keep {
        return x;
    }
    0
}

// A fresh OLT of that MAC and first clock. Refused, it is an end of zeros. One call makes either, so that the code has its sixteen units once.
#[tactic(auto, unfolding(protocol::specs::OltCalls::fresh_olt_of, protocol::specs::OltCalls::olt_answer, protocol::specs::Replies::reply, refusal::specs::Order::refuse_if, octets::specs::Choice::both, octets::specs::Choice::pick))]
pub fn fresh(mac: u64, clock: u64) -> OltAnswer
    ensures { result ≡ fresh_olt_of mac clock }
{
    let good = valid_mac(mac) & (clock < CLOCK_TURN);
    let olt = making::new_olt(or_zero(good, mac), or_zero(good, clock));
    if good {
        return answers::accepted(olt);
    }
    answers::refused(olt, Refusal::OutOfRange)
}

#[tactic(auto, using(crate::proofs::Verdicts::register_room), unfolding(protocol::specs::OltCalls::register_of, protocol::specs::OltCalls::registering, protocol::specs::OltCalls::olt_answer, protocol::specs::Replies::reply))]
pub fn register(olt: Olt, identity: Identity, trip: u64, interval: u64) -> OltAnswer
    ensures { result ≡ register_of olt identity trip interval }
{
    let verdict = making::register_verdict(olt, identity, trip, interval);
    match verdict {
        Err(refusal) => answers::refused(olt, refusal),
        Ok(()) => {
            let unit = making::fresh_unit(identity, trip, interval);
            answers::accepted(making::with_one_more(olt, unit))
        }
    }
}

// 1 for an end that is not `valid`, then what goes ahead, then 17.
#[tactic(auto, unfolding(refusal::specs::Order::refuse_if, refusal::specs::Order::and_then))]
fn move_verdict(valid: bool, ahead: Verdict, tick: u64, n: u64) -> Verdict
    ensures { result ≡ on_valid valid (and_then ahead (advance_verdict tick n)) }
{
    if !valid {
        return Err(Refusal::OutOfRange);
    }
    ahead?;
    advance_verdict(tick, n)
}

// Ticks, clock and the timers of all units, behind a verdict that goes ahead. What it costs does not depend on the ticks. What all units
// share is stored as it was before the end is judged: so the compiler judges the copy that it then changes, and makes no other (D119).
pub fn moved(olt: Olt, ahead: Verdict, n: u64) -> OltMoved
    ensures { result ≡ moved_of olt ahead n }
{
    let mut r = olt;
    let kept = olt.shared;
    r.shared = kept;
    let valid = valid_olt(r);
    let verdict = move_verdict(valid, ahead, r.shared.tick, n);
    let number = verdict_number(verdict);
    let end = timing::units_moved(verdict, r.count);
    let shared = timing::shared_after(verdict, r.shared, n);
    r.shared = shared;
    timing::timers_moved(&mut r.units, end, n);
    OltMoved { olt: r, number }
}

#[tactic(auto, using(crate::proofs::Advancing::moved_alone))]
pub fn advance(olt: Olt, n: u64) -> OltAnswer
    ensures { result ≡ advance_olt_of olt n }
{
    let done = moved(olt, Ok(()), n);
    let next = done.olt;
    OltAnswer {
        number: done.number,
        olt: next,
    }
}

// The unit's stamps are those of this tick, whenever they are sent.
pub fn capture(olt: Olt, llid: u16) -> OltAnswer
    ensures value { result ≡ capture_of olt llid }
    ensures order { result.number ≡ verdict_number (capture_order olt llid) }
    ensures stamps { Captures olt llid result }
{
    let mut r = olt;
    let at = place::locate(r, Ok(()), llid);
    let i = at.place;
    let way = at.verdict;
    let unit = r.units[i];
    let done = calls::capture(way, r.shared, unit);
    let verdict = done.verdict;
    let number = verdict_number(verdict);
    let next = done.after;
    r.units[i] = next;
    OltAnswer { number, olt: r }
}

// The unit's round trip, measured again: the unit needs a new clock message (02, C-16).
pub fn measure(olt: Olt, llid: u16, trip: u64) -> OltAnswer
    ensures value { result ≡ measure_of olt llid trip }
    ensures order { result.number ≡ verdict_number (measure_order olt llid trip) }
{
    let mut r = olt;
    let ahead = refuse_if(!(trip <= MAX_ROUND_TRIP), Refusal::OutOfRange, Ok(()));
    let at = place::locate(r, ahead, llid);
    let i = at.place;
    let way = at.verdict;
    let unit = r.units[i];
    let done = calls::measure(way, r.shared, unit, trip);
    let verdict = done.verdict;
    let number = verdict_number(verdict);
    let next = done.after;
    r.units[i] = next;
    OltAnswer { number, olt: r }
}

pub fn clock_send(olt: Olt, llid: u16) -> ClockSent
    ensures value { result ≡ clock_send_of olt llid }
    ensures order { result.number ≡ verdict_number (clock_send_order olt llid) }
{
    let mut r = olt;
    let at = place::locate(r, Ok(()), llid);
    let i = at.place;
    let way = at.verdict;
    let unit = r.units[i];
    let done = calls::clock_send(way, r.shared, unit);
    let verdict = done.verdict;
    let number = verdict_number(verdict);
    let next = done.after;
    let message = done.handed;
    r.units[i] = next;
    ClockSent {
        number,
        olt: r,
        message,
    }
}

pub fn offer(olt: Olt, llid: u16, key: [u8; 16]) -> KeySent
    ensures value { result ≡ offer_of olt llid key }
    ensures order { result.number ≡ verdict_number (offer_order olt llid key) }
{
    let mut r = olt;
    let at = place::locate(r, Ok(()), llid);
    let i = at.place;
    let way = at.verdict;
    let unit = r.units[i];
    let done = calls::offer(way, r.shared, unit, llid, key);
    let verdict = done.verdict;
    let number = verdict_number(verdict);
    let next = done.after;
    let message = done.handed;
    r.units[i] = next;
    KeySent {
        number,
        olt: r,
        message,
    }
}

// The offer's number and key again.
pub fn retry(olt: Olt, llid: u16) -> KeySent
    ensures value { result ≡ retry_of olt llid }
    ensures order { result.number ≡ verdict_number (retry_order olt llid) }
{
    let mut r = olt;
    let at = place::locate(r, Ok(()), llid);
    let i = at.place;
    let way = at.verdict;
    let unit = r.units[i];
    let done = calls::retry(way, r.shared, unit, llid);
    let verdict = done.verdict;
    let number = verdict_number(verdict);
    let next = done.after;
    let message = done.handed;
    r.units[i] = next;
    KeySent {
        number,
        olt: r,
        message,
    }
}

pub fn acknowledge(olt: Olt, llid: u16, acknowledgement: Acknowledgement) -> OltAnswer
    ensures value { result ≡ acknowledge_of olt llid acknowledgement }
    ensures order { result.number ≡ verdict_number (acknowledge_order olt llid acknowledgement) }
{
    let mut r = olt;
    let at = place::locate(r, Ok(()), llid);
    let i = at.place;
    let way = at.verdict;
    let unit = r.units[i];
    let done = calls::acknowledge(way, r.shared, unit, acknowledgement);
    let verdict = done.verdict;
    let number = verdict_number(verdict);
    let next = done.after;
    r.units[i] = next;
    OltAnswer { number, olt: r }
}
