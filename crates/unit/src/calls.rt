// The clock and key calls of the OLT on one unit (01, Clock; Keys).
ghost use Rattle.std.specs.Prelude.{◌≡◌, ◌<◌};
ghost use Rattle.protocol.specs.Lift.{outcome};
ghost use Rattle.ends.specs.Limits.{max_key_number};
ghost use Rattle.protocol.specs.Messages.{no_key_message, no_stamps};
ghost use Rattle.protocol.specs.Replies.{silent};
ghost use Rattle.protocol.specs.UnitCalls.{acknowledge_unit, capture_unit, clock_message_of, clock_send_unit, clock_send_verdict, key_message_of, keys_offered, measure_unit, offer_unit, offer_verdict, outstanding, retry_unit, unit_offered};
ghost use Rattle.unit.specs.Reached.{reached};

use crate::Decided;
use crate::ticks::since;
use clock::{Stamps, TICKS_PER_SECOND};
use ends::keyslots::{key_in, same_key, with_key};
use ends::limits::MAX_KEY_NUMBER;
use ends::{Shared, UnitClock, UnitKeys, UnitRecord};
use protocol::{Acknowledgement, CLOCK_KIND, KEY_KIND, KeyMessage};
use refusal::{Refusal, Verdict, and_then, refuse_if};

// The unit's stamps are those of this tick.
#[tactic(auto, unfolding(protocol::specs::UnitCalls::capture_unit, protocol::specs::Lift::outcome, refusal::specs::Order::and_then, crate::specs::Reached::reached, crate::specs::Reached::if_accepted, protocol::specs::UnitCalls::clock_captured, ends::specs::Records::with_clock))]
pub fn capture(way: Verdict, shared: Shared, unit: UnitRecord) -> Decided<UnitRecord, ()>
    ensures { outcome shared result.verdict result.after silent ≡ reached way silent shared unit (capture_unit shared unit) }
{
    match way {
        Err(refusal) => Decided {
            verdict: Err(refusal),
            after: unit,
            handed: (),
        },
        Ok(()) => {
            let mut next = unit;
            next.clock.captured = 1;
            next.clock.tick = shared.tick;
            Decided {
                verdict: Ok(()),
                after: next,
                handed: (),
            }
        }
    }
}

// The round trip measured again: what was captured, sent and acknowledged over the path before is forgotten (02, C-16).
#[tactic(auto, unfolding(protocol::specs::UnitCalls::measure_unit, protocol::specs::Lift::outcome, refusal::specs::Order::and_then, crate::specs::Reached::reached, crate::specs::Reached::if_accepted, ends::specs::Records::with_clock))]
pub fn measure(way: Verdict, shared: Shared, unit: UnitRecord, trip: u64) -> Decided<UnitRecord, ()>
    ensures { outcome shared result.verdict result.after silent ≡ reached way silent shared unit (measure_unit trip shared unit) }
{
    match way {
        Err(refusal) => Decided {
            verdict: Err(refusal),
            after: unit,
            handed: (),
        },
        Ok(()) => {
            let clock = UnitClock {
                trip,
                captured: 0,
                tick: 0,
                sent: 0,
                acknowledged: 0,
            };
            let mut next = unit;
            next.clock = clock;
            Decided {
                verdict: Ok(()),
                after: next,
                handed: (),
            }
        }
    }
}

#[tactic(auto, using(crate::proofs::Elapsed::more_since), unfolding(protocol::specs::UnitCalls::clock_send_verdict, refusal::specs::Order::refuse_if))]
fn clock_send_verdict(clock: UnitClock, tick: u64) -> Verdict
    ensures { result ≡ clock_send_verdict clock tick }
{
    if clock.captured != 1 {
        return Err(Refusal::NothingOutstanding);
    }
    if TICKS_PER_SECOND < since(clock.tick, tick) {
        return Err(Refusal::CaptureTooOld);
    }
    Ok(())
}

// The stamps of the capture's tick.
#[tactic(auto, unfolding(protocol::specs::UnitCalls::clock_message_of))]
fn clock_message(shared: Shared, clock: UnitClock) -> Stamps
    ensures { result ≡ clock_message_of shared clock }
{
    let then = clock::clock_before(shared.clock, since(clock.tick, shared.tick));
    clock::captured(then, clock.trip)
}

#[tactic(auto, unfolding(protocol::specs::UnitCalls::clock_send_unit, protocol::specs::Lift::outcome, crate::specs::Reached::reached, crate::specs::Reached::if_accepted, protocol::specs::UnitCalls::clock_after_send, ends::specs::Records::with_clock))]
pub fn clock_send(way: Verdict, shared: Shared, unit: UnitRecord) -> Decided<UnitRecord, Stamps>
    ensures { outcome shared result.verdict result.after result.handed ≡ reached way no_stamps shared unit (clock_send_unit shared unit) }
{
    let verdict = and_then(way, clock_send_verdict(unit.clock, shared.tick));
    match verdict {
        Err(refusal) => Decided::refused(refusal, unit, Stamps { rx: 0, tx: 0 }),
        Ok(()) => {
            let message = clock_message(shared, unit.clock);
            let mut next = unit;
            next.clock.sent = 1;
            Decided {
                verdict: Ok(()),
                after: next,
                handed: message,
            }
        }
    }
}

#[tactic(auto, unfolding(protocol::specs::UnitCalls::offer_verdict, refusal::specs::Order::refuse_if, octets::specs::Choice::both, octets::specs::Choice::either))]
fn offer_verdict(unit: UnitRecord, key: [u8; 16]) -> Verdict
    ensures { result ≡ offer_verdict unit key }
{
    let keys = unit.keys;
    let active = keys.active;
    let held = key_in(keys.slots, active);
    let same = same_key(key, held);
    if unit.clock.acknowledged != 1 {
        return Err(Refusal::ClockNotSet);
    }
    if (active < keys.offered) | (unit.confirmation.confirmed < active) {
        return Err(Refusal::OfferPending);
    }
    if (1 <= active) & same {
        return Err(Refusal::SameKey);
    }
    if MAX_KEY_NUMBER <= active {
        return Err(Refusal::AtEnd);
    }
    Ok(())
}

#[tactic(auto, unfolding(protocol::specs::UnitCalls::keys_offered))]
fn keys_offered(keys: UnitKeys, key: [u8; 16]) -> UnitKeys
    requires { keys.active < max_key_number }
    ensures { result ≡ keys_offered keys key }
{
    let number = keys.active + 1;
    let slots = with_key(keys.slots, number, key);
    let mut r = keys;
    r.offered = number;
    r.slots = slots;
    r
}

// A new offer starts unacknowledged.
#[tactic(auto, unfolding(protocol::specs::UnitCalls::unit_offered, ends::specs::Records::with_keys, ends::specs::Records::with_confirmation))]
fn offered(unit: UnitRecord, key: [u8; 16]) -> UnitRecord
    requires { unit.keys.active < max_key_number }
    ensures { result ≡ unit_offered unit key }
{
    let keys = keys_offered(unit.keys, key);
    let mut r = unit;
    r.keys = keys;
    r.confirmation.acknowledged = 0;
    r
}

// The message of the outstanding offer.
#[tactic(auto, unfolding(protocol::specs::UnitCalls::key_message_of))]
fn key_message(llid: u16, keys: UnitKeys) -> KeyMessage
    ensures { result ≡ key_message_of llid keys }
{
    let key = key_in(keys.slots, keys.offered);
    KeyMessage {
        llid,
        number: keys.offered,
        key,
    }
}

fn no_key_message() -> KeyMessage
    ensures { result ≡ no_key_message }
{
    KeyMessage {
        llid: 0,
        number: 0,
        key: [0; 16],
    }
}

#[tactic(auto, unfolding(protocol::specs::UnitCalls::offer_unit, protocol::specs::Lift::outcome, crate::specs::Reached::reached, crate::specs::Reached::if_accepted, protocol::specs::UnitCalls::unit_offered, ends::specs::Records::with_keys, ends::specs::Records::with_confirmation))]
pub fn offer(
    way: Verdict,
    shared: Shared,
    unit: UnitRecord,
    llid: u16,
    key: [u8; 16],
) -> Decided<UnitRecord, KeyMessage>
    ensures { outcome shared result.verdict result.after result.handed ≡ reached way no_key_message shared unit (offer_unit llid key shared unit) }
{
    let verdict = and_then(way, offer_verdict(unit, key));
    match verdict {
        Err(refusal) => Decided::refused(refusal, unit, no_key_message()),
        Ok(()) => {
            let next = offered(unit, key);
            let message = key_message(llid, next.keys);
            Decided {
                verdict: Ok(()),
                after: next,
                handed: message,
            }
        }
    }
}

// The offer's number and key again.
#[tactic(auto, unfolding(protocol::specs::UnitCalls::retry_unit, protocol::specs::UnitCalls::retry_verdict, protocol::specs::Lift::outcome, crate::specs::Reached::reached, crate::specs::Reached::if_accepted))]
pub fn retry(
    way: Verdict,
    shared: Shared,
    unit: UnitRecord,
    llid: u16,
) -> Decided<UnitRecord, KeyMessage>
    ensures { outcome shared result.verdict result.after result.handed ≡ reached way no_key_message shared unit (retry_unit llid shared unit) }
{
    let none = unit.keys.offered == unit.keys.active;
    let verdict = and_then(way, refuse_if(none, Refusal::NothingOutstanding, Ok(())));
    match verdict {
        Err(refusal) => Decided::refused(refusal, unit, no_key_message()),
        Ok(()) => {
            let message = key_message(llid, unit.keys);
            Decided {
                verdict: Ok(()),
                after: unit,
                handed: message,
            }
        }
    }
}

// Whether what is acknowledged is outstanding: a clock message that was sent, or key O, which is 1 or more.
#[tactic(auto, unfolding(protocol::specs::UnitCalls::outstanding, octets::specs::Choice::pick, octets::specs::Choice::both))]
fn is_outstanding(acknowledgement: Acknowledgement, unit: UnitRecord) -> bool
    ensures { result ≡ outstanding acknowledgement unit }
{
    let kind = acknowledgement.kind;
    let number = acknowledgement.number;
    let sent = unit.clock.sent;
    let offered = unit.keys.offered;
    if kind == CLOCK_KIND {
        return sent == 1;
    }
    if kind == KEY_KIND {
        return (1 <= number) & (number == offered);
    }
    false
}

#[tactic(auto, unfolding(protocol::specs::UnitCalls::acknowledge_unit, protocol::specs::UnitCalls::clock_acknowledged_unit, protocol::specs::Lift::outcome, octets::specs::Choice::pick, ends::specs::Records::with_clock, protocol::specs::UnitCalls::key_acknowledged_unit, ends::specs::Records::with_confirmation))]
fn acknowledged(acknowledgement: Acknowledgement, shared: Shared, unit: UnitRecord) -> UnitRecord
    ensures { result ≡ (acknowledge_unit acknowledgement shared unit).unit }
{
    let mut r = unit;
    if acknowledgement.kind == CLOCK_KIND {
        r.clock.acknowledged = 1;
        return r;
    }
    if acknowledgement.kind == KEY_KIND {
        r.confirmation.acknowledged = 1;
        return r;
    }
    r
}

#[tactic(auto, unfolding(protocol::specs::Lift::outcome, crate::specs::Reached::reached, crate::specs::Reached::if_accepted, protocol::specs::UnitCalls::acknowledge_verdict))]
pub fn acknowledge(
    way: Verdict,
    shared: Shared,
    unit: UnitRecord,
    acknowledgement: Acknowledgement,
) -> Decided<UnitRecord, ()>
    ensures { outcome shared result.verdict result.after silent ≡ reached way silent shared unit (acknowledge_unit acknowledgement shared unit) }
{
    let outstanding = is_outstanding(acknowledgement, unit);
    let verdict = and_then(
        way,
        refuse_if(!outstanding, Refusal::NothingOutstanding, Ok(())),
    );
    match verdict {
        Err(refusal) => Decided::refused(refusal, unit, ()),
        Ok(()) => {
            let next = acknowledged(acknowledgement, shared, unit);
            Decided {
                verdict: Ok(()),
                after: next,
                handed: (),
            }
        }
    }
}
