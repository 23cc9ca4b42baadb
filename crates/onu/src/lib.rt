// The calls of the ONU but send and receive, by value (01, Clock; Keys; 'When the reader says no').
#![tactic(auto)]

mod retiming;

ghost use Rattle.std.specs.Prelude.{◌≡◌};
ghost use Rattle.clock.specs.Ticks.{local_of};
ghost use Rattle.clock.specs.Stamping.{raised_to};
ghost use Rattle.protocol.specs.Replies.{on_valid, advance_verdict};
ghost use Rattle.ends.specs.Records.{new_onu};
ghost use Rattle.ends.specs.Validity.{valid_onu};
ghost use Rattle.protocol.specs.OnuCalls.{fresh_onu_verdict, fresh_onu_of, onu_clock_advanced, onu_advanced, advance_onu_of, new_time_of, clock_message_verdict, clock_from, clock_message_at, new_key, held_key, active_key, key_message_verdict, keys_taken, key_message_at};
ghost use Rattle.refusal.specs.Verdict.{no_refusal};

use clock::{CLOCK_TURN, LOCAL_TURN, Stamps};
use ends::check_onu::valid_onu;
use ends::limits::{MAX_KEY_NUMBER, MAX_LLIDS};
use ends::{Channels, FirstSend, Identity, Onu, OnuClock, OnuKeys, Slots, Travel};
use protocol::ticks::advance_verdict;
use protocol::{Acknowledgement, CLOCK_KIND, KEY_KIND, KeyMessage, OnuAcknowledged, OnuAnswer};
use refusal::{Refusal, Verdict};

#[tactic(auto, unfolding(ends::specs::Records::new_onu))]
fn new_onu(identity: Identity, oltmac: u64, time: u64) -> Onu
    ensures { result ≡ new_onu identity oltmac time }
{
    let kept = ends::llids::kept_identity(identity);
    Onu {
        identity: kept,
        oltmac,
        tick: 0,
        clock: OnuClock {
            synced: 0,
            time,
            rx: 0,
        },
        keys: OnuKeys {
            active: 0,
            held: 0,
            slots: Slots {
                even: [0; 16],
                odd: [0; 16],
            },
        },
        first: FirstSend { noted: 0, at: 0 },
        travel: Travel {
            changes: 0,
            spent: 0,
            bar: 0,
        },
        channels: Channels { zero: 0, one: 0 },
    }
}

#[tactic(auto, unfolding(protocol::specs::OnuCalls::fresh_onu_verdict, refusal::specs::Order::refuse_if, octets::specs::Choice::both))]
fn fresh_verdict(identity: Identity, oltmac: u64, time: u64) -> Verdict
    ensures { result ≡ fresh_onu_verdict identity oltmac time }
{
    let named = ends::llids::valid_identity(identity);
    let ok = named & (ends::llids::valid_mac(oltmac) & (time < LOCAL_TURN));
    let distinct = ends::llids::distinct_llids(identity);
    if !ok {
        return Err(Refusal::OutOfRange);
    }
    if !distinct {
        return Err(Refusal::RepeatedLlid);
    }
    Ok(())
}

// A fresh ONU is given its MAC and LLIDs, the OLT's MAC and LocalTime. Refused: an end of zeros.
#[tactic(auto, unfolding(protocol::specs::OnuCalls::fresh_onu_of, protocol::specs::OnuCalls::onu_answer, protocol::specs::Replies::reply))]
pub fn fresh(identity: Identity, oltmac: u64, time: u64) -> OnuAnswer
    ensures { result ≡ fresh_onu_of identity oltmac time }
{
    match fresh_verdict(identity, oltmac, time) {
        Ok(()) => {
            let onu = new_onu(identity, oltmac, time);
            OnuAnswer { number: 0, onu }
        }
        Err(refusal) => {
            let none = Identity {
                mac: 0,
                llids: [0; MAX_LLIDS as usize],
                count: 0,
            };
            let onu = new_onu(none, 0, 0);
            OnuAnswer {
                number: u8::from(refusal),
                onu,
            }
        }
    }
}

// 1 for a lent end that is not valid, then what the call refuses (D121).
#[tactic(auto, unfolding(refusal::specs::Order::refuse_if))]
pub(crate) fn on_valid(o: Onu, rest: Verdict) -> Verdict
    ensures { result ≡ on_valid (valid_onu o) rest }
{
    if !valid_onu(o) {
        return Err(Refusal::OutOfRange);
    }
    rest
}

#[tactic(auto, unfolding(protocol::specs::OnuCalls::onu_clock_advanced, octets::specs::Choice::pick))]
fn clock_advanced(c: OnuClock, n: u64) -> OnuClock
    ensures { result ≡ onu_clock_advanced c n }
{
    if c.synced == 1 {
        return OnuClock {
            synced: c.synced,
            time: clock::clock_after(c.time, n),
            rx: clock::clock_after(c.rx, n),
        };
    }
    OnuClock {
        synced: c.synced,
        time: clock::local_after(c.time, n),
        rx: c.rx,
    }
}

#[tactic(auto, using(protocol::proofs::Replies::advance_accepted), unfolding(protocol::specs::OnuCalls::onu_advanced))]
fn advanced(o: Onu, n: u64) -> Onu
    requires { advance_verdict o.tick n ≡ no_refusal }
    ensures { result ≡ onu_advanced o n }
{
    let clock = clock_advanced(o.clock, n);
    let mut next = o;
    next.tick = o.tick + n;
    next.clock = clock;
    next
}

#[tactic(auto, using(refusal::proofs::Order::refuse_accepted), unfolding(protocol::specs::OnuCalls::advance_onu_of, protocol::specs::OnuCalls::advancing_onu, protocol::specs::OnuCalls::onu_answer, protocol::specs::OnuCalls::onu_reply, protocol::specs::Replies::reply))]
pub fn advance(o: Onu, n: u64) -> OnuAnswer
    ensures { result ≡ advance_onu_of o n }
{
    match on_valid(o, advance_verdict(o.tick, n)) {
        Ok(()) => {
            let onu = advanced(o, n);
            OnuAnswer { number: 0, onu }
        }
        Err(refusal) => OnuAnswer {
            number: u8::from(refusal),
            onu: o,
        },
    }
}

// The path has changed: the unit's LocalTime over the new one (02, C-16).
#[tactic(auto, unfolding(protocol::specs::OnuCalls::new_time_of, protocol::specs::OnuCalls::onu_answer, protocol::specs::OnuCalls::onu_reply, protocol::specs::Replies::reply))]
pub fn new_time(o: Onu, time: u64) -> OnuAnswer
    ensures { result ≡ new_time_of o time }
{
    match on_valid(o, retiming::new_time_verdict(o, time)) {
        Ok(()) => {
            let onu = retiming::retimed(o, time);
            OnuAnswer { number: 0, onu }
        }
        Err(refusal) => OnuAnswer {
            number: u8::from(refusal),
            onu: o,
        },
    }
}

// 1 for stamps past the clock's turn.
#[tactic(auto, unfolding(protocol::specs::OnuCalls::clock_message_verdict, refusal::specs::Order::refuse_if, octets::specs::Choice::both))]
fn clock_message_verdict(s: Stamps) -> Verdict
    ensures { result ≡ clock_message_verdict s }
{
    if !((s.rx < CLOCK_TURN) & (s.tx < CLOCK_TURN)) {
        return Err(Refusal::OutOfRange);
    }
    Ok(())
}

// LocalTime is the low half of the one field that both share.
#[tactic(auto, unfolding(protocol::specs::OnuCalls::clock_from))]
fn clock_from(time: u64, s: Stamps) -> OnuClock
    ensures { result ≡ clock_from (raised_to (local_of time) s) }
{
    let raised = clock::raised(clock::local_of(time), s);
    OnuClock {
        synced: 1,
        time: raised.tx,
        rx: raised.rx,
    }
}

#[tactic(auto, unfolding(protocol::specs::OnuCalls::clock_message_at, protocol::specs::OnuCalls::clock_message_to, protocol::specs::OnuCalls::onu_acknowledged, protocol::specs::OnuCalls::onu_reply, protocol::specs::OnuCalls::onu_synced, ends::specs::Records::with_onu_clock, protocol::specs::Replies::reply))]
pub fn clock_message(o: Onu, message: Stamps) -> OnuAcknowledged
    ensures { result ≡ clock_message_at o message }
{
    match on_valid(o, clock_message_verdict(message)) {
        Ok(()) => {
            let clock = clock_from(o.clock.time, message);
            let mut onu = o;
            onu.clock = clock;
            OnuAcknowledged {
                number: 0,
                onu,
                acknowledgement: Acknowledgement {
                    kind: CLOCK_KIND,
                    number: 0,
                },
            }
        }
        Err(refusal) => OnuAcknowledged {
            number: u8::from(refusal),
            onu: o,
            acknowledgement: Acknowledgement { kind: 0, number: 0 },
        },
    }
}

// Key a + 1, and no such key is held.
#[tactic(auto, unfolding(protocol::specs::OnuCalls::new_key, octets::specs::Choice::both))]
fn new_key(keys: OnuKeys, message: KeyMessage) -> bool
    ensures { result ≡ new_key keys message }
{
    let next = keys.active as u64 + 1;
    (keys.held == 0) & ((keys.active < MAX_KEY_NUMBER) & (message.number as u64 == next))
}

// The message of the key a + 1 that is held, again. Its index is the one that a does not have.
#[tactic(auto, using(ends::proofs::Keys::key_index), unfolding(protocol::specs::OnuCalls::held_key, octets::specs::Choice::both))]
fn held_key(keys: OnuKeys, message: KeyMessage) -> bool
    ensures { result ≡ held_key keys message }
{
    let next = keys.active as u64 + 1;
    let key = message.key;
    let held = ends::keyslots::key_in(keys.slots, 1 - keys.active % 2);
    let same = ends::keyslots::same_key(key, held);
    (keys.held == 1) & ((message.number as u64 == next) & same)
}

// Number a with its own key.
#[tactic(auto, unfolding(protocol::specs::OnuCalls::active_key, octets::specs::Choice::both))]
fn active_key(keys: OnuKeys, message: KeyMessage) -> bool
    ensures { result ≡ active_key keys message }
{
    let key = message.key;
    let active = ends::keyslots::key_in(keys.slots, keys.active);
    let same = ends::keyslots::same_key(key, active);
    (1 <= keys.active) & ((message.number == keys.active) & same)
}

// 2, 5 and 8.
#[tactic(auto, unfolding(protocol::specs::OnuCalls::key_message_verdict, refusal::specs::Order::refuse_if, octets::specs::Choice::either))]
fn key_message_verdict(o: Onu, message: KeyMessage, new: bool) -> Verdict
    requires { new ≡ new_key o.keys message }
    ensures { result ≡ key_message_verdict o message }
{
    if !ends::llids::has(o.identity, message.llid) {
        return Err(Refusal::UnknownLlid);
    }
    if o.clock.synced != 1 {
        return Err(Refusal::ClockNotSet);
    }
    let held = held_key(o.keys, message);
    let active = active_key(o.keys, message);
    if !(new | (held | active)) {
        return Err(Refusal::NothingOutstanding);
    }
    Ok(())
}

// A new key is kept; anything else that is accepted changes nothing.
#[tactic(auto, using(crate::proofs::OnuCalls::new_key_number), unfolding(protocol::specs::OnuCalls::keys_taken, octets::specs::Choice::pick))]
fn keys_taken(keys: OnuKeys, message: KeyMessage, new: bool) -> OnuKeys
    requires { new ≡ new_key keys message }
    ensures { result ≡ keys_taken keys message }
{
    if new {
        let key = message.key;
        let slots = ends::keyslots::with_key(keys.slots, message.number, key);
        return OnuKeys {
            active: keys.active,
            held: 1,
            slots,
        };
    }
    keys
}

#[tactic(auto, unfolding(protocol::specs::OnuCalls::key_message_at, protocol::specs::OnuCalls::key_message_to, protocol::specs::OnuCalls::onu_acknowledged, protocol::specs::OnuCalls::onu_reply, ends::specs::Records::with_onu_keys, protocol::specs::Replies::reply))]
pub fn key_message(o: Onu, message: KeyMessage) -> OnuAcknowledged
    ensures { result ≡ key_message_at o message }
{
    let new = new_key(o.keys, message);
    match on_valid(o, key_message_verdict(o, message, new)) {
        Ok(()) => {
            let keys = keys_taken(o.keys, message, new);
            let mut onu = o;
            onu.keys = keys;
            OnuAcknowledged {
                number: 0,
                onu,
                acknowledgement: Acknowledgement {
                    kind: KEY_KIND,
                    number: message.number,
                },
            }
        }
        Err(refusal) => OnuAcknowledged {
            number: u8::from(refusal),
            onu: o,
            acknowledgement: Acknowledgement { kind: 0, number: 0 },
        },
    }
}
