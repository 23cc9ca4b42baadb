// A new LocalTime of the ONU, and the sum of its changes (02, C-16).
ghost use Rattle.std.specs.Prelude.{◌≡◌};
ghost use Rattle.protocol.specs.OnuCalls.{time_ahead, near_time, changes_after, new_time_verdict, onu_retimed};

use clock::LOCAL_TURN;
use ends::changes::valid_changes;
use ends::limits::MAX_TIME_CHANGE;
use ends::{Onu, OnuClock, Travel};
use refusal::{Refusal, Verdict};
use std::num::{wrapping_add_u64, wrapping_sub_u64};

// How far one LocalTime is ahead of another.
#[tactic(auto, unfolding(protocol::specs::OnuCalls::time_ahead))]
fn time_ahead(new: u64, old: u64) -> u64
    ensures { result ≡ time_ahead new old }
{
    (new % LOCAL_TURN + (LOCAL_TURN - old % LOCAL_TURN)) % LOCAL_TURN
}

#[tactic(auto, unfolding(protocol::specs::OnuCalls::near_time, octets::specs::Choice::either))]
fn near_time(new: u64, old: u64) -> bool
    ensures { result ≡ near_time new old }
{
    (time_ahead(new, old) <= MAX_TIME_CHANGE) | (time_ahead(old, new) <= MAX_TIME_CHANGE)
}

// The sum of the changes, modulo 2^64, with the one from an old LocalTime to a new one.
#[tactic(auto, unfolding(protocol::specs::OnuCalls::changes_after, octets::specs::Choice::pick))]
fn changes_after(changes: u64, new: u64, old: u64) -> u64
    ensures { result ≡ changes_after changes new old }
{
    let ahead = time_ahead(new, old);
    if ahead <= MAX_TIME_CHANGE {
        return wrapping_add_u64(changes, ahead);
    }
    wrapping_sub_u64(changes, time_ahead(old, new))
}

// 1 for a LocalTime that is none or too far, then 17.
#[tactic(auto, unfolding(protocol::specs::OnuCalls::new_time_verdict, refusal::specs::Order::refuse_if, octets::specs::Choice::both))]
pub(crate) fn new_time_verdict(o: Onu, time: u64) -> Verdict
    ensures { result ≡ new_time_verdict o time }
{
    if !((time < LOCAL_TURN) & near_time(time, o.clock.time)) {
        return Err(Refusal::OutOfRange);
    }
    if !valid_changes(changes_after(o.travel.changes, time, o.clock.time)) {
        return Err(Refusal::AtEnd);
    }
    Ok(())
}

// Unsynced, with that LocalTime; enciphered sends wait for travel to pass those made before.
#[tactic(auto, unfolding(protocol::specs::OnuCalls::onu_retimed, ends::specs::Records::with_onu_clock, ends::specs::Records::with_travel, ends::specs::Travels::travel_changed))]
pub(crate) fn retimed(o: Onu, time: u64) -> Onu
    ensures { result ≡ onu_retimed o time }
{
    let clock = OnuClock {
        synced: 0,
        time,
        rx: 0,
    };
    let travel = Travel {
        changes: changes_after(o.travel.changes, time, o.clock.time),
        spent: o.travel.spent,
        bar: o.travel.spent,
    };
    let mut r = o;
    r.clock = clock;
    r.travel = travel;
    r
}
