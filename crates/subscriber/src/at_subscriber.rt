// The calls of a subscriber but send and receive (02, C-14).
ghost use Rattle.std.specs.Prelude.{◌≡◌, ◌<◌, Some};
ghost use Rattle.protocol.specs.Replies.{on_valid};
ghost use Rattle.protocol.specs.OnuCalls.{advance_onu_of, clock_message_at, key_message_at, new_time_of};
ghost use Rattle.group_protocol.specs.JoinedCalls.{message_joined, no_answer};
ghost use Rattle.group_protocol.specs.Limits.{max_joined};
ghost use Rattle.group_protocol.specs.Subscriber.{alone, find_joined, fresh_joined, valid_memberships, valid_subscriber, with_joined, with_one_joined_more};
ghost use Rattle.subscriber.specs.SubscriberClaims.{Apart};
ghost use Rattle.subscriber.specs.SubscriberCalls.{fresh_subscriber_of, joined_lift, join_of, join_verdict, not_acknowledged, onu_acknowledged_in, own_acknowledged, own_answered, subscriber_acknowledged, subscriber_advance_of, subscriber_clock_message_of, subscriber_key_message_of, subscriber_moved_of, subscriber_new_time_of};

use crate::{SubscriberAcknowledged, SubscriberAnswer, SubscriberMoved};
use clock::Stamps;
use ends::llids::has;
use ends::{Identity, Onu, OnuKeys, Slots};
use group_protocol::{Answer, Joined, MAX_JOINED, Memberships, Subscriber};
use groups::check_subscriber::{valid_memberships, valid_subscriber};
use groups::joined_calls;
use groups::joined_search::{find_joined, has_joined};
use protocol::{KeyMessage, OnuAcknowledged};
use refusal::{Refusal, Verdict, verdict_number};

#[tactic(auto, unfolding(group_protocol::specs::Subscriber::fresh_joined))]
fn fresh_joined(llid: u16) -> Joined
    ensures { result ≡ fresh_joined llid }
{
    let slots = Slots {
        even: [0; 16],
        odd: [0; 16],
    };
    let keys = OnuKeys {
        active: 0,
        held: 0,
        slots,
    };
    Joined {
        keys,
        kept: 0,
        llid,
    }
}

// A unit that joined no group.
#[tactic(auto, unfolding(group_protocol::specs::Subscriber::alone, group_protocol::specs::Subscriber::no_memberships))]
fn alone(onu: Onu) -> Subscriber
    ensures { result ≡ alone onu }
{
    let none = fresh_joined(0);
    let table = [none; MAX_JOINED as usize];
    let memberships = Memberships { count: 0, table };
    Subscriber { onu, memberships }
}

// A fresh unit, without groups.
#[tactic(auto, unfolding(crate::specs::SubscriberCalls::fresh_subscriber_of))]
pub fn fresh(identity: Identity, oltmac: u64, time: u64) -> SubscriberAnswer
    ensures { result ≡ fresh_subscriber_of identity oltmac time }
{
    let answer = onu::fresh(identity, oltmac, time);
    let subscriber = alone(answer.onu);
    SubscriberAnswer {
        number: answer.number,
        subscriber,
    }
}

// Whether the joined groups are valid. Without one nothing is copied for that.
#[tactic(auto, unfolding(group_protocol::specs::Subscriber::valid_memberships, group_protocol::specs::Subscriber::valid_groups_of, octets::specs::Choice::both, octets::specs::Lists::all, group_protocol::specs::Subscriber::joined_llids, ends::specs::Identities::distinct, ends::specs::Identities::meets))]
pub(crate) fn sound_memberships(subscriber: Subscriber) -> bool
    ensures { result ≡ valid_memberships subscriber }
{
    if subscriber.memberships.count == 0 {
        return true;
    }
    let whole = subscriber;
    valid_memberships(whole)
}

// 1 for a lent end that is not valid, then 3 and 4.
#[tactic(auto, unfolding(crate::specs::SubscriberCalls::join_verdict, refusal::specs::Order::refuse_if, octets::specs::Choice::either))]
fn join_verdict(subscriber: Subscriber, llid: u16) -> Verdict
    ensures { result ≡ on_valid (valid_subscriber subscriber) (join_verdict subscriber llid) }
{
    if !valid_subscriber(subscriber) {
        return Err(Refusal::OutOfRange);
    }
    let own = has(subscriber.onu.identity, llid);
    let table = subscriber.memberships.table;
    let count = subscriber.memberships.count;
    if own | has_joined(table, 0, count, llid) {
        return Err(Refusal::RepeatedLlid);
    }
    if MAX_JOINED <= count {
        return Err(Refusal::TableFull);
    }
    Ok(())
}

// One group more, in the first place that is not in use.
#[tactic(auto, unfolding(group_protocol::specs::Subscriber::with_one_joined_more))]
fn with_one_more(subscriber: Subscriber, joined: Joined) -> Subscriber
    requires { subscriber.memberships.count < max_joined }
    ensures { result ≡ with_one_joined_more subscriber joined }
{
    let count = subscriber.memberships.count;
    let mut table = subscriber.memberships.table;
    table[count as usize] = joined;
    let memberships = Memberships {
        count: count + 1,
        table,
    };
    let onu = subscriber.onu;
    Subscriber { onu, memberships }
}

// What is promised to a member counts from here.
#[tactic(auto, unfolding(crate::specs::SubscriberCalls::join_of, crate::specs::SubscriberCalls::subscriber_answer, protocol::specs::Replies::reply))]
pub fn join(subscriber: Subscriber, llid: u16) -> SubscriberAnswer
    ensures { result ≡ join_of subscriber llid }
{
    let verdict = join_verdict(subscriber, llid);
    match verdict {
        Ok(()) => {
            let joined = fresh_joined(llid);
            let next = with_one_more(subscriber, joined);
            SubscriberAnswer {
                number: 0,
                subscriber: next,
            }
        }
        Err(refusal) => SubscriberAnswer {
            number: u8::from(refusal),
            subscriber,
        },
    }
}

pub fn advance(subscriber: Subscriber, n: u64) -> SubscriberAnswer
    ensures value { result ≡ subscriber_advance_of subscriber n }
    ensures groups { result.subscriber.memberships ≡ subscriber.memberships }
    ensures alone { subscriber.memberships.count ≡ 0 → result ≡ own_answered subscriber (advance_onu_of subscriber.onu n) }
{
    if !sound_memberships(subscriber) {
        return SubscriberAnswer {
            number: u8::from(Refusal::OutOfRange),
            subscriber,
        };
    }
    let answer = onu::advance(subscriber.onu, n);
    let onu = answer.onu;
    let memberships = subscriber.memberships;
    SubscriberAnswer {
        number: answer.number,
        subscriber: Subscriber { onu, memberships },
    }
}

// The same answer, the end first.
pub fn moved(subscriber: Subscriber, n: u64) -> SubscriberMoved
    ensures { result ≡ subscriber_moved_of subscriber n }
{
    let done = advance(subscriber, n);
    let next = done.subscriber;
    SubscriberMoved {
        subscriber: next,
        number: done.number,
    }
}

// A new LocalTime (02, C-16). The groups stay, with their keys.
pub fn new_time(subscriber: Subscriber, time: u64) -> SubscriberAnswer
    ensures value { result ≡ subscriber_new_time_of subscriber time }
    ensures groups { result.subscriber.memberships ≡ subscriber.memberships }
    ensures alone { subscriber.memberships.count ≡ 0 → result ≡ own_answered subscriber (new_time_of subscriber.onu time) }
{
    if !valid_memberships(subscriber) {
        return SubscriberAnswer {
            number: u8::from(Refusal::OutOfRange),
            subscriber,
        };
    }
    let answer = onu::new_time(subscriber.onu, time);
    let onu = answer.onu;
    let memberships = subscriber.memberships;
    SubscriberAnswer {
        number: answer.number,
        subscriber: Subscriber { onu, memberships },
    }
}

// Where the groups that the unit joined are not valid, nothing is acknowledged.
#[tactic(auto, unfolding(crate::specs::SubscriberCalls::not_acknowledged))]
fn not_acknowledged(subscriber: Subscriber) -> SubscriberAcknowledged
    ensures { result ≡ not_acknowledged subscriber }
{
    let answer = joined_calls::no_answer();
    SubscriberAcknowledged {
        number: u8::from(Refusal::OutOfRange),
        subscriber,
        answer,
    }
}

// What the unit answers for itself names no unit.
#[tactic(auto, unfolding(crate::specs::SubscriberCalls::own_acknowledged, crate::specs::SubscriberCalls::own_answer, group_protocol::specs::Subscriber::with_onu))]
fn acknowledged(subscriber: Subscriber, answered: OnuAcknowledged) -> SubscriberAcknowledged
    ensures { result ≡ own_acknowledged subscriber answered }
{
    let onu = answered.onu;
    let memberships = subscriber.memberships;
    let answer = Answer {
        kind: answered.acknowledgement.kind,
        named: 0,
        unit: 0,
        number: answered.acknowledgement.number,
    };
    SubscriberAcknowledged {
        number: answered.number,
        subscriber: Subscriber { onu, memberships },
        answer,
    }
}

pub fn clock_message(subscriber: Subscriber, message: Stamps) -> SubscriberAcknowledged
    ensures value { result ≡ subscriber_clock_message_of subscriber message }
    ensures groups { result.subscriber.memberships ≡ subscriber.memberships }
    ensures alone { subscriber.memberships.count ≡ 0 → result ≡ own_acknowledged subscriber (clock_message_at subscriber.onu message) }
{
    if !sound_memberships(subscriber) {
        return not_acknowledged(subscriber);
    }
    let answered = onu::clock_message(subscriber.onu, message);
    acknowledged(subscriber, answered)
}

// A key message of the unit's own.
#[tactic(auto, unfolding(crate::specs::SubscriberCalls::onu_acknowledged_in, octets::specs::Choice::pick))]
fn own_message(subscriber: Subscriber, message: KeyMessage) -> SubscriberAcknowledged
    ensures { result ≡ onu_acknowledged_in subscriber (key_message_at subscriber.onu message) }
{
    if !sound_memberships(subscriber) {
        return not_acknowledged(subscriber);
    }
    let answered = onu::key_message(subscriber.onu, message);
    acknowledged(subscriber, answered)
}

#[tactic(auto, unfolding(group_protocol::specs::Subscriber::with_joined))]
pub(crate) fn with_joined(subscriber: Subscriber, i: usize, joined: Joined) -> Subscriber
    requires { i < max_joined }
    ensures { result ≡ with_joined subscriber i joined }
{
    let mut table = subscriber.memberships.table;
    table[i] = joined;
    let memberships = Memberships {
        count: subscriber.memberships.count,
        table,
    };
    let onu = subscriber.onu;
    Subscriber { onu, memberships }
}

// A key message of a group that the unit joined. Refused by the group, the group is the one that was there.
#[tactic(auto, unfolding(crate::specs::SubscriberCalls::subscriber_acknowledged, crate::specs::SubscriberCalls::not_acknowledged, groups::specs::Reached::joined_decided, group_protocol::specs::Subscriber::past_joined))]
fn group_message(subscriber: Subscriber, i: usize, message: KeyMessage) -> SubscriberAcknowledged
    requires { find_joined subscriber message.llid ≡ Some i }
    ensures { result ≡ subscriber_acknowledged (joined_lift subscriber no_answer (message_joined message) i) }
{
    if !valid_subscriber(subscriber) {
        return not_acknowledged(subscriber);
    }
    let table = subscriber.memberships.table;
    let joined = table[i];
    let decided = joined_calls::message(subscriber.onu, joined, message);
    let answer = decided.handed;
    let next = with_joined(subscriber, i, decided.after);
    SubscriberAcknowledged {
        number: verdict_number(decided.verdict),
        subscriber: next,
        answer,
    }
}

#[tactic(auto, unfolding(group_protocol::specs::Subscriber::find_joined))]
pub fn key_message(subscriber: Subscriber, message: KeyMessage) -> SubscriberAcknowledged
    ensures value { result ≡ subscriber_key_message_of subscriber message }
    ensures apart { Apart subscriber result.subscriber (find_joined subscriber message.llid) }
    ensures alone { subscriber.memberships.count ≡ 0 → result ≡ own_acknowledged subscriber (key_message_at subscriber.onu message) }
{
    let table = subscriber.memberships.table;
    let found = find_joined(table, 0, subscriber.memberships.count, message.llid);
    match found {
        None => own_message(subscriber, message),
        Some(i) => group_message(subscriber, i, message),
    }
}
