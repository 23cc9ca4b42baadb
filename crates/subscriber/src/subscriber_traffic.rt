// Send and receive of a subscriber, with their octets (02, C-14).
ghost use Rattle.std.specs.Prelude.{◌≡◌, Some};
ghost use Rattle.octets.specs.Output.{with_output};
ghost use Rattle.group_protocol.specs.Subscriber.{find_joined};
ghost use Rattle.subscriber.specs.SubscriberClaims.{Apart, ReceivesAlone, SendsAlone};
ghost use Rattle.subscriber.specs.SubscriberTraffic.{group_receive_of, group_send_verdict, own_receive_of, own_send_of, subscriber_not_received, subscriber_not_sent, subscriber_receive_of, subscriber_send_of};

use crate::at_subscriber::{sound_memberships, with_joined};
use crate::{SubscriberReceived, SubscriberSent};
use envelope::{lengths_fit, upstream};
use group_protocol::Subscriber;
use groups::check_subscriber::valid_subscriber;
use groups::joined_calls;
use groups::joined_search::find_joined;
use protocol::Header;
use refusal::{Refusal, Verdict, verdict_number};
use traffic::carrying::carry_fitting;
use traffic::{onu_receive, onu_send};

fn not_sent(subscriber: Subscriber, number: u8) -> SubscriberSent
    ensures { result ≡ subscriber_not_sent subscriber number }
{
    let header = Header {
        channel: 0,
        llid: 0,
        encenabled: 0,
        enckey: 0,
        epam: 0,
    };
    SubscriberSent {
        number,
        subscriber,
        header,
        count: 0,
        runs: 0,
    }
}

// A send of the unit's own.
#[tactic(auto, unfolding(crate::specs::SubscriberTraffic::own_send_of, octets::specs::Choice::pick, crate::specs::SubscriberTraffic::unit_send_of, crate::specs::SubscriberTraffic::own_sent, group_protocol::specs::Subscriber::with_onu))]
fn own_send(
    subscriber: Subscriber,
    llid: u16,
    channel: u8,
    payload: &[u8],
    output: &mut [u8],
) -> SubscriberSent
    ensures { with_output result output.new ≡ own_send_of subscriber llid channel payload.now output.old }
{
    if !sound_memberships(subscriber) {
        return not_sent(subscriber, u8::from(Refusal::OutOfRange));
    }
    let sent = onu_send(subscriber.onu, llid, channel, payload, output);
    let onu = sent.onu;
    let header = sent.header;
    let memberships = subscriber.memberships;
    SubscriberSent {
        number: sent.number,
        subscriber: Subscriber { onu, memberships },
        header,
        count: sent.count,
        runs: sent.runs,
    }
}

// On a group's LLID a unit sends nothing: 20, after what is refused ahead of it.
#[tactic(auto, unfolding(crate::specs::SubscriberTraffic::group_send_verdict, refusal::specs::Order::refuse_if))]
fn group_send_verdict(subscriber: Subscriber, channel: u8, misfit: bool) -> Verdict
    ensures { result ≡ group_send_verdict subscriber channel misfit }
{
    if !valid_subscriber(subscriber) {
        return Err(Refusal::OutOfRange);
    }
    if misfit {
        return Err(Refusal::BadLength);
    }
    if !upstream(channel) {
        return Err(Refusal::OutOfRange);
    }
    Err(Refusal::GroupLlid)
}

pub fn send(
    subscriber: Subscriber,
    llid: u16,
    channel: u8,
    payload: &[u8],
    output: &mut [u8],
) -> SubscriberSent
    ensures output_after { with_output result output.new ≡ subscriber_send_of subscriber llid channel payload.now output.old }
    ensures apart { Apart subscriber result.subscriber (find_joined subscriber llid) }
    ensures alone { SendsAlone subscriber llid channel payload.now output.old (with_output result output.new) }
{
    let table = subscriber.memberships.table;
    let found = find_joined(table, 0, subscriber.memberships.count, llid);
    match found {
        None => own_send(subscriber, llid, channel, payload, output),
        Some(_) => {
            let misfit = !lengths_fit(payload.len(), output.len());
            let verdict = group_send_verdict(subscriber, channel, misfit);
            not_sent(subscriber, verdict_number(verdict))
        }
    }
}

fn not_received(subscriber: Subscriber) -> SubscriberReceived
    ensures { result ≡ subscriber_not_received subscriber }
{
    SubscriberReceived {
        number: u8::from(Refusal::OutOfRange),
        subscriber,
        count: 0,
        runs: 0,
    }
}

// An envelope of the unit's own.
#[tactic(auto, unfolding(crate::specs::SubscriberTraffic::own_receive_of, octets::specs::Choice::pick, crate::specs::SubscriberTraffic::unit_receive_of, crate::specs::SubscriberTraffic::own_received, group_protocol::specs::Subscriber::with_onu))]
fn own_receive(
    subscriber: Subscriber,
    header: Header,
    octets: &[u8],
    output: &mut [u8],
) -> SubscriberReceived
    ensures { with_output result output.new ≡ own_receive_of subscriber header octets.now output.old }
{
    if !sound_memberships(subscriber) {
        return not_received(subscriber);
    }
    let received = onu_receive(subscriber.onu, header, octets, output);
    let onu = received.onu;
    let memberships = subscriber.memberships;
    SubscriberReceived {
        number: received.number,
        subscriber: Subscriber { onu, memberships },
        count: received.count,
        runs: received.runs,
    }
}

// An envelope of a group that the unit joined. Refused by the group, the group is the one that was there.
#[tactic(auto, unfolding(crate::specs::SubscriberTraffic::group_receive_of, crate::specs::SubscriberTraffic::subscriber_received, traffic::specs::Passages::output_after, traffic::specs::Passages::passed_count, traffic::specs::Passages::passed_runs, protocol::specs::Headers::choice_enciphered, sealing::specs::Seal::count_carried, sealing::specs::Seal::runs_carried, octets::specs::Choice::pick, groups::specs::Reached::joined_decided, traffic::specs::Passages::misfit, group_protocol::specs::Subscriber::past_joined))]
fn group_receive(
    subscriber: Subscriber,
    i: usize,
    header: Header,
    octets: &[u8],
    output: &mut [u8],
) -> SubscriberReceived
    requires { find_joined subscriber header.llid ≡ Some i }
    ensures { with_output result output.new ≡ group_receive_of subscriber i header octets.now output.old }
{
    if !valid_subscriber(subscriber) {
        return not_received(subscriber);
    }
    let misfit = !lengths_fit(octets.len(), output.len());
    let table = subscriber.memberships.table;
    let joined = table[i];
    let decided = joined_calls::receive(misfit, subscriber.onu, joined, header);
    let verdict = decided.verdict;
    let passage = decided.handed;
    let next = with_joined(subscriber, i, decided.after);
    let work = carry_fitting(verdict, passage, header.channel, octets, output);
    SubscriberReceived {
        number: verdict_number(verdict),
        subscriber: next,
        count: work.count,
        runs: work.runs,
    }
}

#[tactic(auto, unfolding(group_protocol::specs::Subscriber::find_joined))]
pub fn receive(
    subscriber: Subscriber,
    header: Header,
    octets: &[u8],
    output: &mut [u8],
) -> SubscriberReceived
    ensures output_after { with_output result output.new ≡ subscriber_receive_of subscriber header octets.now output.old }
    ensures apart { Apart subscriber result.subscriber (find_joined subscriber header.llid) }
    ensures alone { ReceivesAlone subscriber header octets.now output.old (with_output result output.new) }
{
    let table = subscriber.memberships.table;
    let found = find_joined(table, 0, subscriber.memberships.count, header.llid);
    match found {
        None => own_receive(subscriber, header, octets, output),
        Some(i) => group_receive(subscriber, i, header, octets, output),
    }
}
