// Send and receive of a head end, with their octets (02, C-14).
ghost use Rattle.std.specs.Prelude.{◌≡◌, not};
ghost use Rattle.octets.specs.Choice.{both};
ghost use Rattle.octets.specs.Output.{with_output};
ghost use Rattle.envelope.specs.Acceptance.{lengths_fit};
ghost use Rattle.envelope.specs.Channels.{downstream, upstream};
ghost use Rattle.refusal.specs.Order.{refuse_if};
ghost use Rattle.refusal.specs.declared.Refusal.TheVariants.{BadLength, OutOfRange};
ghost use Rattle.protocol.specs.Headers.{valid_header};
ghost use Rattle.headend.specs.HeadTraffic.{head_receipt_of, head_send_done_of, own_llid};
ghost use Rattle.refusal.specs.Verdict.{no_refusal};

use crate::head_place::{group_named, locate_sound, way_to};
use crate::{HeadReceiptDone, HeadSendDone, Parts};
use envelope::{downstream, lengths_fit, upstream};
use group_protocol::HeadEnd;
use groups::check_head::valid_groups;
use groups::sending;
use octets::EQ_OCTETS;
use protocol::Header;
use refusal::{Refusal, Verdict, verdict_number};
use traffic::carrying::carry_fitting;
use unit::passing::valid_header;

// What a send refuses ahead of 2.
#[tactic(auto, unfolding(refusal::specs::Order::refuse_if))]
fn send_ahead(n: usize, m: usize, channel: u8) -> Verdict
    ensures { result ≡ refuse_if (not (lengths_fit n m)) BadLength (refuse_if (not (downstream channel)) OutOfRange no_refusal) }
{
    if !lengths_fit(n, m) {
        return Err(Refusal::BadLength);
    }
    if !downstream(channel) {
        return Err(Refusal::OutOfRange);
    }
    Ok(())
}

// To a unit or to a group. A group's next accepted send with the flag up and O = A + 1 switches, acknowledged or not.
pub fn send(
    head: HeadEnd,
    llid: u16,
    channel: u8,
    payload: &[u8],
    output: &mut [u8],
) -> HeadSendDone
    ensures { with_output result output.new ≡ head_send_done_of head llid channel payload.now output.old }
{
    let ahead = send_ahead(payload.len(), output.len(), channel);
    let eqs = (payload.len() / EQ_OCTETS) as u64;
    let found = group_named(head, llid);
    let mut olt = head.olt;
    let mut groups = head.groups;
    let sound = valid_groups(head);
    let (verdict, channels, sending) = match found {
        None => {
            let at = locate_sound(head.olt, sound, ahead, llid);
            let i = at.place;
            let way = at.verdict;
            let unit = olt.units[i];
            let done = unit::unit_traffic::send(way, olt.shared, unit, llid, channel, eqs);
            let verdict = done.verdict;
            let mut next = unit;
            next.keys.timer.flag = done.flag;
            next.keys.active = done.active;
            next.keys.first.noted = done.noted;
            next.keys.first.at = done.at;
            let channels = done.channels;
            let sending = done.sending;
            olt.units[i] = next;
            (verdict, channels, sending)
        }
        Some(i) => {
            let way = way_to(head.olt, sound, ahead);
            let group = groups.table[i];
            let done = sending::send(way, olt.shared, group, llid, channel, eqs);
            let verdict = done.verdict;
            let next = done.group;
            let channels = done.channels;
            let sending = done.sending;
            groups.table[i] = next;
            (verdict, channels, sending)
        }
    };
    let header = sending.header;
    let passage = sending.passage;
    let work = carry_fitting(verdict, passage, channel, payload, output);
    let number = verdict_number(verdict);
    olt.shared.channels.zero = channels.zero;
    olt.shared.channels.one = channels.one;
    let mac = olt.shared.mac;
    let count = groups.count;
    HeadSendDone {
        parts: Parts {
            olt,
            mac,
            groups,
            count,
        },
        header,
        count: work.count,
        runs: work.runs,
        number,
    }
}

// What a receipt refuses ahead of 2, then the rest.
#[tactic(auto, unfolding(refusal::specs::Order::refuse_if, octets::specs::Choice::both))]
fn receive_ahead(n: usize, m: usize, header: Header, rest: Verdict) -> Verdict
    ensures { result
        ≡ refuse_if (not (lengths_fit n m)) BadLength (refuse_if (not (both (upstream header.channel) (valid_header header))) OutOfRange rest) }
{
    if !lengths_fit(n, m) {
        return Err(Refusal::BadLength);
    }
    if !(upstream(header.channel) & valid_header(header)) {
        return Err(Refusal::OutOfRange);
    }
    rest
}

// What stands in the way of a receipt behind its own 14 and 1: on a group's LLID the OLT receives nothing.
fn own_llid(found: Option<usize>) -> Verdict
    ensures { result ≡ own_llid found }
{
    match found {
        None => Ok(()),
        Some(_) => Err(Refusal::GroupLlid),
    }
}

// From a unit. Refused, it goes the same way to its answer.
#[tactic(auto, unfolding(protocol::specs::Lift::outcome, ends::specs::Table::with_unit, ends::specs::Records::with_channels, group_protocol::specs::Head::with_olt, traffic::specs::Passages::misfit, ends::specs::Table::past_unit))]
pub fn receive(head: HeadEnd, header: Header, octets: &[u8], output: &mut [u8]) -> HeadReceiptDone
    ensures { with_output result output.new ≡ head_receipt_of head header octets.now output.old }
{
    let found = group_named(head, header.llid);
    let rest = own_llid(found);
    let ahead = receive_ahead(octets.len(), output.len(), header, rest);
    let mut olt = head.olt;
    let sound = valid_groups(head);
    let at = locate_sound(head.olt, sound, ahead, header.llid);
    let i = at.place;
    let way = at.verdict;
    let unit = olt.units[i];
    let done = unit::unit_traffic::receive(way, olt.shared, unit, header);
    let verdict = done.verdict;
    let next = done.after;
    let passage = done.handed;
    let work = carry_fitting(verdict, passage, header.channel, octets, output);
    let number = verdict_number(verdict);
    olt.units[i] = next;
    let groups = head.groups;
    let mac = olt.shared.mac;
    let count = groups.count;
    HeadReceiptDone {
        parts: Parts {
            olt,
            mac,
            groups,
            count,
        },
        count: work.count,
        runs: work.runs,
        number,
    }
}
