// The calls of a head end but send and receive (02, C-14). A call on a unit is the unit's, put back in a copy of the OLT (D120).
ghost use Rattle.std.specs.Prelude.{◌≡◌, ◌<◌};
ghost use Rattle.ends.specs.Limits.{max_units};
ghost use Rattle.protocol.specs.OltCalls.{retry_of};
ghost use Rattle.group_protocol.specs.GroupCalls.{member_named};
ghost use Rattle.group_protocol.specs.Head.{valid_groups};
ghost use Rattle.group_protocol.specs.declared.HeadEnd.{HeadEnd};
ghost use Rattle.headend.specs.HeadCalls.{fresh_head_of, group_retry_of, head_acknowledge_of, head_advance_of, head_capture_of, head_clock_done, head_clock_send_of, head_done, head_key_done, head_key_sent, head_measure_of, head_offer_of, head_register_of, head_retry_of, olt_key_sent, olt_moved_of, own_acknowledgement, register_group_of};
ghost use Rattle.headend.specs.WithoutGroups.{WithoutGroups};

use crate::head_place::{group_named, locate_sound, sound_groups, way_to};
use crate::{HeadAnswer, HeadDone, Parts, answers, registering};
use clock::{MAX_ROUND_TRIP, Stamps};
use ends::check_olt::valid_olt;
use ends::{Identity, Olt};
use group_protocol::{Answer, Groups, HeadEnd, MAX_GROUPS, Members, Roster};
use groups::check_head::valid_groups;
use groups::making::{fresh_group, no_groups};
use groups::membership::{member_at, members_set};
use groups::one_group;
use olt::OltMoved;
use olt::making::fresh_unit;
use protocol::{Acknowledgement, KeyMessage};
use refusal::{Refusal, Verdict, refuse_if, verdict_number};
use unit::calls;
use unit::timing::timer_advanced;

// A fresh head end of that MAC and first clock, without groups, so that it answers as its OLT. Refused, it is an end of zeros.
pub fn fresh(mac: u64, clock: u64) -> HeadAnswer
    ensures value { result ≡ fresh_head_of mac clock }
    ensures alone { WithoutGroups }
{
    let done = olt::fresh(mac, clock);
    let olt = done.olt;
    let groups = no_groups();
    let head = HeadEnd { olt, groups };
    HeadAnswer {
        number: done.number,
        head,
    }
}

// Registers a unit. 3 and 4 know the groups.
#[tactic(auto, unfolding(ends::specs::Table::with_one_more, group_protocol::specs::Head::with_olt, group_protocol::specs::Head::valid_head, octets::specs::Choice::both))]
pub fn register(head: HeadEnd, identity: Identity, trip: u64, interval: u64) -> HeadDone<()>
    ensures { result ≡ head_done (head_register_of head identity trip interval) }
{
    let mut olt = head.olt;
    let sound = valid_groups(head);
    let valid = valid_olt(head.olt);
    let verdict = registering::unit_verdict(head, valid & sound, identity, trip, interval);
    let number = verdict_number(verdict);
    if number == 0 {
        let unit = fresh_unit(identity, trip, interval);
        let n = olt.count;
        olt.units[n as usize] = unit;
        olt.count = n + 1;
    }
    let groups = head.groups;
    let mac = olt.shared.mac;
    let count = groups.count;
    HeadDone {
        parts: Parts {
            olt,
            mac,
            groups,
            count,
        },
        handed: (),
        number,
    }
}

// Registers a group with its members, each named by any LLID of its unit.
#[tactic(auto, unfolding(crate::specs::HeadCalls::register_group_of, group_protocol::specs::Head::valid_head, octets::specs::Choice::both))]
pub fn register_group(head: HeadEnd, llid: u16, interval: u64, roster: Roster) -> HeadAnswer
    ensures { result ≡ register_group_of head llid interval roster }
{
    let found = group_named(head, llid);
    let sound = valid_groups(head);
    let valid = valid_olt(head.olt);
    let members = registering::roster_members(head.olt, roster);
    let verdict = registering::group_verdict(head, valid & sound, found, llid, interval, members);
    match verdict {
        Err(refusal) => answers::refused(head, refusal),
        Ok(()) => {
            let group = fresh_group(llid, interval, members);
            answers::accepted(registering::with_one_group_more(head, group))
        }
    }
}

// Ticks, clock and the timers of all units. What it costs does not depend on the ticks. The OLT is copied before the end is judged, and what its
// units share stored as it was: so the copy is the one that is judged and moved (D119).
#[tactic(auto, unfolding(olt::specs::Moves::moved_of))]
pub fn moved(head: HeadEnd, n: u64) -> OltMoved
    ensures { result ≡ olt_moved_of head n }
{
    let mut olt = head.olt;
    let kept = head.olt.shared;
    olt.shared = kept;
    let sound = sound_groups(head);
    let ahead = refuse_if(!sound, Refusal::OutOfRange, Ok(()));
    olt::moved(olt, ahead, n)
}

// The timers of all groups, in an advance that is accepted. Other groups than those of a valid end stay within the table all the same.
pub fn groups_moved(groups: Groups, n: u64) -> Groups
    ensures { (h : HeadEnd) → h.groups ≡ groups → (head_advance_of h n).number ≡ 0 → result ≡ (head_advance_of h n).head.groups }
{
    let mut r = groups;
    for i in 0..groups.count.min(MAX_GROUPS) as usize {
        r.table[i].keys.timer = timer_advanced(r.table[i].keys.timer, n);
    }
    r
}

// A group has no clock: its LLID is no unit's.
#[tactic(auto, unfolding(crate::specs::HeadCalls::head_capture_of, protocol::specs::OltCalls::capture_of, crate::specs::HeadCalls::head_answer, protocol::specs::Lift::outcome, ends::specs::Table::with_unit, ends::specs::Records::with_channels, ends::specs::Table::past_unit, group_protocol::specs::Head::with_olt))]
pub fn capture(head: HeadEnd, llid: u16) -> HeadDone<()>
    ensures { result ≡ head_done (head_capture_of head llid) }
{
    let mut olt = head.olt;
    let sound = valid_groups(head);
    let at = locate_sound(head.olt, sound, Ok(()), llid);
    let i = at.place;
    let way = at.verdict;
    let unit = olt.units[i];
    let done = calls::capture(way, olt.shared, unit);
    let verdict = done.verdict;
    let number = verdict_number(verdict);
    let next = done.after;
    olt.units[i] = next;
    let groups = head.groups;
    let mac = olt.shared.mac;
    let count = groups.count;
    HeadDone {
        parts: Parts {
            olt,
            mac,
            groups,
            count,
        },
        handed: (),
        number,
    }
}

// The round trip measured again (02, C-16). The unit's groups go on. A trip that is too long is refused 1 with the groups, ahead of 2: with a
// verdict of its own the OLT is copied once more.
#[tactic(auto, unfolding(crate::specs::HeadCalls::head_measure_of, protocol::specs::OltCalls::measure_of, crate::specs::HeadCalls::head_answer, protocol::specs::Lift::outcome, ends::specs::Table::with_unit, ends::specs::Records::with_channels, ends::specs::Table::past_unit, group_protocol::specs::Head::with_olt))]
pub fn measure(head: HeadEnd, llid: u16, trip: u64) -> HeadDone<()>
    ensures { result ≡ head_done (head_measure_of head llid trip) }
{
    let mut olt = head.olt;
    let sound = valid_groups(head);
    let near = trip <= MAX_ROUND_TRIP;
    let at = locate_sound(head.olt, sound & near, Ok(()), llid);
    let i = at.place;
    let way = at.verdict;
    let unit = olt.units[i];
    let done = calls::measure(way, olt.shared, unit, trip);
    let verdict = done.verdict;
    let number = verdict_number(verdict);
    let next = done.after;
    olt.units[i] = next;
    let groups = head.groups;
    let mac = olt.shared.mac;
    let count = groups.count;
    HeadDone {
        parts: Parts {
            olt,
            mac,
            groups,
            count,
        },
        handed: (),
        number,
    }
}

#[tactic(auto, unfolding(crate::specs::HeadCalls::head_clock_send_of, protocol::specs::OltCalls::clock_send_of, protocol::specs::Lift::outcome, ends::specs::Table::with_unit, ends::specs::Records::with_channels, ends::specs::Table::past_unit, group_protocol::specs::Head::with_olt))]
pub fn clock_send(head: HeadEnd, llid: u16) -> HeadDone<Stamps>
    ensures { result ≡ head_clock_done (head_clock_send_of head llid) }
{
    let mut olt = head.olt;
    let sound = valid_groups(head);
    let at = locate_sound(head.olt, sound, Ok(()), llid);
    let i = at.place;
    let way = at.verdict;
    let unit = olt.units[i];
    let done = calls::clock_send(way, olt.shared, unit);
    let verdict = done.verdict;
    let number = verdict_number(verdict);
    let next = done.after;
    let message = done.handed;
    olt.units[i] = next;
    let groups = head.groups;
    let mac = olt.shared.mac;
    let count = groups.count;
    HeadDone {
        parts: Parts {
            olt,
            mac,
            groups,
            count,
        },
        handed: message,
        number,
    }
}

// To a unit, or to a group, whose members' clocks must all be acknowledged.
#[tactic(auto, unfolding(crate::specs::HeadCalls::head_key_sent, crate::specs::HeadCalls::head_offer_of, protocol::specs::OltCalls::offer_of, protocol::specs::Lift::outcome, ends::specs::Table::with_unit, ends::specs::Records::with_channels, ends::specs::Table::past_unit, group_protocol::specs::Head::with_olt, group_protocol::specs::GroupCalls::group_outcome, group_protocol::specs::Head::past_group, group_protocol::specs::Head::with_group, ends::specs::Table::with_olt_channels, group_protocol::specs::Head::valid_head, octets::specs::Choice::both))]
pub fn offer(head: HeadEnd, llid: u16, key: [u8; 16]) -> HeadDone<KeyMessage>
    ensures { result ≡ head_key_done (head_offer_of head llid key) }
{
    let found = group_named(head, llid);
    let mut olt = head.olt;
    let mut groups = head.groups;
    let sound = valid_groups(head);
    let (verdict, message) = match found {
        None => {
            let at = locate_sound(head.olt, sound, Ok(()), llid);
            let i = at.place;
            let way = at.verdict;
            let unit = olt.units[i];
            let done = calls::offer(way, olt.shared, unit, llid, key);
            let verdict = done.verdict;
            let next = done.after;
            let message = done.handed;
            olt.units[i] = next;
            (verdict, message)
        }
        Some(i) => {
            let way = way_to(head.olt, sound, Ok(()));
            let group = groups.table[i];
            let set = members_set(head.olt, group.members);
            let done = one_group::offer(way, olt.shared, group, set, llid, key);
            let verdict = done.verdict;
            let next = done.after;
            let message = done.handed;
            groups.table[i] = next;
            (verdict, message)
        }
    };
    let number = verdict_number(verdict);
    let mac = olt.shared.mac;
    let count = groups.count;
    HeadDone {
        parts: Parts {
            olt,
            mac,
            groups,
            count,
        },
        handed: message,
        number,
    }
}

// A retry changes nothing. `sound` says that the groups are valid.
#[tactic(auto, unfolding(protocol::specs::OltCalls::retry_of, protocol::specs::Lift::outcome, ends::specs::Table::past_unit))]
fn retry_unit(head: HeadEnd, sound: bool, llid: u16) -> (Verdict, KeyMessage)
    requires { sound ≡ valid_groups head }
    ensures { head_key_sent (record { verdict = result.0; end = head; handed = result.1 }) ≡ olt_key_sent head (retry_of head.olt llid) }
{
    let at = locate_sound(head.olt, sound, Ok(()), llid);
    let olt = head.olt;
    let i = at.place;
    let way = at.verdict;
    let unit = olt.units[i];
    let done = calls::retry(way, olt.shared, unit, llid);
    let verdict = done.verdict;
    let message = done.handed;
    (verdict, message)
}

#[tactic(auto, unfolding(group_protocol::specs::GroupCalls::group_outcome, group_protocol::specs::Head::past_group, group_protocol::specs::Head::valid_head, octets::specs::Choice::both))]
fn retry_group(head: HeadEnd, sound: bool, i: usize, llid: u16) -> (Verdict, KeyMessage)
    requires i_lt_max_units { i < max_units }
    requires sound_value { sound ≡ valid_groups head }
    ensures { head_key_sent (record { verdict = result.0; end = head; handed = result.1 }) ≡ group_retry_of head llid i }
{
    let way = way_to(head.olt, sound, Ok(()));
    let groups = head.groups;
    let group = groups.table[i];
    let done = one_group::retry(way, head.olt.shared, group, llid);
    let verdict = done.verdict;
    let message = done.handed;
    (verdict, message)
}

// The offer's number and key again.
#[tactic(auto, unfolding(crate::specs::HeadCalls::head_key_sent, crate::specs::HeadCalls::head_retry_of))]
pub fn retry(head: HeadEnd, llid: u16) -> HeadDone<KeyMessage>
    ensures { result ≡ head_key_done (head_retry_of head llid) }
{
    let found = group_named(head, llid);
    let sound = valid_groups(head);
    let (verdict, message) = match found {
        None => retry_unit(head, sound, llid),
        Some(i) => retry_group(head, sound, i, llid),
    };
    let number = verdict_number(verdict);
    let olt = head.olt;
    let mac = olt.shared.mac;
    let groups = head.groups;
    let count = groups.count;
    HeadDone {
        parts: Parts {
            olt,
            mac,
            groups,
            count,
        },
        handed: message,
        number,
    }
}

// A unit's own acknowledgement names no unit; one that does fits nothing.
#[tactic(auto, unfolding(crate::specs::HeadCalls::own_acknowledgement, octets::specs::Choice::pick))]
fn own_acknowledgement(answer: Answer) -> Acknowledgement
    ensures { result ≡ own_acknowledgement answer }
{
    if answer.named == 0 {
        return Acknowledgement {
            kind: answer.kind,
            number: answer.number,
        };
    }
    Acknowledgement { kind: 0, number: 0 }
}

// The member that the answer names, by any LLID of its unit.
#[tactic(auto, unfolding(group_protocol::specs::GroupCalls::member_named, octets::specs::Choice::pick, ends::specs::Table::find, group_protocol::specs::GroupCalls::member_found))]
fn member_named(olt: Olt, members: Members, answer: Answer) -> Option<usize>
    ensures { result ≡ member_named olt members answer }
{
    if answer.named != 1 {
        return None;
    }
    let units = olt.units;
    let place = ends::search::find(units, olt.count, answer.unit)?;
    member_at(members, place)
}

// Of a unit, or of a group's member, which the answer names.
#[tactic(auto, unfolding(crate::specs::HeadCalls::head_answer, crate::specs::HeadCalls::head_acknowledge_of, protocol::specs::OltCalls::acknowledge_of, protocol::specs::Lift::outcome, ends::specs::Table::with_unit, ends::specs::Records::with_channels, ends::specs::Table::past_unit, group_protocol::specs::Head::with_olt, group_protocol::specs::GroupCalls::group_outcome, group_protocol::specs::Head::past_group, group_protocol::specs::Head::with_group, ends::specs::Table::with_olt_channels, group_protocol::specs::Head::valid_head, octets::specs::Choice::both))]
pub fn acknowledge(head: HeadEnd, llid: u16, answer: Answer) -> HeadDone<()>
    ensures { result ≡ head_done (head_acknowledge_of head llid answer) }
{
    let found = group_named(head, llid);
    let mut olt = head.olt;
    let mut groups = head.groups;
    let sound = valid_groups(head);
    let verdict = match found {
        None => {
            let own = own_acknowledgement(answer);
            let at = locate_sound(head.olt, sound, Ok(()), llid);
            let i = at.place;
            let way = at.verdict;
            let unit = olt.units[i];
            let done = calls::acknowledge(way, olt.shared, unit, own);
            let next = done.after;
            olt.units[i] = next;
            done.verdict
        }
        Some(i) => {
            let way = way_to(head.olt, sound, Ok(()));
            let group = groups.table[i];
            let member = member_named(head.olt, group.members, answer);
            let done = one_group::acknowledge(way, olt.shared, group, member, answer);
            let next = done.after;
            groups.table[i] = next;
            done.verdict
        }
    };
    let number = verdict_number(verdict);
    let mac = olt.shared.mac;
    let count = groups.count;
    HeadDone {
        parts: Parts {
            olt,
            mac,
            groups,
            count,
        },
        handed: (),
        number,
    }
}
