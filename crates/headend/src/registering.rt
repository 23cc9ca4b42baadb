// What registrations with a head end refuse, and the members that one of a group names (02, C-14).
ghost use Rattle.std.specs.Prelude.{◌≡◌, ◌<◌};
ghost use Rattle.ends.specs.Limits.{max_units};
ghost use Rattle.ends.specs.Table.{find};
ghost use Rattle.protocol.specs.Replies.{on_valid};
ghost use Rattle.group_protocol.specs.Head.{find_group, with_one_group_more};
ghost use Rattle.group_protocol.specs.declared.HeadEnd.{HeadEnd};
ghost use Rattle.headend.specs.HeadCalls.{group_verdict, place_found, roster_members, unit_verdict};

use clock::MAX_ROUND_TRIP;
use ends::check_olt::valid_interval;
use ends::limits::MAX_UNITS;
use ends::llids::{distinct_llids, valid_identity};
use ends::search::{find, meets_table};
use ends::{Identity, Olt};
use group_protocol::{GroupRecord, HeadEnd, Members, Roster};
use groups::membership::{fresh_members, valid_members};
use groups::search::{groups_meet, is_found, is_registered};
use refusal::{Refusal, Verdict};

// 1 for an end that is not `valid`, then a unit's own 1, 3 and 4.
#[tactic(auto, unfolding(crate::specs::HeadCalls::unit_verdict, refusal::specs::Order::refuse_if, protocol::specs::OltCalls::valid_registration, octets::specs::Choice::both, octets::specs::Choice::either))]
pub(crate) fn unit_verdict(
    head: HeadEnd,
    valid: bool,
    identity: Identity,
    trip: u64,
    interval: u64,
) -> Verdict
    ensures { result ≡ on_valid valid (unit_verdict head identity trip interval) }
{
    if !valid {
        return Err(Refusal::OutOfRange);
    }
    let who = valid_identity(identity);
    let when = valid_interval(interval);
    if !(who & ((trip <= MAX_ROUND_TRIP) & when)) {
        return Err(Refusal::OutOfRange);
    }
    let units = head.olt.units;
    let met = meets_table(units, head.olt.count, identity);
    let table = head.groups.table;
    let grouped = groups_meet(table, head.groups.count, identity);
    if (!distinct_llids(identity) | met) | grouped {
        return Err(Refusal::RepeatedLlid);
    }
    if MAX_UNITS as u64 <= head.olt.count as u64 + head.groups.count as u64 {
        return Err(Refusal::TableFull);
    }
    Ok(())
}

// The place of the unit that has the LLID, or one past the table.
#[tactic(auto, unfolding(ends::specs::Table::find, crate::specs::HeadCalls::place_found))]
fn place_of(olt: Olt, llid: u16) -> u8
    ensures { result ≡ place_found (find olt llid) }
{
    let units = olt.units;
    let found = find(units, olt.count, llid);
    match found {
        Some(i) => i as u8,
        None => MAX_UNITS,
    }
}

pub(crate) fn roster_members(olt: Olt, roster: Roster) -> Members
    ensures { result ≡ roster_members olt roster }
{
    let llids = roster.llids;
    let places = [
        place_of(olt, llids[0]),
        place_of(olt, llids[1]),
        place_of(olt, llids[2]),
        place_of(olt, llids[3]),
        place_of(olt, llids[4]),
        place_of(olt, llids[5]),
        place_of(olt, llids[6]),
        place_of(olt, llids[7]),
    ];
    fresh_members(places, roster.count)
}

// 1 for an end that is not `valid`, then a group's own 1, 21, 3 and 4. `found` is the group that has the LLID already.
#[tactic(auto, using(group_protocol::proofs::Llids::found_among), unfolding(crate::specs::HeadCalls::group_verdict, refusal::specs::Order::refuse_if, crate::specs::HeadCalls::valid_group_registration, group_protocol::specs::Head::find_group, octets::specs::Choice::both, octets::specs::Choice::either))]
pub(crate) fn group_verdict(
    head: HeadEnd,
    valid: bool,
    found: Option<usize>,
    llid: u16,
    interval: u64,
    members: Members,
) -> Verdict
    requires { found ≡ find_group head llid }
    ensures { result ≡ on_valid valid (group_verdict head llid interval members) }
{
    if !valid {
        return Err(Refusal::OutOfRange);
    }
    if !((1 <= members.count) & valid_interval(interval)) {
        return Err(Refusal::OutOfRange);
    }
    if !valid_members(head.olt.count, members) {
        return Err(Refusal::BadMember);
    }
    let units = head.olt.units;
    if is_registered(units, head.olt.count, llid) | is_found(found) {
        return Err(Refusal::RepeatedLlid);
    }
    if MAX_UNITS as u64 <= head.olt.count as u64 + head.groups.count as u64 {
        return Err(Refusal::TableFull);
    }
    Ok(())
}

// One group more, in the first place that is not in use.
#[tactic(auto, unfolding(group_protocol::specs::Head::with_one_group_more))]
pub(crate) fn with_one_group_more(head: HeadEnd, group: GroupRecord) -> HeadEnd
    requires { head.groups.count < max_units }
    ensures { result ≡ with_one_group_more head group }
{
    let mut groups = head.groups;
    let place = groups.count as usize;
    groups.table[place] = group;
    groups.count = head.groups.count + 1;
    let mut r = head;
    r.groups = groups;
    r
}
