// The key calls of the OLT on one group (02, C-14). A group stands for the calls of a unit as one whose C is A, whose offer is
// acknowledged and whose clock is acknowledged where every member's is, so that what decides on a unit's keys decides on a group's.
ghost use Rattle.std.specs.Prelude.{◌≡◌};
ghost use Rattle.octets.specs.Choice.{pick};
ghost use Rattle.protocol.specs.Messages.{no_key_message};
ghost use Rattle.protocol.specs.Replies.{silent};
ghost use Rattle.group_protocol.specs.AsUnit.{as_unit};
ghost use Rattle.group_protocol.specs.GroupCalls.{acknowledge_group, group_acknowledge_verdict, group_marked, group_outcome, offer_group, retry_group};
ghost use Rattle.groups.specs.Reached.{reached_group};

use crate::membership;
use crate::search::is_found;
use ends::limits::MAX_LLIDS;
use ends::{Confirmation, Identity, Shared, UnitClock, UnitRecord};
use group_protocol::{Answer, GroupRecord};
use protocol::{CLOCK_KIND, KEY_KIND, KeyMessage};
use refusal::{Refusal, Verdict, and_then};
use unit::{Decided, calls};

#[tactic(auto, unfolding(octets::specs::Choice::pick))]
fn flag_of(up: bool) -> u8
    ensures { result ≡ pick up 1 0 }
{
    if up {
        return 1;
    }
    0
}

// `set` says that every member's clock is acknowledged.
#[tactic(auto, unfolding(group_protocol::specs::AsUnit::as_unit))]
pub(crate) fn as_unit(group: GroupRecord, set: bool) -> UnitRecord
    ensures { result ≡ as_unit group set }
{
    let identity = Identity {
        mac: 0,
        llids: [0; MAX_LLIDS as usize],
        count: 0,
    };
    let keys = group.keys;
    let confirmation = Confirmation {
        confirmed: keys.active,
        acknowledged: 1,
    };
    let clock = UnitClock {
        trip: 0,
        captured: 0,
        tick: 0,
        sent: 0,
        acknowledged: flag_of(set),
    };
    UnitRecord {
        identity,
        keys,
        confirmation,
        clock,
    }
}

// A new offer clears all marks.
#[tactic(auto, using(crate::proofs::OneGroup::offer_reached), unfolding(unit::specs::Reached::if_accepted, group_protocol::specs::GroupCalls::group_outcome, protocol::specs::Lift::outcome))]
pub fn offer(
    way: Verdict,
    shared: Shared,
    group: GroupRecord,
    set: bool,
    llid: u16,
    key: [u8; 16],
) -> Decided<GroupRecord, KeyMessage>
    ensures { group_outcome shared result.verdict result.after result.handed
        ≡ reached_group way no_key_message shared group (offer_group llid key set shared group) }
{
    let unit = as_unit(group, set);
    let done = calls::offer(way, shared, unit, llid, key);
    let message = done.handed;
    match done.verdict {
        Err(refusal) => Decided::refused(refusal, group, message),
        Ok(()) => {
            let keys = done.after.keys;
            let members = membership::unmarked(group.members);
            let next = GroupRecord {
                keys,
                members,
                llid: group.llid,
            };
            Decided {
                verdict: Ok(()),
                after: next,
                handed: message,
            }
        }
    }
}

// The offer's number and key again.
#[tactic(auto, using(crate::proofs::OneGroup::retry_reached), unfolding(group_protocol::specs::GroupCalls::group_outcome, protocol::specs::Lift::outcome))]
pub fn retry(
    way: Verdict,
    shared: Shared,
    group: GroupRecord,
    llid: u16,
) -> Decided<GroupRecord, KeyMessage>
    ensures { group_outcome shared result.verdict result.after result.handed
        ≡ reached_group way no_key_message shared group (retry_group llid shared group) }
{
    let unit = as_unit(group, true);
    let done = calls::retry(way, shared, unit, llid);
    Decided {
        verdict: done.verdict,
        after: group,
        handed: done.handed,
    }
}

#[tactic(auto, unfolding(group_protocol::specs::GroupCalls::group_acknowledge_verdict, refusal::specs::Order::refuse_if, group_protocol::specs::GroupCalls::answers_offer, octets::specs::Choice::both))]
fn acknowledge_verdict(answer: Answer, member: Option<usize>, group: GroupRecord) -> Verdict
    ensures { result ≡ group_acknowledge_verdict answer member group.keys }
{
    let some = is_found(member);
    let number = answer.number;
    let answers = (answer.kind == KEY_KIND) & ((1 <= number) & (number == group.keys.offered));
    if answer.kind == CLOCK_KIND {
        return Err(Refusal::UnknownLlid);
    }
    if !(some & answers) {
        return Err(Refusal::NothingOutstanding);
    }
    Ok(())
}

#[tactic(auto, unfolding(group_protocol::specs::GroupCalls::group_marked, group_protocol::specs::Head::with_members))]
fn marked(group: GroupRecord, member: Option<usize>) -> GroupRecord
    ensures { result ≡ group_marked group member }
{
    match member {
        None => group,
        Some(j) => {
            let members = membership::marked(group.members, j);
            let mut r = group;
            r.members = members;
            r
        }
    }
}

// `member` is the one that the answer names.
#[tactic(auto, unfolding(unit::specs::Reached::if_accepted, group_protocol::specs::GroupCalls::acknowledge_group))]
pub fn acknowledge(
    way: Verdict,
    shared: Shared,
    group: GroupRecord,
    member: Option<usize>,
    answer: Answer,
) -> Decided<GroupRecord, ()>
    ensures { group_outcome shared result.verdict result.after silent
        ≡ reached_group way silent shared group (acknowledge_group answer member shared group) }
{
    let verdict = and_then(way, acknowledge_verdict(answer, member, group));
    match verdict {
        Err(refusal) => Decided::refused(refusal, group, ()),
        Ok(()) => Decided {
            verdict: Ok(()),
            after: marked(group, member),
            handed: (),
        },
    }
}
