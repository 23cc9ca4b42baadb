// The group or unit that a call on a head end names (02, C-14).
ghost use Rattle.std.specs.Prelude.{◌≡◌, ℕ, ◌<◌, eqb, Some};
ghost use Rattle.octets.specs.Choice.{both, either};
ghost use Rattle.ends.specs.Limits.{max_units};
ghost use Rattle.ends.specs.Validity.{valid_olt};
ghost use Rattle.protocol.specs.Replies.{on_valid};
ghost use Rattle.olt.specs.Lookup.{located_of};
ghost use Rattle.group_protocol.specs.Head.{find_group, valid_groups};

use ends::Olt;
use ends::check_olt::valid_olt;
use group_protocol::HeadEnd;
use groups::check_head::valid_groups;
use olt::Located;
use olt::place::locate;
use refusal::{Refusal, Verdict, refuse_if};

// The group that has the LLID. It is looked for in the end itself, so that a call hands that over as it lies.
pub(crate) fn group_named(head: HeadEnd, llid: u16) -> Option<usize>
    ensures value { result ≡ find_group head llid }
    ensures place { (i : ℕ) → result ≡ Some i → i < max_units }
{
    head.groups
        .table
        .iter()
        .take(head.groups.count as usize)
        .position(|group| group.llid == llid)
}

// Whether the groups of a valid OLT are valid. Without one nothing is copied for that.
#[tactic(auto, unfolding(octets::specs::Choice::either))]
pub(crate) fn sound_groups(head: HeadEnd) -> bool
    ensures { result ≡ either (eqb head.groups.count 0) (valid_groups head) }
{
    if head.groups.count == 0 {
        return true;
    }
    let whole = head;
    valid_groups(whole)
}

// The unit that has the LLID: 1 for an OLT that is not valid or groups that are not sound, then what the call refuses ahead of 2, then 2.
pub(crate) fn locate_sound(olt: Olt, sound: bool, ahead: Verdict, llid: u16) -> Located
    ensures value { result ≡ located_of olt (on_valid sound ahead) llid }
    ensures place { result.place < max_units }
{
    let guarded = refuse_if(!sound, Refusal::OutOfRange, ahead);
    locate(olt, guarded, llid)
}

// The way to a group: 1 for an OLT that is not valid or groups that are not sound, then what the call refuses ahead of 2.
#[tactic(auto, unfolding(refusal::specs::Order::refuse_if, octets::specs::Choice::both))]
pub(crate) fn way_to(olt: Olt, sound: bool, ahead: Verdict) -> Verdict
    ensures { result ≡ on_valid (both (valid_olt olt) sound) ahead }
{
    if !(valid_olt(olt) & sound) {
        return Err(Refusal::OutOfRange);
    }
    ahead
}
