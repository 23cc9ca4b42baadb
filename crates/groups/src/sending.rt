// Send of the OLT on one group: the verdict, the record after, and what the payload passes under (02, C-14).
ghost use Rattle.std.specs.Prelude.{◌≡◌, ◌≤◌};
ghost use Rattle.octets.specs.Choice.{pick};
ghost use Rattle.octets.specs.Eqs.{max_eqs};
ghost use Rattle.clock.specs.Ticks.{max_tick};
ghost use Rattle.ends.specs.Keys.{only_key};
ghost use Rattle.ends.specs.Records.{with_slots};
ghost use Rattle.ends.specs.declared.UnitKeys.{UnitKeys};
ghost use Rattle.protocol.specs.Headers.{no_sending};
ghost use Rattle.group_protocol.specs.GroupCalls.{send_group, wiped_at_switch};
ghost use Rattle.groups.specs.Reached.{group_sent_outcome, reached_group};
ghost use Rattle.refusal.specs.Verdict.{no_refusal};

use crate::GroupSent;
use crate::one_group::as_unit;
use ends::keyslots::only_key;
use ends::{Shared, UnitKeys};
use group_protocol::GroupRecord;
use protocol::KeyChoice;
use refusal::Verdict;
use unit::unit_traffic;

// Whether the send switches.
#[tactic(auto, unfolding(octets::specs::Choice::pick, group_protocol::specs::GroupCalls::wiped_at_switch))]
fn is_next(choice: KeyChoice) -> bool
    ensures { (k : UnitKeys) → wiped_at_switch choice k ≡ pick result (with_slots k (only_key k.slots k.active)) k }
{
    match choice {
        KeyChoice::Clear => false,
        KeyChoice::Current(_) => false,
        KeyChoice::Next(_) => true,
        KeyChoice::Barred(_) => false,
    }
}

// At the switch the old key is wiped.
#[tactic(auto, using(octets::proofs::Choice::pick_true, octets::proofs::Choice::pick_false), unfolding(ends::specs::Records::with_slots))]
fn wiped(choice: KeyChoice, keys: UnitKeys) -> UnitKeys
    ensures { result ≡ wiped_at_switch choice keys }
{
    if is_next(choice) {
        let slots = only_key(keys.slots, keys.active);
        let mut r = keys;
        r.slots = slots;
        return r;
    }
    keys
}

// 12, 13. A valid end's tick and a payload that fits are what the way to the group has judged.
#[tactic(auto, using(crate::proofs::OneGroup::send_reached), unfolding(crate::specs::Reached::group_sent_outcome, unit::specs::Reached::sent_outcome, unit::specs::Reached::unit_sent, ends::specs::Records::with_keys, group_protocol::specs::AsUnit::as_unit, group_protocol::specs::Head::with_group_keys))]
pub fn send(
    way: Verdict,
    shared: Shared,
    group: GroupRecord,
    llid: u16,
    channel: u8,
    eqs: u64,
) -> GroupSent
    ensures { (way ≡ no_refusal → (shared.tick ≤ max_tick) × (eqs ≤ max_eqs)) → group_sent_outcome result
        ≡ reached_group way no_sending shared group (send_group llid channel eqs shared group) }
{
    let unit = as_unit(group, true);
    let done = unit_traffic::send(way, shared, unit, llid, channel, eqs);
    let verdict = done.verdict;
    let channels = done.channels;
    let sending = done.sending;
    let passage = sending.passage;
    let choice = passage.choice;
    let mut after = group.keys;
    after.timer.flag = done.flag;
    after.active = done.active;
    after.first.noted = done.noted;
    after.first.at = done.at;
    let keys = wiped(choice, after);
    let mut next = group;
    next.keys = keys;
    GroupSent {
        verdict,
        group: next,
        channels,
        sending,
    }
}
