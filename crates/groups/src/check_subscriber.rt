// Whether a lent subscriber is valid: each test is a cause of 1 (02, C-14; 01, 'When the reader says no': Ahead of each list comes 1).
ghost use Rattle.std.specs.Prelude.{◌≡◌, drop, take};
ghost use Rattle.ends.specs.Identities.{llids_of};
ghost use Rattle.group_protocol.specs.Subscriber.{fits_before, valid_groups_of, valid_joined, valid_memberships, valid_subscriber};

use ends::Identity;
use ends::check_onu::{valid_onu, valid_onu_keys};
use ends::llids::has;
use group_protocol::{Joined, MAX_JOINED, Subscriber};

#[tactic(auto, unfolding(group_protocol::specs::Subscriber::valid_joined, octets::specs::Choice::both, octets::specs::Choice::either))]
pub fn valid_joined(joined: Joined) -> bool
    ensures { result ≡ valid_joined joined }
{
    let keys = valid_onu_keys(joined.keys);
    keys & ((joined.kept <= 1) & ((joined.kept == 0) | (1 <= joined.keys.active)))
}

// Whether the group is valid, and its LLID neither that of a later one nor one of the unit's own.
#[tactic(auto, unfolding(group_protocol::specs::Subscriber::fits_before, ends::specs::Identities::has, octets::specs::Choice::both))]
fn fits_before(joined: Joined, others: &[Joined], identity: Identity) -> bool
    ensures { result ≡ fits_before (llids_of identity) joined others.now }
{
    let valid = valid_joined(joined);
    let again = others.iter().any(|other| other.llid == joined.llid);
    let own = has(identity, joined.llid);
    valid & (!again & !own)
}

// The groups of a unit.
#[tactic(auto, using(crate::proofs::JoinedGroups::groups_next, crate::proofs::JoinedGroups::groups_last), unfolding(octets::specs::Choice::both, group_protocol::specs::Subscriber::past_joined))]
fn valid_groups_of(groups: &[Joined], identity: Identity) -> bool
    ensures { result ≡ valid_groups_of (llids_of identity) groups.now }
{
    for (i, joined) in groups.iter().enumerate() {
        if !fits_before(*joined, &groups[i + 1..], identity) {
            return false;
        }
    }
    true
}

#[tactic(auto, unfolding(group_protocol::specs::Subscriber::valid_memberships, octets::specs::Choice::both))]
pub fn valid_memberships(subscriber: Subscriber) -> bool
    ensures { result ≡ valid_memberships subscriber }
{
    let count = subscriber.memberships.count;
    let table = subscriber.memberships.table;
    let used = count.min(MAX_JOINED) as usize;
    let groups = valid_groups_of(&table[..used], subscriber.onu.identity);
    (count <= MAX_JOINED) & groups
}

#[tactic(auto, unfolding(group_protocol::specs::Subscriber::valid_subscriber, octets::specs::Choice::both))]
pub fn valid_subscriber(subscriber: Subscriber) -> bool
    ensures { result ≡ valid_subscriber subscriber }
{
    let unit = valid_onu(subscriber.onu);
    let groups = valid_memberships(subscriber);
    unit & groups
}
