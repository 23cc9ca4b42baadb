// A unit's MAC and its LLIDs (01, Keys). A place past the fourth counts as zero, so that every count has an answer.
ghost use Rattle.std.specs.Prelude.{◌≡◌};
ghost use Rattle.ends.specs.Identities.{distinct, has, kept, llids_of, valid_identity, valid_mac};

use crate::limits::{MAC_TURN, MAX_LLIDS};
use crate::{Identity, in_use};
use std::array;

#[tactic(auto, unfolding(crate::specs::Identities::valid_mac))]
pub fn valid_mac(mac: u64) -> bool
    ensures { result ≡ valid_mac mac }
{
    mac < MAC_TURN
}

#[tactic(auto, unfolding(crate::specs::Identities::valid_identity, octets::specs::Choice::both))]
pub fn valid_identity(identity: Identity) -> bool
    ensures { result ≡ valid_identity identity }
{
    valid_mac(identity.mac) & (1 <= identity.count) & (identity.count <= MAX_LLIDS)
}

#[tactic(auto, using(crate::proofs::Words::among_any), unfolding(crate::specs::Identities::has, crate::specs::Identities::llids_of))]
pub fn has(identity: Identity, llid: u16) -> bool
    ensures { result ≡ has identity llid }
{
    in_use::has(&identity.llids, identity.count, 0, llid)
}

#[tactic(auto, using(crate::proofs::Counted::distinct_numbers), unfolding(crate::specs::Identities::llids_of))]
pub fn distinct_llids(identity: Identity) -> bool
    ensures { result ≡ distinct (llids_of identity) }
{
    in_use::distinct(&identity.llids, identity.count, 0)
}

// The identity as it is kept: zeros in the places past the count.
#[tactic(auto, unfolding(crate::specs::Identities::kept))]
pub fn kept_identity(identity: Identity) -> Identity
    ensures { result ≡ kept identity }
{
    let Identity { mac, llids, count } = identity;
    Identity {
        mac,
        llids: array::from_fn(|j| in_use::used(&llids, count, 0, j)),
        count,
    }
}
