// Which group that a unit joined has an LLID (02, C-14: a unit joins by a call with the group's LLID).
ghost use Rattle.std.specs.Prelude.{◌≡◌, drop, take};
ghost use Rattle.ends.specs.Identities.{among};
ghost use Rattle.group_protocol.specs.Members.{place_from};
ghost use Rattle.group_protocol.specs.Subscriber.{joined_llids};

use group_protocol::{Joined, MAX_JOINED};

// Which of the first `count` groups has the LLID, from place `from` on.
#[tactic(auto, using(crate::proofs::JoinedGroups::joined_next, crate::proofs::JoinedGroups::joined_last), unfolding(octets::specs::Choice::pick, group_protocol::specs::Subscriber::past_joined))]
pub fn find_joined(
    table: [Joined; MAX_JOINED as usize],
    from: usize,
    count: u8,
    llid: u16,
) -> Option<usize>
    ensures { result ≡ place_from from (joined_llids (drop from (take count table))) llid }
{
    for i in from..count.min(MAX_JOINED) as usize {
        if table[i].llid == llid {
            return Some(i);
        }
    }
    None
}

// Whether one of the first `count` groups has the LLID, from place `from` on.
#[tactic(auto, using(group_protocol::proofs::Places::place_among, group_protocol::proofs::Places::place_absent))]
pub fn has_joined(table: [Joined; MAX_JOINED as usize], from: usize, count: u8, llid: u16) -> bool
    ensures { result ≡ among llid (joined_llids (drop from (take count table))) }
{
    find_joined(table, from, count, llid).is_some()
}
