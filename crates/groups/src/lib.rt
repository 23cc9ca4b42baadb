// Groups at both ends (02, C-14): whether their records are valid, and the calls on one group. The records and the definitions are those of
// `group_protocol`.

#![tactic(auto)]

pub mod check_head;
pub mod check_subscriber;
pub mod joined_calls;
pub mod joined_search;
pub mod making;
pub mod membership;
pub mod one_group;
pub mod search;
pub mod sending;

use ends::Channels;
use group_protocol::GroupRecord;
use protocol::Sending;
use refusal::Verdict;

// What a send on one group decides. Refused, the group is the one that was there.
#[derive(Clone, Copy)]
pub struct GroupSent {
    pub verdict: Verdict,
    pub group: GroupRecord,
    pub channels: Channels,
    pub sending: Sending,
}
