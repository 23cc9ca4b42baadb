// New groups (02, C-14).
ghost use Rattle.std.specs.Prelude.{◌≡◌};
ghost use Rattle.group_protocol.specs.Head.{fresh_group, no_group, no_groups};

use crate::membership::fresh_members;
use ends::{FirstSend, Slots, Timer, UnitKeys};
use group_protocol::{GroupRecord, Groups, MAX_GROUPS, MAX_MEMBERS, Members};

// Numbers 0, the flag down.
#[tactic(auto, unfolding(group_protocol::specs::Head::fresh_group, ends::specs::Timers::fresh_timer))]
pub fn fresh_group(llid: u16, interval: u64, members: Members) -> GroupRecord
    ensures { result ≡ fresh_group llid interval members }
{
    let timer = Timer {
        interval,
        count: 0,
        flag: 0,
    };
    let slots = Slots {
        even: [0; 16],
        odd: [0; 16],
    };
    let first = FirstSend { noted: 0, at: 0 };
    let keys = UnitKeys {
        timer,
        active: 0,
        offered: 0,
        slots,
        first,
    };
    GroupRecord {
        keys,
        members,
        llid,
    }
}

#[tactic(auto, unfolding(group_protocol::specs::Head::no_group, group_protocol::specs::Members::fresh_members, octets::specs::Choice::pick))]
fn no_group() -> GroupRecord
    ensures { result ≡ no_group }
{
    let members = fresh_members([0; MAX_MEMBERS as usize], 0);
    fresh_group(0, 0, members)
}

#[tactic(auto, unfolding(group_protocol::specs::Head::no_groups))]
pub fn no_groups() -> Groups
    ensures { result ≡ no_groups }
{
    let group = no_group();
    let table = [group; MAX_GROUPS as usize];
    Groups { count: 0, table }
}
