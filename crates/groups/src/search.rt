// Whether a unit of the OLT's table has an LLID, and whether a group has one of a unit's (02, C-14).
ghost use Rattle.std.specs.Prelude.{◌≡◌, take};
ghost use Rattle.ends.specs.Identities.{among, llids_of, meets};
ghost use Rattle.ends.specs.Table.{table_llids};
ghost use Rattle.group_protocol.specs.GroupCalls.{is_found};
ghost use Rattle.group_protocol.specs.Head.{group_llids};

use ends::limits::MAX_UNITS;
use ends::llids::has;
use ends::search::find;
use ends::{Identity, UnitRecord};
use group_protocol::{GroupRecord, MAX_GROUPS};
use std::array;

#[tactic(auto, unfolding(group_protocol::specs::GroupCalls::is_found))]
pub fn is_found(found: Option<usize>) -> bool
    ensures { result ≡ is_found found }
{
    found.is_some()
}

#[tactic(auto, using(ends::proofs::Table::among_found, ends::proofs::Table::among_nowhere), unfolding(group_protocol::specs::GroupCalls::is_found))]
pub fn is_registered(units: [UnitRecord; MAX_UNITS as usize], count: u8, llid: u16) -> bool
    ensures { result ≡ among llid (table_llids (take count units)) }
{
    is_found(find(units, count, llid))
}

// The LLID of each group, by its place. They are gathered, so that the table is not copied to be indexed (D119).
#[tactic(auto, unfolding(group_protocol::specs::Head::group_llids))]
pub(crate) fn llids_of(table: [GroupRecord; MAX_GROUPS as usize]) -> [u16; MAX_GROUPS as usize]
    ensures { result ≡ group_llids table }
{
    array::from_fn(|i| table[i].llid)
}

// Whether the unit has one of the LLIDs.
pub(crate) fn has_one(identity: Identity, list: &[u16]) -> bool
    ensures { result ≡ meets list.now (llids_of identity) }
{
    list.iter().any(|llid| has(identity, *llid))
}

// Whether one of the LLIDs is that of a group.
pub fn groups_meet(table: [GroupRecord; MAX_GROUPS as usize], count: u8, identity: Identity) -> bool
    ensures { result ≡ meets (group_llids (take count table)) (llids_of identity) }
{
    let used = count.min(MAX_GROUPS) as usize;
    has_one(identity, &llids_of(table)[..used])
}
