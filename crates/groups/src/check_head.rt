// Whether the groups of a head end that is lent are valid (02, C-14; 01, 'When the reader says no': Ahead of each list comes 1).
ghost use Rattle.std.specs.Prelude.{◌≡◌, ◌≤◌, take};
ghost use Rattle.octets.specs.Lists.{all};
ghost use Rattle.ends.specs.Identities.{meets};
ghost use Rattle.ends.specs.Limits.{max_units};
ghost use Rattle.ends.specs.Table.{table_llids};
ghost use Rattle.group_protocol.specs.Head.{valid_group, valid_groups};

use crate::membership::valid_members;
use crate::search::{has_one, llids_of};
use ends::UnitRecord;
use ends::check_olt::{all_distinct, valid_timer};
use ends::limits::MAX_UNITS;
use ends::search::identities;
use ends::sends::valid_first;
use group_protocol::{GroupRecord, HeadEnd, MAX_GROUPS};

// At that tick, of an OLT with that many units.
#[tactic(auto, unfolding(group_protocol::specs::Head::valid_group, ends::specs::Validity::valid_keys, group_protocol::specs::Head::valid_group_numbers, octets::specs::Choice::both))]
pub fn valid_group(tick: u64, units: u8, group: GroupRecord) -> bool
    ensures { result ≡ valid_group tick units group }
{
    let members = valid_members(units, group.members);
    let timer = valid_timer(group.keys.timer);
    let first = valid_first(group.keys.first, tick);
    let active = group.keys.active as u64;
    let offered = group.keys.offered as u64;
    members & ((timer & first) & ((active <= offered) & (offered <= active + 1)))
}

fn all_valid(table: [GroupRecord; MAX_GROUPS as usize], count: u8, tick: u64, units: u8) -> bool
    requires { count ≤ max_units }
    ensures { result ≡ all (valid_group tick units) (take count table) }
{
    table[..count as usize]
        .iter()
        .all(|group| valid_group(tick, units, *group))
}

// Whether a registered unit has one of the LLIDs.
fn meet_units(list: &[u16], units: [UnitRecord; MAX_UNITS as usize], n: u8) -> bool
    requires { n ≤ max_units }
    ensures { result ≡ meets list.now (table_llids (take n units)) }
{
    identities(units)[..n as usize]
        .iter()
        .any(|identity| has_one(*identity, list))
}

// The groups alone. Without one there is next to nothing to do. Their LLIDs are gathered, so that the two tables are not both at hand at once (D119).
#[tactic(auto, using(group_protocol::proofs::Llids::llids_first), unfolding(group_protocol::specs::Head::valid_groups, octets::specs::Choice::both, octets::specs::Lists::all, group_protocol::specs::Head::group_llids, group_protocol::specs::Head::apart_llids, ends::specs::Identities::distinct, ends::specs::Identities::meets))]
pub fn valid_groups(head: HeadEnd) -> bool
    ensures { result ≡ valid_groups head }
{
    let count = head.groups.count;
    let units = head.olt.count;
    if (MAX_UNITS as u64) < units as u64 + count as u64 {
        return false;
    }
    if count == 0 {
        return true;
    }
    let table = head.groups.table;
    let valid = all_valid(table, count, head.olt.shared.tick, units);
    let llids = llids_of(table);
    let n = count as usize;
    let distinct = all_distinct(&llids[..n]);
    let registered = head.olt.units;
    let met = meet_units(&llids[..n], registered, units);
    valid & (distinct & !met)
}
