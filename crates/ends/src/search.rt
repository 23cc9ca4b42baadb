// Which unit of the OLT's table has an LLID (01, Clock: OLT calls name a unit by any of its LLIDs).
ghost use Rattle.std.specs.Prelude.{◌≡◌, not, map, take};
ghost use Rattle.refusal.specs.Number.{verdict_number};
ghost use Rattle.refusal.specs.declared.Refusal.TheVariants.{UnknownLlid};
ghost use Rattle.ends.specs.Identities.{among, llids_of, meets};
ghost use Rattle.refusal.specs.Order.{refuse_if};
ghost use Rattle.ends.specs.Table.{find_from, found_number, table_llids};
ghost use Rattle.refusal.specs.Verdict.{no_refusal};

use crate::in_use::at;
use crate::limits::MAX_UNITS;
use crate::llids::has;
use crate::{Identity, UnitRecord};

// The identity of each unit, by its place. They are gathered, so that the table is not copied to be indexed (D119).
pub fn identities(units: [UnitRecord; MAX_UNITS as usize]) -> [Identity; MAX_UNITS as usize]
    ensures { result ≡ map (λ u. u.identity) units }
{
    let mut r = [units[0].identity; MAX_UNITS as usize];
    for (i, unit) in units.iter().enumerate() {
        r[i] = unit.identity;
    }
    r
}

// Which of the first `count` units has the LLID.
pub fn find(units: [UnitRecord; MAX_UNITS as usize], count: u8, llid: u16) -> Option<usize>
    ensures value { result ≡ find_from 0 (take count units) llid }
    ensures number { found_number result ≡ verdict_number (refuse_if (not (among llid (table_llids (take count units)))) UnknownLlid no_refusal) }
{
    identities(units)
        .iter()
        .take(count as usize)
        .position(|identity| has(*identity, llid))
}

// Whether the two have an LLID in common.
fn shares(a: Identity, b: Identity) -> bool
    ensures { result ≡ meets (llids_of a) (llids_of b) }
{
    (0..usize::from(a.count)).any(|j| has(b, at(&a.llids, j, 0)))
}

// Whether one of the LLIDs is that of a registered unit.
pub fn meets_table(units: [UnitRecord; MAX_UNITS as usize], count: u8, identity: Identity) -> bool
    ensures { result ≡ meets (llids_of identity) (table_llids (take count units)) }
{
    let table = identities(units);
    table
        .iter()
        .take(count as usize)
        .any(|other| shares(identity, *other))
}
