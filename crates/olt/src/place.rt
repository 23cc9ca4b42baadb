// The unit that a call names.
ghost use Rattle.std.specs.Prelude.{◌≡◌, ◌<◌};
ghost use Rattle.ends.specs.Limits.{max_units};
ghost use Rattle.olt.specs.Lookup.{locate_order, located_after, located_of};

use crate::Located;
use ends::Olt;
use ends::check_olt::judge;
use refusal::{Refusal, Verdict, refuse_if};

#[tactic(auto, unfolding(crate::specs::Lookup::located_after))]
fn located_after(way: Verdict, found: Option<usize>) -> Located
    ensures { result ≡ located_after way found }
{
    match way {
        Err(refusal) => Located {
            verdict: Err(refusal),
            place: 0,
        },
        Ok(()) => match found {
            Some(i) => Located {
                verdict: Ok(()),
                place: i,
            },
            None => Located {
                verdict: Err(Refusal::UnknownLlid),
                place: 0,
            },
        },
    }
}

// The end is judged and the unit found in one pass; the record comes by value (D119).
#[tactic(auto, using(crate::proofs::Lookup::located_below, crate::proofs::Lookup::located_judged, crate::proofs::Lookup::located_ordered), unfolding(ends::specs::Validity::judged, ends::specs::Validity::judged_of, crate::specs::Lookup::located_of))]
pub fn locate(olt: Olt, ahead: Verdict, llid: u16) -> Located
    ensures value { result ≡ located_of olt ahead llid }
    ensures order { result.verdict ≡ locate_order olt ahead llid }
    ensures place { result.place < max_units }
{
    let judged = judge(olt, llid);
    let found = judged.found;
    let way = refuse_if(!judged.valid, Refusal::OutOfRange, ahead);
    located_after(way, found)
}
