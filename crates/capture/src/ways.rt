// The verdict on a record in the usual way, or in the near one, with a receive clock that is known only nearly (02, C-18).
ghost use Rattle.std.specs.Prelude.{◌≡◌};
ghost use Rattle.records.specs.Following.{drift_at};
ghost use Rattle.reading.specs.Reading.{verdict_by};

use records::block::header_at;
use records::header::{RecordVerdict, verdict_for};
use records::near::{Drift, judge, no_drift};

// The corrections before record i.
#[tactic(auto, unfolding(records::specs::Following::drift_at, records::specs::Near::judged))]
fn drift_before(settings: &[u8], block: &[u8], i: u16) -> Drift
    ensures { result ≡ drift_at settings.now block.now i }
{
    let mut drift = no_drift();
    for j in 0..i {
        drift = judge(true, settings, drift, header_at(block, j)).drift;
    }
    drift
}

// The verdict on record i: in the near way the records before it are read for their corrections.
#[tactic(auto, unfolding(records::specs::Following::near_verdict, records::specs::Near::judged, octets::specs::Choice::pick))]
pub(crate) fn verdict_by(near: bool, settings: &[u8], block: &[u8], i: u16) -> RecordVerdict
    ensures { result ≡ verdict_by near settings.now block.now i }
{
    if near {
        let drift = drift_before(settings, block, i);
        judge(true, settings, drift, header_at(block, i)).verdict
    } else {
        verdict_for(settings, header_at(block, i))
    }
}
