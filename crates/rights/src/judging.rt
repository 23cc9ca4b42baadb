// The verdict on a record for a user: hidden, 1, 10, seen, 9.
ghost use Rattle.std.specs.Prelude.{◌≡◌};
ghost use Rattle.rights.specs.Settings.{set_of, set_for, rights_on};
ghost use Rattle.rights.specs.Judging.{seen_as, told_to, judged_for};

use crate::settings::{Caller, may_open, may_see, rights_at, set_at, set_for};
use records::header::{Access, Header, RecordVerdict};
use records::near::{Drift, Heard, judge};
use refusal::Refusal;

// What a user is told of a record.
#[derive(Clone, Copy)]
pub enum ClassVerdict {
    // nothing but that it is there
    Hidden,
    // its header, the payload staying as it is
    Seen,
    // all that document 01's reader tells
    Told(RecordVerdict),
}

// A record that may be seen but not opened: 1 and 10 are told, and 9 is not asked.
#[tactic(auto, unfolding(crate::specs::Judging::seen_as, octets::specs::Choice::pick))]
fn seen_as(verdict: RecordVerdict) -> ClassVerdict
    ensures { result ≡ seen_as verdict }
{
    match verdict {
        Ok(Access::Clear) | Ok(Access::Sealed(_, _)) | Err(Refusal::NoKey) => ClassVerdict::Seen,
        Err(_) => ClassVerdict::Told(verdict),
    }
}

#[tactic(auto, unfolding(crate::specs::Judging::told_to, octets::specs::Choice::pick))]
fn told_to(right: u8, verdict: RecordVerdict) -> ClassVerdict
    ensures { result ≡ told_to right verdict }
{
    if may_open(right) {
        return ClassVerdict::Told(verdict);
    }
    seen_as(verdict)
}

// The verdict on a record by its header, for a user with this right on its LLID, whose set this is; in the near way or the usual one.
#[tactic(auto, unfolding(crate::specs::Judging::judged_for, octets::specs::Choice::pick))]
pub fn judge_for(near: bool, right: u8, set: &[u8], drift: Drift, h: Header) -> Heard<ClassVerdict>
    ensures { result ≡ judged_for near right set.now drift h }
{
    if !may_see(right) {
        let verdict = ClassVerdict::Hidden;
        return Heard { verdict, drift };
    }
    let heard = judge(near, set, drift, h);
    Heard {
        verdict: told_to(right, heard.verdict),
        drift: heard.drift,
    }
}

// The verdict on a record for the user who asks, by the rights on its LLID and the set of that.
pub fn judge_in(
    near: bool,
    caller: Caller,
    sets: &[u8],
    rights: &[u8],
    drift: Drift,
    h: Header,
) -> Heard<ClassVerdict>
    ensures { result
        ≡ judged_for near (rights_on caller sets.now rights.now h.llid)
        (set_of sets.now (set_for caller sets.now h.llid)) drift h }
{
    let j = set_for(caller, sets, h.llid);
    let right = rights_at(caller, rights, j);
    judge_for(near, right, set_at(sets, j), drift, h)
}
