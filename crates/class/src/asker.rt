// Who asks for a capture block: a user of a class, with its sets and the rights of all its users.
ghost use Rattle.std.specs.Prelude.{◌≡◌};
ghost use Rattle.class.specs.Reading.{judged_in, call_for};
ghost use Rattle.class.specs.Listing.{row_as};

use capture::walk::Judge;
use directory::check;
use records::header::Header;
use records::near::{Drift, Heard};
use refusal::Refusal;
use rights::judging::{ClassVerdict, judge_in};
use rights::settings::Caller;
use rights::verdict::class_verdict;
use rows::{Line, hidden_row, row, seen_row};

// The user is asked for in the near way or the usual one.
#[derive(Clone, Copy)]
pub(crate) struct Asker<'a> {
    pub(crate) near: bool,
    pub(crate) caller: Caller,
    pub(crate) sets: &'a [u8],
    pub(crate) rights: &'a [u8],
}

impl<'a> Asker<'a> {
    // What a call finds: the user, the counts and what it was lent, the settings, then the directory.
    #[tactic(auto, unfolding(crate::specs::Reading::call_for))]
    pub(crate) fn call(&self, suits: bool, block: &[u8]) -> Result<u16, Refusal>
        ensures { result ≡ call_for suits self.now.caller self.now.sets.now self.now.rights.now block.now }
    {
        class_verdict(suits, true, self.caller, self.sets, self.rights)?;
        check(block)
    }
}

impl<'a> Judge for Asker<'a> {
    type Verdict = ClassVerdict;

    ghost judged = { λ x. judged_in x.near x.caller x.sets.now x.rights.now };

    ghost listed = { row_as };

    fn judge(&self, drift: Drift, h: Header) -> Heard<ClassVerdict> {
        judge_in(self.near, self.caller, self.sets, self.rights, drift, h)
    }

    #[tactic(auto, using(reading::proofs::Lines::row_short, crate::proofs::Texts::seen_short, crate::proofs::Texts::hidden_short), unfolding(crate::specs::Listing::row_as))]
    fn row(&self, k: u64, h: Header, verdict: ClassVerdict) -> Line {
        match verdict {
            ClassVerdict::Hidden => hidden_row(k),
            ClassVerdict::Seen => seen_row(k, h),
            ClassVerdict::Told(told) => row(k, h, told),
        }
    }
}
