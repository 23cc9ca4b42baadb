// The partners of the records of two blocks.
ghost use Rattle.std.specs.Prelude.{◌≡◌, ◌≤◌, ◌<◌, IsTrue, MatchOption};
ghost use Rattle.records.specs.Block.{most_records, records_in, record_of};
ghost use Rattle.sameness.specs.Pairing.{alone, partner_of};
ghost use Rattle.recordings.specs.Duties.{Comparable, Listed};

use records::block::{MOST_RECORDS, count};
use sameness::partners::first_from;

// The places of a table of partners.
const PLACES: usize = MOST_RECORDS as usize;

// A block held against another: for each of its records the place of its partner in the other, or the other's count of records where
// it is alone, as `partner_of` numbers it: `partner` tells the two apart.
#[derive(Drop)]
pub(crate) struct Held<'a> {
    pub(crate) block: &'a [u8],
    pub(crate) other: &'a [u8],
    partners: [u16; PLACES],
    ghost few: { records_in block.now ≤ most_records },
    ghost few_other: { records_in other.now ≤ most_records },
    ghost listed: { Listed partners block.now other.now (records_in block.now) },
}

impl<'a> Held<'a> {
    // The place of the partner of record i.
    pub(crate) fn partner(&self, i: u16) -> Option<u16>
        requires { i < records_in self.now.block.now }
        ensures { MatchOption result (IsTrue (alone self.now.block.now self.now.other.now i))
            (λ p. (p ≡ partner_of (record_of self.now.block.now i) self.now.other.now) × (p < records_in self.now.other.now)) }
    {
        let p = self.partners[i as usize];
        if p < count(self.other) { Some(p) } else { None }
    }

    #[tactic(auto, unfolding(sameness::specs::Pairing::alone))]
    pub(crate) fn is_alone(&self, i: u16) -> bool
        requires { i < records_in self.now.block.now }
        ensures { result ≡ alone self.now.block.now self.now.other.now i }
    {
        self.partners[i as usize] == count(self.other)
    }
}

// The two blocks held against each other, the first and the second: each record of the first is held against those of the second once (D94).
pub(crate) fn match_up<'a>(a: &'a [u8], b: &'a [u8]) -> (Held<'a>, Held<'a>)
    requires { Comparable a.now b.now }
    ensures first { (result.0.block.now ≡ a.now) × (result.0.other.now ≡ b.now) }
    ensures second { (result.1.block.now ≡ b.now) × (result.1.other.now ≡ a.now) }
{
    let n = count(a);
    let m = count(b);
    let mut first = [m; PLACES];
    let mut second = [n; PLACES];
    for i in 0..n {
        let p = first_from(a, i, b, 0, m);
        first[i as usize] = p;
        if p < m {
            second[p as usize] = i;
        }
    }
    (
        Held {
            block: a,
            other: b,
            partners: first,
        },
        Held {
            block: b,
            other: a,
            partners: second,
        },
    )
}
