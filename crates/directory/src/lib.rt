// The directory of a capture block (01, Capture block): a count, and for each record a pair of its offset and its length.
#![tactic(auto)]

ghost use Rattle.std.specs.Prelude.{◌≡◌};
ghost use Rattle.records.specs.Block.{records_in};
ghost use Rattle.directory.specs.Directory.{pair_of, size_fits, directory_of, verdict_on};
ghost use Rattle.directory.specs.Broken.{Judged};
ghost use Rattle.directory.specs.Duties.{Due};

pub mod payload;

use records::block::{
    COUNT_OCTETS, MOST_OCTETS, MOST_RECORDS, count, directory_octets, length_of, offset,
};
use records::header::is_sized;
use records::place::ends_right;
use refusal::{Refusal, Verdict};

// What a pair is found to be.
#[derive(Clone, Copy)]
pub enum Pair {
    Fits,
    // its offset is not the one that the chain gives, or it does not end where it may
    OffChain,
    // its length does not suit the EQs of its record
    OffLength,
}

// The verdict on pair i of n, whose record is due at `due` and goes by the pair from `from` to `to`.
#[tactic(auto, using(crate::proofs::Pairs::pair_off_due, crate::proofs::Pairs::pair_off_end, crate::proofs::Pairs::pair_by_length, records::proofs::Places::end_within), unfolding(records::specs::Block::end_of, records::specs::Block::record_of, octets::specs::Choice::pick))]
fn pair_of(block: &[u8], n: u16, i: u16, due: usize, from: usize, to: usize) -> Pair
    requires { Due block.now n i due from to }
    ensures { result ≡ pair_of block.now i }
{
    if from != due {
        return Pair::OffChain;
    }
    if !ends_right(i + 1 == n, to, block.len()) {
        return Pair::OffChain;
    }
    if is_sized(&block[from..to]) {
        Pair::Fits
    } else {
        Pair::OffLength
    }
}

// Whether a block of n records and its count are within their bounds, the pairs are all there, and an empty block is two octets.
#[tactic(auto, unfolding(crate::specs::Directory::size_fits, octets::specs::Choice::both, octets::specs::Choice::either))]
fn is_size_right(block: &[u8], n: u16) -> bool
    requires { n ≡ records_in block.now }
    ensures { result ≡ size_fits block.now }
{
    let size = block.len();
    let alone = (n != 0) | (size == COUNT_OCTETS);
    ((COUNT_OCTETS <= size) & (size <= MOST_OCTETS))
        & ((n <= MOST_RECORDS) & ((directory_octets(n) <= size) & alone))
}

// The count of records of a block whose directory is right, else the refusal that it earns, in one pass: 15 for its bounds, then pair by pair
// 18 for the chain, 19 for the length.
#[tactic(auto, using(crate::proofs::Broken::judged, crate::proofs::Pairs::pairs_at, crate::proofs::Pairs::pairs_end, crate::proofs::Pairs::due_next), unfolding(records::specs::Block::due_of, crate::specs::Directory::directory_of, crate::specs::Directory::with_pair, records::specs::Block::end_of, octets::specs::Choice::pick))]
pub fn check(block: &[u8]) -> Result<u16, Refusal>
    ensures value { result ≡ directory_of block.now }
    ensures judged { Judged block.now }
{
    let n = count(block);
    if !is_size_right(block, n) {
        return Err(Refusal::BadDirectory);
    }
    let mut due = directory_octets(n);
    for i in 0..n {
        let from = offset(block, i) as usize;
        let to = from + length_of(block, i) as usize;
        match pair_of(block, n, i, due, from, to) {
            Pair::Fits => due = to,
            Pair::OffChain => return Err(Refusal::BrokenChain(i + 1)),
            Pair::OffLength => return Err(Refusal::UnsuitedLength(i + 1)),
        }
    }
    Ok(n)
}

// A good directory is accepted.
pub fn verdict_on(directory: Result<u16, Refusal>) -> Verdict
    ensures { result ≡ verdict_on directory }
{
    directory.map(|_| ())
}
