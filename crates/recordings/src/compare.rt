// Two blocks held against each other, record by record.
ghost use Rattle.std.specs.Prelude.{◌≡◌, ◌++◌, ◌+◌, ◌≤◌, ◌<◌, length, take, drop};
ghost use Rattle.octets.specs.Lists.{tabulate};
ghost use Rattle.octets.specs.Output.{with_output};
ghost use Rattle.records.specs.Block.{most_records, records_in};
ghost use Rattle.recordings.specs.Comparing.{no_denial};
ghost use Rattle.recordings.specs.Comparing.{output_octets, mark_octet, mark_of, alone_marks, alone_of, denied, compared_after, comparing};
ghost use Rattle.recordings.specs.Laws.{ComparedIfAccepted};
ghost use Rattle.recordings.specs.Duties.{Comparable};

use crate::partners::{Held, match_up};
use crate::verdict::{Denial, rule};
use records::block::{count, header_at};
use refusal::Refusal;
use sameness::payloads::is_same;

// What an entry says of its record.
#[derive(Clone, Copy, PartialEq, Eq, Debug)]
pub(crate) enum Mark {
    Alone,
    Same,
    Different,
}

impl From<Mark> for u8 {
    ghost from_gives = { λ mark octet. octet ≡ mark_octet mark };

    fn from(mark: Mark) -> u8 {
        mark as u8
    }
}

// The pair is that of 18 and 19, and the block, 1 or 2, that of a refusal other than 14; else they are 0. Entries and total are 0
// where the call is refused. C reads the refusal by its code.
#[repr(C)]
#[derive(Clone, Copy)]
pub struct Comparison {
    pub number: u8,
    pub block: u8,
    pub pair: u16,
    pub entries: u16,
    pub total: u16,
}

impl<'a> Held<'a> {
    // The entry of record i.
    #[tactic(auto, unfolding(crate::specs::Comparing::mark_at, sameness::specs::Pairing::alone, octets::specs::Choice::pick))]
    pub(crate) fn mark(&self, i: u16) -> Mark
        requires { i < records_in self.now.block.now }
        ensures { mark_octet result ≡ mark_of self.now.block.now self.now.other.now i }
    {
        match self.partner(i) {
            None => Mark::Alone,
            Some(p) if is_same(self.block, i, self.other, p) => Mark::Same,
            Some(_) => Mark::Different,
        }
    }

    // Writes the entries of the block's records.
    fn put_marks(&self, output: &mut [u8])
        requires { length output.old ≡ output_octets }
        ensures { output.new ≡ tabulate 0 (records_in self.now.block.now) (mark_of self.now.block.now self.now.other.now)
            ++ drop (records_in self.now.block.now) output.old }
    {
        for i in 0..count(self.block) {
            output[i as usize] = u8::from(self.mark(i));
        }
    }

    // Writes the entries of the block's records that are alone behind the first `at`, and gives their end.
    #[tactic(auto, unfolding(directory::specs::Rebuilt::joined))]
    fn put_alones(&self, output: &mut [u8], at: usize) -> usize
        requires { (at ≤ most_records) × (length output.old ≡ output_octets) }
        ensures value { result ≡ at + length (alone_marks self.now.block.now self.now.other.now (records_in self.now.block.now)) }
        ensures output_after { take result output.new ≡ take at output.old
            ++ alone_marks self.now.block.now self.now.other.now (records_in self.now.block.now) }
        ensures output_unchanged { (drop result output.new ≡ drop result output.old) × (result ≤ at + records_in self.now.block.now) }
    {
        // A place that goes on only with a record that is alone, so no range counts it.
        let mut end = at;
        for j in 0..count(self.block) {
            if self.is_alone(j) {
                output[end] = u8::from(Mark::Alone);
                end += 1;
            }
        }
        end
    }

    // The records of an LLID that are alone.
    #[tactic(auto, unfolding(octets::specs::Choice::both, crate::specs::Comparing::alone_of))]
    pub(crate) fn count_alone(&self, llid: u16) -> u16
        ensures { (result ≡ alone_of llid self.now.block.now self.now.other.now) × (result ≤ most_records) }
    {
        let mut total = 0;
        for i in 0..count(self.block) {
            if self.is_alone(i) & (header_at(self.block, i).llid == llid) {
                total += 1;
            }
        }
        total
    }
}

// The entries of two blocks, and the total.
#[tactic(auto, unfolding(crate::specs::Comparing::compared_after))]
fn write_entries(llid: u16, a: &[u8], b: &[u8], output: &mut [u8]) -> Comparison
    requires comparable { Comparable a.now b.now }
    requires output_len { length output.old ≡ output_octets }
    ensures { with_output result output.new ≡ compared_after no_denial llid a.now b.now output.old }
{
    let (first, second) = match_up(a, b);
    first.put_marks(output);
    let end = second.put_alones(output, count(a) as usize);
    let total = first.count_alone(llid) + second.count_alone(llid);
    Comparison {
        number: 0,
        block: 0,
        pair: 0,
        entries: end as u16,
        total,
    }
}

fn deny(refusal: Refusal, block: u8) -> Comparison
    ensures { result ≡ denied refusal block }
{
    Comparison {
        number: u8::from(refusal),
        block,
        pair: refusal::pair(refusal),
        entries: 0,
        total: 0,
    }
}

// Holds two blocks against each other: an entry each for the records of the first in order, then for those of the second that are
// alone, in an output of 512 octets, and the total of an LLID's records that are alone.
pub fn compare(llid: u16, a: &[u8], b: &[u8], output: &mut [u8]) -> Comparison
    ensures output_after { with_output result output.new ≡ comparing llid a.now b.now output.old }
    ensures compared_if_accepted { ComparedIfAccepted (length output.old) a.now b.now }
{
    match rule(output.len(), a, b) {
        Err(Denial { refusal, block }) => deny(refusal, block),
        Ok(()) => write_entries(llid, a, b, output),
    }
}
