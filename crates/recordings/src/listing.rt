// The listing of two blocks: a heading, a row for each entry, and the total.
ghost use Rattle.std.specs.Prelude.{◌≡◌, ◌++◌, ◌+◌, ◌*◌, ◌≤◌, ◌<◌, length, take, drop};
ghost use Rattle.records.specs.Block.{records_in};
ghost use Rattle.rows.specs.Text.{row_octets, Holds};
ghost use Rattle.directory.specs.Rebuilt.{joined};
ghost use Rattle.recordings.specs.Comparing.{output_octets, ruling_on};
ghost use Rattle.recordings.specs.Listing.{first_row, alone_row, body_octets, rows_of, body_after, body_of, listing_of};
ghost use Rattle.recordings.specs.Duties.{Comparable};

use crate::compare::Mark;
use crate::partners::{Held, match_up};
use crate::verdict::{Denial, OUTPUT_OCTETS, rule};
use octets::{copy_at, number16, number32, part_of};
use records::block::{count, header_at};
use refusal::Refusal;
use rows::entries::{denied_row, entry_row, total_row};
use rows::{Line, put_line};

// The octets ahead of the first block: LLID and length.
const HEAD_OCTETS: usize = 6;

// Room for the heading, 512 rows and the total.
pub const LISTING_OCTETS: usize = 32353;

impl<'a> Held<'a> {
    // The row of record i.
    #[tactic(auto, unfolding(crate::specs::Listing::partner_number, sameness::specs::Pairing::alone, octets::specs::Choice::pick))]
    fn line(&self, i: u16) -> Line
        requires { i < records_in self.now.block.now }
        ensures { Holds result (first_row self.now.block.now self.now.other.now i) }
    {
        let number = self.partner(i).map_or(0, |p| p + 1);
        entry_row(
            i + 1,
            number,
            header_at(self.block, i),
            u8::from(self.mark(i)),
        )
    }

    // Writes the rows of the block's records behind the first `at` octets of the text, and gives their end.
    fn put_lines(&self, text: &mut [u8], at: usize) -> usize
        requires { at + row_octets * records_in self.now.block.now ≤ length text.old }
        ensures lower_bound { (at ≤ result) × (result ≤ at + row_octets * records_in self.now.block.now) }
        ensures text_after { take result text.new ≡ take at text.old
            ++ joined (first_row self.now.block.now self.now.other.now) 0 (records_in self.now.block.now) }
        ensures text_unchanged { drop result text.new ≡ drop result text.old }
    {
        let mut end = at;
        for i in 0..count(self.block) {
            end = put_line(text, end, self.line(i));
        }
        end
    }

    // The row of record j, if it is alone.
    fn put_alone(&self, j: u16, text: &mut [u8], at: usize) -> usize
        requires { (j < records_in self.now.block.now) × (at + row_octets ≤ length text.old) }
        ensures lower_bound { (at ≤ result) × (result ≤ at + row_octets) }
        ensures text_after { take result text.new ≡ take at text.old ++ alone_row self.now.block.now self.now.other.now j }
        ensures text_unchanged { drop result text.new ≡ drop result text.old }
    {
        if !self.is_alone(j) {
            return at;
        }
        let row = entry_row(0, j + 1, header_at(self.block, j), u8::from(Mark::Alone));
        put_line(text, at, row)
    }

    // Writes the rows of the block's records that are alone.
    fn put_alone_lines(&self, text: &mut [u8], at: usize) -> usize
        requires { at + row_octets * records_in self.now.block.now ≤ length text.old }
        ensures lower_bound { (at ≤ result) × (result ≤ at + row_octets * records_in self.now.block.now) }
        ensures text_after { take result text.new ≡ take at text.old
            ++ joined (alone_row self.now.block.now self.now.other.now) 0 (records_in self.now.block.now) }
        ensures text_unchanged { drop result text.new ≡ drop result text.old }
    {
        let mut end = at;
        for j in 0..count(self.block) {
            end = self.put_alone(j, text, end);
        }
        end
    }
}

// A row for each entry, and the total.
fn put_rows(llid: u16, a: &[u8], b: &[u8], text: &mut [u8], at: usize) -> usize
    requires comparable { Comparable a.now b.now }
    requires body_octets_in_bounds { at + body_octets ≤ length text.old }
    ensures lower_bound { (at ≤ result) × (result ≤ at + body_octets) }
    ensures text_after { take result text.new ≡ take at text.old ++ rows_of llid a.now b.now }
    ensures text_unchanged { drop result text.new ≡ drop result text.old }
{
    let (first, second) = match_up(a, b);
    let middle = first.put_lines(text, at);
    let end = second.put_alone_lines(text, middle);
    let total = first.count_alone(llid) + second.count_alone(llid);
    put_line(text, end, total_row(total))
}

// The rows of two blocks, or the code of the call's refusal.
fn put_body(llid: u16, a: &[u8], b: &[u8], text: &mut [u8], at: usize) -> usize
    requires { at + body_octets ≤ length text.old }
    ensures lower_bound { (at ≤ result) × (result ≤ at + body_octets) }
    ensures text_after { take result text.new ≡ take at text.old
        ++ body_after (ruling_on output_octets a.now b.now) llid a.now b.now }
    ensures text_unchanged { drop result text.new ≡ drop result text.old }
{
    match rule(OUTPUT_OCTETS, a, b) {
        Err(Denial { refusal, block }) => put_line(text, at, denied_row(refusal, block)),
        Ok(()) => put_rows(llid, a, b, text, at),
    }
}

// The rows of the two blocks of an input, or the code of its refusal.
#[tactic(auto, unfolding(crate::specs::Listing::body_of))]
fn put_input(input: &[u8], text: &mut [u8], at: usize) -> usize
    requires { at + body_octets ≤ length text.old }
    ensures lower_bound { (at ≤ result) × (result ≤ at + body_octets) }
    ensures text_after { take result text.new ≡ take at text.old ++ body_of input.now }
    ensures text_unchanged { drop result text.new ≡ drop result text.old }
{
    let size = number32(input, 2) as usize;
    let start = HEAD_OCTETS + size;
    if input.len() < start {
        return put_line(text, at, denied_row(Refusal::BadLength, 0));
    }
    let llid = number16(input, 0);
    let first = part_of(input, HEAD_OCTETS, size);
    let second = part_of(input, start, input.len());
    put_body(llid, first, second, text, at)
}

// Lists what the program reads: an LLID, the length of the first block, both blocks. Gives the length of the text; the octets behind
// it stay.
pub fn list(input: &[u8], text: &mut [u8; LISTING_OCTETS]) -> usize
    ensures upper_bound { (result ≤ length text.new) × (result ≡ length (take result text.new)) }
    ensures text_after { take result text.new ≡ listing_of input.now }
    ensures text_unchanged { drop result text.new ≡ drop result text.old }
{
    let heading = *b"first second llid ch clock result\n";
    copy_at(&heading, text, 0);
    put_input(input, text, heading.len())
}
