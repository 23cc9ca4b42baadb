// The rows of a listing (01, Capture block: the reader program).
#![tactic(auto)]

ghost use Rattle.std.specs.Prelude.{◌≡◌, [], ◌∷◌, ◌+◌, ◌/◌, ◌%◌, ◌^◌, ◌≤◌, ◌<◌, length};
ghost use Rattle.octets.specs.Output.{with_output};
ghost use Rattle.rows.specs.Text.{glyph_of, digits, digit_count, decimal_of, row_octets, key_glyph, refused_text, pair_text, result_text, row_head, row_middle, row_tail, row_of, seen_row, hidden_row, refused_row, Holds, with_line};
ghost use Rattle.rows.specs.Duties.{Grown};

pub mod entries;

use octets::{copy_at, part_of};
use records::header::{Access, Header, RecordVerdict, enc_enabled, enc_key};
use refusal::Refusal;

// The most octets of a row: two decimal numbers, and 23 beside them.
pub const ROW_OCTETS: usize = 63;

// The most digits of a number of 64 bits.
const MOST_DIGITS: usize = 20;

// A line being written, and how much of it is.
#[derive(Clone, Copy)]
pub struct Line {
    pub octets: [u8; ROW_OCTETS],
    pub used: usize,
}

impl Line {
    fn new() -> Line
        ensures { Holds result [] }
    {
        Line {
            octets: [0u8; ROW_OCTETS],
            used: 0,
        }
    }

    fn push(&mut self, octet: u8)
        requires { self.old.used < row_octets }
        ensures { Grown self.old self.new (octet ∷ []) }
    {
        self.octets[self.used] = octet;
        self.used += 1;
    }

    fn push_all(&mut self, text: &[u8])
        requires { self.old.used + length text.now ≤ row_octets }
        ensures { Grown self.old self.new text.now }
    {
        let end = self.used + text.len();
        self.octets[self.used..end].copy_from_slice(text);
        self.used = end;
    }

    // The last `count` digits of n.
    fn put_digits(&mut self, base: u64, count: usize, n: u64)
        requires { (1 ≤ base) × (base ≤ 16) × (self.old.used + count ≤ row_octets) }
        ensures { Grown self.old self.new (digits base count n) }
    {
        for left in (0..count).rev() {
            self.push(digit(base, n, left));
        }
    }

    #[tactic(auto, using(crate::proofs::Lines::digits_length), unfolding(crate::specs::Text::decimal_of))]
    fn put_decimal(&mut self, n: u64)
        requires { self.old.used + length (decimal_of n) ≤ row_octets }
        ensures { Grown self.old self.new (decimal_of n) }
    {
        self.put_digits(10, digit_count(n), n);
    }
}

#[tactic(auto, unfolding(crate::specs::Text::glyph_of, octets::specs::Choice::pick))]
fn glyph(d: u64) -> u8
    requires { d < 16 }
    ensures { result ≡ glyph_of d }
{
    if d < 10 {
        b'0' + d as u8
    } else {
        b'a' + (d as u8 - 10)
    }
}

// The digit of n that has i others behind it.
fn digit(base: u64, n: u64, i: usize) -> u8
    requires { (1 ≤ base) × (base ≤ 16) }
    ensures { result ≡ glyph_of (n / base ^ i % base) }
{
    let mut rest = n;
    for _ in 0..i {
        rest /= base;
    }
    glyph(rest % base)
}

#[tactic(auto, unfolding(crate::specs::Text::digit_count))]
fn digit_count(n: u64) -> usize
    ensures { result ≡ digit_count n }
{
    let mut rest = n;
    for count in 1..MOST_DIGITS {
        if rest < 10 {
            return count;
        }
        rest /= 10;
    }
    MOST_DIGITS
}

// EncKey, or - for a clear record.
#[tactic(auto, using(octets::proofs::Bits::bit_below), unfolding(crate::specs::Text::key_glyph, octets::specs::Choice::pick))]
fn key_glyph(h: Header) -> u8
    ensures { result ≡ key_glyph h }
{
    if enc_enabled(h.flags) {
        b'0' + enc_key(h.flags)
    } else {
        b'-'
    }
}

#[tactic(auto, using(crate::proofs::Lines::number_digits), unfolding(crate::specs::Text::refused_text))]
fn put_refused(line: &mut Line, refusal: Refusal)
    requires { line.old.used + 10 ≤ row_octets }
    ensures { Grown line.old line.new (refused_text refusal) }
{
    line.push_all(b"refused ");
    line.put_decimal(u8::from(refusal) as u64);
}

// A blank and the pair that a refusal names, nothing where it names none.
#[tactic(auto, using(crate::proofs::Lines::decimal_few), unfolding(crate::specs::Text::pair_text, octets::specs::Choice::pick))]
fn put_pair(line: &mut Line, refusal: Refusal)
    requires { line.old.used + 21 ≤ row_octets }
    ensures { Grown line.old line.new (pair_text refusal) }
{
    let k = refusal::pair(refusal);
    if k != 0 {
        line.push(b' ');
        line.put_decimal(k as u64);
    }
}

#[tactic(auto, unfolding(crate::specs::Text::result_text))]
fn put_result(line: &mut Line, verdict: RecordVerdict)
    requires { line.old.used + 10 ≤ row_octets }
    ensures { Grown line.old line.new (result_text verdict) }
{
    match verdict {
        Ok(Access::Clear) | Ok(Access::Sealed(_, _)) => line.push_all(b"open"),
        Err(refusal) => put_refused(line, refusal),
    }
}

// Number from 1, LLID and channel index.
#[tactic(auto, using(crate::proofs::Lines::decimal_few), unfolding(crate::specs::Text::row_head))]
fn put_head(line: &mut Line, k: u64, h: Header)
    requires { line.old.used ≡ 0 }
    ensures { Grown line.old line.new (row_head k h) }
{
    line.put_decimal(k);
    line.push(b' ');
    line.put_digits(16, 4, h.llid as u64);
    line.push(b' ');
    line.put_digits(16, 2, h.channel as u64);
    line.push(b' ');
}

// Key and EQs.
#[tactic(auto, using(crate::proofs::Lines::decimal_few), unfolding(crate::specs::Text::row_middle))]
fn put_middle(line: &mut Line, h: Header)
    requires { line.old.used + 23 ≤ row_octets }
    ensures { Grown line.old line.new (row_middle h) }
{
    line.push(key_glyph(h));
    line.push(b' ');
    line.put_decimal(h.eqs as u64);
    line.push(b' ');
}

// The row of the record with number k.
#[tactic(auto, using(crate::proofs::Lines::decimal_few, crate::proofs::Lines::head_few, crate::proofs::Lines::middle_few, crate::proofs::Lines::result_few))]
pub fn row(k: u64, h: Header, verdict: RecordVerdict) -> Line
    ensures { Holds result (row_of k h verdict) }
{
    let mut line = Line::new();
    put_head(&mut line, k, h);
    put_middle(&mut line, h);
    put_result(&mut line, verdict);
    line.push(b'\n');
    line
}

// The row of the record with number k that may be seen but not opened (02, C-19).
#[tactic(auto, using(crate::proofs::Lines::decimal_few, crate::proofs::Lines::head_few, crate::proofs::Lines::middle_few))]
pub fn seen_row(k: u64, h: Header) -> Line
    ensures { Holds result (seen_row k h) }
{
    let mut line = Line::new();
    put_head(&mut line, k, h);
    put_middle(&mut line, h);
    line.push_all(b"seen\n");
    line
}

// The row of the record with number k whose header may not be seen.
#[tactic(auto, using(crate::proofs::Lines::decimal_few))]
pub fn hidden_row(k: u64) -> Line
    ensures { Holds result (hidden_row k) }
{
    let mut line = Line::new();
    line.put_decimal(k);
    line.push_all(b" -\n");
    line
}

// The row of a call that is refused.
#[tactic(auto, using(crate::proofs::Lines::refused_few, crate::proofs::Lines::pair_few))]
pub fn refused_row(refusal: Refusal) -> Line
    ensures { Holds result (refused_row refusal) }
{
    let mut line = Line::new();
    put_refused(&mut line, refusal);
    put_pair(&mut line, refusal);
    line.push(b'\n');
    line
}

// Writes a line behind the first `at` octets of a text, as much of it as there is room for, and gives where that ends.
pub fn put_line(text: &mut [u8], at: usize, line: Line) -> usize
    ensures { with_output result text.new ≡ with_line text.old at line }
{
    let piece = part_of(&line.octets, 0, line.used);
    copy_at(piece, text, at);
    text.len().min(at.saturating_add(piece.len()))
}
