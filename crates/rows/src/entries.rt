// The rows of two recordings (02, C-15).
ghost use Rattle.std.specs.Prelude.{◌≡◌, ◌+◌, ◌≤◌, length};
ghost use Rattle.rows.specs.Text.{row_octets, Holds};
ghost use Rattle.rows.specs.Entries.{number_text, mark_text, entry_head, entry_tail, entry_row, block_text, denied_row, total_row};
ghost use Rattle.rows.specs.Duties.{Grown};

use crate::{Line, put_pair, put_refused};
use records::header::Header;
use refusal::Refusal;

// A record's number from 1, or - where there is none.
#[tactic(auto, using(crate::proofs::EntryTexts::u16_few), unfolding(crate::specs::Entries::number_text, octets::specs::Choice::pick))]
fn put_number(line: &mut Line, k: u16)
    requires { line.old.used + 5 ≤ row_octets }
    ensures { Grown line.old line.new (number_text k) }
{
    if k == 0 {
        line.push(b'-');
    } else {
        line.put_decimal(k as u64);
    }
}

#[tactic(auto, unfolding(crate::specs::Entries::mark_text, octets::specs::Choice::pick))]
fn put_mark(line: &mut Line, mark: u8)
    requires { line.old.used + 9 ≤ row_octets }
    ensures { Grown line.old line.new (mark_text mark) }
{
    match mark {
        0 => line.push_all(b"alone"),
        1 => line.push_all(b"same"),
        _ => line.push_all(b"different"),
    }
}

// The numbers in both blocks, LLID and channel index.
#[tactic(auto, using(crate::proofs::EntryTexts::number_text_few), unfolding(crate::specs::Entries::entry_head))]
fn put_head(line: &mut Line, first: u16, second: u16, h: Header)
    requires { line.old.used ≡ 0 }
    ensures { Grown line.old line.new (entry_head first second h) }
{
    put_number(line, first);
    line.push(b' ');
    put_number(line, second);
    line.push(b' ');
    line.put_digits(16, 4, h.llid as u64);
    line.push(b' ');
    line.put_digits(16, 2, h.channel as u64);
    line.push(b' ');
}

// Clock and entry.
#[tactic(auto, using(crate::proofs::Lines::decimal_few, crate::proofs::EntryTexts::mark_few), unfolding(crate::specs::Entries::entry_tail))]
fn put_tail(line: &mut Line, clock: u64, mark: u8)
    requires { line.old.used + 31 ≤ row_octets }
    ensures { Grown line.old line.new (entry_tail clock mark) }
{
    line.put_decimal(clock);
    line.push(b' ');
    put_mark(line, mark);
    line.push(b'\n');
}

// The row of an entry, by the numbers of its records, a header of theirs, and 0, 1 or 2.
#[tactic(auto, using(crate::proofs::EntryTexts::head_text_few, crate::proofs::EntryTexts::tail_text_few))]
pub fn entry_row(first: u16, second: u16, h: Header, mark: u8) -> Line
    ensures { Holds result (entry_row first second h mark) }
{
    let mut line = Line::new();
    put_head(&mut line, first, second, h);
    put_tail(&mut line, h.clock, mark);
    line
}

// A blank and the block that earns a refusal, nothing where none does.
#[tactic(auto, using(crate::proofs::Lines::decimal_few), unfolding(crate::specs::Entries::block_text, octets::specs::Choice::pick))]
fn put_block(line: &mut Line, block: u8)
    requires { line.old.used + 21 ≤ row_octets }
    ensures { Grown line.old line.new (block_text block) }
{
    if block != 0 {
        line.push(b' ');
        line.put_decimal(block as u64);
    }
}

// The row of a call that is refused, with the pair, then the block.
#[tactic(auto, using(crate::proofs::Lines::refused_few, crate::proofs::Lines::pair_few, crate::proofs::EntryTexts::block_few))]
pub fn denied_row(refusal: Refusal, block: u8) -> Line
    ensures { Holds result (denied_row refusal block) }
{
    let mut line = Line::new();
    put_refused(&mut line, refusal);
    put_pair(&mut line, refusal);
    put_block(&mut line, block);
    line.push(b'\n');
    line
}

// The last row: the records that are alone.
#[tactic(auto, using(crate::proofs::Lines::decimal_few))]
pub fn total_row(total: u16) -> Line
    ensures { Holds result (total_row total) }
{
    let mut line = Line::new();
    line.push_all(b"total ");
    line.put_decimal(total as u64);
    line.push(b'\n');
    line
}
