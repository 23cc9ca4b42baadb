// The listing of a capture block: a heading, and a row for each record.
ghost use Rattle.std.specs.Prelude.{◌≡◌, true, ◌++◌, ℕ, ◌+◌, ◌≤◌, length, take, drop, Ok};
ghost use Rattle.reading.specs.Listing.{heading_text, body_octets, listing_of};
ghost use Rattle.reading.specs.Verdict.{after_settings};
ghost use Rattle.directory.specs.Rebuilt.{joined};
ghost use Rattle.reading.specs.Reading.{listing_by};
ghost use Rattle.capture.specs.Walk.{row_walked, body_walked};
ghost use Rattle.directory.specs.Directory.{directory_of};

use crate::walk::{Judge, Reader, Walk};
use directory::check;
use octets::copy_at;
use records::settings::settings_verdict;
use refusal::{Refusal, Verdict};
use rows::{put_line, refused_row};

// Room for the heading and 256 lines of 40 octets.
pub const LISTING_OCTETS: usize = 10266;

// The length of the heading: where the rows begin.
pub const HEADING_OCTETS: usize = 26;

// Puts the heading ahead of the rows.
pub fn put_heading(text: &mut [u8; LISTING_OCTETS])
    ensures text_after { take HEADING_OCTETS text.new ≡ heading_text }
    ensures text_unchanged { drop HEADING_OCTETS text.new ≡ drop HEADING_OCTETS text.old }
{
    copy_at(b"no llid ch key eqs result\n", text, 0);
}

fn put_rows<J: Judge>(judge: &J, block: &[u8], text: &mut [u8], at: usize, n: u16) -> usize
    requires block_value { directory_of block.now ≡ Ok n }
    requires body_octets_in_bounds { at + body_octets ≤ length text.old }
    ensures lower_bound { (at ≤ result) × (result ≤ at + body_octets) }
    ensures text_after { take result text.new ≡ take at text.old ++ joined (row_walked J.listed (J.judged judge.now) block.now) 0 n }
    ensures text_unchanged { drop result text.new ≡ drop result text.old }
{
    let mut end = at;
    let mut walk = Walk::start(n);
    for i in 0..n {
        let turn = walk.turn(judge, block);
        end = put_line(
            text,
            end,
            judge.row(i as u64 + 1, turn.header, turn.verdict),
        );
    }
    end
}

// What a call finds in the directory of a block, behind the verdict that goes ahead of it.
fn directory_behind(ahead: Verdict, block: &[u8]) -> Result<u16, Refusal>
    ensures value { result ≡ after_settings ahead (directory_of block.now) }
    ensures good { (n : ℕ) → result ≡ Ok n → directory_of block.now ≡ Ok n }
{
    ahead?;
    check(block)
}

// The rows of a block, or the code of what the call is refused for: the verdict that goes ahead, then the block's directory.
pub fn put_body<J: Judge>(
    ahead: Verdict,
    judge: &J,
    block: &[u8],
    text: &mut [u8; LISTING_OCTETS],
) -> usize
    ensures lower_bound { (HEADING_OCTETS ≤ result) × (result ≤ HEADING_OCTETS + body_octets) }
    ensures text_after { take result text.new ≡ take HEADING_OCTETS text.old
        ++ body_walked (after_settings ahead (directory_of block.now)) J.listed (J.judged judge.now) block.now }
    ensures text_unchanged { drop result text.new ≡ drop result text.old }
{
    match directory_behind(ahead, block) {
        Err(refusal) => put_line(text, HEADING_OCTETS, refused_row(refusal)),
        Ok(n) => put_rows(judge, block, text, HEADING_OCTETS, n),
    }
}

fn list_by(near: bool, settings: &[u8], block: &[u8], text: &mut [u8; LISTING_OCTETS]) -> usize
    ensures upper_bound { (result ≤ length text.new) × (result ≡ length (take result text.new)) }
    ensures text_after { take result text.new ≡ listing_by near settings.now block.now }
    ensures text_unchanged { drop result text.new ≡ drop result text.old }
{
    put_heading(text);
    put_body(
        settings_verdict(settings),
        &Reader { near, settings },
        block,
        text,
    )
}

// Lists a block: the heading, then the rows, or the code of the call's refusal. Gives the length of the text; the octets
// behind it stay.
pub fn list(settings: &[u8], block: &[u8], text: &mut [u8; LISTING_OCTETS]) -> usize
    ensures upper_bound { (result ≤ length text.new) × (result ≡ length (take result text.new)) }
    ensures text_after { take result text.new ≡ listing_of settings.now block.now }
    ensures text_unchanged { drop result text.new ≡ drop result text.old }
{
    list_by(false, settings, block, text)
}

// The same in the near way (02, C-18).
pub fn list_near(settings: &[u8], block: &[u8], text: &mut [u8; LISTING_OCTETS]) -> usize
    ensures upper_bound { (result ≤ length text.new) × (result ≡ length (take result text.new)) }
    ensures text_after { take result text.new ≡ listing_by true settings.now block.now }
    ensures text_unchanged { drop result text.new ≡ drop result text.old }
{
    list_by(true, settings, block, text)
}
