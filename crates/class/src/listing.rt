// The listing of a capture block for the user who asks: a heading, and a row for each record.
ghost use Rattle.std.specs.Prelude.{◌≡◌, ◌++◌, ◌+◌, ◌≤◌, length, take, drop};
ghost use Rattle.reading.specs.Listing.{body_octets};
ghost use Rattle.class.specs.Listing.{body_for, listing_for};
ghost use Rattle.class.specs.Input.{input_body, input_listing};

use crate::asker::Asker;
use capture::listing::{HEADING_OCTETS, put_body, put_heading};
use octets::{octet_at, part_of};
use records::settings::SETTINGS_OCTETS;
use refusal::Refusal;
use rights::settings::Caller;
use rights::verdict::class_verdict;
use rows::{put_line, refused_row};

// Room for the heading and 256 lines of 40 octets.
pub const LISTING_OCTETS: usize = 10266;

// The counts of sets and users and the user's number, an octet each.
const CALLER_OCTETS: usize = 3;

// The rows of a block, or the code of the call's refusal.
fn put_body_for(asker: &Asker<'_>, block: &[u8], text: &mut [u8; LISTING_OCTETS]) -> usize
    ensures lower_bound { (HEADING_OCTETS ≤ result) × (result ≤ HEADING_OCTETS + body_octets) }
    ensures text_after { take result text.new ≡ take HEADING_OCTETS text.old
        ++ body_for asker.now.near asker.now.caller asker.now.sets.now asker.now.rights.now block.now }
    ensures text_unchanged { drop result text.new ≡ drop result text.old }
{
    let ahead = class_verdict(true, true, asker.caller, asker.sets, asker.rights);
    put_body(ahead, asker, block, text)
}

// Lists a block for the user who asks: the heading, then the rows, or the code of the call's refusal. Gives the length of the text;
// the octets behind it stay.
pub fn list_for(
    near: bool,
    caller: Caller,
    sets: &[u8],
    rights: &[u8],
    block: &[u8],
    text: &mut [u8; LISTING_OCTETS],
) -> usize
    ensures upper_bound { (result ≤ length text.new) × (result ≡ length (take result text.new)) }
    ensures text_after { take result text.new ≡ listing_for near caller sets.now rights.now block.now }
    ensures text_unchanged { drop result text.new ≡ drop result text.old }
{
    let asker = Asker {
        near,
        caller,
        sets,
        rights,
    };
    put_heading(text);
    put_body_for(&asker, block, text)
}

// The rows of the block of an input, or the code of its refusal.
fn put_input(input: &[u8], text: &mut [u8; LISTING_OCTETS]) -> usize
    ensures lower_bound { (HEADING_OCTETS ≤ result) × (result ≤ HEADING_OCTETS + body_octets) }
    ensures text_after { take result text.new ≡ take HEADING_OCTETS text.old ++ input_body input.now }
    ensures text_unchanged { drop result text.new ≡ drop result text.old }
{
    if input.len() < CALLER_OCTETS {
        return put_line(text, HEADING_OCTETS, refused_row(Refusal::BadLength));
    }
    let caller = Caller {
        sets: octet_at(input, 0),
        users: octet_at(input, 1),
        user: octet_at(input, 2),
    };
    let n = caller.sets as usize;
    let start = CALLER_OCTETS + SETTINGS_OCTETS * n;
    let size = n * caller.users as usize;
    let asker = Asker {
        near: false,
        caller,
        sets: part_of(input, CALLER_OCTETS, SETTINGS_OCTETS * n),
        rights: part_of(input, start, size),
    };
    let block = part_of(input, start + size, input.len());
    put_body_for(&asker, block, text)
}

// Lists what the program reads: the counts of sets and users, the user's number, the sets, the rights, the block.
pub fn list_input(input: &[u8], text: &mut [u8; LISTING_OCTETS]) -> usize
    ensures upper_bound { (result ≤ length text.new) × (result ≡ length (take result text.new)) }
    ensures text_after { take result text.new ≡ input_listing input.now }
    ensures text_unchanged { drop result text.new ≡ drop result text.old }
{
    put_heading(text);
    put_input(input, text)
}
