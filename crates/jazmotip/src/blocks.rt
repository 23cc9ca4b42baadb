// The capture reader (01, Capture block). What its calls decide is numbers here, and a payload is an offset and a length in the
// caller's block, since a part of it can't be returned to C. Calls that are alike have a name each here, and in the files beside this one,
// since C has no generic ones.
ghost use Rattle.std.specs.Prelude.{◌≡◌, ◌+◌, ◌≤◌, length, take, drop};
ghost use Rattle.octets.specs.Lists.{part};
ghost use Rattle.octets.specs.Output.{with_output};
ghost use Rattle.directory.specs.Directory.{directory_of};
ghost use Rattle.directory.specs.Broken.{Judged};
ghost use Rattle.reading.specs.Verdict.{verdict_asked, verdicts_of};
ghost use Rattle.directory.specs.Payload.{payload_bounds, payload_part};
ghost use Rattle.reading.specs.Opening.{opening};
ghost use Rattle.reading.specs.Claims.{OpenedIfAccepted};
ghost use Rattle.reading.specs.Listing.{listing_of};
ghost use Rattle.jazmotip.specs.Blocks.{block_directory, block_verdict, block_part, block_answer, judged_in_numbers, opened_in_numbers};

use capture::listing::{LISTING_OCTETS, list};
use capture::opening::{keys_expanded, octets_opened, open};
use capture::verdict::{ask, verdicts};
use directory::check;
use directory::payload::{Bounds, locate};
use reading::OpenAnswer;
use records::header::{Access, RecordVerdict};
use refusal::Refusal;

// In each answer, `pair` is the first pair that does not fit, from 1, for 18 and 19, else 0.
#[repr(C)]
#[derive(Clone, Copy)]
pub struct BlockDirectory {
    pub number: u8,
    pub pair: u16,
    // of a good directory, else 0
    pub records: usize,
}

// Where a record is to be opened, EncEnabled is 1 and its key index and clock follow; else all three are 0.
#[repr(C)]
#[derive(Clone, Copy)]
pub struct BlockVerdict {
    pub number: u8,
    pub encenabled: u8,
    pub enckey: u8,
    pub pair: u16,
    pub clock: u64,
}

// A refused payload is at 0, for no octets.
#[repr(C)]
#[derive(Clone, Copy)]
pub struct BlockPart {
    pub number: u8,
    pub pair: u16,
    pub offset: usize,
    pub length: usize,
}

// The count is of the octets deciphered, 0 where the call was refused.
#[repr(C)]
#[derive(Clone, Copy)]
pub struct BlockAnswer {
    pub number: u8,
    // the keys expanded (02, C-17): each present one once
    pub expansions: u8,
    pub pair: u16,
    pub count: u64,
    // the runs of the cipher
    pub runs: u64,
}

pub(crate) fn directory_in_numbers(directory: Result<u16, Refusal>) -> BlockDirectory
    ensures { result ≡ block_directory directory }
{
    match directory {
        Ok(n) => BlockDirectory {
            number: 0,
            pair: 0,
            records: n as usize,
        },
        Err(refusal) => BlockDirectory {
            number: u8::from(refusal),
            pair: refusal::pair(refusal),
            records: 0,
        },
    }
}

pub(crate) fn verdict_in_numbers(verdict: RecordVerdict) -> BlockVerdict
    ensures { result ≡ block_verdict verdict }
{
    let (encenabled, enckey, clock) = match verdict {
        Ok(Access::Sealed(index, clock)) => (1, index, clock),
        _ => (0, 0, 0),
    };
    BlockVerdict {
        number: records::header::number(verdict),
        encenabled,
        enckey,
        pair: records::header::pair(verdict),
        clock,
    }
}

pub(crate) fn answer_in_numbers(answer: OpenAnswer) -> BlockAnswer
    ensures { result ≡ block_answer answer }
{
    BlockAnswer {
        number: capture::opening::number(answer),
        expansions: keys_expanded(answer),
        pair: capture::opening::pair(answer),
        count: octets_opened(answer),
        runs: capture::opening::runs(answer),
    }
}

// A part of the caller's block crosses as its offset and length (D124).
fn part_in_numbers(bounds: Result<Bounds, Refusal>) -> BlockPart
    ensures { result ≡ block_part bounds }
{
    let number = directory::payload::number(bounds);
    let pair = directory::payload::pair(bounds);
    let Bounds { from, octets } = bounds.unwrap_or(Bounds { from: 0, octets: 0 });
    BlockPart {
        number,
        pair,
        offset: from,
        length: octets,
    }
}

#[unsafe(no_mangle)]
pub extern "C" fn jazmotip_capture_directory(block: &[u8]) -> BlockDirectory
    ensures value { result ≡ block_directory (directory_of block.now) }
    ensures judged { Judged block.now }
{
    directory_in_numbers(check(block))
}

// The verdict on record k, from 1. The refusals of the call itself come first.
#[unsafe(no_mangle)]
pub extern "C" fn jazmotip_capture_verdict(settings: &[u8], block: &[u8], k: usize) -> BlockVerdict
    ensures { result ≡ block_verdict (verdict_asked settings.now block.now k) }
{
    verdict_in_numbers(ask(settings, block, k))
}

// The code of the verdict on each record, that on record k, from 1, at octet k - 1 of an output of 256 octets; the octets behind
// them stay.
#[unsafe(no_mangle)]
pub extern "C" fn jazmotip_capture_verdicts(
    settings: &[u8],
    block: &[u8],
    output: &mut [u8],
) -> BlockDirectory
    ensures { with_output result output.new
        ≡ judged_in_numbers (verdicts_of settings.now block.now output.old) }
{
    directory_in_numbers(verdicts(settings, block, output))
}

// Where the payload of record k, from 1, lies in the block.
#[unsafe(no_mangle)]
pub extern "C" fn jazmotip_capture_payload(block: &[u8], k: usize) -> BlockPart
    ensures value { result ≡ block_part (payload_bounds block.now k) }
    ensures length_in_bounds { result.offset + result.length ≤ length block.now }
    ensures length_value { part block.now result.offset result.length ≡ payload_part block.now k }
{
    part_in_numbers(locate(block, k))
}

#[unsafe(no_mangle)]
pub extern "C" fn jazmotip_capture_open(
    settings: &[u8],
    block: &[u8],
    output: &mut [u8],
) -> BlockAnswer
    ensures output_after { with_output result output.new ≡ opened_in_numbers (opening settings.now block.now output.old) }
    ensures opened_if_accepted { OpenedIfAccepted settings.now block.now (length output.old) }
{
    answer_in_numbers(open(settings, block, output))
}

// Lists a block, and gives the length of the text.
#[unsafe(no_mangle)]
pub extern "C" fn jazmotip_capture_list(
    settings: &[u8],
    block: &[u8],
    text: &mut [u8; LISTING_OCTETS],
) -> usize
    ensures upper_bound { (result ≤ length text.new) × (result ≡ length (take result text.new)) }
    ensures text_after { take result text.new ≡ listing_of settings.now block.now }
    ensures text_unchanged { drop result text.new ≡ drop result text.old }
{
    list(settings, block, text)
}
