// The capture reader with a receive clock that is known only nearly (02, C-18): the calls of `blocks` in the near direction.
ghost use Rattle.std.specs.Prelude.{◌≡◌, true, ◌≤◌, length, take, drop};
ghost use Rattle.octets.specs.Output.{with_output};
ghost use Rattle.reading.specs.Reading.{asked_by, judging_by, opening_by, listing_by};
ghost use Rattle.reading.specs.Near.{ReadsAsExact, NotEmpty};
ghost use Rattle.jazmotip.specs.Blocks.{block_verdict, nearly_judged, nearly_opened};

use crate::blocks::{
    BlockAnswer, BlockDirectory, BlockVerdict, answer_in_numbers, directory_in_numbers,
    verdict_in_numbers,
};
use capture::listing::{LISTING_OCTETS, list_near};
use capture::opening::open_near;
use capture::verdict::{ask_near, verdicts_near};

// The smallest and the largest correction are octets of signed numbers, both 0 where no header was accepted or the call was refused.
#[repr(C)]
#[derive(Clone, Copy)]
pub struct BlockNearAnswer {
    pub answer: BlockAnswer,
    pub smallest: u8,
    pub largest: u8,
}

#[repr(C)]
#[derive(Clone, Copy)]
pub struct BlockNearVerdicts {
    pub directory: BlockDirectory,
    pub smallest: u8,
    pub largest: u8,
}

// The verdict on record k, from 1: the records before it are read for their corrections.
#[unsafe(no_mangle)]
pub extern "C" fn jazmotip_capture_verdict_near(
    settings: &[u8],
    block: &[u8],
    k: usize,
) -> BlockVerdict
    ensures { result ≡ block_verdict (asked_by true settings.now block.now k) }
{
    verdict_in_numbers(ask_near(settings, block, k))
}

#[unsafe(no_mangle)]
pub extern "C" fn jazmotip_capture_verdicts_near(
    settings: &[u8],
    block: &[u8],
    output: &mut [u8],
) -> BlockNearVerdicts
    ensures { with_output result output.new
        ≡ nearly_judged (judging_by true settings.now block.now output.old) }
{
    let near = verdicts_near(settings, block, output);
    BlockNearVerdicts {
        directory: directory_in_numbers(near.directory),
        smallest: near.smallest,
        largest: near.largest,
    }
}

// Each record at the clock nearest to the one expected; the clock fields stay as recorded.
#[unsafe(no_mangle)]
pub extern "C" fn jazmotip_capture_open_near(
    settings: &[u8],
    block: &[u8],
    output: &mut [u8],
) -> BlockNearAnswer
    ensures output_after { with_output result output.new
        ≡ nearly_opened (opening_by true settings.now block.now output.old) }
    ensures reads_as_exact { ReadsAsExact settings.now block.now output.old }
    ensures not_empty { NotEmpty }
{
    let near = open_near(settings, block, output);
    BlockNearAnswer {
        answer: answer_in_numbers(near.opened),
        smallest: near.smallest,
        largest: near.largest,
    }
}

// Lists a block, and gives the length of the text.
#[unsafe(no_mangle)]
pub extern "C" fn jazmotip_capture_list_near(
    settings: &[u8],
    block: &[u8],
    text: &mut [u8; LISTING_OCTETS],
) -> usize
    ensures upper_bound { (result ≤ length text.new) × (result ≡ length (take result text.new)) }
    ensures text_after { take result text.new ≡ listing_by true settings.now block.now }
    ensures text_unchanged { drop result text.new ≡ drop result text.old }
{
    list_near(settings, block, text)
}
