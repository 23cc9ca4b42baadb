// The capture reader with a receive clock that is known only nearly, for C.
ghost use Rattle.std.specs.Prelude.{◌≡◌, true, ◌≤◌, length, take, drop};
ghost use Rattle.octets.specs.Output.{with_output};
ghost use Rattle.reading.specs.Reading.{asked_by, judging_by, opening_by, listing_by};
ghost use Rattle.reading.specs.Near.{ReadsAsExact, NotEmpty};
ghost use Rattle.jazmotip.specs.Blocks.{block_verdict, nearly_judged, nearly_opened};

use capture::listing::LISTING_OCTETS;
use jazmotip::blocks::BlockVerdict;
use jazmotip::near_blocks::{BlockNearAnswer, BlockNearVerdicts};

#[unsafe(no_mangle)]
pub extern "C" fn jazmotip_capture_verdict_near(
    settings: &[u8],
    block: &[u8],
    k: usize,
) -> BlockVerdict
    ensures { result ≡ block_verdict (asked_by true settings.now block.now k) }
{
    jazmotip::near_blocks::jazmotip_capture_verdict_near(settings, block, k)
}

#[unsafe(no_mangle)]
pub extern "C" fn jazmotip_capture_verdicts_near(
    settings: &[u8],
    block: &[u8],
    output: &mut [u8],
) -> BlockNearVerdicts
    ensures { with_output result output.new
        ≡ nearly_judged (judging_by true settings.now block.now output.old) }
{
    jazmotip::near_blocks::jazmotip_capture_verdicts_near(settings, block, output)
}

#[unsafe(no_mangle)]
pub extern "C" fn jazmotip_capture_open_near(
    settings: &[u8],
    block: &[u8],
    output: &mut [u8],
) -> BlockNearAnswer
    ensures output_after { with_output result output.new
        ≡ nearly_opened (opening_by true settings.now block.now output.old) }
    ensures reads_as_exact { ReadsAsExact settings.now block.now output.old }
    ensures not_empty { NotEmpty }
{
    jazmotip::near_blocks::jazmotip_capture_open_near(settings, block, output)
}

#[unsafe(no_mangle)]
pub extern "C" fn jazmotip_capture_list_near(
    settings: &[u8],
    block: &[u8],
    text: &mut [u8; LISTING_OCTETS],
) -> usize
    ensures upper_bound { (result ≤ length text.new) × (result ≡ length (take result text.new)) }
    ensures text_after { take result text.new ≡ listing_by true settings.now block.now }
    ensures text_unchanged { drop result text.new ≡ drop result text.old }
{
    jazmotip::near_blocks::jazmotip_capture_list_near(settings, block, text)
}
