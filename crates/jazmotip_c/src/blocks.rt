// The capture reader, for C.
ghost use Rattle.std.specs.Prelude.{◌≡◌, ◌+◌, ◌≤◌, length, take, drop};
ghost use Rattle.octets.specs.Lists.{part};
ghost use Rattle.octets.specs.Output.{with_output};
ghost use Rattle.directory.specs.Directory.{directory_of};
ghost use Rattle.directory.specs.Broken.{Judged};
ghost use Rattle.reading.specs.Verdict.{verdict_asked, verdicts_of};
ghost use Rattle.directory.specs.Payload.{payload_bounds, payload_part};
ghost use Rattle.reading.specs.Opening.{opening};
ghost use Rattle.reading.specs.Claims.{OpenedIfAccepted};
ghost use Rattle.reading.specs.Listing.{listing_of};
ghost use Rattle.jazmotip.specs.Blocks.{block_directory, block_verdict, block_part, judged_in_numbers, opened_in_numbers};

use capture::listing::LISTING_OCTETS;
use jazmotip::blocks::{BlockAnswer, BlockDirectory, BlockPart, BlockVerdict};

#[unsafe(no_mangle)]
pub extern "C" fn jazmotip_capture_directory(block: &[u8]) -> BlockDirectory
    ensures value { result ≡ block_directory (directory_of block.now) }
    ensures judged { Judged block.now }
{
    jazmotip::blocks::jazmotip_capture_directory(block)
}

#[unsafe(no_mangle)]
pub extern "C" fn jazmotip_capture_verdict(settings: &[u8], block: &[u8], k: usize) -> BlockVerdict
    ensures { result ≡ block_verdict (verdict_asked settings.now block.now k) }
{
    jazmotip::blocks::jazmotip_capture_verdict(settings, block, k)
}

#[unsafe(no_mangle)]
pub extern "C" fn jazmotip_capture_verdicts(
    settings: &[u8],
    block: &[u8],
    output: &mut [u8],
) -> BlockDirectory
    ensures { with_output result output.new
        ≡ judged_in_numbers (verdicts_of settings.now block.now output.old) }
{
    jazmotip::blocks::jazmotip_capture_verdicts(settings, block, output)
}

#[unsafe(no_mangle)]
pub extern "C" fn jazmotip_capture_payload(block: &[u8], k: usize) -> BlockPart
    ensures value { result ≡ block_part (payload_bounds block.now k) }
    ensures length_in_bounds { result.offset + result.length ≤ length block.now }
    ensures length_value { part block.now result.offset result.length ≡ payload_part block.now k }
{
    jazmotip::blocks::jazmotip_capture_payload(block, k)
}

#[unsafe(no_mangle)]
pub extern "C" fn jazmotip_capture_open(
    settings: &[u8],
    block: &[u8],
    output: &mut [u8],
) -> BlockAnswer
    ensures output_after { with_output result output.new ≡ opened_in_numbers (opening settings.now block.now output.old) }
    ensures opened_if_accepted { OpenedIfAccepted settings.now block.now (length output.old) }
{
    jazmotip::blocks::jazmotip_capture_open(settings, block, output)
}

#[unsafe(no_mangle)]
pub extern "C" fn jazmotip_capture_list(
    settings: &[u8],
    block: &[u8],
    text: &mut [u8; LISTING_OCTETS],
) -> usize
    ensures upper_bound { (result ≤ length text.new) × (result ≡ length (take result text.new)) }
    ensures text_after { take result text.new ≡ listing_of settings.now block.now }
    ensures text_unchanged { drop result text.new ≡ drop result text.old }
{
    jazmotip::blocks::jazmotip_capture_list(settings, block, text)
}
