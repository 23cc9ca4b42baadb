// The reader program: settings, then a capture block on standard input, raw octets; the listing on standard output (D83).
#![tactic(auto)]

use capture::listing::LISTING_OCTETS;
use records::block::MOST_OCTETS;
use records::settings::SETTINGS_OCTETS;
use std::io;

// Settings and one octet more than a block may have: a longer block is refused, never cut.
const MOST_INPUT: usize = SETTINGS_OCTETS + MOST_OCTETS + 1;

fn main(rt: HostRuntime) -> io::Result<()> {
    let mut space = [0u8; MOST_INPUT];
    let mut text = [0u8; LISTING_OCTETS];
    let reader = &mut rt.reader();
    let input = streams::read_most(reader, &mut space, MOST_INPUT)?;
    // Input that ends within the settings is settings too short, without a block.
    let (settings, block) = input.split_at(SETTINGS_OCTETS.min(input.len()));
    let n = capture::listing::list(settings, block, &mut text);
    rt.write_all(&text[..n])?;
    if input.len() == MOST_INPUT {
        // The rest of an input that is too long is read, so that its writer is not cut off.
        io::copy(reader, &mut io::sink())?;
    }
    Ok(())
}
