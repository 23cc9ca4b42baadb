// The program of a class (02, C-19): the counts of sets and users and the user's number, an octet each, sets, rights, then a capture
// block on standard input, raw octets; the listing for that user on standard output.
#![tactic(auto)]

use class::listing::LISTING_OCTETS;
use std::io;

// The three octets, 16 sets, the rights of 16 users on them, and one octet more than a block may have: a longer block is refused, never cut.
const MOST_INPUT: usize = 66452;

fn main(rt: HostRuntime) -> io::Result<()> {
    let mut space = [0u8; MOST_INPUT];
    let mut text = [0u8; LISTING_OCTETS];
    let reader = &mut rt.reader();
    let input = streams::read_most(reader, &mut space, MOST_INPUT)?;
    let n = class::listing::list_input(input, &mut text);
    rt.write_all(&text[..n])?;
    if input.len() == MOST_INPUT {
        // The rest of an input that is too long is read, so that its writer is not cut off.
        io::copy(reader, &mut io::sink())?;
    }
    Ok(())
}
