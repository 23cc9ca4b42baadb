// The compare program: an LLID, the length of the first block and two capture blocks on standard input, raw octets; the listing of
// the two on standard output.
#![tactic(auto)]

use recordings::listing::LISTING_OCTETS;
use std::io;

// Room for the head, two blocks, and one octet more: a longer block is refused, never cut.
const INPUT_OCTETS: usize = 131079;

// The octets ahead of the first block.
const HEAD_OCTETS: usize = 6;

fn write_listing(rt: &impl Print, input: &[u8]) -> io::Result<()> {
    let mut text = [0u8; LISTING_OCTETS];
    let n = recordings::listing::list(input, &mut text);
    rt.write_all(&text[..n])
}

fn main(rt: HostRuntime) -> io::Result<()> {
    let mut input = [0u8; INPUT_OCTETS];
    let reader = &mut rt.reader();
    let n = streams::read_full(reader, &mut input)?;
    if n == INPUT_OCTETS {
        let room = (INPUT_OCTETS - HEAD_OCTETS) as u64;
        let size = octets::number32(&input, 2) as u64;
        // The rest of an input that is too long is read, so that its writer is not cut off, and its octets are counted.
        let skipped = io::copy(reader, &mut io::sink())?;
        if room < size && size - room <= skipped {
            // a first block that ends behind what is read is there: any length above the largest stands for its own
            input[3] = 1;
            input[2] = 0;
        }
    }
    write_listing(&rt, &input[..n])
}
