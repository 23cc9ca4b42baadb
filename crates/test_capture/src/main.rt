// Runs the cases of tools/capture_cases.py, which are on standard input, and prints what the library makes of each: the
// listing, the answer of the opening call with a checksum of its output, and a payload that is asked for.
#![tactic(auto)]

ghost use Rattle.std.specs.Prelude.{◌<◌};

use capture::listing::LISTING_OCTETS;
use std::io;
use std::io::Read;

// The sizes and the number of the record asked for that stand ahead of a case.
const HEAD_OCTETS: usize = 15;

// The most of an output.
const MOST_OUTPUT: usize = 65601;

// Adler-32, as Python's zlib has it.
fn checksum(s: &[u8]) -> u64
    ensures { result < 4294967296 }
{
    let mut a: u64 = 1;
    let mut b: u64 = 0;
    for x in s {
        a = (a + u64::from(*x)) % 65521;
        b = (b + a) % 65521;
    }
    b * 65536 + a
}

fn print_sum(rt: &impl Print, s: &[u8]) -> io::Result<()> {
    println!(rt; " sum {:08x}", checksum(s))
}

fn print_listing(rt: &impl Print, settings: &[u8], block: &[u8]) -> io::Result<()> {
    let mut text = [0u8; LISTING_OCTETS];
    let n = capture::listing::list(settings, block, &mut text);
    rt.write_all(&text[..n])
}

// A code, and the broken pair where there is one.
fn print_number(rt: &impl Print, number: u8, pair: u16) -> io::Result<()> {
    print!(rt; "{number}")?;
    if pair != 0 {
        print!(rt; " {pair}")?;
    }
    Ok(())
}

// Opens the block into an output of `size` octets. These are not 0, so that an output left as it was can be told from one that was cleared.
fn print_opening(rt: &impl Print, settings: &[u8], block: &[u8], size: usize) -> io::Result<()> {
    let mut space = [165; MOST_OUTPUT];
    let output = &mut space[..size.min(MOST_OUTPUT)];
    let answer = capture::opening::open(settings, block, output);
    print!(rt; "call ")?;
    print_number(
        rt,
        capture::opening::number(answer),
        capture::opening::pair(answer),
    )?;
    print!(rt; " count {}", capture::opening::octets_opened(answer))?;
    print_sum(rt, output)
}

fn print_payload(rt: &impl Print, block: &[u8], k: usize) -> io::Result<()> {
    let verdict = directory::payload::payload_verdict(block, k);
    let part = directory::payload::part(block, k);
    print!(rt; "payload {k} number ")?;
    print_number(
        rt,
        refusal::verdict_number(verdict),
        refusal::verdict_pair(verdict),
    )?;
    print!(rt; " octets {}", part.len())?;
    print_sum(rt, part)
}

fn size_at(head: &[u8], at: usize) -> usize {
    octets::number32(head, at) as usize
}

// One case: the sizes of title, output, settings and block and the number of the record asked for, then title, settings and block.
fn run_case(rt: &impl Print, reader: &mut impl Read, head: &[u8]) -> io::Result<()> {
    let mut title_space = [0u8; 256];
    let mut settings_space = [0u8; 64];
    let mut block_space = [0u8; 65600];
    let title = streams::read_most(
        reader,
        &mut title_space,
        usize::from(octets::octet_at(head, 0)),
    )?;
    let settings = streams::read_most(reader, &mut settings_space, size_at(head, 7))?;
    let block = streams::read_most(reader, &mut block_space, size_at(head, 11))?;
    print!(rt; "# ")?;
    rt.write_all(title)?;
    println!(rt)?;
    print_listing(rt, settings, block)?;
    print_opening(rt, settings, block, size_at(head, 3))?;
    print_payload(rt, block, usize::from(octets::number16(head, 1)))
}

fn main(rt: HostRuntime) -> io::Result<()> {
    // A proved loop has to end: this one counts to a number that no run reaches.
    for _ in 0..u64::MAX {
        let mut space = [0u8; HEAD_OCTETS];
        let Some(head) = streams::read_next(&mut rt.reader(), &mut space)? else {
            break;
        };
        run_case(&rt, &mut rt.reader(), head)?;
    }
    Ok(())
}
