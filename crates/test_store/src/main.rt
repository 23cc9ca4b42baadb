// Runs the cases of tools/store.py, which are on standard input, and prints what the calls for the store make of each: the number, with
// the broken pair where there is one, a checksum of the output, and short outputs themselves.
#![tactic(auto)]

ghost use Rattle.std.specs.Prelude.{◌<◌};

use refusal::Verdict;
use std::io;
use std::io::Read;

// The octets of a case ahead of its title and its input, and the most of an input.
const HEAD_OCTETS: usize = 10;

const MOST_OCTETS: usize = 65600;

// Adler-32, as Python's zlib has it.
fn checksum(s: &[u8]) -> u64
    ensures { result < 4294967296 }
{
    let mut a: u64 = 1;
    let mut b: u64 = 0;
    for x in s {
        a = (a + u64::from(*x)) % 65521;
        b = (b + a) % 65521;
    }
    b * 65536 + a
}

fn print_answer(rt: &impl Print, verdict: Verdict, output: &[u8]) -> io::Result<()> {
    let number = refusal::verdict_number(verdict);
    let pair = refusal::verdict_pair(verdict);
    print!(rt; "{number} {pair} {:08x}", checksum(output))?;
    if output.len() <= 27 {
        print!(rt; " ")?;
        for x in output {
            print!(rt; "{x:02x}")?;
        }
    }
    println!(rt)
}

// Call 0 rearranges a payload and call 1 restores one; 2 and 3 do so to a block.
fn call(kind: u8, input: &[u8], output: &mut [u8]) -> Verdict {
    match kind {
        0 => planes::rearrange(input, output),
        1 => planes::restore(input, output),
        2 => store::rearrange_block(input, output),
        _ => store::restore_block(input, output),
    }
}

fn size_at(head: &[u8], at: usize) -> usize {
    octets::number32(head, at) as usize
}

// One case: the call, the sizes of title, output and input, then title and input.
fn run_case(rt: &impl Print, reader: &mut impl Read, head: &[u8]) -> io::Result<()> {
    let mut title_space = [0u8; 256];
    let title = streams::read_most(
        reader,
        &mut title_space,
        usize::from(octets::octet_at(head, 1)),
    )?;
    rt.write_all(title)?;
    print!(rt; ": ")?;
    let mut input_space = [0u8; MOST_OCTETS];
    let input = streams::read_most(reader, &mut input_space, size_at(head, 6))?;
    // Octets that are not 0, so that an output left as it was can be told from one that was cleared.
    let mut output_space = [165; MOST_OCTETS];
    let output = &mut output_space[..size_at(head, 2).min(MOST_OCTETS)];
    print_answer(rt, call(octets::octet_at(head, 0), input, output), output)
}

fn main(rt: HostRuntime) -> io::Result<()> {
    // A proved loop has to end: this one counts to a number that no run reaches.
    for _ in 0..u64::MAX {
        let mut space = [0u8; HEAD_OCTETS];
        let Some(head) = streams::read_next(&mut rt.reader(), &mut space)? else {
            break;
        };
        run_case(&rt, &mut rt.reader(), head)?;
    }
    Ok(())
}
