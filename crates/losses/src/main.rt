// The program `losses` (02, C-23): a script on standard input, the timer interval in eight octets, then nine octets a step; one line
// on standard output: the first step whose loss alone changes the final A, C or a, `none`, or `refused` and the code.
#![tactic(auto)]

use exercise::Answer;
use std::io;

// One octet more than the longest script has: a longer one is refused, never cut.
const MOST_INPUT: usize = 585;

fn write_number(rt: &impl Print, n: usize) -> io::Result<()> {
    print!(rt; "{n}")
}

fn write_answer(rt: &impl Print, answer: Answer) -> io::Result<()> {
    match answer {
        Ok(Some(step)) => write_number(rt, step)?,
        Ok(None) => print!(rt; "none")?,
        Err(refusal) => {
            print!(rt; "refused ")?;
            write_number(rt, u8::from(refusal) as usize)?;
        }
    }
    println!(rt)
}

fn main(rt: HostRuntime) -> io::Result<()> {
    let mut space = [0u8; MOST_INPUT];
    let reader = &mut rt.reader();
    let input = streams::read_most(reader, &mut space, MOST_INPUT)?;
    write_answer(&rt, exercise::first_loss(input))?;
    if input.len() == MOST_INPUT {
        // The rest of an input that is too long is read, so that its writer is not cut off.
        io::copy(reader, &mut io::sink())?;
    }
    Ok(())
}
