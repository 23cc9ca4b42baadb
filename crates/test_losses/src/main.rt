// Every script of standard input, a length of two octets ahead of each: its number, and the first step whose loss matters.
// tools/losses.py makes the input, and what must be printed.
#![tactic(auto)]

use std::io;

fn write_number(rt: &impl Print, n: usize) -> io::Result<()> {
    print!(rt; "{n}")
}

fn play(rt: &impl Print, script: &[u8]) -> io::Result<()> {
    let answer = exercise::first_loss(script);
    write_number(rt, exercise::number(answer) as usize)?;
    print!(rt; " ")?;
    write_number(rt, exercise::step_told(answer))?;
    println!(rt)
}

fn play_all(rt: &impl Print, scripts: &[u8]) -> io::Result<()> {
    let mut rest = scripts;
    while let Some((length, after)) = rest.split_first_chunk() {
        let Some((script, next)) = after.split_at_checked(octets::be16(*length) as usize) else {
            break;
        };
        play(rt, script)?;
        rest = next;
    }
    Ok(())
}

fn main(rt: HostRuntime) -> io::Result<()> {
    let mut space = [0u8; 65536];
    let scripts = streams::read_most(&mut rt.reader(), &mut space, 65536)?;
    play_all(&rt, scripts)
}
