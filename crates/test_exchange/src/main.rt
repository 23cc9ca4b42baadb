// Plays the script on standard input, through the calls that firmware links: exchanges between an OLT and two units, of clocks and keys and of
// envelopes, their own and of groups, with losses, retries, switches and new paths; every refusal of the calls of both ends; and what the
// readings of 01 and of 02, C-14 and C-16, tell apart. A line is a remark (#), a title, or a row: its label (D122), what is played, and after the
// colon what is shown of it. What it must print is made by tools/test_exchange.py.
#![tactic(auto)]

mod at_olt;
mod at_onu;
mod named;
mod play;
mod script;
mod show;
mod values;

use play::{Play, Side};
use script::Numbers;
use std::io;

// The script is above 65,536 octets.
const MOST_SCRIPT: usize = 131072;

// A word that is played, with the numbers after it.
fn command(rt: &impl Print, p: &mut Play, word: &[u8], n: Numbers) -> io::Result<()> {
    if play::turn(p, word, n) {
        return Ok(());
    }
    if matches!(word, b":") {
        return show::number(rt, p.number);
    }
    let number = match p.aim.side {
        Side::Olt => at_olt::command(p, word, n),
        Side::One | Side::Two => at_onu::command(p, word, n),
    };
    if number.is_none() {
        print!(rt; "?")?;
    }
    p.number = number.unwrap_or(0);
    Ok(())
}

// Before the colon, words with the numbers after them; after it, what is shown. Numbers go with the word before them.
fn play_row(rt: &impl Print, p: &mut Play, row: &[u8]) -> io::Result<()> {
    let mut rest = row;
    while let Some((word, next)) = script::split_word(rest) {
        if !script::is_number(word) {
            if rest.contains(&b':') {
                command(rt, p, word, Numbers::ahead(next))?;
            } else {
                show::show(rt, p, word)?;
            }
        }
        rest = next;
    }
    if row.last().is_some_and(|x| *x != b' ') {
        println!(rt)?;
    }
    Ok(())
}

// Writes the label of a row and plays the row, or a title as it stands; a remark goes unseen.
fn play_line(rt: &impl Print, p: &mut Play, line: &[u8]) -> io::Result<()> {
    let text = line.strip_suffix(b"\n").unwrap_or(line);
    if let Some(bar) = text.iter().position(|x| *x == b'|') {
        rt.write_all(&text[..bar.saturating_sub(1)])?;
        return play_row(rt, p, line.get(bar + 2..).unwrap_or(b""));
    }
    if !matches!(text, [] | [b'#', ..]) {
        rt.write_all(text)?;
        println!(rt)?;
    }
    Ok(())
}

fn main(rt: HostRuntime) -> io::Result<()> {
    let mut space = [0u8; MOST_SCRIPT];
    let script = streams::read_most(&mut rt.reader(), &mut space, MOST_SCRIPT)?;
    let mut p = play::start();
    for line in script.split_inclusive(|x| *x == b'\n') {
        play_line(&rt, &mut p, line)?;
    }
    Ok(())
}
