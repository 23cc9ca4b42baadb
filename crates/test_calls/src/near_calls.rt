// The calls of the capture reader in the near way (02, C-18), each with its line.
use crate::show::Hex;
use crate::{show, values};
use capture::listing::LISTING_OCTETS;
use jazmotip::near_blocks::{
    jazmotip_capture_list_near, jazmotip_capture_open_near, jazmotip_capture_verdict_near,
    jazmotip_capture_verdicts_near,
};
use std::io;

fn show_verdict(rt: &impl Print, settings: &[u8], block: &[u8], k: usize) -> io::Result<()> {
    show::verdict(
        rt,
        "capture_verdict_near",
        jazmotip_capture_verdict_near(settings, block, k),
    )
}

// The first four octets of what the output holds then.
fn verdicts(rt: &impl Print, settings: &[u8], block: &[u8]) -> io::Result<()> {
    let mut output = [0xaau8; 256];
    let near = jazmotip_capture_verdicts_near(settings, block, &mut output);
    show::directory(rt, "capture_verdicts_near", near.directory)?;
    show::between(rt, near.smallest, near.largest)?;
    println!(rt; " {}", Hex(octets::part_of(&output, 0, 4)))
}

fn open(rt: &impl Print, settings: &[u8], block: &[u8]) -> io::Result<()> {
    let mut output = [0xaau8; 59];
    let near = jazmotip_capture_open_near(settings, block, &mut output);
    show::at_pair(
        rt,
        "capture_open_near",
        near.answer.number,
        near.answer.pair,
    )?;
    show::between(rt, near.smallest, near.largest)?;
    show::passed(rt, near.answer.count, &output)
}

fn list(rt: &impl Print, settings: &[u8], block: &[u8]) -> io::Result<()> {
    let mut text = [0u8; LISTING_OCTETS];
    let n = jazmotip_capture_list_near(settings, block, &mut text);
    show::listing(rt, "capture_list_near", &text[..n])
}

fn calls(rt: &impl Print, settings: &[u8], block: &[u8]) -> io::Result<()> {
    show_verdict(rt, settings, block, 2)?;
    verdicts(rt, settings, block)?;
    open(rt, settings, block)?;
    list(rt, settings, block)
}

// The two records with other octets last in their clocks.
fn slipped(rt: &impl Print, first: u8, second: u8) -> io::Result<()> {
    let settings = values::settings();
    let mut block = values::block(18, 16, 34, 1);
    block[29] = first;
    block[45] = second;
    calls(rt, &settings, &block)
}

// Pair 2 is off the chain.
fn broken_pair(rt: &impl Print) -> io::Result<()> {
    let settings = values::settings();
    let block = values::block(18, 16, 35, 1);
    calls(rt, &settings, &block)
}

// Clocks that are exact; 25 ahead, then 17; record 2 as far from either clock that it could be.
pub(crate) fn play(rt: &impl Print) -> io::Result<()> {
    slipped(rt, 0x41, 0x41)?;
    slipped(rt, 0x5a, 0x52)?;
    slipped(rt, 0x5a, 0x3a)?;
    broken_pair(rt)
}
