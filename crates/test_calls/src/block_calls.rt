// The calls of the capture reader, each with its line.
use crate::show::Hex;
use crate::{show, values};
use capture::listing::LISTING_OCTETS;
use jazmotip::blocks::{
    jazmotip_capture_directory, jazmotip_capture_list, jazmotip_capture_open,
    jazmotip_capture_payload, jazmotip_capture_verdict, jazmotip_capture_verdicts,
};
use std::io;

fn directory(rt: &impl Print, block: &[u8]) -> io::Result<()> {
    show::directory(rt, "capture_directory", jazmotip_capture_directory(block))?;
    println!(rt)
}

fn show_verdict(rt: &impl Print, settings: &[u8], block: &[u8], k: usize) -> io::Result<()> {
    show::verdict(
        rt,
        "capture_verdict",
        jazmotip_capture_verdict(settings, block, k),
    )
}

// The first four octets of what the output holds then.
fn verdicts(rt: &impl Print, settings: &[u8], block: &[u8], output: &mut [u8]) -> io::Result<()> {
    let answer = jazmotip_capture_verdicts(settings, block, output);
    show::directory(rt, "capture_verdicts", answer)?;
    println!(rt; " {}", Hex(octets::part_of(output, 0, 4)))
}

fn all_verdicts(rt: &impl Print, settings: &[u8], block: &[u8]) -> io::Result<()> {
    let mut output = [0xaau8; 256];
    verdicts(rt, settings, block, &mut output)
}

fn too_few_verdicts(rt: &impl Print, settings: &[u8], block: &[u8]) -> io::Result<()> {
    let mut output = [0xaau8; 255];
    verdicts(rt, settings, block, &mut output)
}

fn payload(rt: &impl Print, block: &[u8], k: usize) -> io::Result<()> {
    let answer = jazmotip_capture_payload(block, k);
    show::at_pair(rt, "capture_payload", answer.number, answer.pair)?;
    println!(rt; " {} {}", answer.offset, answer.length)
}

fn open(rt: &impl Print, settings: &[u8], block: &[u8]) -> io::Result<()> {
    let mut output = [0xaau8; 59];
    let answer = jazmotip_capture_open(settings, block, &mut output);
    show::at_pair(rt, "capture_open", answer.number, answer.pair)?;
    show::passed(rt, answer.count, &output)
}

fn list(rt: &impl Print, settings: &[u8], block: &[u8]) -> io::Result<()> {
    let mut text = [0u8; LISTING_OCTETS];
    let n = jazmotip_capture_list(settings, block, &mut text);
    show::listing(rt, "capture_list", &text[..n])
}

fn directory_of(rt: &impl Print, first: u8, length: u8, second: u8, eqs: u8) -> io::Result<()> {
    let block = values::block(first, length, second, eqs);
    directory(rt, &block)
}

// Good; pairs 1 and 2 off the chain, and off the length.
fn directories(rt: &impl Print) -> io::Result<()> {
    directory_of(rt, 18, 16, 34, 1)?;
    directory_of(rt, 19, 16, 34, 1)?;
    directory_of(rt, 18, 16, 35, 1)?;
    directory_of(rt, 18, 17, 35, 1)?;
    directory_of(rt, 18, 16, 34, 2)
}

// Record 1 is clear, record 2 is to be opened, and there is no record 3.
fn records(rt: &impl Print, settings: &[u8], block: &[u8]) -> io::Result<()> {
    for k in 1..4 {
        show_verdict(rt, settings, block, k)?;
    }
    all_verdicts(rt, settings, block)?;
    too_few_verdicts(rt, settings, block)?;
    for k in 1..4 {
        payload(rt, block, k)?;
    }
    open(rt, settings, block)
}

fn two_records(rt: &impl Print) -> io::Result<()> {
    let settings = values::settings();
    let block = values::block(18, 16, 34, 1);
    records(rt, &settings, &block)
}

// Pair 2 is off the chain.
fn broken_pair(rt: &impl Print) -> io::Result<()> {
    let settings = values::settings();
    let block = values::block(18, 16, 35, 1);
    show_verdict(rt, &settings, &block, 1)?;
    all_verdicts(rt, &settings, &block)?;
    payload(rt, &block, 1)?;
    open(rt, &settings, &block)
}

// 01's example.
fn example(rt: &impl Print) -> io::Result<()> {
    let settings = values::example_settings();
    let block = values::example();
    list(rt, &settings, &block)
}

pub(crate) fn play(rt: &impl Print) -> io::Result<()> {
    directories(rt)?;
    two_records(rt)?;
    broken_pair(rt)?;
    example(rt)
}
