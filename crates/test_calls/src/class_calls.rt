// The calls of the reader of a class (02, C-19), each with its line.
use crate::show::Hex;
use crate::{show, values};
use class::listing::LISTING_OCTETS;
use jazmotip::blocks::BlockAnswer;
use jazmotip::class_blocks::{
    jazmotip_class_list, jazmotip_class_list_near, jazmotip_class_load, jazmotip_class_open,
    jazmotip_class_open_near,
};
use rights::settings::Caller;
use std::io;

// A class of one set and two users.
fn asks(user: u8) -> Caller {
    Caller {
        sets: 1,
        users: 2,
        user,
    }
}

fn opened(rt: &impl Print, call: &str, answer: BlockAnswer) -> io::Result<()> {
    show::at_pair(rt, call, answer.number, answer.pair)?;
    print!(rt; " {} {}", answer.expansions, answer.runs)
}

fn open(rt: &impl Print, user: u8, rights: &[u8], block: &[u8]) -> io::Result<()> {
    let mut output = [0xaau8; 59];
    let sets = values::settings();
    let answer = jazmotip_class_open(asks(user), &sets, rights, block, &mut output);
    opened(rt, "class_open", answer)?;
    show::passed(rt, answer.count, &output)
}

fn open_near(rt: &impl Print, user: u8, rights: &[u8], block: &[u8]) -> io::Result<()> {
    let mut output = [0xaau8; 59];
    let sets = values::settings();
    let near = jazmotip_class_open_near(asks(user), &sets, rights, block, &mut output);
    opened(rt, "class_open_near", near.answer)?;
    show::between(rt, near.smallest, near.largest)?;
    show::passed(rt, near.answer.count, &output)
}

fn list(rt: &impl Print, user: u8, rights: &[u8], block: &[u8]) -> io::Result<()> {
    let mut text = [0u8; LISTING_OCTETS];
    let sets = values::settings();
    let n = jazmotip_class_list(asks(user), &sets, rights, block, &mut text);
    show::listing(rt, "class_list", &text[..n])
}

fn list_near(rt: &impl Print, user: u8, rights: &[u8], block: &[u8]) -> io::Result<()> {
    let mut text = [0u8; LISTING_OCTETS];
    let sets = values::settings();
    let n = jazmotip_class_list_near(asks(user), &sets, rights, block, &mut text);
    show::listing(rt, "class_list_near", &text[..n])
}

fn calls(rt: &impl Print, user: u8, rights: &[u8], block: &[u8]) -> io::Result<()> {
    open(rt, user, rights, block)?;
    open_near(rt, user, rights, block)?;
    list(rt, user, rights, block)?;
    list_near(rt, user, rights, block)
}

fn load(rt: &impl Print, user: u8, llid: u16, index: u8) -> io::Result<()> {
    let mut sets = values::settings();
    let rights = [3, 4];
    let key = values::key();
    let number = jazmotip_class_load(asks(user), &mut sets, &rights, llid, index, &key);
    println!(rt; "jazmotip_class_load {number} {}", Hex(&sets))
}

fn good(rt: &impl Print, user: u8, first: u8, second: u8) -> io::Result<()> {
    let block = values::block(18, 16, 34, 1);
    let rights = [first, second];
    calls(rt, user, &rights, &block)
}

// Pair 2 is off the chain.
fn broken_pair(rt: &impl Print, user: u8) -> io::Result<()> {
    let block = values::block(18, 16, 35, 1);
    let rights = [3, 4];
    calls(rt, user, &rights, &block)
}

// Clocks that the near way corrects.
fn slipped(rt: &impl Print) -> io::Result<()> {
    let mut block = values::block(18, 16, 34, 1);
    block[29] = 0x5a;
    block[45] = 0x52;
    let rights = [2, 0];
    calls(rt, 1, &rights, &block)
}

// A user who may open, one who may see, one who may only load; rights outside their values; no such user.
pub(crate) fn play(rt: &impl Print) -> io::Result<()> {
    good(rt, 1, 3, 4)?;
    good(rt, 1, 1, 4)?;
    good(rt, 2, 3, 4)?;
    good(rt, 1, 2, 8)?;
    broken_pair(rt, 3)?;
    broken_pair(rt, 1)?;
    slipped(rt)?;
    load(rt, 2, 5, 0)?;
    load(rt, 1, 5, 0)?;
    load(rt, 2, 5, 2)?;
    load(rt, 2, 6, 0)?;
    load(rt, 0, 5, 0)
}
