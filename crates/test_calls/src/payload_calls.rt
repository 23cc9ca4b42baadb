// The calls of sealing, each with its line.
use crate::show::Hex;
use crate::{show, values};
use cipher::aes128::RoundKeys;
use jazmotip::payloads::{
    jazmotip_count, jazmotip_expand_key, jazmotip_seal, jazmotip_seal_expanded,
    jazmotip_seal_expanded_in_place, jazmotip_seal_in_place,
};
use std::io;

fn expand(rt: &impl Print) -> io::Result<RoundKeys> {
    let key = values::key();
    let keys = jazmotip_expand_key(&key);
    println!(rt; "jazmotip_expand_key {}", Hex(&keys.octets))?;
    Ok(keys)
}

fn seal(rt: &impl Print, encenabled: u8) -> io::Result<()> {
    let key = values::key();
    let payload = values::payload();
    let mut output = values::lent();
    let answer = jazmotip_seal(encenabled, &key, values::nonce(), &payload, &mut output);
    show::begin(rt, "seal", answer.number)?;
    show::passed(rt, answer.count, &output)
}

fn seal_expanded(rt: &impl Print, encenabled: u8, keys: RoundKeys) -> io::Result<()> {
    let payload = values::payload();
    let mut output = values::lent();
    let answer = jazmotip_seal_expanded(encenabled, keys, values::nonce(), &payload, &mut output);
    show::begin(rt, "seal_expanded", answer.number)?;
    show::passed(rt, answer.count, &output)
}

fn seal_in_place(rt: &impl Print, encenabled: u8) -> io::Result<()> {
    let key = values::key();
    let mut payload = values::payload();
    let answer = jazmotip_seal_in_place(encenabled, &key, values::nonce(), &mut payload);
    show::begin(rt, "seal_in_place", answer.number)?;
    show::passed(rt, answer.count, &payload)
}

fn seal_expanded_in_place(rt: &impl Print, encenabled: u8, keys: RoundKeys) -> io::Result<()> {
    let mut payload = values::payload();
    let answer = jazmotip_seal_expanded_in_place(encenabled, keys, values::nonce(), &mut payload);
    show::begin(rt, "seal_expanded_in_place", answer.number)?;
    show::passed(rt, answer.count, &payload)
}

fn count(rt: &impl Print) -> io::Result<()> {
    let payload = values::payload();
    println!(rt; "jazmotip_count {}", jazmotip_count(&payload))
}

pub(crate) fn play(rt: &impl Print) -> io::Result<()> {
    let keys = expand(rt)?;
    for encenabled in 0..3 {
        seal(rt, encenabled)?;
    }
    for encenabled in 0..3 {
        seal_expanded(rt, encenabled, keys)?;
    }
    for encenabled in 0..3 {
        seal_in_place(rt, encenabled)?;
    }
    for encenabled in 0..3 {
        seal_expanded_in_place(rt, encenabled, keys)?;
    }
    count(rt)
}
