// Prints published values of AES-128, each after the place it is published at: FIPS 197; SP 800-38A; Rec. ITU-T G.987.3 (document 003).
// What the documents say is in the file stdout.
#![tactic(auto)]

use cipher::{aes128, key_expansion};
use std::io;

// The key of FIPS 197, A.1 and B, and of SP 800-38A, F.1.1 and F.5.1.
const KEY: u128 = 0x2b7e151628aed2a6abf7158809cf4f3c;

// A published value: its place, the key and the block.
const BLOCKS: [(&str, u128, u128); 11] = [
    ("FIPS 197, B", KEY, 0x3243f6a8885a308d313198a2e0370734),
    (
        "FIPS 197, C.1",
        0x000102030405060708090a0b0c0d0e0f,
        0x00112233445566778899aabbccddeeff,
    ),
    (
        "SP 800-38A, F.1.1, block 1",
        KEY,
        0x6bc1bee22e409f96e93d7e117393172a,
    ),
    (
        "SP 800-38A, F.1.1, block 2",
        KEY,
        0xae2d8a571e03ac9c9eb76fac45af8e51,
    ),
    (
        "SP 800-38A, F.1.1, block 3",
        KEY,
        0x30c81c46a35ce411e5fbc1191a0a52ef,
    ),
    (
        "SP 800-38A, F.1.1, block 4",
        KEY,
        0xf69f2445df4f9b17ad2b417be66c3710,
    ),
    (
        "SP 800-38A, F.5.1, output block 1",
        KEY,
        0xf0f1f2f3f4f5f6f7f8f9fafbfcfdfeff,
    ),
    (
        "SP 800-38A, F.5.1, output block 2",
        KEY,
        0xf0f1f2f3f4f5f6f7f8f9fafbfcfdff00,
    ),
    (
        "SP 800-38A, F.5.1, output block 3",
        KEY,
        0xf0f1f2f3f4f5f6f7f8f9fafbfcfdff01,
    ),
    (
        "SP 800-38A, F.5.1, output block 4",
        KEY,
        0xf0f1f2f3f4f5f6f7f8f9fafbfcfdff02,
    ),
    (
        "003, IV.9",
        0x6f9c99b8361768937e453b165f609710,
        0x112233445566778899aabbccddeeff00,
    ),
];

fn round_keys(key: u128) -> aes128::RoundKeys {
    key_expansion::expand_key(key.to_be_bytes())
}

fn print_round_keys(rt: &impl Print, keys: aes128::RoundKeys) -> io::Result<()> {
    for (n, key) in keys.octets.as_chunks::<16>().0.iter().enumerate() {
        println!(rt;
            "FIPS 197, A.1, round key {n}: {:032x}",
            u128::from_be_bytes(*key)
        )?;
    }
    Ok(())
}

fn main(rt: HostRuntime) -> io::Result<()> {
    print_round_keys(&rt, round_keys(KEY))?;
    for (place, key, block) in BLOCKS {
        let output = aes128::encrypt_block(round_keys(key), block.to_be_bytes());
        println!(rt; "{place}: {:032x}", u128::from_be_bytes(output))?;
    }
    Ok(())
}
