// Words of AES-128 in octets (FIPS 197): what the key expansion works on; and the cipher on a block by itself. The table is bound once by the caller
// and lent.
ghost use Rattle.std.specs.Prelude.{◌≡◌, ◌++◌, ◌<◌};
ghost use Rattle.gf256.specs.Substitution.{sbox};
ghost use Rattle.gf256.specs.Table.{sbox_table};
ghost use Rattle.cipher.specs.Cipher.{cipher};
ghost use Rattle.cipher.specs.Words.{word, xor_words, sub_word};

use super::row_words::{block_octets, encrypt_lone};
use std::array;

// The eleven round keys, one after the other.
#[repr(C)]
#[derive(Clone, Copy)]
pub struct RoundKeys {
    pub octets: [u8; 176],
}

fn substitute(table: &[u8; 256], x: u8) -> u8
    requires { table.now ≡ sbox_table }
    ensures { result ≡ sbox x }
{
    table[x as usize]
}

// Word i of 16 octets.
pub(crate) fn word_of(s: [u8; 16], i: usize) -> [u8; 4]
    requires { i < 4 }
    ensures { result ≡ word s i }
{
    let (words, _) = s.as_chunks::<4>();
    words[i]
}

// The 16 octets of four words. Written out: the library joins arrays on the heap alone.
pub(crate) fn joined(a: [u8; 4], b: [u8; 4], c: [u8; 4], d: [u8; 4]) -> [u8; 16]
    ensures { result ≡ word a 0 ++ (word b 0 ++ (word c 0 ++ word d 0)) }
{
    [
        a[0], a[1], a[2], a[3], b[0], b[1], b[2], b[3], c[0], c[1], c[2], c[3], d[0], d[1], d[2],
        d[3],
    ]
}

pub(crate) fn sub_word(subs: &[u8; 256], a: [u8; 4]) -> [u8; 4]
    requires { subs.now ≡ sbox_table }
    ensures { result ≡ sub_word a }
{
    a.map(|x| substitute(subs, x))
}

pub(crate) fn xor_words(a: [u8; 4], b: [u8; 4]) -> [u8; 4]
    ensures { result ≡ xor_words a b }
{
    array::from_fn(|i| a[i] ^ b[i])
}

pub fn encrypt_block(keys: RoundKeys, block: [u8; 16]) -> [u8; 16]
    ensures { result ≡ cipher keys.octets block }
{
    let subs = gf256::sbox_table();
    let octets = keys.octets;
    block_octets(encrypt_lone(&subs, &octets, block))
}
