// The key expansion of AES-128 (FIPS 197, 5.2), by 16 octets at a time. The table is bound once by the caller and lent.
ghost use Rattle.std.specs.Prelude.{◌≡◌, ◌<◌};
ghost use Rattle.octets.specs.Lists.{replaced};
ghost use Rattle.gf256.specs.Table.{sbox_table};
ghost use Rattle.cipher.specs.KeyExpansion.{constant_word, key_expansion};
ghost use Rattle.cipher.specs.Steps.{next_key};
ghost use Rattle.cipher.specs.Words.{rot_word};

use super::aes128::{RoundKeys, joined, sub_word, word_of, xor_words};

fn rot_word(a: [u8; 4]) -> [u8; 4]
    ensures { result ≡ rot_word a }
{
    [a[1], a[2], a[3], a[0]]
}

fn constant_word(x: u8) -> [u8; 4]
    ensures { result ≡ constant_word x }
{
    [x, 0, 0, 0]
}

// The round key after k, where x is the power of x in its round constant.
fn next_key(subs: &[u8; 256], k: [u8; 16], x: u8) -> [u8; 16]
    requires { subs.now ≡ sbox_table }
    ensures { result ≡ next_key k x }
{
    let t = xor_words(sub_word(subs, rot_word(word_of(k, 3))), constant_word(x));
    let a = xor_words(word_of(k, 0), t);
    let b = xor_words(word_of(k, 1), a);
    let c = xor_words(word_of(k, 2), b);
    let d = xor_words(word_of(k, 3), c);
    joined(a, b, c, d)
}

// Stores a round key from the octet `at` on. Octet by octet: after `copy_from_slice` the compiler keeps the round key in memory, and a key expansion
// takes half as long again.
fn put(w: &mut [u8; 176], at: usize, k: [u8; 16])
    requires { at < 161 }
    ensures { w.new ≡ replaced w.old at k }
{
    for (j, x) in k.iter().enumerate() {
        w[at + j] = *x;
    }
}

// The key expansion, with the table lent.
#[tactic(auto, unfolding(crate::specs::KeyExpansion::expanded, gf256::specs::Table::round_constants, crate::specs::KeyExpansion::key_expansion))]
pub(crate) fn expand_with(subs: &[u8; 256], key: [u8; 16]) -> RoundKeys
    requires { subs.now ≡ sbox_table }
    ensures { result.octets ≡ key_expansion key }
{
    let mut w = [0u8; 176];
    put(&mut w, 0, key);
    let mut k = key;
    for (n, x) in gf256::round_constants().iter().enumerate() {
        let next = next_key(subs, k, *x);
        put(&mut w, 16 * (n + 1), next);
        k = next;
    }
    RoundKeys { octets: w }
}

pub fn expand_key(key: [u8; 16]) -> RoundKeys
    ensures { result.octets ≡ key_expansion key }
{
    let subs = gf256::sbox_table();
    expand_with(&subs, key)
}
