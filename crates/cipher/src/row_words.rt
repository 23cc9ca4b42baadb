// The forward cipher of AES-128 (FIPS 197, 5.1) on the rows of one state, or of two at once: four words of 64 bits, of which word r has row r, its
// octets column by column and the first state's lowest. MixColumns is then sums of words and doublings of their eight octets, and ShiftRows is the
// choice of octets at the lookup. The table is bound once by the caller and lent.
ghost use Rattle.std.specs.Prelude.{◌≡◌, ◌+◌, ◌*◌, ◌%◌, ◌<◌, get_or};
ghost use Rattle.octets.specs.Lists.{tabulate};
ghost use Rattle.gf256.specs.Field.{◌⊕◌};
ghost use Rattle.gf256.specs.Lanes.{octet_at};
ghost use Rattle.gf256.specs.Substitution.{sbox};
ghost use Rattle.cipher.specs.Cipher.{Nr, cell, cipher, last_round, round_key, rounds};
ghost use Rattle.cipher.specs.FirstRound.{BeforeLast};
ghost use Rattle.cipher.specs.RowWords.{Both, BySbox, Eight, Four, Keyed, LastColumns, Mixed, PairKeys, Reached, Rounded, Shifted, TwoOctets, TwoRows, block_octets, keyed_state, of_four, row_of, state};

use super::first_round::first_round;
use gf256::double_octets;

// Of a key of 16 octets (FIPS 197, 5, table 3).
const ROUNDS: usize = 10;

#[derive(Clone, Copy)]
pub struct Rows {
    pub a: u64,
    pub b: u64,
    pub c: u64,
    pub d: u64,
}

const NO_ROWS: Rows = Rows {
    a: 0,
    b: 0,
    c: 0,
    d: 0,
};

// A cipher block: its octets 0 to 7 and 8 to 15, the first of each lowest.
#[derive(Clone, Copy)]
pub struct Block {
    pub low: u64,
    pub high: u64,
}

// An octet in a word. A function of its own: its promise has the bound that the proofs of sums of octets read.
pub fn wide(x: u8) -> u64
    ensures { (result ≡ x) × (result < 256) }
{
    u64::from(x)
}

// Four octets, the first lowest.
pub(crate) fn four(a: u64, b: u64, c: u64, d: u64) -> u64
    requires { ((a < 256) × (b < 256)) × ((c < 256) × (d < 256)) }
    ensures { (result ≡ a + b * 256 + (c + d * 256) * 65536) × (result < 4294967296) }
{
    (a + b * 256) + (c + d * 256) * 65536
}

// Four octets and then four more.
pub(crate) fn both(low: u64, high: u64) -> u64
    requires { (low < 4294967296) × (high < 4294967296) }
    ensures { Both low high result }
{
    low + high * 4294967296
}

// Eight octets, the first lowest. By hand: of an array that goes whole to `u64::from_le_bytes` no proof knows that its elements are octets.
pub fn eight(s: [u8; 8]) -> u64
    ensures { Eight (λ j. get_or s j 0) result }
{
    both(
        four(wide(s[0]), wide(s[1]), wide(s[2]), wide(s[3])),
        four(wide(s[4]), wide(s[5]), wide(s[6]), wide(s[7])),
    )
}

// Four octets of s, the first at place k and each `step` places on.
fn gathered(s: [u8; 16], k: usize, step: usize) -> u64
    requires k_bound { (k < 13) × (step < 5) }
    requires step_bound { k + step * 3 < 16 }
    ensures { Four (λ j. get_or s (k + step * j) 0) result }
{
    four(
        wide(s[k + step * 0]),
        wide(s[k + step * 1]),
        wide(s[k + step * 2]),
        wide(s[k + step * 3]),
    )
}

// The rows of one state.
pub(crate) fn rows_of(s: [u8; 16]) -> Rows
    ensures { state result 0 ≡ s }
{
    Rows {
        a: gathered(s, 0, 4),
        b: gathered(s, 1, 4),
        c: gathered(s, 2, 4),
        d: gathered(s, 3, 4),
    }
}

// Row k of one state, twice.
fn row_twice(s: [u8; 16], k: usize) -> u64
    requires { k < 4 }
    ensures { TwoRows s s k result }
{
    let row = gathered(s, k, 4);
    both(row, row)
}

// The rows of one state, twice.
fn rows_twice(s: [u8; 16]) -> Rows
    ensures { (state result 0 ≡ s) × (state result 1 ≡ s) }
{
    Rows {
        a: row_twice(s, 0),
        b: row_twice(s, 1),
        c: row_twice(s, 2),
        d: row_twice(s, 3),
    }
}

// Octet j of x, substituted.
#[tactic(auto, unfolding(gf256::specs::Lanes::octet_at))]
fn substituted(subs: &[u8; 256], x: u64, j: u64) -> u64
    requires { j < 8 }
    ensures { BySbox subs.now (result ≡ sbox (octet_at x j)) × (result < 256) }
{
    wide(subs[((x >> (8 * j)) % 256) as usize])
}

// The octets j and j + 1 of x.
fn two_octets(x: u64, j: u64) -> u16
    requires { j < 7 }
    ensures { TwoOctets x j result }
{
    ((x >> (8 * j)) % 65536) as u16
}

// Octet m, substituted, of the four that p and q have.
fn one_of_four(subs: &[u8; 256], p: u16, q: u16, m: u64) -> u64
    ensures { BySbox subs.now (result ≡ sbox (of_four p q m)) × (result < 256) }
{
    if m == 0 {
        return wide(subs[(p % 256) as usize]);
    }
    if m == 1 {
        return wide(subs[(p >> 8) as usize]);
    }
    if m == 2 {
        return wide(subs[(q % 256) as usize]);
    }
    wide(subs[(q >> 8) as usize])
}

// Row k of state z after SubBytes and ShiftRows. The octets are taken two at a time: one by one, pairs of blocks take 5 % longer (D69).
fn shifted_row(subs: &[u8; 256], x: u64, k: u64, z: u64) -> u64
    requires { (k < 4) × (z < 2) }
    ensures { BySbox subs.now (Four (λ j. sbox (octet_at x (4 * z + (k + j) % 4))) result) × (result < 4294967296) }
{
    let p = two_octets(x, 4 * z);
    let q = two_octets(x, 4 * z + 2);
    four(
        one_of_four(subs, p, q, (k + 0) % 4),
        one_of_four(subs, p, q, (k + 1) % 4),
        one_of_four(subs, p, q, (k + 2) % 4),
        one_of_four(subs, p, q, (k + 3) % 4),
    )
}

// Row k of both states.
fn shifted_rows(subs: &[u8; 256], x: u64, k: u64) -> u64
    requires { k < 4 }
    ensures { BySbox subs.now (Shifted k x result) }
{
    both(shifted_row(subs, x, k, 0), shifted_row(subs, x, k, 1))
}

// MixColumns, and AddRoundKey with k. The doubled sum of the last and the first row is that of the other three.
pub(crate) fn mixed(s: Rows, k: Rows) -> Rows
    ensures { Mixed s k result }
{
    let ab = s.a ^ s.b;
    let cd = s.c ^ s.d;
    let x = double_octets(ab);
    let y = double_octets(s.b ^ s.c);
    let z = double_octets(cd);
    Rows {
        a: x ^ s.b ^ cd ^ k.a,
        b: y ^ s.a ^ cd ^ k.b,
        c: z ^ s.d ^ ab ^ k.c,
        d: x ^ y ^ z ^ s.c ^ ab ^ k.d,
    }
}

// Octet j of x and an octet k of a round key, added and substituted.
pub(crate) fn keyed(subs: &[u8; 256], x: u64, j: u64, k: u8) -> u64
    requires { j < 8 }
    ensures { BySbox subs.now (result ≡ sbox (octet_at x j ⊕ k)) × (result < 256) }
{
    wide(subs[(octet(x, j) ^ k) as usize])
}

// Row k of one state after AddRoundKey, SubBytes and ShiftRows. The octets of the key are added where octets are looked up, so that its rows need
// not be gathered.
pub(crate) fn keyed_row(subs: &[u8; 256], key: [u8; 16], x: u64, k: usize) -> u64
    requires { k < 4 }
    ensures { BySbox subs.now (Four (λ j. sbox (octet_at x ((k + j) % 4) ⊕ cell key k ((k + j) % 4))) result) × (result < 4294967296) }
{
    four(
        keyed(subs, x, ((k + 0) % 4) as u64, key[k + 4 * ((k + 0) % 4)]),
        keyed(subs, x, ((k + 1) % 4) as u64, key[k + 4 * ((k + 1) % 4)]),
        keyed(subs, x, ((k + 2) % 4) as u64, key[k + 4 * ((k + 2) % 4)]),
        keyed(subs, x, ((k + 3) % 4) as u64, key[k + 4 * ((k + 3) % 4)]),
    )
}

// AddRoundKey, and a round of one state up to its own AddRoundKey.
fn lone_round(subs: &[u8; 256], key: [u8; 16], s: Rows) -> Rows
    ensures { BySbox subs.now (Keyed key s result) }
{
    let t = Rows {
        a: keyed_row(subs, key, s.a, 0),
        b: keyed_row(subs, key, s.b, 1),
        c: keyed_row(subs, key, s.c, 2),
        d: keyed_row(subs, key, s.d, 3),
    };
    mixed(t, NO_ROWS)
}

// A round of two states.
fn pair_round(subs: &[u8; 256], k: Rows, s: Rows) -> Rows
    ensures { BySbox subs.now (Rounded k s result) }
{
    let t = Rows {
        a: shifted_rows(subs, s.a, 0),
        b: shifted_rows(subs, s.b, 1),
        c: shifted_rows(subs, s.c, 2),
        d: shifted_rows(subs, s.d, 3),
    };
    mixed(t, k)
}

// The octets of round key n of the key schedule w. One by one: of a piece of `as_chunks` the compiler loads words and takes the octets from them, 3 % more
// instructions for a block by itself.
#[tactic(auto, unfolding(crate::specs::Cipher::round_key))]
pub(crate) fn round_key(w: &[u8; 176], n: usize) -> [u8; 16]
    requires { n < 11 }
    ensures { result ≡ round_key w.now n }
{
    let k = 16 * n;
    [
        w[k],
        w[k + 1],
        w[k + 2],
        w[k + 3],
        w[k + 4],
        w[k + 5],
        w[k + 6],
        w[k + 7],
        w[k + 8],
        w[k + 9],
        w[k + 10],
        w[k + 11],
        w[k + 12],
        w[k + 13],
        w[k + 14],
        w[k + 15],
    ]
}

// AddRoundKey and the rounds 1 to 9 of one state, up to the AddRoundKey of the ninth.
#[tactic(auto, unfolding(crate::specs::Cipher::rounds))]
fn lone_rounds<'a>(subs: &'a [u8; 256], w: &'a [u8; 176], start: Rows) -> Rows
    ensures { BySbox subs.now (keyed_state (round_key w.now 9) result
        ≡ rounds w.now 9 (keyed_state (round_key w.now 0) start)) }
{
    let mut s = start;
    // An index loop: `round_key` takes the number of the key, for the sake of speed.
    for n in 0..ROUNDS - 1 {
        s = lone_round(subs, round_key(w, n), s);
    }
    s
}

// The rounds 2 to 9 of two states.
fn pair_rounds<'a>(subs: &'a [u8; 256], keys: [Rows; 10], start: Rows) -> Rows
    ensures { BySbox subs.now (Reached keys 9 start result) }
{
    let mut s = start;
    for key in &keys[2..ROUNDS] {
        s = pair_round(subs, *key, s);
    }
    s
}

// The round keys 0 to 9, each for two states.
pub fn pair_keys(w: &[u8; 176]) -> [Rows; 10]
    ensures { PairKeys w.now Nr result }
{
    let mut keys = [NO_ROWS; 10];
    for (n, key) in keys.iter_mut().enumerate() {
        *key = rows_twice(round_key(w, n));
    }
    keys
}

// Column i of one state after SubBytes and ShiftRows.
fn shifted_column(subs: &[u8; 256], s: Rows, i: u64) -> u64
    requires { i < 4 }
    ensures { BySbox subs.now (Four (λ j. sbox (octet_at (row_of s j) ((i + j) % 4))) result) × (result < 4294967296) }
{
    four(
        substituted(subs, s.a, (i + 0) % 4),
        substituted(subs, s.b, (i + 1) % 4),
        substituted(subs, s.c, (i + 2) % 4),
        substituted(subs, s.d, (i + 3) % 4),
    )
}

// Two columns under the octets of the key k from place `at` on.
fn last_columns(k: [u8; 16], at: usize, first: u64, second: u64) -> u64
    requires at_bound { at < 9 }
    requires first_bound { (first < 4294967296) × (second < 4294967296) }
    ensures { LastColumns k at first second result }
{
    let key = both(gathered(k, at, 1), gathered(k, at + 4, 1));
    both(first, second) ^ key
}

// The last round of one state, under its key.
fn last_round(subs: &[u8; 256], k: [u8; 16], s: Rows) -> Block
    ensures { BySbox subs.now (block_octets result ≡ last_round k (state s 0)) }
{
    Block {
        low: last_columns(k, 0, shifted_column(subs, s, 0), shifted_column(subs, s, 1)),
        high: last_columns(k, 8, shifted_column(subs, s, 2), shifted_column(subs, s, 3)),
    }
}

// Column i of one state after AddRoundKey, SubBytes and ShiftRows.
fn keyed_column(subs: &[u8; 256], key: [u8; 16], s: Rows, i: usize) -> u64
    requires { i < 4 }
    ensures { BySbox subs.now (Four (λ j. sbox (octet_at (row_of s j) ((i + j) % 4) ⊕ cell key j ((i + j) % 4))) result) × (result < 4294967296) }
{
    four(
        keyed(subs, s.a, ((i + 0) % 4) as u64, key[0 + 4 * ((i + 0) % 4)]),
        keyed(subs, s.b, ((i + 1) % 4) as u64, key[1 + 4 * ((i + 1) % 4)]),
        keyed(subs, s.c, ((i + 2) % 4) as u64, key[2 + 4 * ((i + 2) % 4)]),
        keyed(subs, s.d, ((i + 3) % 4) as u64, key[3 + 4 * ((i + 3) % 4)]),
    )
}

// AddRoundKey, and the last round of one state, under its key k.
#[tactic(auto, unfolding(crate::specs::RowWords::keyed_state))]
fn lone_last(subs: &[u8; 256], key: [u8; 16], k: [u8; 16], s: Rows) -> Block
    ensures { BySbox subs.now (block_octets result ≡ last_round k (keyed_state key s)) }
{
    Block {
        low: last_columns(
            k,
            0,
            keyed_column(subs, key, s, 0),
            keyed_column(subs, key, s, 1),
        ),
        high: last_columns(
            k,
            8,
            keyed_column(subs, key, s, 2),
            keyed_column(subs, key, s, 3),
        ),
    }
}

// The second of two states alone.
pub fn second(s: Rows) -> Rows
    ensures { state result 0 ≡ state s 1 }
{
    Rows {
        a: s.a >> 32,
        b: s.b >> 32,
        c: s.c >> 32,
        d: s.d >> 32,
    }
}

// The cipher block that the last round makes of a state, the first of two.
pub fn finished<'a>(subs: &'a [u8; 256], w: &'a [u8; 176], s: Rows) -> Block
    ensures { BySbox subs.now (block_octets result ≡ last_round (round_key w.now Nr) (state s 0)) }
{
    last_round(subs, round_key(w, ROUNDS), s)
}

// The cipher on one block.
#[tactic(auto, unfolding(crate::specs::Cipher::cipher, crate::specs::RowWords::keyed_state))]
pub fn encrypt_lone<'a>(subs: &'a [u8; 256], w: &'a [u8; 176], block: [u8; 16]) -> Block
    ensures { BySbox subs.now (block_octets result ≡ cipher w.now block) }
{
    let s = lone_rounds(subs, w, rows_of(block));
    lone_last(subs, round_key(w, ROUNDS - 1), round_key(w, ROUNDS), s)
}

// The cipher on the counter blocks i and j up to the last round; `kept` is what they share of round 1. A caller finishes one block and is done with
// it before the other: both at once need more registers than there are.
#[tactic(auto, unfolding(crate::specs::Cipher::cipher, crate::specs::Cipher::rounds))]
pub fn before_last<'a>(
    subs: &'a [u8; 256],
    w: &'a [u8; 176],
    keys: [Rows; 10],
    kept: Rows,
    i: u64,
    j: u64,
) -> Rows
    ensures { BySbox subs.now (BeforeLast w.now keys kept i j result) }
{
    let start = first_round(subs, w, keys[1], kept, i, j);
    pair_rounds(subs, keys, start)
}

#[tactic(auto, unfolding(gf256::specs::Lanes::octet_at))]
pub(crate) fn octet(x: u64, j: u64) -> u8
    requires { j < 8 }
    ensures { result ≡ octet_at x j }
{
    ((x >> (8 * j)) % 256) as u8
}

// The eight octets of a word.
#[tactic(auto, unfolding(gf256::specs::Lanes::octet_at))]
pub fn octets_of(x: u64) -> [u8; 8]
    ensures { result ≡ tabulate 0 8 (octet_at x) }
{
    x.to_le_bytes()
}

pub(crate) fn block_octets(b: Block) -> [u8; 16]
    ensures { result ≡ block_octets b }
{
    let mut octets = [0; 16];
    octets[..8].copy_from_slice(&octets_of(b.low));
    octets[8..].copy_from_slice(&octets_of(b.high));
    octets
}
