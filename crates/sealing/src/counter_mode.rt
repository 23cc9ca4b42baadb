// Sealing and opening of an envelope's payload, AES-128 in counter mode under the control mask: one act (01, Counter block and mask), done in place (D67).
ghost use Rattle.std.specs.Prelude.{◌≡◌, true, ◌+◌, ◌*◌, ◌%◌, ◌≤◌, ◌<◌, length};
ghost use Rattle.octets.specs.Lists.{replaced};
ghost use Rattle.octets.specs.Output.{with_output};
ghost use Rattle.gf256.specs.Table.{sbox_table};
ghost use Rattle.envelope.specs.Acceptance.{seal_verdict};
ghost use Rattle.envelope.specs.ControlMask.{max_blocks, blocks_of, count_enciphered, needs_run, runs};
ghost use Rattle.cipher.specs.Cipher.{Nr};
ghost use Rattle.cipher.specs.KeyExpansion.{key_expansion};
ghost use Rattle.sealing.specs.Payload.{sealed, SealedLaws};
ghost use Rattle.cipher.specs.RowWords.{PairKeys};
ghost use Rattle.sealing.specs.Seal.{sealing};
ghost use Rattle.sealing.specs.Steps.{Masked, NextRun, PairSealed, PairsSealed, block_count, block_sealed, masked_eq};
ghost use Rattle.refusal.specs.Verdict.{no_refusal};

use super::mask::{eight_at, mask_eight};
use cipher::aes128::RoundKeys;
use cipher::first_round::kept_rows;
use cipher::key_expansion::expand_key;
use cipher::row_words::{
    Block, Rows, before_last, encrypt_lone, finished, octets_of, pair_keys, second,
};
use envelope::{
    NO_WORK, Nonce, SealAnswer, Work, counter_block, lengths_fit, nonce_fits, ones_in, seal_verdict,
};

// What pairs of runs leave: the octets enciphered, the runs made, and the next block that needs one, or the number of blocks.
#[derive(Clone, Copy)]
struct Paired {
    count: u64,
    runs: u64,
    next: usize,
}

// The EQ that starts at `at`, under the eight octets of a cipher block that serve it. Its control octet stays.
fn mask_eq(payload: &mut [u8], half: u64, at: usize)
    requires { at + 9 ≤ length payload.old }
    ensures { payload.new ≡ replaced payload.old at (masked_eq half payload.old at) }
{
    let word = mask_eight(payload[at], half, eight_at(payload, at + 1));
    payload[at + 1..at + 9].copy_from_slice(&octets_of(word));
}

// The one or two EQs that cipher block `i` serves, under that block. Tells the octets that it enciphers. Ones are added up before they are taken from
// 16: taken from 8 EQ by EQ, the compiler turns each control octet over to count its ones (D69).
fn mask_block(payload: &mut [u8], block: Block, i: usize) -> u64
    requires payload_len { length payload.old % 9 ≡ 0 }
    requires i_in_bounds { (18 * i < length payload.old) × (i < max_blocks) }
    ensures { Masked block i payload.old payload.new result }
{
    let at = 18 * i;
    let first = ones_in(payload[at]);
    mask_eq(payload, block.low, at);
    if at + 9 < payload.len() {
        let second = ones_in(payload[at + 9]);
        mask_eq(payload, block.high, at + 9);
        return 16 - (first + second);
    }
    8 - first
}

// Block `i` by itself; tells the work.
fn seal_lone<'a>(
    subs: &'a [u8; 256],
    w: &'a [u8; 176],
    nonce: Nonce,
    payload: &mut [u8],
    i: usize,
) -> Work
    requires subs_value { subs.now ≡ sbox_table }
    requires payload_len { length payload.old % 9 ≡ 0 }
    requires i_in_bounds { (18 * i < length payload.old) × (i < max_blocks) }
    ensures { (payload.new ≡ block_sealed w.now nonce payload.old i)
        × (result.count ≡ block_count payload.old i) × (result.runs ≡ 1) }
{
    let block = encrypt_lone(subs, w, counter_block(nonce, i as u64));
    let count = mask_block(payload, block, i);
    Work { count, runs: 1 }
}

// The blocks `i` and `j`, which are enciphered together; tells the work, a run for each.
fn seal_pair<'a>(
    subs: &'a [u8; 256],
    w: &'a [u8; 176],
    keys: [Rows; 10],
    kept: Rows,
    payload: &mut [u8],
    i: usize,
    j: usize,
) -> Work
    requires subs_value { (subs.now ≡ sbox_table) × PairKeys w.now Nr keys }
    requires payload_len { length payload.old % 9 ≡ 0 }
    requires i_in_bounds { ((18 * i < length payload.old) × (i < max_blocks)) × ((18 * j < length payload.old) × (j < max_blocks)) }
    ensures { PairSealed w.now kept i j payload.old payload.new result }
{
    let s = before_last(subs, w, keys, kept, i as u64, j as u64);
    let here = mask_block(payload, finished(subs, w, s), i);
    let there = mask_block(payload, finished(subs, w, second(s)), j);
    Work {
        count: here + there,
        runs: 2,
    }
}

// Whether block `i` has an octet to encipher: a control octet that is not FF hex.
fn needs_run(payload: &[u8], i: usize) -> bool
    requires payload_len { length payload.now % 9 ≡ 0 }
    requires i_in_bounds { 18 * i < length payload.now }
    ensures { result ≡ needs_run payload.now i }
{
    let at = 18 * i;
    let other = at + 9;
    if other < payload.len() {
        return (payload[at] & payload[other]) < 255;
    }
    payload[at] < 255
}

// The first block from `i` on that needs a run, or `blocks`, as many as there are, where none does.
// A loop by hand: with a `for` over the range, a long payload takes 1 % longer.
fn next_run(payload: &[u8], blocks: usize, i: usize) -> usize
    requires { (length payload.now % 9 ≡ 0) × (blocks ≡ blocks_of (length payload.now)) }
    ensures { NextRun payload.now blocks i result }
{
    let mut k = i;
    while k < blocks {
        if needs_run(payload, k) {
            break;
        }
        k += 1;
    }
    k
}

// Seals the blocks that need a run, from `i` and `j` on, two at a time: all, or all but a last one.
fn seal_pairs<'a>(
    subs: &'a [u8; 256],
    w: &'a [u8; 176],
    nonce: Nonce,
    payload: &mut [u8],
    i: usize,
    j: usize,
) -> Paired
    requires subs_value { subs.now ≡ sbox_table }
    requires payload_len { (length payload.old % 9 ≡ 0) × (blocks_of (length payload.old) ≤ max_blocks) }
    requires next_run { NextRun payload.old (blocks_of (length payload.old)) 0 i }
    requires next_run_2 { NextRun payload.old (blocks_of (length payload.old)) (i + 1) j }
    ensures { PairsSealed w.now nonce payload.old payload.new result }
{
    let blocks = (payload.len() + 17) / 18;
    let keys = pair_keys(w);
    let kept = kept_rows(subs, w, nonce);
    let mut count: u64 = 0;
    let mut runs: u64 = 0;
    let mut first = i;
    let mut second = j;
    // No iterator: what it looks through, the payload, is written between its steps.
    while second < blocks {
        let work = seal_pair(subs, w, keys, kept, payload, first, second);
        count += work.count;
        runs += work.runs;
        first = next_run(payload, blocks, second + 1);
        second = next_run(payload, blocks, first + 1);
    }
    Paired {
        count,
        runs,
        next: first,
    }
}

// The blocks that need a run, sealed; tells the work: the others have no octet to encipher. One alone needs no keys for two, and so does a last one with
// no other beside it.
fn seal_blocks<'a>(subs: &'a [u8; 256], w: &'a [u8; 176], nonce: Nonce, payload: &mut [u8]) -> Work
    requires subs_value { subs.now ≡ sbox_table }
    requires payload_len { length payload.old % 9 ≡ 0 }
    requires payload_bound { blocks_of (length payload.old) ≤ max_blocks }
    ensures { (payload.new ≡ sealed w.now nonce payload.old)
        × (result.count ≡ count_enciphered payload.old) × (result.runs ≡ runs payload.old) }
{
    let blocks = (payload.len() + 17) / 18;
    let first = next_run(payload, blocks, 0);
    if blocks <= first {
        return NO_WORK;
    }
    let second = next_run(payload, blocks, first + 1);
    if blocks <= second {
        return seal_lone(subs, w, nonce, payload, first);
    }
    let paired = seal_pairs(subs, w, nonce, payload, first, second);
    let next = paired.next;
    if next < blocks {
        let lone = seal_lone(subs, w, nonce, payload, next);
        return Work {
            count: paired.count + lone.count,
            runs: paired.runs + lone.runs,
        };
    }
    Work {
        count: paired.count,
        runs: paired.runs,
    }
}

// An accepted payload, sealed or opened in its place where the envelope is enciphered.
fn carry<'a>(enciphered: bool, w: &'a [u8; 176], nonce: Nonce, payload: &mut [u8]) -> SealAnswer
    requires { seal_verdict (length payload.old) (length payload.old) nonce ≡ no_refusal }
    ensures { with_output result payload.new ≡ sealing enciphered w.now nonce payload.old payload.old }
{
    if enciphered {
        let subs = gf256::sbox_table();
        let work = seal_blocks(&subs, w, nonce, payload);
        return Ok(work);
    }
    Ok(NO_WORK)
}

// Seals or opens a payload in its place under an expanded key; a clear envelope's stays as it is.
pub fn seal_expanded_in_place(
    enciphered: bool,
    keys: RoundKeys,
    nonce: Nonce,
    payload: &mut [u8],
) -> SealAnswer
    ensures { with_output result payload.new ≡ sealing enciphered keys.octets nonce payload.old payload.old }
{
    let n = payload.len();
    match seal_verdict(n, n, nonce) {
        Err(refusal) => Err(refusal),
        Ok(()) => carry(enciphered, &keys.octets, nonce, payload),
    }
}

// Seals or opens `input` into `output`.
pub fn seal_expanded(
    enciphered: bool,
    keys: RoundKeys,
    nonce: Nonce,
    input: &[u8],
    output: &mut [u8],
) -> SealAnswer
    ensures { with_output result output.new ≡ sealing enciphered keys.octets nonce input.now output.old }
{
    match seal_verdict(input.len(), output.len(), nonce) {
        Err(refusal) => Err(refusal),
        Ok(()) => {
            octets::copy(input, output);
            carry(enciphered, &keys.octets, nonce, output)
        }
    }
}

// The key expanded, where a call on n octets for an output of m enciphers.
fn expand_for(enciphered: bool, key: [u8; 16], nonce: Nonce, n: usize, m: usize) -> RoundKeys
    ensures { enciphered ≡ true → seal_verdict n m nonce ≡ no_refusal → result.octets ≡ key_expansion key }
{
    if enciphered & (lengths_fit(n, m) & nonce_fits(nonce)) {
        return expand_key(key);
    }
    RoundKeys { octets: [0u8; 176] }
}

// The same under a key that is expanded for this call alone.
pub fn seal_in_place(
    enciphered: bool,
    key: [u8; 16],
    nonce: Nonce,
    payload: &mut [u8],
) -> SealAnswer
    ensures { with_output result payload.new ≡ sealing enciphered (key_expansion key) nonce payload.old payload.old }
{
    let n = payload.len();
    let keys = expand_for(enciphered, key, nonce, n, n);
    seal_expanded_in_place(enciphered, keys, nonce, payload)
}

pub fn seal(
    enciphered: bool,
    key: [u8; 16],
    nonce: Nonce,
    input: &[u8],
    output: &mut [u8],
) -> SealAnswer
    ensures output_after { with_output result output.new ≡ sealing enciphered (key_expansion key) nonce input.now output.old }
    ensures sealed_laws { SealedLaws (key_expansion key) nonce input.now }
{
    let keys = expand_for(enciphered, key, nonce, input.len(), output.len());
    seal_expanded(enciphered, keys, nonce, input, output)
}
