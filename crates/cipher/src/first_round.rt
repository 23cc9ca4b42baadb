// Round 1 of two counter blocks of one envelope (01, Counter block and mask): they differ in the block index alone, so what SubBytes and ShiftRows
// make of the thirteen other octets is kept for all of them. Octet k of the index, the lowest first, comes to column k, in a row of its own.
ghost use Rattle.std.specs.Prelude.{◌<◌, eqb};
ghost use Rattle.octets.specs.Choice.{pick};
ghost use Rattle.gf256.specs.Field.{◌⊕◌};
ghost use Rattle.gf256.specs.Lanes.{octet_at};
ghost use Rattle.gf256.specs.Substitution.{sbox};
ghost use Rattle.cipher.specs.FirstRound.{FirstRound, IndexOctets, Kept};
ghost use Rattle.cipher.specs.RowWords.{Both, BySbox, Four};

use super::row_words::{Rows, both, keyed, keyed_row, mixed, round_key, rows_of};
use envelope::{Nonce, counter_block};

fn twice(x: u64) -> u64
    requires { x < 4294967296 }
    ensures { Both x x result }
{
    both(x, x)
}

// What two counter blocks have after SubBytes and ShiftRows, with 0 for what the index decides.
pub fn kept_rows<'a>(subs: &'a [u8; 256], w: &'a [u8; 176], nonce: Nonce) -> Rows
    ensures { BySbox subs.now (Kept w.now nonce result) }
{
    let s = rows_of(counter_block(nonce, 0));
    let key = round_key(w, 0);
    let a = keyed_row(subs, key, s.a, 0);
    let b = keyed_row(subs, key, s.b, 1) & 0xff00_ffff;
    let c = keyed_row(subs, key, s.c, 2) & 0xffff_00ff;
    let d = keyed_row(subs, key, s.d, 3) & 0xffff_ff00;
    Rows {
        a: twice(a),
        b: twice(b),
        c: twice(c),
        d: twice(d),
    }
}

// Octet k of a block index, under its octet of round key 0 and substituted, at column k.
fn index_octet(subs: &[u8; 256], key: u8, i: u64, k: u64) -> u64
    requires { k < 3 }
    ensures { BySbox subs.now (Four (λ c. pick (eqb c k) (sbox (octet_at i k ⊕ key)) 0) result) × (result < 4294967296) }
{
    keyed(subs, i, k, key) << (8 * k)
}

// The same of two block indices.
fn index_octets(subs: &[u8; 256], key: u8, i: u64, j: u64, k: u64) -> u64
    requires { k < 3 }
    ensures { BySbox subs.now (IndexOctets key i j k result) }
{
    both(index_octet(subs, key, i, k), index_octet(subs, key, j, k))
}

// Round 1 of the counter blocks i and j, under the rows k of its key.
pub(crate) fn first_round<'a>(
    subs: &'a [u8; 256],
    w: &'a [u8; 176],
    k: Rows,
    kept: Rows,
    i: u64,
    j: u64,
) -> Rows
    ensures { BySbox subs.now (FirstRound w.now k kept i j result) }
{
    let t = Rows {
        a: kept.a,
        b: kept.b ^ index_octets(subs, w[13], i, j, 2),
        c: kept.c ^ index_octets(subs, w[14], i, j, 1),
        d: kept.d ^ index_octets(subs, w[15], i, j, 0),
    };
    mixed(t, k)
}
