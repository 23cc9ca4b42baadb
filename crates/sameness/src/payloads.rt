// Whether two paired records hold the same.
ghost use Rattle.std.specs.Prelude.{◌≡◌};
ghost use Rattle.records.specs.Block.{record_of};
ghost use Rattle.octets.specs.Each.{each};
ghost use Rattle.sameness.specs.Sameness.{same_eq, same_data, same_control, same};

use envelope::{control_octet, data_octet};
use records::block::{header_at, payload_at};
use records::header::enc_key;

// The data octets of an EQ.
const DATA_OCTETS: u8 = 8;

// Whether EQ e has the same data octets in both payloads.
fn is_same_eq(p: &[u8], q: &[u8], e: u32) -> bool
    ensures { result ≡ same_eq p.now q.now e }
{
    (0..DATA_OCTETS).all(|j| data_octet(p, e, j) == data_octet(q, e, j))
}

// Whether record i of a and record j of b have as many EQs, with the same data octets.
#[tactic(auto, unfolding(crate::specs::Sameness::same_data, octets::specs::Choice::both))]
fn is_same_data(a: &[u8], i: u16, b: &[u8], j: u16) -> bool
    ensures { result ≡ same_data (record_of a.now i) (record_of b.now j) }
{
    let eqs = header_at(a, i).eqs;
    if eqs != header_at(b, j).eqs {
        return false;
    }
    let p = payload_at(a, i);
    let q = payload_at(b, j);
    (0..eqs).all(|e| is_same_eq(p, q, e))
}

// Whether the first EQs of both payloads have the same control octets.
fn are_controls_same(p: &[u8], q: &[u8], eqs: u32) -> bool
    ensures { result ≡ each 0 eqs (same_control p.now q.now) }
{
    (0..eqs).all(|e| control_octet(p, e) == control_octet(q, e))
}

// Whether record i of a and record j of b hold the same.
#[tactic(auto, unfolding(crate::specs::Sameness::same, octets::specs::Choice::both))]
pub fn is_same(a: &[u8], i: u16, b: &[u8], j: u16) -> bool
    ensures { result ≡ same (record_of a.now i) (record_of b.now j) }
{
    let g = header_at(a, i);
    let h = header_at(b, j);
    is_same_data(a, i, b, j)
        && enc_key(g.flags) == enc_key(h.flags)
        && are_controls_same(payload_at(a, i), payload_at(b, j), g.eqs)
}
