// The payload of a record, as a part of the caller's block. Records count from 1.
ghost use Rattle.std.specs.Prelude.{◌≡◌};
ghost use Rattle.directory.specs.Payload.{record_asked, payload_verdict, payload_bounds, bounds_number, bounds_pair, bounds_offset, bounds_length, PartOf, payload_part};

use crate::check;
use records::block::{length_of, offset};
use records::header::HEADER_OCTETS;
use refusal::{Refusal, Verdict};

// Where a payload lies in its block.
#[derive(Clone, Copy)]
pub struct Bounds {
    // from this offset on
    pub from: usize,
    // for so many octets
    pub octets: usize,
}

// Whether a directory has a record with number k.
#[tactic(auto, unfolding(octets::specs::Choice::both, octets::specs::Choice::pick))]
fn asked(directory: Result<u16, Refusal>, k: usize) -> Verdict
    ensures { result ≡ record_asked directory k }
{
    let n = directory?;
    if (1 <= k) & (k <= n as usize) {
        Ok(())
    } else {
        Err(Refusal::OutOfRange)
    }
}

// Whether a block has a payload with number k: an empty part can also be the payload of 0 EQs.
#[tactic(auto, unfolding(crate::specs::Payload::payload_verdict))]
pub fn payload_verdict(block: &[u8], k: usize) -> Verdict
    ensures { result ≡ payload_verdict block.now k }
{
    asked(check(block), k)
}

// Where the payload of record k lies in the block.
#[tactic(auto, using(crate::proofs::Records::asked_first, crate::proofs::Records::asked_last, crate::proofs::Records::asked_length), unfolding(crate::specs::Payload::payload_bounds, crate::specs::Payload::bounds_of))]
pub fn locate(block: &[u8], k: usize) -> Result<Bounds, Refusal>
    ensures { result ≡ payload_bounds block.now k }
{
    payload_verdict(block, k)?;
    let i = (k - 1) as u16;
    let from = offset(block, i) as usize + HEADER_OCTETS;
    let octets = length_of(block, i) as usize - HEADER_OCTETS;
    Ok(Bounds { from, octets })
}

// 0, or the refusal code.
pub fn number(bounds: Result<Bounds, Refusal>) -> u8
    ensures { result ≡ bounds_number bounds }
{
    match bounds {
        Ok(_) => 0,
        Err(refusal) => u8::from(refusal),
    }
}

// The pair that a refusal names, or 0.
pub fn pair(bounds: Result<Bounds, Refusal>) -> u16
    ensures { result ≡ bounds_pair bounds }
{
    match bounds {
        Ok(_) => 0,
        Err(refusal) => refusal::pair(refusal),
    }
}

// The payload of record k as a part of the block, empty where it is refused.
#[tactic(auto, using(crate::proofs::Records::bounded_inside))]
pub fn part(block: &[u8], k: usize) -> &[u8]
    ensures result_value { result.now ≡ payload_part block.now k }
    ensures part_of { PartOf block.entry result (bounds_offset (payload_bounds block.now k))
        (bounds_length (payload_bounds block.now k)) }
{
    match locate(block, k) {
        Ok(bounds) => {
            let to = bounds.from + bounds.octets;
            &block[bounds.from..to]
        }
        Err(_) => &block[0..0],
    }
}
