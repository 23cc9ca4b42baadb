// Payloads rearranged for the store, octets of one kind side by side, and restored (02, C-12).
#![tactic(auto)]

ghost use Rattle.std.specs.Prelude.{◌≡◌, ◌+◌, ◌≤◌, ◌<◌};
ghost use Rattle.octets.specs.Eqs.{eq_octets};
ghost use Rattle.octets.specs.Output.{with_output};
ghost use Rattle.planes.specs.Calls.{length_verdict, moving, rearranging, restoring};
ghost use Rattle.planes.specs.Claims.{PlanesLawsIfWhole};
ghost use Rattle.planes.specs.Duties.{Sized, Moved};
ghost use Rattle.planes.specs.Places.{target};
ghost use Rattle.planes.specs.Planes.{moved};

use envelope::lengths_fit;
use octets::EQ_OCTETS;
use refusal::{Refusal, Verdict};

// The EQs of a block, which stays in the cache while its planes are moved (D90).
const BLOCK_EQS: usize = 512;

// The EQs from `from` up to `to`, of n.
#[derive(Clone, Copy)]
struct Block {
    n: usize,
    from: usize,
    to: usize,
    ghost within: { to ≤ n },
}

// Octet c of EQ e of n, into the planes or back.
fn move_octet<const BACK: bool>(payload: &[u8], output: &mut [u8], n: usize, c: usize, e: usize)
    requires sized { Sized payload.now output.old n }
    requires octet { c < eq_octets }
    requires eq { e < n }
    ensures { Moved (moved BACK payload.now) output.old output.new (target BACK n) c (c + 1) e (e + 1) }
{
    let in_eqs = EQ_OCTETS * e + c;
    let in_planes = n * c + e;
    if BACK {
        output[in_eqs] = payload[in_planes];
    } else {
        output[in_planes] = payload[in_eqs];
    }
}

// Octets c, c + 1 and c + 2 of the EQs of a block. Three planes at a time: nine can all fall on one set of the cache, and a plane alone
// has the EQs read nine times.
fn move_group<const BACK: bool>(payload: &[u8], output: &mut [u8], block: Block, c: usize)
    requires sized { Sized payload.now output.old block.n }
    requires octets { c + 3 ≤ eq_octets }
    ensures { Moved (moved BACK payload.now) output.old output.new (target BACK block.n) c (c + 3) block.from block.to }
{
    for e in block.from..block.to {
        move_octet::<BACK>(payload, output, block.n, c, e);
        move_octet::<BACK>(payload, output, block.n, c + 1, e);
        move_octet::<BACK>(payload, output, block.n, c + 2, e);
    }
}

fn move_block<const BACK: bool>(payload: &[u8], output: &mut [u8], block: Block)
    requires { Sized payload.now output.old block.n }
    ensures { Moved (moved BACK payload.now) output.old output.new (target BACK block.n) 0 eq_octets block.from block.to }
{
    move_group::<BACK>(payload, output, block, 0);
    move_group::<BACK>(payload, output, block, 3);
    move_group::<BACK>(payload, output, block, 6);
}

fn move_blocks<const BACK: bool>(payload: &[u8], output: &mut [u8], n: usize)
    requires { Sized payload.now output.old n }
    ensures { output.new ≡ moved BACK payload.now }
{
    for from in (0..n).step_by(BLOCK_EQS) {
        let to = n.min(from + BLOCK_EQS);
        move_block::<BACK>(payload, output, Block { n, from, to });
    }
}

// The verdict on n octets for an output of m.
#[tactic(auto, unfolding(crate::specs::Calls::length_verdict, refusal::specs::Order::refuse_if))]
pub fn length_verdict(n: usize, m: usize) -> Verdict
    ensures { result ≡ length_verdict n m }
{
    if !lengths_fit(n, m) {
        return Err(Refusal::BadLength);
    }
    Ok(())
}

// The octets of a payload, into its planes or back.
#[tactic(auto, using(crate::proofs::Calls::accepted_size), unfolding(crate::specs::Calls::writing))]
pub fn move_octets<const BACK: bool>(payload: &[u8], output: &mut [u8]) -> Verdict
    ensures { with_output result output.new ≡ moving BACK payload.now output.old }
{
    length_verdict(payload.len(), output.len())?;
    move_blocks::<BACK>(payload, output, payload.len() / EQ_OCTETS);
    Ok(())
}

// The planes of a payload: all its control octets, then data octet 0 of every EQ, then 1, up to 7.
pub fn rearrange(payload: &[u8], output: &mut [u8]) -> Verdict
    ensures output_after { with_output result output.new ≡ rearranging payload.now output.old }
    ensures planes_laws_if_whole { PlanesLawsIfWhole payload.now }
{
    move_octets::<false>(payload, output)
}

// The payload whose planes these are.
pub fn restore(payload: &[u8], output: &mut [u8]) -> Verdict
    ensures output_after { with_output result output.new ≡ restoring payload.now output.old }
    ensures planes_laws_if_whole { PlanesLawsIfWhole payload.now }
{
    move_octets::<true>(payload, output)
}
