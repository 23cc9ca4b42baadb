// Payloads and capture blocks for the store (02, C-12). What a call decides is a code here, and for a block the pair that it names.
ghost use Rattle.std.specs.Prelude.{◌≡◌, length};
ghost use Rattle.octets.specs.Output.{with_output};
ghost use Rattle.planes.specs.Calls.{rearranging, restoring};
ghost use Rattle.planes.specs.Claims.{PlanesLawsIfWhole};
ghost use Rattle.store.specs.Calls.{rearranging_block, restoring_block};
ghost use Rattle.store.specs.Claims.{RearrangedIfAccepted, RestoredIfAccepted};
ghost use Rattle.jazmotip.specs.Stored.{payload_stored, store_answer, block_stored};

use planes::{rearrange, restore};
use refusal::{Verdict, verdict_number, verdict_pair};
use store::{rearrange_block, restore_block};

// `pair` is the first pair that does not fit, from 1, for 18 and 19, else 0.
#[repr(C)]
#[derive(Clone, Copy)]
pub struct StoreAnswer {
    pub number: u8,
    pub pair: u16,
}

fn store_answer(verdict: Verdict) -> StoreAnswer
    ensures { result ≡ store_answer verdict }
{
    StoreAnswer {
        number: verdict_number(verdict),
        pair: verdict_pair(verdict),
    }
}

#[unsafe(no_mangle)]
pub extern "C" fn jazmotip_rearrange(payload: &[u8], output: &mut [u8]) -> u8
    ensures output_after { with_output result output.new ≡ payload_stored (rearranging payload.now output.old) }
    ensures planes_laws_if_whole { PlanesLawsIfWhole payload.now }
{
    verdict_number(rearrange(payload, output))
}

#[unsafe(no_mangle)]
pub extern "C" fn jazmotip_restore(payload: &[u8], output: &mut [u8]) -> u8
    ensures output_after { with_output result output.new ≡ payload_stored (restoring payload.now output.old) }
    ensures planes_laws_if_whole { PlanesLawsIfWhole payload.now }
{
    verdict_number(restore(payload, output))
}

#[unsafe(no_mangle)]
pub extern "C" fn jazmotip_capture_rearrange(block: &[u8], output: &mut [u8]) -> StoreAnswer
    ensures output_after { with_output result output.new ≡ block_stored (rearranging_block block.now output.old) }
    ensures rearranged_if_accepted { RearrangedIfAccepted block.now (length output.old) }
{
    store_answer(rearrange_block(block, output))
}

#[unsafe(no_mangle)]
pub extern "C" fn jazmotip_capture_restore(block: &[u8], output: &mut [u8]) -> StoreAnswer
    ensures output_after { with_output result output.new ≡ block_stored (restoring_block block.now output.old) }
    ensures restored_if_accepted { RestoredIfAccepted block.now (length output.old) }
{
    store_answer(restore_block(block, output))
}
