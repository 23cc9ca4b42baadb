// Payloads and capture blocks for the store, for C.
ghost use Rattle.std.specs.Prelude.{◌≡◌, length};
ghost use Rattle.octets.specs.Output.{with_output};
ghost use Rattle.planes.specs.Calls.{rearranging, restoring};
ghost use Rattle.planes.specs.Claims.{PlanesLawsIfWhole};
ghost use Rattle.store.specs.Calls.{rearranging_block, restoring_block};
ghost use Rattle.store.specs.Claims.{RearrangedIfAccepted, RestoredIfAccepted};
ghost use Rattle.jazmotip.specs.Stored.{payload_stored, block_stored};

use jazmotip::stored::StoreAnswer;

#[unsafe(no_mangle)]
pub extern "C" fn jazmotip_rearrange(payload: &[u8], output: &mut [u8]) -> u8
    ensures output_after { with_output result output.new ≡ payload_stored (rearranging payload.now output.old) }
    ensures planes_laws_if_whole { PlanesLawsIfWhole payload.now }
{
    jazmotip::stored::jazmotip_rearrange(payload, output)
}

#[unsafe(no_mangle)]
pub extern "C" fn jazmotip_restore(payload: &[u8], output: &mut [u8]) -> u8
    ensures output_after { with_output result output.new ≡ payload_stored (restoring payload.now output.old) }
    ensures planes_laws_if_whole { PlanesLawsIfWhole payload.now }
{
    jazmotip::stored::jazmotip_restore(payload, output)
}

#[unsafe(no_mangle)]
pub extern "C" fn jazmotip_capture_rearrange(block: &[u8], output: &mut [u8]) -> StoreAnswer
    ensures output_after { with_output result output.new ≡ block_stored (rearranging_block block.now output.old) }
    ensures rearranged_if_accepted { RearrangedIfAccepted block.now (length output.old) }
{
    jazmotip::stored::jazmotip_capture_rearrange(block, output)
}

#[unsafe(no_mangle)]
pub extern "C" fn jazmotip_capture_restore(block: &[u8], output: &mut [u8]) -> StoreAnswer
    ensures output_after { with_output result output.new ≡ block_stored (restoring_block block.now output.old) }
    ensures restored_if_accepted { RestoredIfAccepted block.now (length output.old) }
{
    jazmotip::stored::jazmotip_capture_restore(block, output)
}
