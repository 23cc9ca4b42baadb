// Capture blocks for the store: every payload rearranged, or restored, in a block whose directory and headers stay (02, C-12).
#![tactic(auto)]

ghost use Rattle.std.specs.Prelude.{◌≡◌, ◌+◌, ◌<◌, length, Ok};
ghost use Rattle.octets.specs.Lists.{replaced};
ghost use Rattle.octets.specs.Output.{with_output};
ghost use Rattle.planes.specs.Planes.{moved};
ghost use Rattle.records.specs.Block.{records_in, offset_of, record_of};
ghost use Rattle.records.specs.Record.{header_octets, payload_of};
ghost use Rattle.directory.specs.Directory.{directory_of};
ghost use Rattle.store.specs.Blocks.{block_with};
ghost use Rattle.store.specs.Calls.{store_verdict, rearranging_block, restoring_block, moving_block};
ghost use Rattle.store.specs.Claims.{RearrangedIfAccepted, RestoredIfAccepted};

use directory::check;
use planes::move_octets;
use records::block::{count, offset, payload_at};
use records::header::HEADER_OCTETS;
use refusal::{Refusal, Verdict};

// The payload of record i, which has i others before it, into its place in the output.
fn move_payload<const BACK: bool>(block: &[u8], output: &mut [u8], i: u16)
    requires block_value { directory_of block.now ≡ Ok (records_in block.now) }
    requires i_bound { i < records_in block.now }
    requires output_len { length output.old ≡ length block.now }
    ensures { output.new
        ≡ replaced output.old (offset_of block.now i + header_octets) (moved BACK (payload_of (record_of block.now i))) }
{
    let payload = payload_at(block, i);
    let from = offset(block, i) as usize + HEADER_OCTETS;
    let to = from + payload.len();
    let _ = move_octets::<BACK>(payload, &mut output[from..to]);
}

// All payloads, into an output that is a copy of the block.
fn move_payloads<const BACK: bool>(block: &[u8], output: &mut [u8])
    requires block_value { directory_of block.now ≡ Ok (records_in block.now) }
    requires output_value { output.old ≡ block.now }
    ensures { output.new ≡ block_with (moved BACK) block.now }
{
    for i in 0..count(block) {
        move_payload::<BACK>(block, output, i);
    }
}

// The verdict on the call, for an output of `size` octets.
#[tactic(auto, unfolding(crate::specs::Calls::store_verdict, refusal::specs::Order::refuse_if))]
fn store_verdict(block: &[u8], size: usize) -> Verdict
    ensures { result ≡ store_verdict block.now size }
{
    if size != block.len() {
        return Err(Refusal::BadLength);
    }
    check(block).map(|_| ())
}

// A block whose payloads are all rearranged, or restored.
#[tactic(auto, unfolding(planes::specs::Calls::writing))]
fn move_block<const BACK: bool>(block: &[u8], output: &mut [u8]) -> Verdict
    ensures { with_output result output.new ≡ moving_block BACK block.now output.old }
{
    store_verdict(block, output.len())?;
    octets::copy(block, output);
    move_payloads::<BACK>(block, output);
    Ok(())
}

// A block for the store: all its payloads rearranged.
pub fn rearrange_block(block: &[u8], output: &mut [u8]) -> Verdict
    ensures output_after { with_output result output.new ≡ rearranging_block block.now output.old }
    ensures rearranged_if_accepted { RearrangedIfAccepted block.now (length output.old) }
{
    move_block::<false>(block, output)
}

// A block from the store: all its payloads restored.
pub fn restore_block(block: &[u8], output: &mut [u8]) -> Verdict
    ensures output_after { with_output result output.new ≡ restoring_block block.now output.old }
    ensures restored_if_accepted { RestoredIfAccepted block.now (length output.old) }
{
    move_block::<true>(block, output)
}
