// Two recordings of one line, for C.
ghost use Rattle.std.specs.Prelude.{◌≡◌, length};
ghost use Rattle.octets.specs.Output.{with_output};
ghost use Rattle.recordings.specs.Comparing.{comparing};
ghost use Rattle.recordings.specs.Laws.{ComparedIfAccepted};

use recordings::compare::Comparison;

#[unsafe(no_mangle)]
pub extern "C" fn jazmotip_capture_compare(
    llid: u16,
    first: &[u8],
    second: &[u8],
    output: &mut [u8],
) -> Comparison
    ensures output_after { with_output result output.new ≡ comparing llid first.now second.now output.old }
    ensures compared_if_accepted { ComparedIfAccepted (length output.old) first.now second.now }
{
    jazmotip::two_blocks::jazmotip_capture_compare(llid, first, second, output)
}
