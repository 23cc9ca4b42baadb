// The control mask on the eight data octets of an EQ at once (01, Counter block and mask), in a word, the first octet lowest.
ghost use Rattle.std.specs.Prelude.{◌+◌, ◌-◌, ◌*◌, ◌≤◌, length, get_or};
ghost use Rattle.octets.specs.Bits.{bit_of};
ghost use Rattle.envelope.specs.ControlMask.{masked};
ghost use Rattle.gf256.specs.Lanes.{octet_at};
ghost use Rattle.cipher.specs.RowWords.{Eight};

use cipher::row_words::{eight, wide};

pub(crate) fn eight_at(p: &[u8], at: usize) -> u64
    requires { at + 8 ≤ length p.now }
    ensures { Eight (λ j. get_or p.now (at + j) 0) result }
{
    let (octets, _) = p[at..at + 8].as_chunks::<8>();
    eight(octets[0])
}

// 255 for each data octet, 0 for each control character: bit j of the control octet comes to octet j by shift and mask (D68).
fn data_octets(control: u8) -> u64
    ensures { Eight (λ j. 255 * (1 - bit_of control j)) result }
{
    let c = wide(control);
    let x = (c | (c << 28)) & 0x0000_000f_0000_000f;
    let y = (x | (x << 14)) & 0x0003_0003_0003_0003;
    let z = (y | (y << 7)) & 0x0101_0101_0101_0101;
    255 * (0x0101_0101_0101_0101 - z)
}

// The octets x under the octets `half` of a cipher block: no branch on the value of any octet.
pub(crate) fn mask_eight(control: u8, half: u64, x: u64) -> u64
    ensures { Eight (λ j. masked control j (octet_at half j) (octet_at x j)) result }
{
    x ^ (half & data_octets(control))
}
