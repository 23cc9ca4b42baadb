// Octets: the test of a bit, numbers in octets, the first octet highest, a copy, EQs, and what six octets hold. What reads at a
// place takes any slice and any place: an octet that is not there is 0.
#![tactic(auto)]

ghost use Rattle.std.specs.Prelude.{◌≡◌, ◌<◌, ◌≤◌, ◌^◌, length, get_or, replicate};
ghost use Rattle.octets.specs.Bits.{bit_of};
ghost use Rattle.octets.specs.BigEndian.{number_at, octets_of, six_octets};
ghost use Rattle.octets.specs.Lists.{part, copied, copied_at};

// An EQ is a control octet, then eight data octets.
pub const EQ_OCTETS: usize = 9;

// The most EQs of a payload.
pub const MAX_EQS: usize = 4_194_303;

// A MAC and a cipher clock, of six octets each, are below this.
pub const SIX_OCTETS: u64 = 0x1_0000_0000_0000;

// Bit j of x, bit 0 the lowest: the one test of a bit, for control octets and header flags.
pub fn bit(x: u8, j: u8) -> u8
    ensures { result ≡ bit_of x j }
{
    if 8 <= j {
        return 0;
    }
    (x >> j) & 1
}

pub fn be16(b: [u8; 2]) -> u16
    ensures { result ≡ number_at 2 b 0 }
{
    u16::from_be_bytes(b)
}

pub fn be32(b: [u8; 4]) -> u32
    ensures { result ≡ number_at 4 b 0 }
{
    u32::from_be_bytes(b)
}

// The K lowest octets of a number.
fn lowest<const K: usize>(n: u64) -> [u8; K]
    requires { K ≤ 8 }
    ensures { result ≡ octets_of K n }
{
    let octets = n.to_be_bytes();
    *octets.last_chunk().unwrap()
}

pub fn octets24(n: u64) -> [u8; 3]
    ensures { result ≡ octets_of 3 n }
{
    lowest(n)
}

pub fn octets48(n: u64) -> [u8; 6]
    ensures { result ≡ octets_of 6 n }
{
    lowest(n)
}

// 0 where there is no octet: so do all that read at a place (D115).
pub fn octet_at(s: &[u8], at: usize) -> u8
    ensures { result ≡ get_or s.now at 0 }
{
    s.get(at).copied().unwrap_or(0)
}

// The number in the K octets from a place on.
fn number<const K: usize>(s: &[u8], at: usize) -> u64
    requires { K ≤ 8 }
    ensures { (result ≡ number_at K s.now at) × (result < 256 ^ K) }
{
    let rest = part_of(s, at, K);
    let mut n = 0;
    for i in 0..K {
        n = 256 * n + u64::from(octet_at(rest, i));
    }
    n
}

pub fn number16(s: &[u8], at: usize) -> u16
    ensures { result ≡ number_at 2 s.now at }
{
    number::<2>(s, at) as u16
}

pub fn number32(s: &[u8], at: usize) -> u32
    ensures { result ≡ number_at 4 s.now at }
{
    number::<4>(s, at) as u32
}

pub fn number48(s: &[u8], at: usize) -> u64
    ensures { (result ≡ number_at 6 s.now at) × (result < six_octets) }
{
    number::<6>(s, at)
}

// The n octets from a place on, or as many of them as there are.
pub fn part_of(s: &[u8], at: usize, n: usize) -> &[u8]
    ensures { result.now ≡ part s.now at n }
{
    let rest = s.get(at..).unwrap_or(&[]);
    rest.get(..n).unwrap_or(rest)
}

// As many octets as both have; the rest of the output stays.
pub fn copy(input: &[u8], output: &mut [u8])
    ensures { output.new ≡ copied input.now output.old }
{
    let n = input.len().min(output.len());
    output[..n].copy_from_slice(&input[..n]);
}

// The same from a place of the output on; the octets before it stay.
pub fn copy_at(input: &[u8], output: &mut [u8], at: usize)
    ensures { output.new ≡ copied_at input.now at output.old }
{
    if at < output.len() {
        copy(input, &mut output[at..]);
    }
}

// Zeros in all places.
pub fn clear(output: &mut [u8])
    ensures { output.new ≡ replicate (length output.old) 0 }
{
    output.fill(0);
}
