// GF(2^8) (FIPS 197, 4, 5.1.1 and 5.2): the substitution of each octet and the powers of x in the round constants, as tables, and the
// doubling of octets, worked out. Each table has a file of its own; a user binds it once, and lends it.
#![tactic(auto)]

ghost use Rattle.std.specs.Prelude.{◌≡◌};
ghost use Rattle.gf256.specs.Field.{Inverts, x_times};
ghost use Rattle.gf256.specs.Lanes.{each_octet};
ghost use Rattle.gf256.specs.Table.{sbox_table, round_constants};

mod powers;
mod substitutions;

// The inverse that the entries rest on is one: the second clause keeps that theorem in sight of the gate.
pub fn sbox_table() -> [u8; 256]
    ensures entries { result ≡ sbox_table }
    ensures inverse { Inverts }
{
    substitutions::SBOX
}

// Each of the eight octets of x times x in GF(2^8), by shift and mask: `high` has 1 for each octet with the term x^7, which reduces it.
pub fn double_octets(x: u64) -> u64
    ensures { result ≡ each_octet x_times 8 x }
{
    let high = (x >> 7) & 0x0101_0101_0101_0101;
    let low = x & 0x7f7f_7f7f_7f7f_7f7f;
    (low << 1) ^ (high * 0x1b)
}

#[tactic(auto, unfolding(crate::specs::Table::round_constants, crate::specs::Table::power_of_x, crate::specs::Field::x_times, crate::specs::Field::modulus, octets::specs::Bits::bit_of, octets::specs::Choice::pick))]
pub fn round_constants() -> [u8; 10]
    ensures { result ≡ round_constants }
{
    powers::ROUND_CONSTANTS
}
