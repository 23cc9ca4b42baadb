// Keys by number (01, Keys).
ghost use Rattle.std.specs.Prelude.{◌≡◌};
ghost use Rattle.octets.specs.Lists.{same};
ghost use Rattle.ends.specs.Keys.{key_in, only_key, with_key};

use crate::Slots;

// The key kept under number n.
#[tactic(auto, unfolding(crate::specs::Keys::key_in, octets::specs::Choice::pick))]
pub fn key_in(slots: Slots, n: u32) -> [u8; 16]
    ensures { result ≡ key_in slots n }
{
    if n % 2 == 0 {
        return slots.even;
    }
    slots.odd
}

#[tactic(auto, unfolding(crate::specs::Keys::with_key, octets::specs::Choice::pick))]
pub fn with_key(slots: Slots, n: u32, key: [u8; 16]) -> Slots
    ensures { result ≡ with_key slots n key }
{
    if n % 2 == 0 {
        return Slots { even: key, ..slots };
    }
    Slots { odd: key, ..slots }
}

// All but key n is wiped.
#[tactic(auto, unfolding(crate::specs::Keys::only_key, crate::specs::Keys::with_key))]
pub fn only_key(slots: Slots, n: u32) -> Slots
    ensures { result ≡ only_key slots n }
{
    with_key(slots, 1 - n % 2, [0; 16])
}

#[tactic(auto, using(crate::proofs::Words::same_pointwise))]
pub fn same_key(a: [u8; 16], b: [u8; 16]) -> bool
    ensures { result ≡ same a b }
{
    a == b
}
