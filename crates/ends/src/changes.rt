// The sum of the changes of a unit's LocalTime (02, C-16), counted from its least.
ghost use Rattle.std.specs.Prelude.{◌≡◌};
ghost use Rattle.ends.specs.Travels.{shift_of, valid_changes};

use crate::limits::MAX_CHANGES;
use std::num::wrapping_add_u64;

#[tactic(auto, unfolding(crate::specs::Travels::shift_of))]
pub fn shift(changes: u64) -> u64
    ensures { result ≡ shift_of changes }
{
    wrapping_add_u64(changes, MAX_CHANGES)
}

#[tactic(auto, unfolding(crate::specs::Travels::valid_changes))]
pub fn valid_changes(changes: u64) -> bool
    ensures { result ≡ valid_changes changes }
{
    shift(changes) <= 2 * MAX_CHANGES
}
