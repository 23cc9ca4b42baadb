// The place of a record in its block.
ghost use Rattle.std.specs.Prelude.{◌≡◌};
ghost use Rattle.records.specs.Place.{end_fits};

// Whether a record may end at `to` in a block of `size` octets.
#[tactic(auto, unfolding(crate::specs::Place::end_fits))]
pub fn ends_right(is_last: bool, to: usize, size: usize) -> bool
    ensures { result ≡ end_fits is_last to size }
{
    if is_last { to == size } else { to <= size }
}
