// A row of a fixed length of which the first `count` places are in use. A place past the row's end counts as `none`, so that every count has
// an answer.
ghost use Rattle.std.specs.Prelude.{◌≡◌, ◌-◌, nat_lt, slice_index_or};
ghost use Rattle.std.specs.List.{list_any};
ghost use Rattle.octets.specs.Choice.{pick};
ghost use Rattle.octets.specs.Lists.{tabulate};
ghost use Rattle.ends.specs.Counted.{counted, distinct_by};

// The element at place j.
pub fn at<T: Copy>(row: &[T], j: usize, none: T) -> T
    ensures { result ≡ slice_index_or row.now j none }
{
    row.get(j).copied().unwrap_or(none)
}

// Whether x stands at one of the places from `first` on.
#[tactic(auto, using(octets::proofs::Steps::tabulate_step, octets::proofs::Steps::tabulate_end))]
fn has_from<T: Copy + PartialEq>(row: &[T], first: usize, count: u8, none: T, x: T) -> bool
    ensures { result ≡ list_any (λ y. T.eq y x) (tabulate first (count - first) (λ j. slice_index_or row.now j none)) }
{
    for j in first..usize::from(count) {
        if at(row, j, none) == x {
            return true;
        }
    }
    false
}

// Whether x stands at one of the places.
pub fn has<T: Copy + PartialEq>(row: &[T], count: u8, none: T, x: T) -> bool
    ensures { result ≡ list_any (λ y. T.eq y x) (counted row.now count none) }
{
    has_from(row, 0, count, none, x)
}

// No element stands twice.
#[tactic(auto, using(octets::proofs::Steps::tabulate_end))]
pub fn distinct<T: Copy + PartialEq>(row: &[T], count: u8, none: T) -> bool
    ensures { result ≡ distinct_by T.eq (counted row.now count none) }
{
    for j in 0..usize::from(count) {
        if has_from(row, j + 1, count, none, at(row, j, none)) {
            return false;
        }
    }
    true
}

// The element at place j as it is kept: `none` past the count.
#[tactic(auto, unfolding(octets::specs::Choice::pick))]
pub fn used<T: Copy>(row: &[T], count: u8, none: T, j: usize) -> T
    ensures { result ≡ pick (nat_lt j count) (slice_index_or row.now j none) none }
{
    if j < usize::from(count) {
        return at(row, j, none);
    }
    none
}
