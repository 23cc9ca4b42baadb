// The line never freezes: a theorem beside demand 3 of 01.
#![tactic(auto)]

ghost use Rattle.std.specs.Prelude.{◌≡◌, length};
ghost use Rattle.progress.specs.GroupProgress.{group_recipe};
ghost use Rattle.progress.specs.Returned.{missed, spare};
ghost use Rattle.progress.specs.Demand.{Demand};
ghost use Rattle.progress.specs.Stuck.{Cases};

// The events that bring a group's member back which missed a key, on the example's list. The theorem stands in its contract, with what is
// truly stuck.
pub fn example_events() -> u32
    ensures value { result ≡ length (group_recipe 0 spare missed) }
    ensures demand { Demand }
    ensures cases { Cases }
{
    11
}
