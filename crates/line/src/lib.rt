// The theorem on the whole list, groups included (demand 3 of 01; 02, C-14, C-16).
#![tactic(auto)]

ghost use Rattle.std.specs.Prelude.{◌≡◌};
ghost use Rattle.line.specs.Run.{group_lane_at};
ghost use Rattle.line.specs.Course.{played};
ghost use Rattle.line.specs.Demand.{Demand};

// The switches to the group in the example's list. The theorem stands in its contract, with what it says of that list.
pub fn example_group_switches() -> u32
    ensures value { result ≡ (group_lane_at played 0).keys.switches }
    ensures demand { Demand }
{
    4
}
