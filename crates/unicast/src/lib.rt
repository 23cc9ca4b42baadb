// The theorem on the whole list (demand 3 of 01).
#![tactic(auto)]

ghost use Rattle.std.specs.Prelude.{◌≡◌};
ghost use Rattle.unicast.specs.Run.{lane_at};
ghost use Rattle.unicast.specs.Course.{played};
ghost use Rattle.unicast.specs.Demand.{Demand};

// The switches to the first unit in the example's list. The theorem stands in its contract, with what it says of that list.
pub fn example_switches() -> u32
    ensures value { result ≡ (lane_at played 0).keys.switches }
    ensures demand { Demand }
{
    2
}
