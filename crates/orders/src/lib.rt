// Two units, either order (02, C-22): laws on the calls of `headend` and `subscriber`.
#![tactic(auto)]

ghost use Rattle.std.specs.Prelude.{◌≡◌};
ghost use Rattle.orders.specs.Calls.{after};
ghost use Rattle.orders.specs.Demand.{Demand};
ghost use Rattle.orders.specs.Example.{example, number_at, to_first, to_second_same_channel};

use refusal::Refusal;

// The code with which the second of two sends on one channel is refused in the example. The laws stand in its contract.
pub fn second_on_channel() -> u8
    ensures value { result ≡ number_at (after example to_first) to_second_same_channel }
    ensures demand { Demand }
{
    u8::from(Refusal::ChannelTaken)
}
