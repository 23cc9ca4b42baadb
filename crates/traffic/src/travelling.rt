// The travel of a unit's Tx clock (02, C-16). Of a valid end and a payload that fits, no sum comes near its end.
ghost use Rattle.std.specs.Prelude.{◌≡◌, true, ◌+◌, ◌*◌, ◌≤◌};
ghost use Rattle.octets.specs.Eqs.{max_eqs};
ghost use Rattle.clock.specs.Ticks.{max_tick};
ghost use Rattle.ends.specs.Limits.{max_changes};
ghost use Rattle.ends.specs.Travels.{travel_of, travel_spent};
ghost use Rattle.ends.specs.Validity.{valid_onu};

use ends::changes::shift;
use ends::{Onu, Travel};

#[tactic(auto, unfolding(ends::specs::Travels::travel_of))]
pub(crate) fn travel(onu: Onu) -> u64
    requires { valid_onu onu ≡ true }
    ensures { result ≡ travel_of onu }
{
    onu.tick + shift(onu.travel.changes)
}

// An enciphered send of so many EQs was made now.
#[tactic(auto, unfolding(ends::specs::Travels::travel_spent))]
pub(crate) fn spent(travel: Travel, now: u64, eqs: u64) -> Travel
    requires bound { now ≤ max_tick + 2 * max_changes }
    requires eqs_le_max_eqs { eqs ≤ max_eqs }
    ensures { result ≡ travel_spent travel now eqs }
{
    let past = now + eqs + 1;
    let mut r = travel;
    if travel.spent < past {
        r.spent = past;
    }
    r
}
