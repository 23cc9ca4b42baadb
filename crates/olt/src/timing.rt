// The advance of what all units share, and of their timers (01, Clock).
ghost use Rattle.std.specs.Prelude.{◌≡◌, ◌+◌, ◌<◌, ◌≤◌, ◌++◌, true, map, take, drop, length};
ghost use Rattle.octets.specs.Lists.{all};
ghost use Rattle.clock.specs.Ticks.{max_tick};
ghost use Rattle.unit.specs.Reached.{if_accepted};
ghost use Rattle.ends.specs.Timers.{valid_timer};
ghost use Rattle.protocol.specs.OltCalls.{shared_advanced};
ghost use Rattle.protocol.specs.UnitCalls.{unit_advanced};
ghost use Rattle.refusal.specs.Verdict.{no_refusal};

use ends::{Shared, UnitRecord};
use refusal::Verdict;
use unit::timing::timer_advanced;

#[tactic(auto, unfolding(protocol::specs::OltCalls::shared_advanced))]
fn shared_advanced(shared: Shared, n: u64) -> Shared
    requires { shared.tick + n ≤ max_tick }
    ensures { result ≡ shared_advanced shared n }
{
    let clock = clock::clock_after(shared.clock, n);
    let mut r = shared;
    r.tick = shared.tick + n;
    r.clock = clock;
    r
}

#[tactic(auto, unfolding(unit::specs::Reached::if_accepted))]
pub(crate) fn shared_after(verdict: Verdict, shared: Shared, n: u64) -> Shared
    requires { verdict ≡ no_refusal → shared.tick + n ≤ max_tick }
    ensures { result ≡ if_accepted verdict (shared_advanced shared n) shared }
{
    match verdict {
        Ok(()) => shared_advanced(shared, n),
        Err(_) => shared,
    }
}

// The units that an advance moves: none where it is refused.
#[tactic(auto, unfolding(unit::specs::Reached::if_accepted))]
pub(crate) fn units_moved(verdict: Verdict, count: u8) -> usize
    ensures { result ≡ if_accepted verdict count 0 }
{
    match verdict {
        Ok(()) => count as usize,
        Err(_) => 0,
    }
}

// The timers of the first units. Those of a valid end are far from their end.
#[tactic(auto, using(crate::proofs::Advancing::moves_on, crate::proofs::Advancing::timer_valid), unfolding(ends::specs::Table::past_unit, ends::specs::Records::with_keys, ends::specs::Records::with_timer))]
pub(crate) fn timers_moved(units: &mut [UnitRecord], end: usize, n: u64)
    requires { end ≤ length units.old }
    ensures { all (λ u. valid_timer u.keys.timer) (take end units.old) ≡ true → (0 < end → n ≤ max_tick)
        → units.new ≡ map (unit_advanced n) (take end units.old) ++ drop end units.old }
{
    for unit in &mut units[..end] {
        unit.keys.timer = timer_advanced(unit.keys.timer, n);
    }
}
