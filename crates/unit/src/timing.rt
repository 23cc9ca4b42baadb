// The timer of a unit as time passes (01, Keys: Timer). What it costs does not depend on the ticks.
ghost use Rattle.std.specs.Prelude.{◌≡◌, ◌%◌, ◌<◌, ◌≤◌, true};
ghost use Rattle.clock.specs.Ticks.{max_tick};
ghost use Rattle.ends.specs.Timers.{timer_advanced, valid_timer};

use ends::Timer;
use std::num::wrapping_add_u64;

fn reduced(sum: u64, interval: u64) -> u64
    ensures { 0 < interval → result ≡ sum % interval }
{
    if interval == 0 {
        return 0;
    }
    sum % interval
}

// Of a valid timer the sum is far from its end.
#[tactic(auto, using(crate::proofs::Timed::timed), unfolding(ends::specs::Timers::timer_advanced, octets::specs::Choice::pick))]
pub fn timer_advanced(timer: Timer, n: u64) -> Timer
    ensures { valid_timer timer ≡ true → n ≤ max_tick → result ≡ timer_advanced timer n }
{
    let sum = wrapping_add_u64(timer.count, n);
    let mut r = timer;
    if timer.interval <= sum {
        r.count = reduced(sum, timer.interval);
        r.flag = 1;
        return r;
    }
    r.count = sum;
    r
}
