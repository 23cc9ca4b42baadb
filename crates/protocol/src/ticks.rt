// The ticks that an end counts (01, Clock).
ghost use Rattle.std.specs.Prelude.{◌≡◌};
ghost use Rattle.protocol.specs.Replies.{advance_verdict};

use clock::MAX_TICK;
use refusal::{Refusal, Verdict};

// The ticks that are left are compared, not the sum: n may be any number.
#[tactic(auto, unfolding(crate::specs::Replies::advance_verdict, refusal::specs::Order::refuse_if))]
pub fn advance_verdict(tick: u64, n: u64) -> Verdict
    ensures { result ≡ advance_verdict tick n }
{
    if MAX_TICK < tick {
        return Err(Refusal::AtEnd);
    }
    if MAX_TICK - tick < n {
        return Err(Refusal::AtEnd);
    }
    Ok(())
}
