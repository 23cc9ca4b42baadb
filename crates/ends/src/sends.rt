// What an end notes of its sends: the first under a key, and until when each channel is taken (01, Keys).
ghost use Rattle.std.specs.Prelude.{◌≡◌};
ghost use Rattle.ends.specs.Keys.{valid_first};
ghost use Rattle.ends.specs.Occupancy.{valid_channels};

use crate::limits::MAX_FREE;
use crate::{Channels, FirstSend};

#[tactic(auto, unfolding(crate::specs::Keys::valid_first, octets::specs::Choice::both, octets::specs::Choice::either))]
pub fn valid_first(first: FirstSend, tick: u64) -> bool
    ensures { result ≡ valid_first first tick }
{
    (first.noted <= 1) & ((first.noted == 0) | (first.at <= tick))
}

#[tactic(auto, unfolding(crate::specs::Occupancy::valid_channels, octets::specs::Choice::both))]
pub fn valid_channels(channels: Channels) -> bool
    ensures { result ≡ valid_channels channels }
{
    (channels.zero <= MAX_FREE) & (channels.one <= MAX_FREE)
}
