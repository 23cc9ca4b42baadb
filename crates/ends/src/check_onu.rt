// Whether a lent ONU is valid: each test is a cause of 01, 'When the reader says no' (Ahead of each list comes 1).
ghost use Rattle.std.specs.Prelude.{◌≡◌};
ghost use Rattle.ends.specs.Validity.{valid_onu, valid_onu_keys, valid_onu_clock};

use crate::changes::valid_changes;
use crate::limits::MAX_KEY_NUMBER;
use crate::llids::{distinct_llids, valid_identity, valid_mac};
use crate::sends::valid_channels;
use crate::{Onu, OnuClock, OnuKeys};
use clock::{CLOCK_TURN, LOCAL_TURN, MAX_TICK};

#[tactic(auto, unfolding(crate::specs::Validity::valid_onu_keys, octets::specs::Choice::both, octets::specs::Choice::either))]
pub fn valid_onu_keys(keys: OnuKeys) -> bool
    ensures { result ≡ valid_onu_keys keys }
{
    (keys.held <= 1) & ((keys.held == 0) | (keys.active < MAX_KEY_NUMBER))
}

#[tactic(auto, unfolding(crate::specs::Validity::valid_onu_clock, octets::specs::Choice::both, octets::specs::Choice::pick))]
pub fn valid_onu_clock(clock: OnuClock) -> bool
    ensures { result ≡ valid_onu_clock clock }
{
    let turn = if clock.synced == 1 {
        CLOCK_TURN
    } else {
        LOCAL_TURN
    };
    (clock.synced <= 1) & (clock.rx < CLOCK_TURN) & (clock.time < turn)
}

#[tactic(auto, unfolding(crate::specs::Validity::valid_onu, octets::specs::Choice::both))]
pub fn valid_onu(o: Onu) -> bool
    ensures { result ≡ valid_onu o }
{
    valid_identity(o.identity)
        & distinct_llids(o.identity)
        & valid_mac(o.oltmac)
        & (o.tick <= MAX_TICK)
        & valid_onu_clock(o.clock)
        & valid_onu_keys(o.keys)
        & (o.first.noted <= 1)
        & valid_changes(o.travel.changes)
        & valid_channels(o.channels)
}
