// New ends and new units (01, Clock; Keys).
ghost use Rattle.std.specs.Prelude.{◌≡◌, ◌<◌};
ghost use Rattle.ends.specs.Limits.{max_units};
ghost use Rattle.ends.specs.Records.{fresh_unit, new_olt, no_unit};
ghost use Rattle.ends.specs.Table.{with_one_more};
ghost use Rattle.protocol.specs.OltCalls.{register_order, valid_registration};

use clock::MAX_ROUND_TRIP;
use ends::check_olt::{valid_interval, valid_olt};
use ends::limits::{MAX_LLIDS, MAX_UNITS};
use ends::llids::{distinct_llids, kept_identity, valid_identity};
use ends::search::meets_table;
use ends::{
    Channels, Confirmation, FirstSend, Identity, Olt, Shared, Slots, Timer, UnitClock, UnitKeys,
    UnitRecord,
};
use refusal::{Refusal, Verdict};

// Numbers 0, flags down.
#[tactic(auto, unfolding(ends::specs::Records::fresh_unit, ends::specs::Timers::fresh_timer))]
pub fn fresh_unit(identity: Identity, trip: u64, interval: u64) -> UnitRecord
    ensures { result ≡ fresh_unit identity trip interval }
{
    let kept = kept_identity(identity);
    let timer = Timer {
        interval,
        count: 0,
        flag: 0,
    };
    let slots = Slots {
        even: [0; 16],
        odd: [0; 16],
    };
    let first = FirstSend { noted: 0, at: 0 };
    let keys = UnitKeys {
        timer,
        active: 0,
        offered: 0,
        slots,
        first,
    };
    let confirmation = Confirmation {
        confirmed: 0,
        acknowledged: 0,
    };
    let clock = UnitClock {
        trip,
        captured: 0,
        tick: 0,
        sent: 0,
        acknowledged: 0,
    };
    UnitRecord {
        identity: kept,
        keys,
        confirmation,
        clock,
    }
}

#[tactic(auto, unfolding(ends::specs::Records::no_unit))]
fn no_unit() -> UnitRecord
    ensures { result ≡ no_unit }
{
    let identity = Identity {
        mac: 0,
        llids: [0; MAX_LLIDS as usize],
        count: 0,
    };
    fresh_unit(identity, 0, 0)
}

#[tactic(auto, unfolding(ends::specs::Records::new_olt))]
pub(crate) fn new_olt(mac: u64, clock: u64) -> Olt
    ensures { result ≡ new_olt mac clock }
{
    let channels = Channels { zero: 0, one: 0 };
    let shared = Shared {
        mac,
        tick: 0,
        clock,
        channels,
    };
    let unit = no_unit();
    let mut units = [unit; MAX_UNITS as usize];
    // Stored once more at a place that the compiler does not know: else it takes the table apart and writes out the parts of each unit.
    let place = (clock % (MAX_UNITS as u64)) as usize;
    units[place] = unit;
    Olt {
        shared,
        count: 0,
        units,
    }
}

#[tactic(auto, unfolding(protocol::specs::OltCalls::valid_registration, octets::specs::Choice::both))]
fn valid_registration(identity: Identity, trip: u64, interval: u64) -> bool
    ensures { result ≡ valid_registration identity trip interval }
{
    let who = valid_identity(identity);
    let when = valid_interval(interval);
    who & ((trip <= MAX_ROUND_TRIP) & when)
}

// 1 for the end that is lent, then register's own 1, 3 and 4.
#[tactic(auto, unfolding(protocol::specs::OltCalls::register_verdict, refusal::specs::Order::refuse_if, octets::specs::Choice::either))]
pub(crate) fn register_verdict(olt: Olt, identity: Identity, trip: u64, interval: u64) -> Verdict
    ensures { result ≡ register_order olt identity trip interval }
{
    if !valid_olt(olt) {
        return Err(Refusal::OutOfRange);
    }
    if !valid_registration(identity, trip, interval) {
        return Err(Refusal::OutOfRange);
    }
    let units = olt.units;
    let met = meets_table(units, olt.count, identity);
    if !distinct_llids(identity) | met {
        return Err(Refusal::RepeatedLlid);
    }
    if MAX_UNITS <= olt.count {
        return Err(Refusal::TableFull);
    }
    Ok(())
}

// One unit more, in the first place that is not in use.
#[tactic(auto, unfolding(ends::specs::Table::with_one_more))]
pub(crate) fn with_one_more(olt: Olt, unit: UnitRecord) -> Olt
    requires { olt.count < max_units }
    ensures { result ≡ with_one_more olt unit }
{
    let mut r = olt;
    let place = olt.count as usize;
    r.units[place] = unit;
    r.count = olt.count + 1;
    r
}
