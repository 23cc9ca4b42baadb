// Whether an OLT that is lent is valid (01, 'When the reader says no': Ahead of each list comes 1). The tests are joined by `&`, which takes no
// branch: by `&&` a full table is judged a twentieth slower.
ghost use Rattle.std.specs.Prelude.{◌≡◌, ◌+◌, ◌<◌, ◌≤◌, true, false, [], ◌∷◌, ◌++◌, length, take, Some, None};
ghost use Rattle.ends.specs.Identities.{among, distinct, has, llids_of};
ghost use Rattle.ends.specs.Limits.{max_llids, max_table_llids, max_units};
ghost use Rattle.ends.specs.Marks.{Marked, Names, by_mark, mark_place, next_mark};
ghost use Rattle.ends.specs.Timers.{valid_interval, valid_timer};
ghost use Rattle.octets.specs.Choice.{pick};
ghost use Rattle.ends.specs.Table.{found_or};
ghost use Rattle.ends.specs.Validity.{judged, judged_of, judged_table, valid_keys, valid_numbers, valid_olt, valid_shared, valid_unit, valid_unit_clock};

use crate::limits::{MAX_INTERVAL, MAX_LLIDS, MAX_UNITS};
use crate::llids::{distinct_llids, has, valid_identity, valid_mac};
use crate::sends::{valid_channels, valid_first};
use crate::{Identity, Judged, Olt, Shared, Timer, UnitClock, UnitKeys, UnitRecord};
use clock::{CLOCK_TURN, MAX_ROUND_TRIP, MAX_TICK};

#[tactic(auto, unfolding(crate::specs::Timers::valid_interval, octets::specs::Choice::both))]
pub fn valid_interval(interval: u64) -> bool
    ensures { result ≡ valid_interval interval }
{
    (1 <= interval) & (interval <= MAX_INTERVAL)
}

#[tactic(auto, unfolding(crate::specs::Timers::valid_timer, octets::specs::Choice::both))]
pub fn valid_timer(timer: Timer) -> bool
    ensures { result ≡ valid_timer timer }
{
    valid_interval(timer.interval) & (timer.count < timer.interval) & (timer.flag <= 1)
}

#[tactic(auto, unfolding(crate::specs::Validity::valid_numbers, octets::specs::Choice::both))]
fn valid_numbers(confirmed: u32, active: u32, offered: u32) -> bool
    ensures { result ≡ valid_numbers confirmed active offered }
{
    (confirmed <= active) & (active <= offered) & (offered as u64 <= confirmed as u64 + 1)
}

#[tactic(auto, unfolding(crate::specs::Validity::valid_keys, octets::specs::Choice::both))]
fn valid_keys(tick: u64, keys: UnitKeys) -> bool
    ensures { result ≡ valid_keys tick keys }
{
    valid_timer(keys.timer) & valid_first(keys.first, tick)
}

#[tactic(auto, unfolding(crate::specs::Validity::valid_unit_clock, octets::specs::Choice::both, octets::specs::Choice::either))]
fn valid_unit_clock(tick: u64, clock: UnitClock) -> bool
    ensures { result ≡ valid_unit_clock tick clock }
{
    (clock.trip <= MAX_ROUND_TRIP)
        & (clock.captured <= 1)
        & ((clock.captured == 0) | (clock.tick <= tick))
        & (clock.sent <= 1)
        & (clock.acknowledged <= 1)
}

#[tactic(auto, unfolding(crate::specs::Validity::valid_unit, octets::specs::Choice::both))]
pub fn valid_unit(tick: u64, unit: UnitRecord) -> bool
    ensures { result ≡ valid_unit tick unit }
{
    valid_identity(unit.identity)
        & valid_keys(tick, unit.keys)
        & valid_numbers(
            unit.confirmation.confirmed,
            unit.keys.active,
            unit.keys.offered,
        )
        & (unit.confirmation.acknowledged <= 1)
        & valid_unit_clock(tick, unit.clock)
}

#[tactic(auto, unfolding(crate::specs::Validity::valid_shared, octets::specs::Choice::both))]
pub fn valid_shared(shared: Shared) -> bool
    ensures { result ≡ valid_shared shared }
{
    valid_mac(shared.mac)
        & (shared.tick <= MAX_TICK)
        & (shared.clock < CLOCK_TURN)
        & valid_channels(shared.channels)
}

// LLIDs of a full table.
const TABLE_LLIDS: usize = MAX_UNITS as usize * MAX_LLIDS as usize;

const MARK_PLACES: usize = 256;

// The mark of a place that several LLIDs have.
const CROWDED: u8 = 255;

// Where an LLID leaves its mark.
#[tactic(auto, unfolding(crate::specs::Marks::mark_place))]
fn mark_place(llid: u16) -> usize
    ensures { result ≡ mark_place llid }
{
    (llid as u32 * 40503 % 65536) as usize / MARK_PLACES
}

#[tactic(auto, unfolding(crate::specs::Marks::next_mark, octets::specs::Choice::pick))]
fn next_mark(mark: u8, k: usize) -> u8
    requires { k < max_table_llids }
    ensures { result ≡ next_mark mark k }
{
    if mark == 0 {
        return k as u8 + 1;
    }
    CROWDED
}

// A loop: the slice's own `contains`, which searches by groups, makes the judging of a full table a fifth slower.
#[tactic(auto, using(crate::proofs::Walks::among_drop_hit, crate::proofs::Walks::among_drop_miss, crate::proofs::Walks::among_drop_end))]
pub fn contains(list: &[u16], x: u16) -> bool
    ensures { result ≡ among x list.now }
{
    for y in list {
        if *y == x {
            return true;
        }
    }
    false
}

#[tactic(auto, using(crate::proofs::Identities::distinct_step, crate::proofs::Identities::distinct_stop), unfolding(crate::specs::Identities::distinct))]
pub fn all_distinct(list: &[u16]) -> bool
    ensures { result ≡ distinct list.now }
{
    for (i, x) in list.iter().enumerate() {
        if contains(&list[..i], *x) {
            return false;
        }
    }
    true
}

// Whether x is one of the first n. Only where several have its place are they searched.
#[tactic(auto, using(crate::proofs::Marks::by_none, crate::proofs::Marks::by_first))]
fn stands(list: &[u16], n: usize, x: u16, mark: u8) -> bool
    requires n_in_bounds { n ≤ length list.now }
    requires names { Names (take n list.now) mark }
    requires list_value { among x (take n list.now) ≡ by_mark (take n list.now) x mark }
    ensures { result ≡ among x (take n list.now) }
{
    if mark == 0 {
        return false;
    }
    if mark == CROWDED {
        return contains(&list[..n], x);
    }
    let k = mark as usize - 1;
    list[k] == x
}

// Puts a unit's LLIDs behind the first n, which stand once each, and leaves their marks; false where one stands already.
#[tactic(auto, using(crate::proofs::Marks::place_below))]
fn added(identity: Identity, list: &mut [u16], marks: &mut [u8], n: usize) -> bool
    requires max_llids_in_bounds { (n + max_llids ≤ length list.old) × (length list.old ≡ max_table_llids) }
    requires count_le_max_llids { identity.count ≤ max_llids }
    requires marked { Marked (take n list.old) marks.old }
    requires list_value { distinct (take n list.old) ≡ true }
    ensures value { result ≡ distinct (take n list.old ++ llids_of identity) }
    ensures list_after { result ≡ true → take (n + identity.count) list.new ≡ take n list.old ++ llids_of identity }
    ensures marked_2 { result ≡ true → Marked (take (n + identity.count) list.new) marks.new }
{
    for (j, x) in identity.llids[..identity.count as usize].iter().enumerate() {
        let x = *x;
        let place = n + j;
        let m = mark_place(x);
        let mark = marks[m];
        if stands(list, place, x, mark) {
            return false;
        }
        list[place] = x;
        marks[m] = next_mark(mark, place);
    }
    true
}

// What is found once the unit at place i is passed too: the first that has the LLID.
#[tactic(auto, unfolding(octets::specs::Choice::pick))]
fn first_found(found: Option<usize>, i: usize, identity: Identity, llid: u16) -> Option<usize>
    ensures { result ≡ found_or found (pick (has identity llid) (Some i) None) }
{
    match found {
        Some(_) => found,
        None if has(identity, llid) => Some(i),
        None => None,
    }
}

#[tactic(auto, unfolding(crate::specs::Validity::judged, octets::specs::Choice::pick))]
fn invalid() -> Judged
    ensures { result ≡ judged false None }
{
    Judged {
        valid: false,
        found: None,
    }
}

#[tactic(auto, unfolding(crate::specs::Validity::judged, octets::specs::Choice::pick))]
fn valid_with(found: Option<usize>) -> Judged
    ensures { result ≡ judged true found }
{
    Judged { valid: true, found }
}

// Whether the units are valid and no LLID of theirs stands twice, and which of them has the LLID, in one pass.
#[tactic(auto, unfolding(crate::specs::Identities::distinct, octets::specs::Choice::pick, crate::specs::Table::past_unit, crate::specs::Validity::judged_table))]
fn judge_table(olt: Olt, count: usize, llid: u16) -> Judged
    requires { count ≤ max_units }
    ensures { result ≡ judged_table olt.shared.tick (take count olt.units) llid }
{
    let mut list = [0u16; TABLE_LLIDS];
    let mut marks = [0u8; MARK_PLACES];
    let mut n: usize = 0;
    let mut found = None;
    for (i, unit) in olt.units[..count].iter().enumerate() {
        if !valid_unit(olt.shared.tick, *unit) {
            return invalid();
        }
        if !added(unit.identity, &mut list, &mut marks, n) {
            return invalid();
        }
        found = first_found(found, i, unit.identity, llid);
        n += unit.identity.count as usize;
    }
    valid_with(found)
}

// The same of a table of one unit.
#[tactic(auto, using(crate::proofs::Walks::one_unit), unfolding(crate::specs::Validity::judged, crate::specs::Validity::judged_table, octets::specs::Lists::all, crate::specs::Table::find_from, octets::specs::Choice::both, octets::specs::Choice::pick))]
fn judge_one(tick: u64, unit: UnitRecord, llid: u16) -> Judged
    ensures { result ≡ judged_table tick (unit ∷ []) llid }
{
    if !valid_unit(tick, unit) || !distinct_llids(unit.identity) {
        return invalid();
    }
    valid_with(first_found(None, 0, unit.identity, llid))
}

// Whether the OLT is valid and, if so, which unit has the LLID. An empty table and one of a single unit are judged without a copy (D119).
#[tactic(auto, unfolding(crate::specs::Validity::judged, crate::specs::Validity::judged_of, crate::specs::Validity::valid_olt, crate::specs::Table::find, crate::specs::Table::find_from, crate::specs::Table::table_llids, octets::specs::Lists::all, crate::specs::Identities::distinct, octets::specs::Choice::both, octets::specs::Choice::pick, crate::specs::Validity::judged_table, crate::specs::Table::past_unit))]
pub fn judge(olt: Olt, llid: u16) -> Judged
    ensures { result ≡ judged_of olt llid }
{
    if MAX_UNITS < olt.count || !valid_shared(olt.shared) {
        return invalid();
    }
    match olt.count {
        0 => valid_with(None),
        1 => judge_one(olt.shared.tick, olt.units[0], llid),
        count => judge_table(olt, count as usize, llid),
    }
}

#[tactic(auto, unfolding(crate::specs::Validity::judged, crate::specs::Validity::judged_of))]
pub fn valid_olt(olt: Olt) -> bool
    ensures { result ≡ valid_olt olt }
{
    judge(olt, 0).valid
}
