// The members of a group (02, C-14). A place past the eighth counts as zero, so that every count has an answer.
ghost use Rattle.std.specs.Prelude.{◌≡◌, map, leb, ltb, get_or};
ghost use Rattle.octets.specs.Lists.{all};
ghost use Rattle.ends.specs.Flags.{is_up};
ghost use Rattle.ends.specs.Identities.{distinct};
ghost use Rattle.group_protocol.specs.GroupCalls.{members_set};
ghost use Rattle.group_protocol.specs.Members.{fresh_members, marked, marks_of, member_at, places_of, unmarked, valid_members};

use ends::limits::MAX_UNITS;
use ends::{Olt, UnitRecord, in_use};
use group_protocol::{MAX_MEMBERS, Members};
use std::array;

// The octet at place j.
fn at(octets: [u8; MAX_MEMBERS as usize], j: u8) -> u8
    ensures { result ≡ get_or octets j 0 }
{
    in_use::at(&octets, usize::from(j), 0)
}

// Which member the unit at that place is.
#[tactic(auto, unfolding(group_protocol::specs::Members::member_at, group_protocol::specs::Members::places_of))]
pub fn member_at(members: Members, place: usize) -> Option<usize>
    ensures { result ≡ member_at members place }
{
    (0..members.count).position(|j| at(members.places, j) as usize == place)
}

// The flag of each unit's clock, by its place. They are gathered, so that the table is not copied to be indexed (D119).
fn clock_flags(units: [UnitRecord; MAX_UNITS as usize]) -> [u8; MAX_UNITS as usize]
    ensures { result ≡ map (λ u. u.clock.acknowledged) units }
{
    array::from_fn(|i| units[i].clock.acknowledged)
}

// The flag at that place is up.
fn is_set(flags: [u8; MAX_UNITS as usize], place: u8) -> bool
    ensures { result ≡ is_up (get_or flags place 0) }
{
    if place < MAX_UNITS {
        return flags[place as usize] == 1;
    }
    false
}

#[tactic(auto, unfolding(group_protocol::specs::Members::places_of, group_protocol::specs::GroupCalls::members_set, ends::specs::Table::past_unit))]
pub fn members_set(olt: Olt, members: Members) -> bool
    ensures { result ≡ members_set olt members }
{
    let flags = clock_flags(olt.units);
    (0..members.count).all(|j| is_set(flags, at(members.places, j)))
}

#[tactic(auto, unfolding(group_protocol::specs::Members::places_of))]
fn places_below(members: Members, units: u8) -> bool
    ensures { result ≡ all (λ place. ltb place units) (places_of members) }
{
    (0..members.count).all(|j| at(members.places, j) < units)
}

#[tactic(auto, unfolding(group_protocol::specs::Members::marks_of))]
fn flags_in_range(members: Members) -> bool
    ensures { result ≡ all (λ mark. leb mark 1) (marks_of members) }
{
    (0..members.count).all(|j| at(members.marks, j) <= 1)
}

#[tactic(auto, using(ends::proofs::Counted::distinct_numbers), unfolding(group_protocol::specs::Members::places_of))]
fn distinct_places(members: Members) -> bool
    ensures { result ≡ distinct (places_of members) }
{
    in_use::distinct(&members.places, members.count, 0)
}

// Of an OLT with that many units.
#[tactic(auto, unfolding(group_protocol::specs::Members::valid_members, octets::specs::Choice::both))]
pub fn valid_members(units: u8, members: Members) -> bool
    ensures { result ≡ valid_members units members }
{
    let below = places_below(members, units);
    let distinct = distinct_places(members);
    let flags = flags_in_range(members);
    ((1 <= members.count) & (members.count <= MAX_MEMBERS)) & (below & (distinct & flags))
}

// The members as they are kept: zeros in the places past the count, and nobody has acknowledged.
#[tactic(auto, unfolding(group_protocol::specs::Members::fresh_members))]
pub fn fresh_members(places: [u8; MAX_MEMBERS as usize], count: u8) -> Members
    ensures { result ≡ fresh_members places count }
{
    Members {
        places: array::from_fn(|j| in_use::used(&places, count, 0, j)),
        marks: [0; MAX_MEMBERS as usize],
        count,
    }
}

#[tactic(auto, unfolding(group_protocol::specs::Members::unmarked))]
pub fn unmarked(members: Members) -> Members
    ensures { result ≡ unmarked members }
{
    let mut r = members;
    r.marks = [0; MAX_MEMBERS as usize];
    r
}

// Member j has acknowledged.
#[tactic(auto, unfolding(group_protocol::specs::Members::marked))]
pub fn marked(members: Members, j: usize) -> Members
    ensures { result ≡ marked members j }
{
    let mut r = members;
    if j < MAX_MEMBERS as usize {
        r.marks[j] = 1;
    }
    r
}
