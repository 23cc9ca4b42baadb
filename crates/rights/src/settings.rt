// The settings of a class: sets of document 01's 41 octets, one for each LLID, and an octet of rights for each user and set.
ghost use Rattle.std.specs.Prelude.{◌≡◌, get_or};
ghost use Rattle.rights.specs.Settings.{set_of, set_for, own_rights};
ghost use Rattle.rights.specs.Rights.{may_open, may_see, may_load};

use octets::{octet_at, part_of};
use records::settings::{SETTINGS_OCTETS, llid};

// How many sets and users there are, and the number of the user who asks, from 1 (D100). The sets and the rights go beside it, as C lends
// them: `load` writes the sets, so no value holds all three.
#[repr(C)]
#[derive(Clone, Copy)]
pub struct Caller {
    pub sets: u8,
    pub users: u8,
    pub user: u8,
}

// Set j, as a part of the sets.
pub fn set_at(sets: &[u8], j: u8) -> &[u8]
    ensures { result.now ≡ set_of sets.now j }
{
    part_of(sets, SETTINGS_OCTETS * j as usize, SETTINGS_OCTETS)
}

// The set of an LLID, or the count of sets where it has none: `set_for` has that place, behind them, and a user has no rights there.
pub fn set_for(caller: Caller, sets: &[u8], wanted: u16) -> u8
    ensures { result ≡ set_for caller sets.now wanted }
{
    (0..caller.sets)
        .find(|j| llid(set_at(sets, *j)) == wanted)
        .unwrap_or(caller.sets)
}

// The octets of rights of the user who asks, one for each set.
#[tactic(auto, unfolding(crate::specs::Settings::own_rights))]
pub fn own_rights(caller: Caller, rights: &[u8]) -> &[u8]
    ensures { result.now ≡ own_rights caller rights.now }
{
    let n = caller.sets as usize;
    part_of(rights, n * caller.user.saturating_sub(1) as usize, n)
}

// The rights of that user on set j.
pub fn rights_at(caller: Caller, rights: &[u8], j: u8) -> u8
    ensures { result ≡ get_or (own_rights caller rights.now) j 0 }
{
    octet_at(own_rights(caller, rights), j as usize)
}

#[tactic(auto, unfolding(crate::specs::Rights::may_open))]
pub fn may_open(right: u8) -> bool
    ensures { result ≡ may_open right }
{
    octets::bit(right, 1) == 1
}

// Opening includes seeing.
#[tactic(auto, unfolding(crate::specs::Rights::may_see, octets::specs::Choice::either))]
pub fn may_see(right: u8) -> bool
    ensures { result ≡ may_see right }
{
    (octets::bit(right, 0) == 1) | may_open(right)
}

#[tactic(auto, unfolding(crate::specs::Rights::may_load))]
pub fn may_load(right: u8) -> bool
    ensures { result ≡ may_load right }
{
    octets::bit(right, 2) == 1
}
