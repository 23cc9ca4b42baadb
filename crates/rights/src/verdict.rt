// The verdict on a call of a class, ahead of what the call asks for: 23, 14, 1, 3.
ghost use Rattle.std.specs.Prelude.{◌≡◌, ◌<◌};
ghost use Rattle.octets.specs.Lists.{all};
ghost use Rattle.rights.specs.Rights.{rights_fit};
ghost use Rattle.rights.specs.Verdict.{user_fits, counts_fit, presences_fit, llids_differ, class_verdict};
ghost use Rattle.rights.specs.Claims.{Repeats};

use crate::settings::{Caller, set_at, set_for};
use records::settings::{SETTINGS_OCTETS, llid, presence, presence_fits};
use refusal::{Refusal, Verdict};

pub const MOST_SETS: u8 = 16;

pub const MOST_USERS: u8 = 16;

// No right but to see, to open and to load.
const RIGHTS_BELOW: u8 = 8;

#[tactic(auto, unfolding(crate::specs::Verdict::user_fits, octets::specs::Choice::both))]
fn user_fits(caller: Caller) -> bool
    ensures { result ≡ user_fits caller }
{
    (1 <= caller.user) & (caller.user <= caller.users)
}

#[tactic(auto, unfolding(crate::specs::Verdict::counts_fit, octets::specs::Choice::both))]
fn counts_fit(caller: Caller, sets: usize, rights: usize) -> bool
    ensures { result ≡ counts_fit caller sets rights }
{
    let n = caller.sets as usize;
    ((1 <= caller.sets) & (caller.sets <= MOST_SETS))
        & ((caller.users <= MOST_USERS)
            & ((sets == SETTINGS_OCTETS * n) & (rights == n * caller.users as usize)))
}

fn presences_fit(caller: Caller, sets: &[u8]) -> bool
    ensures { result ≡ presences_fit caller sets.now }
{
    (0..caller.sets).all(|j| presence_fits(presence(set_at(sets, j))))
}

fn rights_fit(rights: &[u8]) -> bool
    ensures { result ≡ all rights_fit rights.now }
{
    rights.iter().all(|q| *q < RIGHTS_BELOW)
}

// Whether each set is the first of its LLID.
fn llids_differ(caller: Caller, sets: &[u8]) -> bool
    ensures { result ≡ llids_differ caller sets.now }
{
    (0..caller.sets).all(|j| set_for(caller, sets, llid(set_at(sets, j))) == j)
}

// Whether what else the call was lent suits in length, and what else it asks for in value, is told by two tests.
#[tactic(auto, using(crate::proofs::Sets::repeats), unfolding(crate::specs::Verdict::class_verdict, refusal::specs::Order::refuse_if, octets::specs::Choice::both))]
pub fn class_verdict(suits: bool, fits: bool, caller: Caller, sets: &[u8], rights: &[u8]) -> Verdict
    ensures value { result ≡ class_verdict suits fits caller sets.now rights.now }
    ensures repeats { Repeats caller sets.now }
{
    if !user_fits(caller) {
        return Err(Refusal::UnknownUser);
    }
    if !(suits & counts_fit(caller, sets.len(), rights.len())) {
        return Err(Refusal::BadLength);
    }
    if !(fits & (presences_fit(caller, sets) & rights_fit(rights))) {
        return Err(Refusal::OutOfRange);
    }
    if !llids_differ(caller, sets) {
        return Err(Refusal::RepeatedLlid);
    }
    Ok(())
}
