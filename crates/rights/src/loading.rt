// Loading a key into the set of an LLID.
ghost use Rattle.std.specs.Prelude.{◌≡◌, ◌+◌, ◌*◌, ◌≤◌, ◌<◌, length};
ghost use Rattle.octets.specs.Output.{with_output};
ghost use Rattle.records.specs.Settings.{settings_octets, settings_keys, presence_of};
ghost use Rattle.rights.specs.Settings.{set_of};
ghost use Rattle.rights.specs.Loading.{load_verdict, with_key, loaded, loading};
ghost use Rattle.rights.specs.Claims.{LoadsOne};

use crate::settings::{Caller, may_load, rights_at, set_at, set_for};
use crate::verdict::class_verdict;
use octets::copy_at;
use records::settings::{KEY_OCTETS, KEYS, SETTINGS_KEYS, SETTINGS_OCTETS, presence};
use refusal::{Refusal, Verdict};

#[tactic(auto, unfolding(crate::specs::Loading::load_verdict, refusal::specs::Order::refuse_if, refusal::specs::Order::and_then))]
fn load_verdict(caller: Caller, sets: &[u8], rights: &[u8], llid: u16, index: u8) -> Verdict
    ensures { result ≡ load_verdict caller sets.now rights.now llid index }
{
    class_verdict(true, index < SETTINGS_KEYS, caller, sets, rights)?;
    let right = rights_at(caller, rights, set_for(caller, sets, llid));
    if !may_load(right) {
        return Err(Refusal::NoRight);
    }
    Ok(())
}

// The presence octet with the bit of a key.
#[tactic(auto, using(crate::proofs::Loads::present_bit), unfolding(crate::specs::Loading::with_key, octets::specs::Choice::pick))]
fn with_key(present: u8, index: u8) -> u8
    requires { index < settings_keys }
    ensures { result ≡ with_key present index }
{
    if octets::bit(present, index) == 1 {
        return present;
    }
    present + 1 + index
}

// Puts the key and its presence bit into set j.
#[tactic(auto, unfolding(crate::specs::Loading::loaded))]
fn put_key(sets: &mut [u8], j: u8, index: u8, present: u8, key: &[u8; KEY_OCTETS])
    requires index_lt_settings_keys { (index < settings_keys) × (settings_octets * j + settings_octets ≤ length sets.old) }
    requires present_value { present ≡ presence_of (set_of sets.old j) }
    ensures { sets.new ≡ loaded sets.old j index key.now }
{
    let at = SETTINGS_OCTETS * j as usize;
    sets[at] = with_key(present, index);
    copy_at(key, sets, at + (KEYS + KEY_OCTETS * index as usize));
}

// Loads key 0 or 1 of an LLID into the sets that are lent; nothing else of them changes, and nothing where it is refused.
pub fn load(
    caller: Caller,
    sets: &mut [u8],
    rights: &[u8],
    llid: u16,
    index: u8,
    key: &[u8; KEY_OCTETS],
) -> Verdict
    ensures sets_after { with_output result sets.new ≡ loading caller sets.old rights.now llid index key.now }
    ensures loads_one { LoadsOne caller sets.old rights.now llid index key.now }
{
    load_verdict(caller, sets, rights, llid, index)?;
    let j = set_for(caller, sets, llid);
    let present = presence(set_at(sets, j));
    put_key(sets, j, index, present, key);
    Ok(())
}
