// The settings of the reader: a presence octet, two keys, the sender's MAC and an LLID, and the verdict on them.
ghost use Rattle.std.specs.Prelude.{◌≡◌, ◌<◌};
ghost use Rattle.octets.specs.BigEndian.{six_octets};
ghost use Rattle.records.specs.Settings.{presence_of, key_of, mac_of, llid_of, presence_fits, settings_verdict};

use octets::{copy, number16, number48, octet_at, part_of};
use refusal::{Refusal, Verdict};

pub const SETTINGS_OCTETS: usize = 41;

// The places of the keys, the MAC and the LLID among them.
pub const KEYS: usize = 1;

const MAC: usize = 33;

const LLID: usize = 39;

pub const KEY_OCTETS: usize = 16;

// The keys that settings have room for.
pub const SETTINGS_KEYS: u8 = 2;

// The bits of the presence octet that stand for no key.
const OTHER_PRESENCE: u8 = 0xfc;

#[tactic(auto, unfolding(crate::specs::Settings::presence_of))]
pub fn presence(s: &[u8]) -> u8
    ensures { result ≡ presence_of s.now }
{
    octet_at(s, 0)
}

#[tactic(auto, unfolding(crate::specs::Settings::mac_of))]
pub fn mac(s: &[u8]) -> u64
    ensures { (result ≡ mac_of s.now) × (result < six_octets) }
{
    number48(s, MAC)
}

#[tactic(auto, unfolding(crate::specs::Settings::llid_of))]
pub fn llid(s: &[u8]) -> u16
    ensures { result ≡ llid_of s.now }
{
    number16(s, LLID)
}

// Key 0 or key 1.
#[tactic(auto, unfolding(crate::specs::Settings::key_of))]
pub fn key(s: &[u8], i: u8) -> [u8; KEY_OCTETS]
    ensures { result ≡ key_of s.now i }
{
    let at = KEYS + KEY_OCTETS * i as usize;
    let mut key = [0u8; KEY_OCTETS];
    copy(part_of(s, at, KEY_OCTETS), &mut key);
    key
}

// Whether no presence bit but those of the two keys is set.
#[tactic(auto, unfolding(crate::specs::Settings::presence_fits))]
pub fn presence_fits(presence: u8) -> bool
    ensures { result ≡ presence_fits presence }
{
    presence & OTHER_PRESENCE == 0
}

// Whether settings are of their length, and no presence bit but those of the two keys is set.
#[tactic(auto, unfolding(crate::specs::Settings::settings_verdict, octets::specs::Choice::pick))]
pub fn settings_verdict(s: &[u8]) -> Verdict
    ensures { result ≡ settings_verdict s.now }
{
    if s.len() != SETTINGS_OCTETS {
        return Err(Refusal::BadLength);
    }
    if !presence_fits(presence(s)) {
        return Err(Refusal::OutOfRange);
    }
    Ok(())
}
