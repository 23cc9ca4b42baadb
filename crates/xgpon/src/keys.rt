// Which keys may be sent under and received under (003, 15.5.3.2).
ghost use Rattle.std.specs.Prelude.{◌≡◌};
ghost use Rattle.xgpon.specs.Keys.{outside_keys, received_under, sent_under, valid_keys};

use crate::values::{KeyExchange, NO_KEY, State};
use refusal::Refusal;

// The keys that are valid in a direction: the index of each, 0 where it is not, as C reads them.
#[repr(C)]
#[derive(Clone, Copy)]
pub struct ValidKeys {
    // 0, or the refusal code, as C reads it
    pub number: u8,
    pub oldkey: u8,
    pub newkey: u8,
}

fn valid_keys(oldkey: u8, newkey: u8) -> ValidKeys
    ensures { result ≡ valid_keys oldkey newkey }
{
    ValidKeys {
        number: 0,
        oldkey,
        newkey,
    }
}

fn outside() -> ValidKeys
    ensures { result ≡ outside_keys }
{
    ValidKeys {
        number: u8::from(Refusal::OutOfRange),
        oldkey: NO_KEY,
        newkey: NO_KEY,
    }
}

pub fn sent_under(x: KeyExchange) -> ValidKeys
    ensures { result ≡ sent_under x }
{
    let Some(state) = x.checked_state() else {
        return outside();
    };
    match state {
        State::KL0 => valid_keys(NO_KEY, NO_KEY),
        State::KL1 => valid_keys(x.oldkey, NO_KEY),
        State::KL2 => valid_keys(x.oldkey, x.newkey),
        State::KL3 => valid_keys(NO_KEY, x.newkey),
        State::KL4 => valid_keys(NO_KEY, x.newkey),
    }
}

pub fn received_under(x: KeyExchange) -> ValidKeys
    ensures { result ≡ received_under x }
{
    let Some(state) = x.checked_state() else {
        return outside();
    };
    match state {
        State::KL0 => valid_keys(NO_KEY, NO_KEY),
        State::KL1 => valid_keys(x.oldkey, NO_KEY),
        State::KL2 => valid_keys(x.oldkey, NO_KEY),
        State::KL3 => valid_keys(x.oldkey, x.newkey),
        State::KL4 => valid_keys(NO_KEY, x.newkey),
    }
}
