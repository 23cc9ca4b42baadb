// The state of a key exchange, and the values that it has (02, C-21).
ghost use Rattle.std.specs.Prelude.{◌≡◌};
ghost use Rattle.xgpon.specs.Values.{index_after, in_state, keys_fit, requesting, state_named, state_of};

pub(crate) const NO_KEY: u8 = 0;

pub(crate) const FIRST_INDEX: u8 = 1;

pub(crate) const SECOND_INDEX: u8 = 2;

// What C lends and is answered: numbers, so that any may be lent.
#[repr(C)]
#[derive(Clone, Copy)]
pub struct KeyExchange {
    // 0 to 4, for KL0 to KL4
    pub state: u8,
    // the index of the key that was active before the exchange, 0 if there is none
    pub oldkey: u8,
    // the index of the key that the exchange brings, 0 in KL0
    pub newkey: u8,
}

pub(crate) const FRESH: KeyExchange = KeyExchange {
    state: State::KL0 as u8,
    oldkey: NO_KEY,
    newkey: NO_KEY,
};

// The states, in the order of their numbers.
#[derive(Clone, Copy, PartialEq, Eq, Debug)]
pub enum State {
    KL0,
    KL1,
    KL2,
    KL3,
    KL4,
}

// The index of the key that is asked for while the key at `active` is in use.
fn index_after(active: u8) -> u8
    ensures { result ≡ index_after active }
{
    if active == FIRST_INDEX {
        SECOND_INDEX
    } else {
        FIRST_INDEX
    }
}

impl State {
    fn named(number: u8) -> Option<State>
        ensures { result ≡ state_named number }
    {
        match number {
            0 => Some(State::KL0),
            1 => Some(State::KL1),
            2 => Some(State::KL2),
            3 => Some(State::KL3),
            4 => Some(State::KL4),
            _ => None,
        }
    }

    // Whether an exchange may have these keys in this state.
    fn is_with(self, oldkey: u8, newkey: u8) -> bool
        ensures { result ≡ keys_fit self oldkey newkey }
    {
        match self {
            State::KL0 => (oldkey == NO_KEY) & (newkey == NO_KEY),
            _ => (oldkey <= SECOND_INDEX) & (newkey == index_after(oldkey)),
        }
    }
}

impl KeyExchange {
    // A new key is requested.
    pub(crate) fn requesting(active: u8) -> KeyExchange
        ensures { result ≡ requesting active }
    {
        KeyExchange {
            state: State::KL1 as u8,
            oldkey: active,
            newkey: index_after(active),
        }
    }

    // The state of an exchange whose numbers are of their values.
    pub(crate) fn checked_state(self) -> Option<State>
        ensures { result ≡ state_of self }
    {
        let state = State::named(self.state)?;
        if state.is_with(self.oldkey, self.newkey) {
            Some(state)
        } else {
            None
        }
    }

    // That state, with the keys as they are.
    pub(crate) fn in_state(self, state: State) -> KeyExchange
        ensures { result ≡ in_state state self }
    {
        KeyExchange {
            state: state as u8,
            ..self
        }
    }
}
