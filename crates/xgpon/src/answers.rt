// What a step answers (02, C-21): the code, the next state, the message to send, and the timers to start and to stop.
ghost use Rattle.std.specs.Prelude.{◌≡◌};
ghost use Rattle.xgpon.specs.Answers.{accepted, awaited, confirm, generate, refused, stays};

use crate::timers::{NO_TIMER, Timers};
use crate::values::KeyExchange;
use refusal::Refusal;

pub(crate) const SILENT: KeyControl = KeyControl { kind: 0, index: 0 };

pub const GENERATE: u8 = 1;

pub const CONFIRM: u8 = 2;

// A Key_Control message: its kind, 0 for none, and the key index that it names. The kind is a number, as C reads it.
#[repr(C)]
#[derive(Clone, Copy)]
pub struct KeyControl {
    pub kind: u8,
    pub index: u8,
}

#[repr(C)]
#[derive(Clone, Copy)]
pub struct Answer {
    // 0, or the refusal code, as C reads it
    pub number: u8,
    pub exchange: KeyExchange,
    pub message: KeyControl,
    pub starts: Timers,
    pub stops: Timers,
}

pub(crate) fn generate(index: u8) -> KeyControl
    ensures { result ≡ generate index }
{
    KeyControl {
        kind: GENERATE,
        index,
    }
}

pub(crate) fn confirm(index: u8) -> KeyControl
    ensures { result ≡ confirm index }
{
    KeyControl {
        kind: CONFIRM,
        index,
    }
}

pub(crate) fn accept(
    next: KeyExchange,
    message: KeyControl,
    starts: Timers,
    stops: Timers,
) -> Answer
    ensures { result ≡ accepted next message starts stops }
{
    Answer {
        number: 0,
        exchange: next,
        message,
        starts,
        stops,
    }
}

pub(crate) fn stay(exchange: KeyExchange) -> Answer
    ensures { result ≡ stays exchange }
{
    accept(exchange, SILENT, NO_TIMER, NO_TIMER)
}

pub fn refuse(exchange: KeyExchange, refusal: Refusal) -> Answer
    ensures { result ≡ refused exchange refusal }
{
    Answer {
        number: u8::from(refusal),
        exchange,
        message: SILENT,
        starts: NO_TIMER,
        stops: NO_TIMER,
    }
}

// A report of the awaited index, the new key's, gets the answer, one of another index 25.
pub(crate) fn await_index(exchange: KeyExchange, index: u8, answer: Answer) -> Answer
    ensures { result ≡ awaited exchange index answer }
{
    if index == exchange.newkey {
        return answer;
    }
    refuse(exchange, Refusal::OtherKeyIndex)
}
