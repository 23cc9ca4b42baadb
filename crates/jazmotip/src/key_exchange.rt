// The OLT's key exchange on an XG-PON line (02, C-21). An input is a kind and a key index here.
ghost use Rattle.std.specs.Prelude.{◌≡◌};
ghost use Rattle.xgpon.specs.Keys.{received_under, sent_under};
ghost use Rattle.xgpon.specs.Laws.{Laws};
ghost use Rattle.xgpon.specs.Timers.{recommended_starts};
ghost use Rattle.xgpon.specs.Values.{fresh_exchange};
ghost use Rattle.jazmotip.specs.KeyExchange.{input_of, step_by_kind};

use refusal::Refusal;
use xgpon::answers::{Answer, refuse};
use xgpon::keys::{ValidKeys, received_under, sent_under};
use xgpon::moves::{Input, fresh, step};
use xgpon::timers::{TimerStarts, recommended_starts};
use xgpon::values::KeyExchange;

#[repr(C)]
#[derive(Clone, Copy)]
pub struct InputRecord {
    // 1 to 9, in the order of `Input`: a number, since C sends any octet
    pub kind: u8,
    // the key index that a report names; no other input has one
    pub index: u8,
}

fn input_of(kind: u8, index: u8) -> Option<Input>
    ensures { result ≡ input_of kind index }
{
    match kind {
        1 => Some(Input::NewKey(index)),
        2 => Some(Input::ExistingKey(index)),
        3 => Some(Input::Tk1Expires),
        4 => Some(Input::Tk2Expires),
        5 => Some(Input::Tk3Expires),
        6 => Some(Input::Begin),
        7 => Some(Input::BeginToSend),
        8 => Some(Input::Rekey),
        9 => Some(Input::KeyCheck),
        _ => None,
    }
}

#[unsafe(no_mangle)]
pub extern "C" fn jazmotip_xgpon_fresh() -> KeyExchange
    ensures value { result ≡ fresh_exchange }
    ensures laws { Laws }
{
    fresh()
}

#[unsafe(no_mangle)]
pub extern "C" fn jazmotip_xgpon_step(exchange: KeyExchange, input: InputRecord) -> Answer
    ensures { result ≡ step_by_kind exchange input.kind input.index }
{
    match input_of(input.kind, input.index) {
        Some(given) => step(exchange, given),
        None => refuse(exchange, Refusal::OutOfRange),
    }
}

#[unsafe(no_mangle)]
pub extern "C" fn jazmotip_xgpon_sent_under(exchange: KeyExchange) -> ValidKeys
    ensures { result ≡ sent_under exchange }
{
    sent_under(exchange)
}

#[unsafe(no_mangle)]
pub extern "C" fn jazmotip_xgpon_received_under(exchange: KeyExchange) -> ValidKeys
    ensures { result ≡ received_under exchange }
{
    received_under(exchange)
}

// In milliseconds.
#[unsafe(no_mangle)]
pub extern "C" fn jazmotip_xgpon_recommended_starts() -> TimerStarts
    ensures { result ≡ recommended_starts }
{
    recommended_starts()
}
