// The moves of the OLT, state by state (003, 15.5.3.2).
ghost use Rattle.std.specs.Prelude.{◌≡◌};
ghost use Rattle.xgpon.specs.Answers.{accepted, confirm, generate, silent};
ghost use Rattle.xgpon.specs.Laws.{Laws};
ghost use Rattle.xgpon.specs.Moves.{in_kl0, in_kl1, in_kl2, in_kl3, in_kl4, step_of};
ghost use Rattle.xgpon.specs.Timers.{no_timer, only_tk3};
ghost use Rattle.xgpon.specs.Values.{fresh_exchange, in_state};

use crate::answers::{Answer, SILENT, accept, await_index, confirm, generate, refuse, stay};
use crate::timers::{NO_TIMER, ONLY_TK2, ONLY_TK3, TK1_AND_TK2, TK1_AND_TK3, Timers};
use crate::values::{FRESH, KeyExchange, NO_KEY, State};
use refusal::Refusal;

// What the OLT is handed: a report with the key index that it names, the expiry of a timer, or a decision of its own.
#[derive(Clone, Copy)]
pub enum Input {
    NewKey(u8),
    ExistingKey(u8),
    Tk1Expires,
    Tk2Expires,
    Tk3Expires,
    Begin,
    BeginToSend,
    Rekey,
    KeyCheck,
}

// The awaited report has come.
fn move_on(state: State, x: KeyExchange, stops: Timers) -> Answer
    ensures { result ≡ accepted (in_state state x) silent no_timer stops }
{
    accept(x.in_state(state), SILENT, NO_TIMER, stops)
}

// Generate is sent for the new key.
fn request(next: KeyExchange, starts: Timers) -> Answer
    ensures { result ≡ accepted next (generate next.newkey) starts no_timer }
{
    accept(next, generate(next.newkey), starts, NO_TIMER)
}

// Confirm is sent for the new key, and its report awaited.
fn confirm_new(next: KeyExchange) -> Answer
    ensures { result ≡ accepted next (confirm next.newkey) only_tk3 no_timer }
{
    accept(next, confirm(next.newkey), ONLY_TK3, NO_TIMER)
}

fn in_kl0(x: KeyExchange, input: Input) -> Answer
    ensures { result ≡ in_kl0 x input }
{
    match input {
        Input::Begin => request(KeyExchange::requesting(NO_KEY), TK1_AND_TK2),
        _ => stay(x),
    }
}

fn in_kl1(x: KeyExchange, input: Input) -> Answer
    ensures { result ≡ in_kl1 x input }
{
    match input {
        Input::NewKey(index) => await_index(x, index, move_on(State::KL2, x, ONLY_TK2)),
        Input::ExistingKey(index) => await_index(x, index, stay(x)),
        Input::Tk1Expires => request(x, TK1_AND_TK2),
        Input::Tk2Expires => request(x, ONLY_TK2),
        _ => stay(x),
    }
}

fn in_kl2(x: KeyExchange, input: Input) -> Answer
    ensures { result ≡ in_kl2 x input }
{
    match input {
        Input::Tk1Expires => accept(FRESH, SILENT, NO_TIMER, NO_TIMER),
        Input::BeginToSend => confirm_new(x.in_state(State::KL3)),
        _ => stay(x),
    }
}

fn in_kl3(x: KeyExchange, input: Input) -> Answer
    ensures { result ≡ in_kl3 x input }
{
    match input {
        Input::NewKey(index) => await_index(x, index, stay(x)),
        Input::ExistingKey(index) => await_index(x, index, move_on(State::KL4, x, TK1_AND_TK3)),
        Input::Tk1Expires => accept(FRESH, SILENT, NO_TIMER, ONLY_TK3),
        Input::Tk2Expires => confirm_new(x),
        Input::Tk3Expires => confirm_new(x),
        _ => stay(x),
    }
}

fn in_kl4(x: KeyExchange, input: Input) -> Answer
    ensures { result ≡ in_kl4 x input }
{
    match input {
        Input::NewKey(index) => await_index(x, index, stay(x)),
        Input::ExistingKey(index) => await_index(x, index, stay(x)),
        Input::Rekey => request(KeyExchange::requesting(x.newkey), TK1_AND_TK2),
        Input::KeyCheck => accept(x, confirm(x.newkey), NO_TIMER, NO_TIMER),
        _ => stay(x),
    }
}

// A key exchange that has not begun. What holds of every step, and of every run from here, stands in the contract.
#[tactic(auto, using(crate::proofs::Laws::laws))]
pub fn fresh() -> KeyExchange
    ensures value { result ≡ fresh_exchange }
    ensures laws { Laws }
{
    FRESH
}

pub fn step(x: KeyExchange, input: Input) -> Answer
    ensures { result ≡ step_of x input }
{
    let Some(state) = x.checked_state() else {
        return refuse(x, Refusal::OutOfRange);
    };
    match state {
        State::KL0 => in_kl0(x, input),
        State::KL1 => in_kl1(x, input),
        State::KL2 => in_kl2(x, input),
        State::KL3 => in_kl3(x, input),
        State::KL4 => in_kl4(x, input),
    }
}
