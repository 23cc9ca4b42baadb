// The octets of a script.
ghost use Rattle.std.specs.Prelude.{◌≡◌, true, ◌+◌, ◌*◌, ◌≤◌, ◌<◌, length};
ghost use Rattle.octets.specs.BigEndian.{number_at};
ghost use Rattle.exercise.specs.Script.{interval_octets, step_octets, most_steps, interval_of, steps_in, kind_of, step_at, step_fits, steps_fit, interval_fits, script_fits, script_verdict};

use crate::{Kind, Step};
use octets::number32;
use refusal::{Refusal, Verdict};

const INTERVAL_OCTETS: usize = 8;

const STEP_OCTETS: usize = 9;

const MOST_STEPS: usize = 64;

fn number64(s: &[u8], at: usize) -> u64
    requires { at + 8 ≤ length s.now }
    ensures { result ≡ number_at 8 s.now at }
{
    number32(s, at) as u64 * 4294967296 + number32(s, at + 4) as u64
}

#[tactic(auto, unfolding(crate::specs::Script::interval_of))]
pub(crate) fn interval(s: &[u8]) -> u64
    requires { interval_octets ≤ length s.now }
    ensures { result ≡ interval_of s.now }
{
    number64(s, 0)
}

#[tactic(auto, unfolding(crate::specs::Script::steps_in))]
pub(crate) fn steps_in(s: &[u8]) -> usize
    requires { interval_octets ≤ length s.now }
    ensures { result ≡ steps_in s.now }
{
    (s.len() - INTERVAL_OCTETS) / STEP_OCTETS
}

fn kind_of(octet: u8) -> Option<Kind>
    ensures { result ≡ kind_of octet }
{
    match octet {
        0 => Some(Kind::ClockMessage),
        1 => Some(Kind::Offer),
        2 => Some(Kind::Retry),
        3 => Some(Kind::ClockAnswer),
        4 => Some(Kind::KeyAnswer),
        5 => Some(Kind::EnvelopeDown),
        6 => Some(Kind::EnvelopeUp),
        7 => Some(Kind::Advance),
        _ => None,
    }
}

#[tactic(auto, unfolding(crate::specs::Script::step_at))]
pub(crate) fn step_at(s: &[u8], i: usize) -> Option<Step>
    requires { (i < most_steps) × (interval_octets + step_octets * (i + 1) ≤ length s.now) }
    ensures { result ≡ step_at s.now i }
{
    let at = INTERVAL_OCTETS + STEP_OCTETS * i;
    let ticks = number64(s, at + 1);
    kind_of(s[at]).map(|kind| Step { kind, ticks })
}

#[tactic(auto, unfolding(octets::specs::Choice::either))]
fn step_fits(x: Option<Step>) -> bool
    ensures { result ≡ step_fits x }
{
    match x {
        Some(x) => matches!(x.kind, Kind::Advance) | (x.ticks == 0),
        None => false,
    }
}

fn steps_fit(s: &[u8], steps: usize) -> bool
    requires { (steps ≤ most_steps) × (interval_octets + step_octets * steps ≤ length s.now) }
    ensures { result ≡ steps_fit s.now 0 steps }
{
    (0..steps).all(|i| step_fits(step_at(s, i)))
}

#[tactic(auto, unfolding(crate::specs::Script::interval_fits, octets::specs::Choice::both))]
fn interval_fits(s: &[u8]) -> bool
    ensures { result ≡ interval_fits s.now }
{
    if s.len() < INTERVAL_OCTETS {
        return false;
    }
    ends::check_olt::valid_interval(interval(s))
}

#[tactic(auto, unfolding(crate::specs::Script::script_fits, octets::specs::Choice::both))]
fn script_fits(s: &[u8]) -> bool
    requires { interval_octets ≤ length s.now }
    ensures { result ≡ script_fits s.now }
{
    if (s.len() - INTERVAL_OCTETS) % STEP_OCTETS != 0 {
        return false;
    }
    let steps = steps_in(s);
    if MOST_STEPS < steps {
        return false;
    }
    steps_fit(s, steps)
}

#[tactic(auto, unfolding(crate::specs::Script::script_verdict, refusal::specs::Order::refuse_if, crate::specs::Script::interval_fits))]
pub(crate) fn verdict(s: &[u8]) -> Verdict
    ensures { result ≡ script_verdict s.now }
{
    if !interval_fits(s) {
        return Err(Refusal::OutOfRange);
    }
    if !script_fits(s) {
        return Err(Refusal::BadScript);
    }
    Ok(())
}
