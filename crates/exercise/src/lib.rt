// Exercises (02, C-23): a script of messages and clock advances, played on fresh ends of one unit, and the first message whose loss
// alone changes the final A, C or a.
#![tactic(auto)]

mod script;
mod steps;

ghost use Rattle.std.specs.Prelude.{◌≡◌};
ghost use Rattle.exercise.specs.Script.{steps_in, script_verdict};
ghost use Rattle.exercise.specs.Play.{played, figures_of};
ghost use Rattle.exercise.specs.Losses.{first_from, first_loss, answer_number, answer_step, Meant};
ghost use Rattle.exercise.specs.Listed.{EveryPlayListed};
ghost use Rattle.refusal.specs.Verdict.{no_refusal};

use ends::{Olt, Onu};
use protocol::Acknowledgement;
use refusal::Refusal;

// What a step of a script does, in the order of its octets, from 0.
#[derive(Clone, Copy, Debug, PartialEq, Eq)]
pub enum Kind {
    ClockMessage,
    Offer,
    Retry,
    // an acknowledgement of the latest clock message, or key message
    ClockAnswer,
    KeyAnswer,
    EnvelopeDown,
    EnvelopeUp,
    Advance,
}

// A step of a script; an advance alone has ticks.
#[derive(Clone, Copy)]
pub struct Step {
    pub kind: Kind,
    pub ticks: u64,
}

// The ends, and the unit's answers to the latest clock message and to the latest key message, of kind 0 where there is none.
#[derive(Clone, Copy)]
pub struct Play {
    pub olt: Olt,
    pub onu: Onu,
    pub clock: Acknowledgement,
    pub key: Acknowledgement,
}

// A, C and a.
#[derive(Clone, Copy, PartialEq, Eq)]
pub struct Figures {
    pub active: u32,
    pub confirmed: u32,
    pub unit: u32,
}

// The first step whose loss matters, counted from 1, none where no single loss does, or the refusal of the script.
pub type Answer = Result<Option<usize>, Refusal>;

// Plays the script without the step `lost`, counted from 1; 0 loses none.
#[tactic(auto, unfolding(crate::specs::Play::played))]
fn play_without(s: &[u8], lost: usize) -> Figures
    requires { script_verdict s.now ≡ no_refusal }
    ensures { result ≡ figures_of (played s.now lost) }
{
    let steps = script::steps_in(s);
    let mut p = steps::start(script::interval(s));
    for i in 0..steps {
        steps::step(script::step_at(s, i), i + 1, i + 1 == lost, &mut p);
    }
    steps::figures(p)
}

// The first of the steps whose loss matters.
#[tactic(auto, unfolding(crate::specs::Losses::matters))]
fn first(s: &[u8]) -> Option<usize>
    requires { script_verdict s.now ≡ no_refusal }
    ensures { result ≡ first_from s.now 0 (steps_in s.now) }
{
    let steps = script::steps_in(s);
    let whole = play_without(s, 0);
    for k in 1..=steps {
        if whole != play_without(s, k) {
            return Some(k);
        }
    }
    None
}

// The first step of a script whose loss alone changes the final A, C or a: the interval in eight octets, then nine octets a step.
pub fn first_loss(script: &[u8]) -> Answer
    ensures value { result ≡ first_loss script.now }
    ensures meant { Meant script.now }
    ensures every_play_listed { EveryPlayListed script.now }
{
    script::verdict(script)?;
    Ok(first(script))
}

// 0, or the refusal code.
pub fn number(answer: Answer) -> u8
    ensures { result ≡ answer_number answer }
{
    match answer {
        Ok(_) => 0,
        Err(refusal) => u8::from(refusal),
    }
}

// The step, or 0 where none matters or the call was refused.
pub fn step_told(answer: Answer) -> usize
    ensures { result ≡ answer_step answer }
{
    match answer {
        Ok(Some(k)) => k,
        _ => 0,
    }
}
