// The steps of a script, played on both ends. What is lost was sent all the same, and is not received.
ghost use Rattle.std.specs.Prelude.{◌≡◌, ◌≤◌, []};
ghost use Rattle.exercise.specs.Script.{most_steps};
ghost use Rattle.exercise.specs.Play.{unit_identity, unit_llid, channel_down, channel_up, started, key_of_step, arrives, clock_stepped, key_sent, answered, sent_down, sent_up, advanced, stepped, figures_of};
ghost use Rattle.protocol.specs.Messages.{no_acknowledgement};
ghost use Rattle.traffic.specs.Sends.{olt_send_of, onu_send_of};

use crate::{Figures, Kind, Play, Step};
use ends::Identity;
use protocol::{Acknowledgement, KeySent};

const OLT_MAC: u64 = 0x0200_0000_0001;

const UNIT_MAC: u64 = 0x0200_0000_0002;

const UNIT_LLID: u16 = 1;

// The channel indices of the first channel, down and up.
const DOWN: u8 = 0x00;

const UP: u8 = 0x80;

fn unit_identity() -> Identity
    ensures { result ≡ unit_identity }
{
    Identity {
        mac: UNIT_MAC,
        llids: [UNIT_LLID, 0, 0, 0],
        count: 1,
    }
}

fn no_answer() -> Acknowledgement
    ensures { result ≡ no_acknowledgement }
{
    Acknowledgement { kind: 0, number: 0 }
}

// Fresh ends, and the unit registered.
#[tactic(auto, unfolding(crate::specs::Play::started))]
pub(crate) fn start(interval: u64) -> Play
    ensures { result ≡ started interval }
{
    let head = olt::fresh(OLT_MAC, 0);
    let registered = olt::register(head.olt, unit_identity(), 0, interval);
    let unit = onu::fresh(unit_identity(), OLT_MAC, 0);
    Play {
        olt: registered.olt,
        onu: unit.onu,
        clock: no_answer(),
        key: no_answer(),
    }
}

// The key that step k offers.
#[tactic(auto, unfolding(crate::specs::Play::key_of_step))]
fn key_of_step(k: usize) -> [u8; 16]
    requires { k ≤ most_steps }
    ensures { result ≡ key_of_step k }
{
    [k as u8, 0, 0, 0, 0, 0, 0, 0, 0, 0, 0, 0, 0, 0, 0, 0]
}

// Whether what an accepted call hands over arrives.
#[tactic(auto, unfolding(octets::specs::Choice::both))]
fn arrives(number: u8, lost: bool) -> bool
    ensures { result ≡ arrives number lost }
{
    !lost & (number == 0)
}

#[tactic(auto, unfolding(crate::specs::Play::clock_stepped, crate::specs::Play::clock_sent, crate::specs::Play::clock_answered, crate::specs::Play::with_clock_answer, crate::specs::Play::with_onu, crate::specs::Play::with_olt, octets::specs::Choice::pick))]
fn clock_step(p: &mut Play, lost: bool)
    ensures { p.new ≡ clock_stepped p.old lost }
{
    let captured = olt::capture(p.olt, UNIT_LLID);
    let sent = olt::clock_send(captured.olt, UNIT_LLID);
    p.olt = sent.olt;
    if arrives(sent.number, lost) {
        let got = onu::clock_message(p.onu, sent.message);
        p.onu = got.onu;
        p.clock = got.acknowledgement;
    } else {
        p.clock = no_answer();
    }
}

// The message of an offer or of a retry.
#[tactic(auto, unfolding(crate::specs::Play::key_sent, crate::specs::Play::key_answered, crate::specs::Play::with_key_answer, crate::specs::Play::with_onu, crate::specs::Play::with_olt, octets::specs::Choice::pick))]
fn key_step(p: &mut Play, sent: KeySent, lost: bool)
    ensures { p.new ≡ key_sent p.old sent lost }
{
    p.olt = sent.olt;
    if arrives(sent.number, lost) {
        let got = onu::key_message(p.onu, sent.message);
        p.onu = got.onu;
        p.key = got.acknowledgement;
    } else {
        p.key = no_answer();
    }
}

// An answer to the latest message of its kind.
#[tactic(auto, unfolding(crate::specs::Play::answered, octets::specs::Choice::pick, octets::specs::Choice::either, crate::specs::Play::with_olt))]
fn answer_step(p: &mut Play, answer: Acknowledgement, lost: bool)
    ensures { p.new ≡ answered p.old answer lost }
{
    if !(lost | (answer.kind == 0)) {
        p.olt = olt::acknowledge(p.olt, UNIT_LLID, answer).olt;
    }
}

// An envelope down; the one up is like it, but for calls and answers of other types: one function of both would take a call to send
// and one to receive as closures, each with its contract, and be no plainer.
#[tactic(auto, unfolding(crate::specs::Play::sent_down, crate::specs::Play::with_onu, crate::specs::Play::with_olt, octets::specs::Choice::pick))]
fn down_step(p: &mut Play, lost: bool)
    ensures { p.new ≡ sent_down p.old (olt_send_of p.old.olt unit_llid channel_down [] []).answer lost }
{
    let sent = traffic::olt_send(p.olt, UNIT_LLID, DOWN, &[], &mut []);
    p.olt = sent.olt;
    if arrives(sent.number, lost) {
        p.onu = traffic::onu_receive(p.onu, sent.header, &[], &mut []).onu;
    }
}

#[tactic(auto, unfolding(crate::specs::Play::sent_up, crate::specs::Play::with_onu, crate::specs::Play::with_olt, octets::specs::Choice::pick))]
fn up_step(p: &mut Play, lost: bool)
    ensures { p.new ≡ sent_up p.old (onu_send_of p.old.onu unit_llid channel_up [] []).answer lost }
{
    let sent = traffic::onu_send(p.onu, UNIT_LLID, UP, &[], &mut []);
    p.onu = sent.onu;
    if arrives(sent.number, lost) {
        p.olt = traffic::olt_receive(p.olt, sent.header, &[], &mut []).olt;
    }
}

#[tactic(auto, unfolding(crate::specs::Play::advanced, crate::specs::Play::with_onu, crate::specs::Play::with_olt))]
fn advance_step(p: &mut Play, ticks: u64)
    ensures { p.new ≡ advanced p.old ticks }
{
    p.olt = olt::advance(p.olt, ticks).olt;
    p.onu = onu::advance(p.onu, ticks).onu;
}

// Step k, counted from 1, by its kind.
#[tactic(auto, unfolding(crate::specs::Play::stepped))]
pub(crate) fn step(x: Option<Step>, k: usize, lost: bool, p: &mut Play)
    requires { k ≤ most_steps }
    ensures { p.new ≡ stepped x k lost p.old }
{
    match x {
        Some(Step { kind, ticks }) => match kind {
            Kind::ClockMessage => clock_step(p, lost),
            Kind::Offer => key_step(p, olt::offer(p.olt, UNIT_LLID, key_of_step(k)), lost),
            Kind::Retry => key_step(p, olt::retry(p.olt, UNIT_LLID), lost),
            Kind::ClockAnswer => answer_step(p, p.clock, lost),
            Kind::KeyAnswer => answer_step(p, p.key, lost),
            Kind::EnvelopeDown => down_step(p, lost),
            Kind::EnvelopeUp => up_step(p, lost),
            Kind::Advance => advance_step(p, ticks),
        },
        None => {}
    }
}

#[tactic(auto, unfolding(crate::specs::Play::figures_of, ends::specs::Table::past_unit))]
pub(crate) fn figures(p: Play) -> Figures
    ensures { result ≡ figures_of p }
{
    let unit = p.olt.units[0];
    Figures {
        active: unit.keys.active,
        confirmed: unit.confirmation.confirmed,
        unit: p.onu.keys.active,
    }
}
