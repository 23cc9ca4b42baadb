// What an envelope goes under, its header, and whether its channel is free: what both ends do alike (01, Keys).
ghost use Rattle.std.specs.Prelude.{◌≡◌, ◌≤◌};
ghost use Rattle.octets.specs.Eqs.{max_eqs};
ghost use Rattle.clock.specs.Ticks.{max_tick};
ghost use Rattle.protocol.specs.Headers.{choice_aged, choice_enciphered, choice_number, choice_verdict, clock_channel_key, envelope_header, key_for, no_passage, no_sending, passage_of, sending_of, valid_header};
ghost use Rattle.ends.specs.Keys.{aged, first_send};
ghost use Rattle.ends.specs.Occupancy.{occupied, taken};

use crate::ticks::since;
use clock::{EPAM_TURN, KEY_LIFE, epam_of};
use ends::keyslots::key_in;
use ends::{Channels, FirstSend, Slots};
use envelope::on_zero;
use protocol::{Header, KeyChoice, Passage, Sending};
use refusal::{Refusal, Verdict};
use std::num::wrapping_add_u64;

// A header keeps its channel for its own tick, beside one for each EQ.
const HEADER_TICKS: u64 = 1;

#[tactic(auto, unfolding(protocol::specs::Headers::valid_header, octets::specs::Choice::both))]
pub fn valid_header(header: Header) -> bool
    ensures { result ≡ valid_header header }
{
    (header.encenabled <= 1) & ((header.enckey <= header.encenabled) & (header.epam < EPAM_TURN))
}

#[tactic(auto, unfolding(ends::specs::Occupancy::taken, ends::specs::Occupancy::free_from, octets::specs::Choice::pick))]
pub fn taken(channels: Channels, channel: u8, tick: u64) -> bool
    ensures { result ≡ taken channels channel tick }
{
    if on_zero(channel) {
        return tick < channels.zero;
    }
    tick < channels.one
}

// Of a valid end and a payload that fits, the sum is far from its end.
#[tactic(auto, unfolding(ends::specs::Occupancy::occupied, octets::specs::Choice::pick))]
pub fn occupied(channels: Channels, channel: u8, tick: u64, eqs: u64) -> Channels
    ensures { tick ≤ max_tick → eqs ≤ max_eqs → result ≡ occupied channels channel tick eqs }
{
    let free = wrapping_add_u64(wrapping_add_u64(tick, eqs), HEADER_TICKS);
    if on_zero(channel) {
        return Channels {
            zero: free,
            one: channels.one,
        };
    }
    Channels {
        zero: channels.zero,
        one: free,
    }
}

#[tactic(auto, unfolding(ends::specs::Keys::aged, octets::specs::Choice::both))]
fn aged(first: FirstSend, now: u64) -> bool
    ensures { result ≡ aged first now }
{
    (first.noted == 1) & (KEY_LIFE <= since(first.at, now))
}

// A key that comes into use has had no send: only the key in use can be too old.
#[tactic(auto, unfolding(protocol::specs::Headers::choice_aged))]
fn choice_aged(choice: KeyChoice, first: FirstSend, now: u64) -> bool
    ensures { result ≡ choice_aged choice first now }
{
    let old = aged(first, now);
    match choice {
        KeyChoice::Clear => false,
        KeyChoice::Current(_) => old,
        KeyChoice::Next(_) => false,
        KeyChoice::Barred(_) => false,
    }
}

#[tactic(auto, unfolding(protocol::specs::Headers::choice_enciphered))]
pub fn is_enciphered(choice: KeyChoice) -> bool
    ensures { result ≡ choice_enciphered choice }
{
    match choice {
        KeyChoice::Clear => false,
        KeyChoice::Current(_) => true,
        KeyChoice::Next(_) => true,
        KeyChoice::Barred(_) => false,
    }
}

// A send at either end: 5 for an enciphered one where the clock is not set, then 12 for the channel, then 13 for the key.
#[tactic(auto, unfolding(protocol::specs::Headers::clock_channel_key, refusal::specs::Order::refuse_if, octets::specs::Choice::both))]
pub fn clock_channel_key(
    set: bool,
    busy: bool,
    choice: KeyChoice,
    first: FirstSend,
    now: u64,
) -> Verdict
    ensures { result ≡ clock_channel_key set busy choice first now }
{
    if !set & is_enciphered(choice) {
        return Err(Refusal::ClockNotSet);
    }
    if busy {
        return Err(Refusal::ChannelTaken);
    }
    if choice_aged(choice, first, now) {
        return Err(Refusal::KeyTooOld);
    }
    Ok(())
}

#[tactic(auto, unfolding(ends::specs::Keys::first_send, octets::specs::Choice::pick))]
pub fn first_send(first: FirstSend, now: u64) -> FirstSend
    ensures { result ≡ first_send first now }
{
    if first.noted == 1 {
        return first;
    }
    FirstSend { noted: 1, at: now }
}

#[tactic(auto, unfolding(protocol::specs::Headers::choice_verdict))]
pub fn choice_verdict(choice: KeyChoice) -> Verdict
    ensures { result ≡ choice_verdict choice }
{
    match choice {
        KeyChoice::Clear => Ok(()),
        KeyChoice::Current(_) => Ok(()),
        KeyChoice::Next(_) => Ok(()),
        KeyChoice::Barred(refusal) => Err(refusal),
    }
}

#[tactic(auto, unfolding(protocol::specs::Headers::choice_number))]
fn choice_number(choice: KeyChoice) -> u32
    ensures { result ≡ choice_number choice }
{
    match choice {
        KeyChoice::Clear => 0,
        KeyChoice::Current(n) => n,
        KeyChoice::Next(n) => n,
        KeyChoice::Barred(_) => 0,
    }
}

#[tactic(auto, unfolding(protocol::specs::Headers::envelope_header, octets::specs::Choice::pick))]
fn header_of(choice: KeyChoice, channel: u8, llid: u16, clock: u64) -> Header
    ensures { result ≡ envelope_header (choice_number choice) channel llid clock }
{
    let n = choice_number(choice);
    let enckey = (n % 2) as u8;
    let epam = epam_of(clock);
    if n == 0 {
        return Header {
            channel,
            llid,
            encenabled: 0,
            enckey,
            epam,
        };
    }
    Header {
        channel,
        llid,
        encenabled: 1,
        enckey,
        epam,
    }
}

#[tactic(auto, unfolding(protocol::specs::Headers::key_for, octets::specs::Choice::pick))]
fn key_for(n: u32, slots: Slots) -> [u8; 16]
    ensures { result ≡ key_for n slots }
{
    if n == 0 {
        return [0; 16];
    }
    key_in(slots, n)
}

#[tactic(auto, unfolding(protocol::specs::Headers::passage_of))]
pub fn passage_of(choice: KeyChoice, slots: Slots, mac: u64, clock: u64) -> Passage
    ensures { result ≡ passage_of choice slots mac clock }
{
    let key = key_for(choice_number(choice), slots);
    Passage {
        choice,
        key,
        mac,
        clock,
    }
}

#[tactic(auto, unfolding(protocol::specs::Headers::sending_of))]
pub fn sending_of(
    choice: KeyChoice,
    slots: Slots,
    mac: u64,
    clock: u64,
    channel: u8,
    llid: u16,
) -> Sending
    ensures { result ≡ sending_of choice slots mac clock channel llid }
{
    let header = header_of(choice, channel, llid, clock);
    let passage = passage_of(choice, slots, mac, clock);
    Sending { header, passage }
}

pub fn no_passage() -> Passage
    ensures { result ≡ no_passage }
{
    Passage {
        choice: KeyChoice::Clear,
        key: [0; 16],
        mac: 0,
        clock: 0,
    }
}

pub fn no_sending() -> Sending
    ensures { result ≡ no_sending }
{
    let header = Header {
        channel: 0,
        llid: 0,
        encenabled: 0,
        enckey: 0,
        epam: 0,
    };
    let passage = no_passage();
    Sending { header, passage }
}
