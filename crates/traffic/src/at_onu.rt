// Send and receive of the ONU (01, Keys; 'When the reader says no').
ghost use Rattle.std.specs.Prelude.{◌≡◌, true, false, ℕ, ◌≤◌, ◌<◌};
ghost use Rattle.octets.specs.Eqs.{max_eqs};
ghost use Rattle.ends.specs.Limits.{max_key_number};
ghost use Rattle.ends.specs.Travels.{travel_of};
ghost use Rattle.protocol.specs.OnuTraffic.{onu_moved, onu_receive_choice, onu_receive_verdict, onu_after_receipt, receiving_onu, onu_send_choice, busy_up, onu_send_verdict, onu_after_send, sending_onu};
ghost use Rattle.ends.specs.Validity.{valid_onu, valid_onu_keys};
ghost use Rattle.protocol.specs.declared.KeyChoice.TheVariants.{Next};
ghost use Rattle.traffic.specs.Passages.{onu_decided};

use crate::travelling::{spent, travel};
use clock::epam_of;
use ends::check_onu::valid_onu;
use ends::keyslots::only_key;
use ends::llids::has;
use ends::{FirstSend, Onu, OnuKeys};
use envelope::{downstream, upstream};
use protocol::{Header, KeyChoice, Passage, Sending};
use refusal::{Refusal, Verdict};
use unit::{Decided, passing};

#[tactic(auto, unfolding(protocol::specs::OnuTraffic::onu_send_choice, octets::specs::Choice::pick))]
fn send_choice(keys: OnuKeys) -> KeyChoice
    ensures { result ≡ onu_send_choice keys }
{
    if keys.active == 0 {
        return KeyChoice::Clear;
    }
    KeyChoice::Current(keys.active)
}

// The channel is taken, or an enciphered send waits for travel to pass those made before a change of LocalTime (02, C-16).
#[tactic(auto, unfolding(protocol::specs::OnuTraffic::busy_up, ends::specs::Travels::waits, octets::specs::Choice::both, octets::specs::Choice::either))]
fn busy(onu: Onu, channel: u8, choice: KeyChoice, now: u64) -> bool
    requires choice_value { choice ≡ onu_send_choice onu.keys }
    requires value { now ≡ travel_of onu }
    ensures { result ≡ busy_up onu channel }
{
    let taken = passing::taken(onu.channels, channel, onu.tick);
    let sealed = passing::is_enciphered(choice);
    taken | (sealed & (now < onu.travel.bar))
}

// What a send at a valid end refuses.
#[tactic(auto, unfolding(protocol::specs::OnuTraffic::onu_send_verdict, refusal::specs::Order::refuse_if))]
fn send_verdict(
    onu: Onu,
    misfit: bool,
    llid: u16,
    channel: u8,
    choice: KeyChoice,
    now: u64,
) -> Verdict
    requires choice_value { choice ≡ onu_send_choice onu.keys }
    requires value { now ≡ travel_of onu }
    ensures { result ≡ onu_send_verdict onu misfit llid channel }
{
    if misfit {
        return Err(Refusal::BadLength);
    }
    if !upstream(channel) {
        return Err(Refusal::OutOfRange);
    }
    if !has(onu.identity, llid) {
        return Err(Refusal::UnknownLlid);
    }
    let set = onu.clock.synced == 1;
    let held = busy(onu, channel, choice, now);
    passing::clock_channel_key(set, held, choice, onu.first, now)
}

// The end that a send leaves, where it is accepted.
#[tactic(auto, unfolding(protocol::specs::OnuTraffic::onu_after_send, protocol::specs::OnuTraffic::onu_noted, ends::specs::Records::with_onu_channels, ends::specs::Records::with_onu_first, ends::specs::Records::with_travel))]
fn after_send(choice: KeyChoice, onu: Onu, channel: u8, eqs: u64, now: u64) -> Onu
    requires choice_value { choice ≡ onu_send_choice onu.keys }
    requires value { now ≡ travel_of onu }
    requires onu_value { valid_onu onu ≡ true }
    requires eqs_le_max_eqs { eqs ≤ max_eqs }
    ensures { result ≡ onu_after_send onu channel eqs }
{
    let channels = passing::occupied(onu.channels, channel, onu.tick, eqs);
    let mut r = onu;
    r.channels = channels;
    match choice {
        KeyChoice::Clear => r,
        KeyChoice::Current(_) => {
            r.first = passing::first_send(onu.first, now);
            r.travel = spent(onu.travel, now, eqs);
            r
        }
        KeyChoice::Next(_) => r,
        KeyChoice::Barred(_) => r,
    }
}

// A send, but for its octets: 1 for a lent end that is not valid; then the key is chosen and travel counted once, and all else follows from these.
#[tactic(auto, using(protocol::proofs::OnuChoices::onu_send_accepted), unfolding(crate::specs::Passages::onu_decided, protocol::specs::OnuTraffic::sending_onu, protocol::specs::OnuCalls::onu_reply, protocol::specs::Replies::reply, refusal::specs::Order::refuse_if))]
pub(crate) fn send(
    onu: Onu,
    misfit: bool,
    llid: u16,
    channel: u8,
    eqs: u64,
) -> Decided<Onu, Sending>
    requires { misfit ≡ false → eqs ≤ max_eqs }
    ensures { result ≡ onu_decided (sending_onu onu misfit llid channel eqs) }
{
    if !valid_onu(onu) {
        return Decided::refused(Refusal::OutOfRange, onu, passing::no_sending());
    }
    let choice = send_choice(onu.keys);
    let now = travel(onu);
    let verdict = send_verdict(onu, misfit, llid, channel, choice, now);
    match verdict {
        Ok(()) => {
            let next = after_send(choice, onu, channel, eqs, now);
            let mac = onu.identity.mac;
            let time = onu.clock.time;
            let sending = passing::sending_of(choice, onu.keys.slots, mac, time, channel, llid);
            Decided {
                verdict: Ok(()),
                after: next,
                handed: sending,
            }
        }
        Err(refusal) => Decided::refused(refusal, onu, passing::no_sending()),
    }
}

// The index of key a + 1 is the one that a does not have.
#[tactic(auto, using(ends::proofs::Validity::onu_keys_in_range), unfolding(protocol::specs::OnuTraffic::onu_receive_choice, octets::specs::Choice::pick, octets::specs::Choice::both))]
fn receive_choice(keys: OnuKeys, header: Header) -> KeyChoice
    requires { valid_onu_keys keys ≡ true }
    ensures { result ≡ onu_receive_choice keys header }
{
    let active = keys.active;
    if header.encenabled == 0 {
        if active == 0 {
            return KeyChoice::Clear;
        }
        return KeyChoice::Barred(Refusal::ClearEnvelope);
    }
    let other = 1 - active % 2;
    if (1 <= active) & (header.enckey as u32 == active % 2) {
        return KeyChoice::Current(active);
    }
    if (keys.held == 1) & (header.enckey as u32 == other) {
        return KeyChoice::Next(active + 1);
    }
    KeyChoice::Barred(Refusal::NoKey)
}

// What a receipt at a valid end refuses.
#[tactic(auto, unfolding(protocol::specs::OnuTraffic::onu_receive_verdict, refusal::specs::Order::refuse_if, octets::specs::Choice::both))]
fn receive_verdict(onu: Onu, misfit: bool, header: Header, choice: KeyChoice) -> Verdict
    requires { choice ≡ onu_receive_choice onu.keys header }
    ensures { result ≡ onu_receive_verdict onu misfit header }
{
    let epam = epam_of(onu.clock.rx);
    let synced = onu.clock.synced == 1;
    if misfit {
        return Err(Refusal::BadLength);
    }
    if !(downstream(header.channel) & passing::valid_header(header)) {
        return Err(Refusal::OutOfRange);
    }
    if !has(onu.identity, header.llid) {
        return Err(Refusal::UnknownLlid);
    }
    if synced & (header.epam != epam) {
        return Err(Refusal::EpamDiffers);
    }
    if (header.encenabled == 1) & !synced {
        return Err(Refusal::ClockNotSet);
    }
    passing::choice_verdict(choice)
}

// The key a + 1 comes into use: the old one is wiped, and the new one has had no send.
#[tactic(auto, unfolding(protocol::specs::OnuTraffic::onu_moved, ends::specs::Records::with_onu_keys, ends::specs::Records::with_onu_first))]
fn moved(onu: Onu) -> Onu
    requires { onu.keys.active < max_key_number }
    ensures { result ≡ onu_moved onu }
{
    let active = onu.keys.active + 1;
    let slots = only_key(onu.keys.slots, active);
    let keys = OnuKeys {
        active,
        held: 0,
        slots,
    };
    let first = FirstSend { noted: 0, at: 0 };
    let mut r = onu;
    r.keys = keys;
    r.first = first;
    r
}

// The end that a receipt leaves, where it is accepted.
#[tactic(auto, unfolding(protocol::specs::OnuTraffic::onu_after_receipt))]
fn after_receive(choice: KeyChoice, onu: Onu) -> Onu
    requires { (n : ℕ) → choice ≡ Next n → onu.keys.active < max_key_number }
    ensures { result ≡ onu_after_receipt choice onu }
{
    match choice {
        KeyChoice::Clear => onu,
        KeyChoice::Current(_) => onu,
        KeyChoice::Next(_) => moved(onu),
        KeyChoice::Barred(_) => onu,
    }
}

// A receipt, but for its octets: 1 for a lent end that is not valid; then the key is chosen once, and all else follows from that choice.
#[tactic(auto, using(crate::proofs::Receipts::next_below), unfolding(crate::specs::Passages::onu_decided, protocol::specs::OnuTraffic::receiving_onu, protocol::specs::OnuCalls::onu_reply, protocol::specs::Replies::reply, refusal::specs::Order::refuse_if))]
pub(crate) fn receive(onu: Onu, misfit: bool, header: Header) -> Decided<Onu, Passage>
    ensures { result ≡ onu_decided (receiving_onu onu misfit header) }
{
    if !valid_onu(onu) {
        return Decided::refused(Refusal::OutOfRange, onu, passing::no_passage());
    }
    let choice = receive_choice(onu.keys, header);
    let verdict = receive_verdict(onu, misfit, header, choice);
    match verdict {
        Ok(()) => {
            let next = after_receive(choice, onu);
            let mac = onu.oltmac;
            let passage = passing::passage_of(choice, onu.keys.slots, mac, onu.clock.rx);
            Decided {
                verdict: Ok(()),
                after: next,
                handed: passage,
            }
        }
        Err(refusal) => Decided::refused(refusal, onu, passing::no_passage()),
    }
}
