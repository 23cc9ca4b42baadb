// Send and receive of the OLT on the record of one unit: the verdict, the record after, and what the payload passes under (01, Keys).
ghost use Rattle.std.specs.Prelude.{◌≡◌, ◌≤◌, eqb, not};
ghost use Rattle.octets.specs.Eqs.{max_eqs};
ghost use Rattle.clock.specs.Ticks.{epam_of, max_tick};
ghost use Rattle.protocol.specs.Headers.{choice_verdict, no_passage, no_sending};
ghost use Rattle.protocol.specs.Lift.{outcome};
ghost use Rattle.protocol.specs.UnitTraffic.{keys_after_send, keys_switched, receive_unit, send_unit, switches, unit_after_receipt, unit_confirmed, unit_receive_choice, unit_send_choice};
ghost use Rattle.unit.specs.Reached.{reached, sent_outcome};
ghost use Rattle.refusal.specs.declared.Refusal.TheVariants.{EpamDiffers};
ghost use Rattle.refusal.specs.Order.{refuse_if};
ghost use Rattle.refusal.specs.Verdict.{no_refusal};

use crate::{Decided, UnitSent, passing};
use clock::epam_of;
use ends::keyslots::only_key;
use ends::{Shared, UnitKeys, UnitRecord};
use protocol::{Header, KeyChoice, Passage};
use refusal::{Refusal, Verdict, and_then};

// Whether the next accepted send switches.
#[tactic(auto, unfolding(protocol::specs::UnitTraffic::switches, octets::specs::Choice::both))]
fn switches(unit: UnitRecord) -> bool
    ensures { result ≡ switches unit }
{
    let next = unit.keys.active as u64 + 1;
    (unit.keys.timer.flag == 1)
        & ((unit.keys.offered as u64 == next) & (unit.confirmation.acknowledged == 1))
}

#[tactic(auto, unfolding(protocol::specs::UnitTraffic::unit_send_choice, octets::specs::Choice::pick))]
fn send_choice(unit: UnitRecord) -> KeyChoice
    ensures { result ≡ unit_send_choice unit }
{
    if switches(unit) {
        return KeyChoice::Next(unit.keys.offered);
    }
    if unit.keys.active == 0 {
        return KeyChoice::Clear;
    }
    KeyChoice::Current(unit.keys.active)
}

#[tactic(auto, unfolding(protocol::specs::UnitTraffic::keys_switched, ends::specs::Timers::timer_fallen))]
fn keys_switched(keys: UnitKeys, tick: u64) -> UnitKeys
    ensures { result ≡ keys_switched keys tick }
{
    let mut r = keys;
    r.timer.flag = 0;
    r.active = keys.offered;
    r.first.noted = 1;
    r.first.at = tick;
    r
}

#[tactic(auto, unfolding(protocol::specs::UnitTraffic::keys_after_send, ends::specs::Records::with_first))]
fn keys_sent(choice: KeyChoice, keys: UnitKeys, tick: u64) -> UnitKeys
    ensures { result ≡ keys_after_send choice keys tick }
{
    match choice {
        KeyChoice::Clear => keys,
        KeyChoice::Current(_) => {
            let first = passing::first_send(keys.first, tick);
            let mut r = keys;
            r.first = first;
            r
        }
        KeyChoice::Next(_) => keys_switched(keys, tick),
        KeyChoice::Barred(_) => keys,
    }
}

// 5, 12, 13. A valid end's tick and a payload that fits are what the way to the unit has judged.
#[tactic(auto, using(refusal::proofs::Order::then_accepted), unfolding(crate::specs::Reached::sent_outcome, crate::specs::Reached::unit_sent, protocol::specs::UnitTraffic::send_unit, ends::specs::Records::with_keys, crate::specs::Reached::reached, crate::specs::Reached::if_accepted, protocol::specs::UnitTraffic::unit_send_verdict, protocol::specs::UnitTraffic::keys_after_send, protocol::specs::UnitTraffic::keys_switched, ends::specs::Timers::timer_fallen, ends::specs::Records::with_first))]
pub fn send(
    way: Verdict,
    shared: Shared,
    unit: UnitRecord,
    llid: u16,
    channel: u8,
    eqs: u64,
) -> UnitSent
    ensures { (way ≡ no_refusal → (shared.tick ≤ max_tick) × (eqs ≤ max_eqs)) → sent_outcome unit result
        ≡ reached way no_sending shared unit (send_unit llid channel eqs shared unit) }
{
    let channels = shared.channels;
    let tick = shared.tick;
    let keys = unit.keys;
    let choice = send_choice(unit);
    let set = unit.clock.acknowledged == 1;
    let busy = passing::taken(channels, channel, tick);
    let verdict = and_then(
        way,
        passing::clock_channel_key(set, busy, choice, keys.first, tick),
    );
    match verdict {
        Err(refusal) => UnitSent {
            verdict: Err(refusal),
            flag: keys.timer.flag,
            active: keys.active,
            noted: keys.first.noted,
            at: keys.first.at,
            channels,
            sending: passing::no_sending(),
        },
        Ok(()) => {
            let after = keys_sent(choice, keys, tick);
            UnitSent {
                verdict: Ok(()),
                flag: after.timer.flag,
                active: after.active,
                noted: after.first.noted,
                at: after.first.at,
                channels: passing::occupied(channels, channel, tick, eqs),
                sending: passing::sending_of(
                    choice,
                    keys.slots,
                    shared.mac,
                    shared.clock,
                    channel,
                    llid,
                ),
            }
        }
    }
}

#[tactic(auto, unfolding(protocol::specs::UnitTraffic::unit_receive_choice, octets::specs::Choice::pick, octets::specs::Choice::both))]
fn receive_choice(unit: UnitRecord, header: Header) -> KeyChoice
    ensures { result ≡ unit_receive_choice unit header }
{
    let confirmed = unit.confirmation.confirmed;
    let active = unit.keys.active;
    if header.encenabled == 0 {
        if confirmed == 0 {
            return KeyChoice::Clear;
        }
        return KeyChoice::Barred(Refusal::ClearEnvelope);
    }
    let next = confirmed as u64 + 1;
    if (1 <= confirmed) & (header.enckey as u32 == confirmed % 2) {
        return KeyChoice::Current(confirmed);
    }
    if (active as u64 == next) & (header.enckey as u32 == active % 2) {
        return KeyChoice::Next(active);
    }
    KeyChoice::Barred(Refusal::NoKey)
}

// C becomes A, and the key before A is wiped.
#[tactic(auto, unfolding(protocol::specs::UnitTraffic::unit_confirmed, ends::specs::Records::with_keys, ends::specs::Records::with_slots, ends::specs::Records::with_confirmation))]
fn confirmed(unit: UnitRecord) -> UnitRecord
    ensures { result ≡ unit_confirmed unit }
{
    let mut keys = unit.keys;
    keys.slots = only_key(unit.keys.slots, unit.keys.active);
    let mut r = unit;
    r.keys = keys;
    r.confirmation.confirmed = unit.keys.active;
    r
}

#[tactic(auto, unfolding(protocol::specs::UnitTraffic::unit_after_receipt))]
fn unit_received(choice: KeyChoice, unit: UnitRecord) -> UnitRecord
    ensures { result ≡ unit_after_receipt choice unit }
{
    match choice {
        KeyChoice::Clear => unit,
        KeyChoice::Current(_) => unit,
        KeyChoice::Next(_) => confirmed(unit),
        KeyChoice::Barred(_) => unit,
    }
}

// 10, 11, 9.
#[tactic(auto, unfolding(refusal::specs::Order::refuse_if))]
fn receive_verdict(header: Header, clock: u64, choice: KeyChoice) -> Verdict
    ensures { result ≡ refuse_if (not (eqb header.epam (epam_of clock))) EpamDiffers (choice_verdict choice) }
{
    if header.epam != epam_of(clock) {
        return Err(Refusal::EpamDiffers);
    }
    passing::choice_verdict(choice)
}

#[tactic(auto, unfolding(protocol::specs::UnitTraffic::receive_unit, protocol::specs::Lift::outcome, crate::specs::Reached::reached, crate::specs::Reached::if_accepted, protocol::specs::UnitTraffic::unit_receive_verdict))]
pub fn receive(
    way: Verdict,
    shared: Shared,
    unit: UnitRecord,
    header: Header,
) -> Decided<UnitRecord, Passage>
    ensures { outcome shared result.verdict result.after result.handed ≡ reached way no_passage shared unit (receive_unit header shared unit) }
{
    let choice = receive_choice(unit, header);
    let verdict = and_then(way, receive_verdict(header, shared.clock, choice));
    match verdict {
        Err(refusal) => Decided {
            verdict: Err(refusal),
            after: unit,
            handed: passing::no_passage(),
        },
        Ok(()) => Decided {
            verdict: Ok(()),
            after: unit_received(choice, unit),
            handed: passing::passage_of(choice, unit.keys.slots, unit.identity.mac, shared.clock),
        },
    }
}
