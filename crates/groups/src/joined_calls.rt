// A unit's calls on one group that it joined (02, C-14): the verdict, the group after it, and what is handed over.
ghost use Rattle.std.specs.Prelude.{◌≡◌, true, ℕ, ◌<◌};
ghost use Rattle.octets.specs.Choice.{pick};
ghost use Rattle.protocol.specs.Headers.{no_passage};
ghost use Rattle.protocol.specs.Replies.{on_valid};
ghost use Rattle.protocol.specs.declared.KeyChoice.TheVariants.{Next};
ghost use Rattle.ends.specs.Keys.{no_slots};
ghost use Rattle.ends.specs.Limits.{max_key_number};
ghost use Rattle.group_protocol.specs.Subscriber.{valid_joined};
ghost use Rattle.group_protocol.specs.Worked.{MessageRows, ReceiptRows};
ghost use Rattle.group_protocol.specs.JoinedCalls.{group_answer, held_again, highest_held, holds, joined_after_message, joined_after_receipt, joined_choice, joined_message_verdict, joined_moved, joined_receive_verdict, joined_taken, message_joined, new_number, no_answer, receive_joined};
ghost use Rattle.groups.specs.Reached.{joined_decided, reached_joined};

use crate::check_subscriber::valid_joined;
use clock::epam_of;
use ends::keyslots::{key_in, only_key, same_key, with_key};
use ends::{Identity, Onu, OnuClock, OnuKeys, Slots};
use envelope::downstream;
use group_protocol::{Answer, Joined};
use protocol::{Header, KEY_KIND, KeyChoice, KeyMessage, Passage};
use refusal::{Refusal, Verdict};
use unit::{Decided, passing};

// The highest number that a key is held for, 0 where none is.
#[tactic(auto, unfolding(group_protocol::specs::JoinedCalls::highest_held, octets::specs::Choice::pick))]
fn highest_held(joined: Joined) -> u64
    ensures { result ≡ highest_held joined }
{
    if joined.keys.held == 1 {
        return joined.keys.active as u64 + 1;
    }
    if joined.kept == 1 {
        return joined.keys.active as u64;
    }
    0
}

// The key of number n is held.
#[tactic(auto, unfolding(group_protocol::specs::JoinedCalls::holds, octets::specs::Choice::both, octets::specs::Choice::either))]
fn holds(joined: Joined, n: u32) -> bool
    ensures { result ≡ holds joined n }
{
    let next = joined.keys.active as u64 + 1;
    ((joined.keys.held == 1) & (n as u64 == next))
        | ((joined.kept == 1) & (n == joined.keys.active))
}

// The message of a key that is held, again.
#[tactic(auto, unfolding(group_protocol::specs::JoinedCalls::held_again, octets::specs::Choice::both))]
fn held_again(joined: Joined, message: KeyMessage) -> bool
    ensures { result ≡ held_again joined message }
{
    let held = holds(joined, message.number);
    let key = message.key;
    let there = key_in(joined.keys.slots, message.number);
    let same = same_key(key, there);
    held & same
}

// Any number above those that are held.
#[tactic(auto, unfolding(group_protocol::specs::JoinedCalls::new_number, octets::specs::Choice::both))]
fn new_number(joined: Joined, message: KeyMessage) -> bool
    ensures { result ≡ new_number joined message }
{
    let highest = highest_held(joined);
    highest < message.number as u64
}

// 1 for a group that is not valid, then 5 and 8.
#[tactic(auto, unfolding(group_protocol::specs::JoinedCalls::joined_message_verdict, refusal::specs::Order::refuse_if, octets::specs::Choice::either))]
fn message_verdict(clock: OnuClock, joined: Joined, message: KeyMessage, new: bool) -> Verdict
    requires { new ≡ new_number joined message }
    ensures { result ≡ on_valid (valid_joined joined) (joined_message_verdict clock joined message) }
{
    if !valid_joined(joined) {
        return Err(Refusal::OutOfRange);
    }
    if clock.synced != 1 {
        return Err(Refusal::ClockNotSet);
    }
    if !(new | held_again(joined, message)) {
        return Err(Refusal::NothingOutstanding);
    }
    Ok(())
}

// The slots where key n - 1 stays if it is held, and all older ones are wiped.
#[tactic(auto, unfolding(octets::specs::Choice::pick))]
fn slots_left(slots: Slots, held: bool) -> Slots
    ensures { result ≡ pick held slots no_slots }
{
    if held {
        return slots;
    }
    Slots {
        even: [0; 16],
        odd: [0; 16],
    }
}

// Number n tells that n - 1 is in use.
#[tactic(auto, using(octets::proofs::Choice::both_right), unfolding(group_protocol::specs::JoinedCalls::new_number, group_protocol::specs::JoinedCalls::joined_taken, octets::specs::Choice::pick))]
fn taken(joined: Joined, message: KeyMessage) -> Joined
    requires { new_number joined message ≡ true }
    ensures { result ≡ joined_taken joined message }
{
    let active = message.number - 1;
    let held = holds(joined, active);
    let left = slots_left(joined.keys.slots, held);
    let key = message.key;
    let slots = with_key(left, message.number, key);
    let keys = OnuKeys {
        active,
        held: 1,
        slots,
    };
    Joined {
        keys,
        kept: held as u8,
        llid: joined.llid,
    }
}

// A new number is taken; anything else that is accepted changes nothing.
#[tactic(auto, unfolding(group_protocol::specs::JoinedCalls::joined_after_message, octets::specs::Choice::pick))]
fn after_message(joined: Joined, message: KeyMessage, new: bool) -> Joined
    requires { new ≡ new_number joined message }
    ensures { result ≡ joined_after_message joined message }
{
    if new {
        return taken(joined, message);
    }
    joined
}

// Names the unit by its first LLID.
#[tactic(auto, unfolding(group_protocol::specs::JoinedCalls::group_answer))]
fn group_answer(identity: Identity, number: u32) -> Answer
    ensures { result ≡ group_answer identity number }
{
    let llids = identity.llids;
    Answer {
        kind: KEY_KIND,
        named: 1,
        unit: llids[0],
        number,
    }
}

pub fn no_answer() -> Answer
    ensures { result ≡ no_answer }
{
    Answer {
        kind: 0,
        named: 0,
        unit: 0,
        number: 0,
    }
}

// A key message of the group.
#[tactic(auto, using(group_protocol::proofs::Worked::message_rows), unfolding(unit::specs::Reached::if_accepted, crate::specs::Reached::joined_decided, group_protocol::specs::JoinedCalls::message_joined, crate::specs::Reached::reached_joined))]
pub fn message(onu: Onu, joined: Joined, message: KeyMessage) -> Decided<Joined, Answer>
    ensures value { result ≡ joined_decided (reached_joined no_answer joined (message_joined message onu joined)) }
    ensures worked { MessageRows }
{
    let new = new_number(joined, message);
    let verdict = message_verdict(onu.clock, joined, message, new);
    match verdict {
        Ok(()) => {
            let next = after_message(joined, message, new);
            let answer = group_answer(onu.identity, message.number);
            Decided {
                verdict: Ok(()),
                after: next,
                handed: answer,
            }
        }
        Err(refusal) => Decided::refused(refusal, joined, no_answer()),
    }
}

// The index of key a + 1 is the one that a does not have.
#[tactic(auto, using(ends::proofs::Validity::onu_keys_in_range), unfolding(group_protocol::specs::JoinedCalls::joined_choice, octets::specs::Choice::pick, octets::specs::Choice::both, group_protocol::specs::Subscriber::valid_joined))]
fn receive_choice(joined: Joined, header: Header) -> KeyChoice
    requires { valid_joined joined ≡ true }
    ensures { result ≡ joined_choice joined header }
{
    let active = joined.keys.active;
    if header.encenabled == 0 {
        if active == 0 {
            return KeyChoice::Clear;
        }
        return KeyChoice::Barred(Refusal::ClearEnvelope);
    }
    let other = 1 - active % 2;
    if (joined.kept == 1) & (header.enckey as u32 == active % 2) {
        return KeyChoice::Current(active);
    }
    if (joined.keys.held == 1) & (header.enckey as u32 == other) {
        return KeyChoice::Next(active + 1);
    }
    KeyChoice::Barred(Refusal::NoKey)
}

// What a receipt of a valid group's envelope refuses.
#[tactic(auto, unfolding(group_protocol::specs::JoinedCalls::joined_receive_verdict, refusal::specs::Order::refuse_if, octets::specs::Choice::both))]
fn receive_verdict(
    misfit: bool,
    clock: OnuClock,
    joined: Joined,
    header: Header,
    choice: KeyChoice,
) -> Verdict
    requires { choice ≡ joined_choice joined header }
    ensures { result ≡ joined_receive_verdict misfit clock joined header }
{
    let synced = clock.synced == 1;
    if misfit {
        return Err(Refusal::BadLength);
    }
    if !(downstream(header.channel) & passing::valid_header(header)) {
        return Err(Refusal::OutOfRange);
    }
    if synced & (header.epam != epam_of(clock.rx)) {
        return Err(Refusal::EpamDiffers);
    }
    if (header.encenabled == 1) & !synced {
        return Err(Refusal::ClockNotSet);
    }
    passing::choice_verdict(choice)
}

// The key a + 1 comes into use, and the old one is wiped.
#[tactic(auto, unfolding(group_protocol::specs::JoinedCalls::joined_moved))]
fn moved(joined: Joined) -> Joined
    requires { joined.keys.active < max_key_number }
    ensures { result ≡ joined_moved joined }
{
    let active = joined.keys.active + 1;
    let slots = only_key(joined.keys.slots, active);
    let keys = OnuKeys {
        active,
        held: 0,
        slots,
    };
    Joined {
        keys,
        kept: 1,
        llid: joined.llid,
    }
}

// The group that a receipt leaves, where it is accepted.
#[tactic(auto, unfolding(group_protocol::specs::JoinedCalls::joined_after_receipt))]
fn after_receipt(choice: KeyChoice, joined: Joined) -> Joined
    requires { (n : ℕ) → choice ≡ Next n → joined.keys.active < max_key_number }
    ensures { result ≡ joined_after_receipt choice joined }
{
    match choice {
        KeyChoice::Clear => joined,
        KeyChoice::Current(_) => joined,
        KeyChoice::Next(_) => moved(joined),
        KeyChoice::Barred(_) => joined,
    }
}

// An envelope of the group, but for its octets: the key is chosen once, and all else follows from that choice.
#[tactic(auto, using(refusal::proofs::Order::refuse_stopped, group_protocol::proofs::JoinedCalls::next_below, group_protocol::proofs::Worked::receipt_rows), unfolding(unit::specs::Reached::if_accepted, crate::specs::Reached::joined_decided, crate::specs::Reached::reached_joined, group_protocol::specs::JoinedCalls::receive_joined, refusal::specs::Order::refuse_if))]
pub fn receive(misfit: bool, onu: Onu, joined: Joined, header: Header) -> Decided<Joined, Passage>
    ensures value { result ≡ joined_decided (reached_joined no_passage joined (receive_joined misfit header onu joined)) }
    ensures worked { ReceiptRows }
{
    if !valid_joined(joined) {
        return Decided::refused(Refusal::OutOfRange, joined, passing::no_passage());
    }
    let choice = receive_choice(joined, header);
    let verdict = receive_verdict(misfit, onu.clock, joined, header, choice);
    match verdict {
        Ok(()) => {
            let next = after_receipt(choice, joined);
            let passage = passing::passage_of(choice, joined.keys.slots, onu.oltmac, onu.clock.rx);
            Decided {
                verdict: Ok(()),
                after: next,
                handed: passage,
            }
        }
        Err(refusal) => Decided::refused(refusal, joined, passing::no_passage()),
    }
}
