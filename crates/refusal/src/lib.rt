// The refusals of 01, 'When the reader says no', in the order of its table, then those of 02, and the code of each.
#![tactic(auto)]

ghost use Rattle.std.specs.Prelude.{◌≡◌};
ghost use Rattle.refusal.specs.Number.{number_of, pair_number, verdict_number, verdict_pair};
ghost use Rattle.refusal.specs.Order.{and_then, refuse_if};

#[derive(Clone, Copy, Debug, PartialEq, Eq)]
pub enum Refusal {
    // 1: a value outside its range
    OutOfRange,
    // 2: LLID not registered
    UnknownLlid,
    // 3: LLID already registered, or twice in one call
    RepeatedLlid,
    // 4: seventeenth unit
    TableFull,
    // 5: clock not set or not acknowledged
    ClockNotSet,
    // 6: offer while O > A or C < A
    OfferPending,
    // 7: offered key equals key A, A ≥ 1
    SameKey,
    // 8: key message or acknowledgement that fits nothing outstanding, or clock send without capture
    NothingOutstanding,
    // 9: no key for that index
    NoKey,
    // 10: EPAM differs
    EpamDiffers,
    // 11: clear envelope after the first confirmed or active key
    ClearEnvelope,
    // 12: channel still taken
    ChannelTaken,
    // 13: key 2^48 ticks old
    KeyTooOld,
    // 14: payload no multiple of 9 or too long, output of another length, reader settings not 41 octets
    BadLength,
    // 15: capture directory bad
    BadDirectory,
    // 16: clock capture older than 390,625,000 ticks
    CaptureTooOld,
    // 17: tick or key number at its end
    AtEnd,
    // 18: a capture block's chain of offsets is broken at this pair, from 1
    BrokenChain(u16),
    // 19: this pair's length, from 1, does not suit the EQs of its record
    UnsuitedLength(u16),
    // 20: a unit sends, or the OLT receives, on a group's LLID (02, C-14)
    GroupLlid,
    // 21: a ninth, repeated or unregistered member is named (02, C-14)
    BadMember,
    // 22: two records of one capture block agree in channel index, LLID and clock (02, C-15)
    RepeatedRecord,
    // 23: the number of a class's user is 0 or above the count of its users (02, C-19)
    UnknownUser,
    // 24: a key is loaded without the right to, or for an LLID outside the settings (02, C-19)
    NoRight,
    // 25: a report names a key index other than the awaited one (02, C-21)
    OtherKeyIndex,
    // 26: more steps than a script may have, or a step that is unknown or not whole (02, C-23)
    BadScript,
}

// The code that a refusal answers with.
impl From<Refusal> for u8 {
    ghost from_gives = { λ refusal code. code ≡ number_of refusal };

    fn from(refusal: Refusal) -> u8 {
        match refusal {
            Refusal::OutOfRange => 1,
            Refusal::UnknownLlid => 2,
            Refusal::RepeatedLlid => 3,
            Refusal::TableFull => 4,
            Refusal::ClockNotSet => 5,
            Refusal::OfferPending => 6,
            Refusal::SameKey => 7,
            Refusal::NothingOutstanding => 8,
            Refusal::NoKey => 9,
            Refusal::EpamDiffers => 10,
            Refusal::ClearEnvelope => 11,
            Refusal::ChannelTaken => 12,
            Refusal::KeyTooOld => 13,
            Refusal::BadLength => 14,
            Refusal::BadDirectory => 15,
            Refusal::CaptureTooOld => 16,
            Refusal::AtEnd => 17,
            Refusal::BrokenChain(_) => 18,
            Refusal::UnsuitedLength(_) => 19,
            Refusal::GroupLlid => 20,
            Refusal::BadMember => 21,
            Refusal::RepeatedRecord => 22,
            Refusal::UnknownUser => 23,
            Refusal::NoRight => 24,
            Refusal::OtherKeyIndex => 25,
            Refusal::BadScript => 26,
        }
    }
}

// The pair of a capture's directory that a refusal names, from 1, or 0 where it names none.
pub fn pair(refusal: Refusal) -> u16
    ensures { result ≡ pair_number refusal }
{
    match refusal {
        Refusal::BrokenChain(k) => k,
        Refusal::UnsuitedLength(k) => k,
        _ => 0,
    }
}

// What a call that gives nothing else decides.
pub type Verdict = Result<(), Refusal>;

// 0 for acceptance, else the refusal code.
pub fn verdict_number(verdict: Verdict) -> u8
    ensures { result ≡ verdict_number verdict }
{
    match verdict {
        Ok(()) => 0,
        Err(refusal) => u8::from(refusal),
    }
}

// The pair that a verdict names, or 0.
pub fn verdict_pair(verdict: Verdict) -> u16
    ensures { result ≡ verdict_pair verdict }
{
    match verdict {
        Ok(()) => 0,
        Err(refusal) => pair(refusal),
    }
}

// That refusal where its cause holds, else the rest of the order.
#[tactic(auto, unfolding(crate::specs::Order::refuse_if))]
pub fn refuse_if(cause: bool, refusal: Refusal, rest: Verdict) -> Verdict
    ensures { result ≡ refuse_if cause refusal rest }
{
    if cause {
        return Err(refusal);
    }
    rest
}

// The first verdict where it refuses, else the second.
#[tactic(auto, unfolding(crate::specs::Order::and_then))]
pub fn and_then(first: Verdict, second: Verdict) -> Verdict
    ensures { result ≡ and_then first second }
{
    first?;
    second
}
