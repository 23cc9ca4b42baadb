// The header of a record, read from its octets, and the verdict on a record.
ghost use Rattle.std.specs.Prelude.{◌≡◌, ◌<◌};
ghost use Rattle.octets.specs.BigEndian.{number_at, six_octets};
ghost use Rattle.records.specs.Record.{record_header, record_octets, sized};
ghost use Rattle.records.specs.Verdict.{enc_enabled, enc_key, cleared_flags, flags_fit, header_fits, key_verdict, record_verdict, verdict_for, record_number, record_pair};

use crate::settings::{llid, presence};
use envelope::channel_fits;
use octets::{EQ_OCTETS, be32, number16, number32, number48, octet_at, part_of};
use refusal::Refusal;

// The octets of a record ahead of its payload.
pub const HEADER_OCTETS: usize = 16;

// The places of the flags and of the EQs among them.
pub const FLAGS: usize = 4;

const EQS: usize = 12;

// The octets of the EQs, and of a pair's offset and length.
pub(crate) const NUMBER_OCTETS: usize = 4;

// ESH and ECH.
const KINDS: u8 = 2;

// The bits that are neither EncEnabled nor EncKey.
const OTHER_FLAGS: u8 = 0xfc;

#[derive(Clone, Copy)]
pub struct Header {
    // 0 ESH, 1 ECH
    pub kind: u8,
    pub channel: u8,
    pub llid: u16,
    pub flags: u8,
    pub epam: u8,
    pub clock: u64,
    pub eqs: u32,
}

// What becomes of a record that is not refused.
#[derive(Clone, Copy, Debug, PartialEq, Eq)]
pub enum Access {
    // passes unchanged
    Clear,
    // to be opened under the key of this index, at this clock
    Sealed(u8, u64),
}

// What a record is found to be.
pub type RecordVerdict = Result<Access, Refusal>;

// The number in the four octets from a place on, read as one where they are all there.
pub(crate) fn number_in(s: &[u8], at: usize) -> u32
    ensures { result ≡ number_at 4 s.now at }
{
    match part_of(s, at, NUMBER_OCTETS).first_chunk() {
        Some(octets) => be32(*octets),
        None => number32(s, at),
    }
}

// The header of a record's octets; one that is not there is 0.
pub fn read(r: &[u8]) -> Header
    ensures value { result ≡ record_header r.now }
    ensures clock_lt_six_octets { result.clock < six_octets }
{
    Header {
        kind: octet_at(r, 0),
        channel: octet_at(r, 1),
        llid: number16(r, 2),
        flags: octet_at(r, FLAGS),
        epam: octet_at(r, 5),
        clock: number48(r, 6),
        eqs: number_in(r, EQS),
    }
}

// The octets of a record of so many EQs.
pub fn record_octets(eqs: u32) -> usize
    ensures { result ≡ record_octets eqs }
{
    HEADER_OCTETS + EQ_OCTETS * eqs as usize
}

// Whether a record is as long as its EQs say.
#[tactic(auto, unfolding(crate::specs::Record::sized, crate::specs::Record::record_header, octets::specs::Choice::both))]
pub fn is_sized(r: &[u8]) -> bool
    ensures { result ≡ sized r.now }
{
    (HEADER_OCTETS <= r.len()) & (r.len() == record_octets(number_in(r, EQS)))
}

// The flags of a record once it is opened: EncEnabled and EncKey cleared.
pub fn cleared(flags: u8) -> u8
    ensures { result ≡ cleared_flags flags }
{
    flags & OTHER_FLAGS
}

#[tactic(auto, unfolding(crate::specs::Verdict::enc_enabled))]
pub fn enc_enabled(flags: u8) -> bool
    ensures { result ≡ enc_enabled flags }
{
    octets::bit(flags, 0) == 1
}

pub fn enc_key(flags: u8) -> u8
    ensures { result ≡ enc_key flags }
{
    octets::bit(flags, 1)
}

// Whether no other bit is set, and EncKey not without EncEnabled.
#[tactic(auto, unfolding(crate::specs::Verdict::flags_fit, octets::specs::Choice::both, octets::specs::Choice::either))]
fn flags_fit(flags: u8) -> bool
    ensures { result ≡ flags_fit flags }
{
    (cleared(flags) == 0) & (enc_enabled(flags) | (enc_key(flags) == 0))
}

// Whether kind, channel index and flags are of their values, which no settings change.
#[tactic(auto, unfolding(crate::specs::Verdict::header_fits, octets::specs::Choice::both))]
pub fn is_well_formed(h: Header) -> bool
    ensures { result ≡ header_fits h }
{
    (h.kind < KINDS) & (channel_fits(h.channel) & flags_fit(h.flags))
}

// What is left to judge once EPAM agrees: an enciphered record needs its key.
#[tactic(auto, unfolding(crate::specs::Settings::key_present, crate::specs::Verdict::key_verdict, octets::specs::Choice::pick))]
fn key_verdict(presence: u8, clock: u64, flags: u8) -> RecordVerdict
    ensures { result ≡ key_verdict presence clock flags }
{
    if !enc_enabled(flags) {
        return Ok(Access::Clear);
    }
    let index = enc_key(flags);
    if octets::bit(presence, index) != 1 {
        return Err(Refusal::NoKey);
    }
    Ok(Access::Sealed(index, clock))
}

// The verdict on a record by its header, for settings of this presence octet and LLID, at the clock to use.
#[tactic(auto, unfolding(crate::specs::Verdict::record_verdict, crate::specs::Verdict::in_order, octets::specs::Choice::pick))]
pub fn record_verdict(presence: u8, llid: u16, clock: u64, h: Header) -> RecordVerdict
    ensures { result ≡ record_verdict presence llid clock h }
{
    if !is_well_formed(h) {
        return Err(Refusal::OutOfRange);
    }
    if h.llid != llid {
        return Err(Refusal::UnknownLlid);
    }
    let epam = clock::epam_of(clock);
    if h.epam != epam {
        return Err(Refusal::EpamDiffers);
    }
    key_verdict(presence, clock, h.flags)
}

// The verdict on a record by its header, for these settings, at its own clock.
#[tactic(auto, unfolding(crate::specs::Verdict::verdict_for))]
pub fn verdict_for(settings: &[u8], h: Header) -> RecordVerdict
    ensures { result ≡ verdict_for settings.now h }
{
    record_verdict(presence(settings), llid(settings), h.clock, h)
}

// The code of a verdict, 0 for acceptance.
pub fn number(verdict: RecordVerdict) -> u8
    ensures { result ≡ record_number verdict }
{
    match verdict {
        Ok(_) => 0,
        Err(refusal) => u8::from(refusal),
    }
}

// The pair that a verdict names, or 0.
pub fn pair(verdict: RecordVerdict) -> u16
    ensures { result ≡ record_pair verdict }
{
    match verdict {
        Ok(_) => 0,
        Err(refusal) => refusal::pair(refusal),
    }
}
