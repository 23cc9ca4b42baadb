// A receive clock that is known only nearly (02, C-18): the clock nearest to the one expected, and the corrections so far. A
// correction is kept as its step, 31 more.
ghost use Rattle.std.specs.Prelude.{◌≡◌, ◌<◌, leb};
ghost use Rattle.octets.specs.Choice.{both, pick};
ghost use Rattle.records.specs.Following.{Promise};
ghost use Rattle.records.specs.Near.{stepped, nearest, IsNearest, sum_at, no_drift, expected, corrected, own, far_verdict, heard, judged, signed_octet};

use crate::header::{Header, RecordVerdict, is_well_formed, record_verdict, verdict_for};
use crate::settings::{llid, presence};
use clock::CLOCK_TURN;
use refusal::Refusal;

const EPAM_TURN: u64 = clock::EPAM_TURN as u64;

// A clock is known within so many ticks.
const MOST_SLIP: u8 = 31;

// The last step, the correction of 31.
const LAST_STEP: u8 = 62;

// The corrections so far: their sums, modulo 2^48, for the channel indices 00, 01, 80 and 81 hex, and the steps of the smallest and
// the largest, both 31 while no header was accepted.
#[derive(Clone, Copy)]
pub struct Drift {
    pub sums: [u64; 4],
    pub accepted: bool,
    pub smallest: u8,
    pub largest: u8,
}

// A verdict on a record, and the corrections behind it.
#[derive(Clone, Copy)]
pub struct Heard<V> {
    pub verdict: V,
    pub drift: Drift,
}

// No header was accepted yet.
pub fn no_drift() -> Drift
    ensures value { result ≡ no_drift }
    ensures promise { Promise }
{
    Drift {
        sums: [0; 4],
        accepted: false,
        smallest: MOST_SLIP,
        largest: MOST_SLIP,
    }
}

// The clock with the correction of a step.
pub fn stepped(clock: u64, step: u8) -> u64
    ensures { result ≡ stepped clock step }
{
    (clock % CLOCK_TURN + step as u64 + (CLOCK_TURN - MOST_SLIP as u64)) % CLOCK_TURN
}

// How many steps the nearest clock is above the one that is 31 below; none for 32 either way, or EPAM above 63.
#[tactic(auto, using(crate::proofs::Steps::is_nearest), unfolding(crate::specs::Near::nearest, octets::specs::Choice::both, octets::specs::Choice::pick))]
pub fn nearest(clock: u64, epam: u8) -> Option<u8>
    ensures value { result ≡ nearest clock epam }
    ensures nearest { IsNearest clock epam }
{
    let step = ((epam as u64 + MOST_SLIP as u64 + (EPAM_TURN - clock % EPAM_TURN))
        % EPAM_TURN) as u8;
    if ((epam as u64) < EPAM_TURN) & (step <= LAST_STEP) {
        Some(step)
    } else {
        None
    }
}

// The place of a channel index among the sums.
fn sum_at(channel: u8) -> usize
    ensures { (result ≡ sum_at channel) × (result < 4) }
{
    channel as usize % 2 + 2 * (channel as usize / 128)
}

// The clock expected at a header.
pub fn expected(drift: Drift, h: Header) -> u64
    ensures { result ≡ expected drift h }
{
    let at = sum_at(h.channel);
    (h.clock % CLOCK_TURN + drift.sums[at] % CLOCK_TURN) % CLOCK_TURN
}

#[tactic(auto, unfolding(octets::specs::Choice::both, octets::specs::Choice::pick))]
fn smaller(accepted: bool, a: u8, b: u8) -> u8
    ensures { result ≡ pick (both accepted (leb a b)) a b }
{
    if accepted & (a <= b) { a } else { b }
}

#[tactic(auto, unfolding(octets::specs::Choice::both, octets::specs::Choice::pick))]
fn larger(accepted: bool, a: u8, b: u8) -> u8
    ensures { result ≡ pick (both accepted (leb b a)) a b }
{
    if accepted & (b <= a) { a } else { b }
}

// The corrections once a header of this channel index was accepted with this step.
pub fn corrected(drift: Drift, channel: u8, step: u8) -> Drift
    ensures { result ≡ corrected drift channel step }
{
    let at = sum_at(channel);
    let mut sums = drift.sums;
    sums[at] = stepped(drift.sums[at], step);
    Drift {
        sums,
        accepted: true,
        smallest: smaller(drift.accepted, drift.smallest, step),
        largest: larger(drift.accepted, drift.largest, step),
    }
}

// The octet of a signed number, for the correction of a step.
pub fn signed(step: u8) -> u8
    ensures { result ≡ signed_octet step }
{
    ((step as u16 + (256 - MOST_SLIP as u16)) % 256) as u8
}

// Whether a header is past 1 and 2.
#[tactic(auto, unfolding(crate::specs::Near::own, octets::specs::Choice::both))]
fn own(llid: u16, h: Header) -> bool
    ensures { result ≡ own llid h }
{
    is_well_formed(h) & (h.llid == llid)
}

#[tactic(auto, unfolding(octets::specs::Choice::pick))]
fn moved(llid: u16, drift: Drift, h: Header, step: u8) -> Drift
    ensures { result ≡ pick (own llid h) (corrected drift h.channel step) drift }
{
    if own(llid, h) {
        corrected(drift, h.channel, step)
    } else {
        drift
    }
}

// The verdict on a record whose clock is too far: 1, 2, then 10.
#[tactic(auto, unfolding(crate::specs::Near::far_verdict, octets::specs::Choice::pick))]
fn too_far(llid: u16, h: Header) -> RecordVerdict
    ensures { result ≡ far_verdict llid h }
{
    if !is_well_formed(h) {
        return Err(Refusal::OutOfRange);
    }
    if h.llid != llid {
        return Err(Refusal::UnknownLlid);
    }
    Err(Refusal::EpamDiffers)
}

// The verdict on a record by its header, for settings of this presence octet and LLID, at the clock nearest to the one expected.
#[tactic(auto, unfolding(crate::specs::Near::heard, crate::specs::Near::heard_at))]
pub fn hear(presence: u8, llid: u16, drift: Drift, h: Header) -> Heard<RecordVerdict>
    ensures { result ≡ heard presence llid drift h }
{
    let clock = expected(drift, h);
    match nearest(clock, h.epam) {
        None => Heard {
            verdict: too_far(llid, h),
            drift,
        },
        Some(step) => Heard {
            verdict: record_verdict(presence, llid, stepped(clock, step), h),
            drift: moved(llid, drift, h, step),
        },
    }
}

// The verdict on a record by its header under the settings, and the corrections behind it, in the near way or the usual one.
#[tactic(auto, unfolding(crate::specs::Near::judged))]
pub fn judge(near: bool, settings: &[u8], drift: Drift, h: Header) -> Heard<RecordVerdict>
    ensures { result ≡ judged near settings.now drift h }
{
    if near {
        hear(presence(settings), llid(settings), drift, h)
    } else {
        let verdict = verdict_for(settings, h);
        Heard { verdict, drift }
    }
}
