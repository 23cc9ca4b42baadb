// What sealing takes and answers that needs no cipher (01, Counter block and mask, When the reader says no: 14, 1): the counter
// block, the count, and the verdict on a call. The control mask is defined here, and made where the cipher is (D109).
#![tactic(auto)]

ghost use Rattle.std.specs.Prelude.{◌≡◌, ◌≤◌};
ghost use Rattle.std.specs.Int.Count.{ones};
ghost use Rattle.envelope.specs.Acceptance.{lengths_fit, nonce_fits, seal_verdict};
ghost use Rattle.envelope.specs.Answer.{seal_number, seal_count, seal_runs};
ghost use Rattle.envelope.specs.Channels.{channel_fits, downstream, upstream, on_zero};
ghost use Rattle.envelope.specs.ControlMask.{control_octet, data_octet, count_enciphered};
ghost use Rattle.envelope.specs.CounterBlock.{counter_block};

use octets::{EQ_OCTETS, MAX_EQS, SIX_OCTETS, octet_at, octets24, octets48};
use refusal::{Refusal, Verdict};

// The longest payload.
const MAX_OCTETS: usize = EQ_OCTETS * MAX_EQS;

// The high bit of a channel index: 1 is upstream.
const UPSTREAM_BIT: u8 = 128;

// The channels are 0 and this.
const MAX_CHANNEL: u8 = 1;

// Channel index, sender's MAC and cipher clock at the header: what tells one envelope's counter blocks from another's.
#[repr(C)]
#[derive(Clone, Copy)]
pub struct Nonce {
    pub channel: u8,
    pub mac: u64,
    pub clock: u64,
}

// What sealing or opening took: the octets enciphered, and the runs of the cipher.
#[derive(Clone, Copy, Debug, PartialEq, Eq)]
pub struct Work {
    pub count: u64,
    pub runs: u64,
}

pub const NO_WORK: Work = Work { count: 0, runs: 0 };

pub type SealAnswer = Result<Work, Refusal>;

// Counter block `index` of the envelope. Octet by octet: stored by `copy_from_slice`, its parts go through memory, and one EQ takes 5 % longer.
#[tactic(auto, unfolding(crate::specs::CounterBlock::counter_block))]
pub fn counter_block(nonce: Nonce, index: u64) -> [u8; 16]
    ensures { result ≡ counter_block nonce index }
{
    let m = octets48(nonce.mac);
    let c = octets48(nonce.clock);
    let k = octets24(index);
    [
        nonce.channel,
        m[0],
        m[1],
        m[2],
        m[3],
        m[4],
        m[5],
        c[0],
        c[1],
        c[2],
        c[3],
        c[4],
        c[5],
        k[0],
        k[1],
        k[2],
    ]
}

// The control octet of EQ e of a payload, and its data octet j: 0 where the payload has none.
pub fn control_octet(payload: &[u8], e: u32) -> u8
    ensures { result ≡ control_octet payload.now e }
{
    octet_at(payload, EQ_OCTETS * e as usize)
}

pub fn data_octet(payload: &[u8], e: u32, j: u8) -> u8
    ensures { result ≡ data_octet payload.now e j }
{
    octet_at(payload, EQ_OCTETS * e as usize + 1 + j as usize)
}

// The control characters of an EQ, by its control octet.
pub fn ones_in(control: u8) -> u64
    ensures { (result ≡ ones control) × (result ≤ 8) }
{
    u64::from(control.count_ones())
}

// The octets that sealing enciphers.
#[tactic(auto, unfolding(crate::specs::ControlMask::count_enciphered))]
pub fn count(payload: &[u8]) -> u64
    ensures { result ≡ count_enciphered payload.now }
{
    let (eqs, _) = payload.as_chunks::<EQ_OCTETS>();
    let mut sum = 0;
    for eq in eqs {
        sum += 8 - ones_in(eq[0]);
    }
    sum
}

// Whether a channel index is 00 or 01 hex.
#[tactic(auto, unfolding(crate::specs::Channels::downstream))]
pub fn downstream(channel: u8) -> bool
    ensures { result ≡ downstream channel }
{
    channel <= MAX_CHANNEL
}

// Whether a channel index is 80 or 81 hex.
#[tactic(auto, unfolding(crate::specs::Channels::upstream, octets::specs::Choice::both))]
pub fn upstream(channel: u8) -> bool
    ensures { result ≡ upstream channel }
{
    (UPSTREAM_BIT <= channel) & (channel <= UPSTREAM_BIT + MAX_CHANNEL)
}

// Whether the channel of a channel index is 0.
#[tactic(auto, unfolding(crate::specs::Channels::on_zero))]
pub fn on_zero(channel: u8) -> bool
    ensures { result ≡ on_zero channel }
{
    channel % UPSTREAM_BIT == 0
}

#[tactic(auto, unfolding(crate::specs::Channels::channel_fits, octets::specs::Choice::either))]
pub fn channel_fits(channel: u8) -> bool
    ensures { result ≡ channel_fits channel }
{
    downstream(channel) | upstream(channel)
}

#[tactic(auto, unfolding(crate::specs::Acceptance::nonce_fits, octets::specs::Choice::both))]
pub fn nonce_fits(nonce: Nonce) -> bool
    ensures { result ≡ nonce_fits nonce }
{
    channel_fits(nonce.channel) & ((nonce.mac < SIX_OCTETS) & (nonce.clock < SIX_OCTETS))
}

// Whether n octets are a payload, and an output of m has as many.
#[tactic(auto, unfolding(crate::specs::Acceptance::lengths_fit, octets::specs::Choice::both))]
pub fn lengths_fit(n: usize, m: usize) -> bool
    ensures { result ≡ lengths_fit n m }
{
    (n % EQ_OCTETS == 0) & ((n <= MAX_OCTETS) & (m == n))
}

#[tactic(auto, unfolding(crate::specs::Acceptance::seal_verdict, refusal::specs::Order::refuse_if))]
pub fn seal_verdict(n: usize, m: usize, nonce: Nonce) -> Verdict
    ensures { result ≡ seal_verdict n m nonce }
{
    if !lengths_fit(n, m) {
        return Err(Refusal::BadLength);
    }
    if !nonce_fits(nonce) {
        return Err(Refusal::OutOfRange);
    }
    Ok(())
}

// 0, or the refusal code.
pub fn seal_number(answer: SealAnswer) -> u8
    ensures { result ≡ seal_number answer }
{
    match answer {
        Ok(_) => 0,
        Err(refusal) => u8::from(refusal),
    }
}

// The octets enciphered, 0 where the call was refused.
pub fn seal_count(answer: SealAnswer) -> u64
    ensures { result ≡ seal_count answer }
{
    answer.map_or(0, |work| work.count)
}

// The runs of the cipher, 0 where the call was refused.
pub fn seal_runs(answer: SealAnswer) -> u64
    ensures { result ≡ seal_runs answer }
{
    answer.map_or(0, |work| work.runs)
}
