// Opening a capture block into an output of the same length.
ghost use Rattle.std.specs.Prelude.{◌≡◌, true, ◌+◌, ◌-◌, ◌<◌, length, set, eqb};
ghost use Rattle.octets.specs.Choice.{pick};
ghost use Rattle.octets.specs.Lists.{part, replaced};
ghost use Rattle.octets.specs.Output.{with_output};
ghost use Rattle.envelope.specs.Acceptance.{nonce_fits};
ghost use Rattle.cipher.specs.KeyExpansion.{key_expansion};
ghost use Rattle.sealing.specs.Payload.{sealed};
ghost use Rattle.records.specs.Record.{header_octets, flags_at};
ghost use Rattle.records.specs.Settings.{presence_of, key_present, key_of};
ghost use Rattle.records.specs.Block.{record_from};
ghost use Rattle.reading.specs.Opening.{expansions, opening, open_number, open_pair, open_count, open_runs, open_expansions};
ghost use Rattle.directory.specs.Rebuilt.{rebuilt};
ghost use Rattle.reading.specs.Reading.{record_by, opening_by};
ghost use Rattle.capture.specs.Span.{span_fits, span_opening};
ghost use Rattle.reading.specs.Near.{ReadsAsExact, NotEmpty};
ghost use Rattle.reading.specs.Claims.{OpenedIfAccepted};
ghost use Rattle.capture.specs.Duties.{Took, TookAs, TookAll, Span, Expanded, Ready, Settled, written, Copied};

use crate::verdict::call_directory;
use crate::walk::{Reader, Turn, Walk};
use cipher::aes128::RoundKeys;
use cipher::key_expansion::expand_key;
use envelope::{NO_WORK, Nonce, Work, nonce_fits, seal_count, seal_runs};
use reading::{NearAnswer, OpenAnswer, Opened};
use records::block::MOST_OCTETS;
use records::header::{Access, FLAGS, HEADER_OCTETS, RecordVerdict, cleared, record_octets};
use records::near::{Drift, signed};
use records::settings::{key, mac, presence};
use sealing::counter_mode::seal_expanded;

// The two keys of the settings, expanded.
#[derive(Clone, Copy)]
struct Keys {
    pub first: RoundKeys,
    pub second: RoundKeys,
}

// What opening the records of a block took, and the corrections behind them.
#[derive(Clone, Copy)]
pub struct Read {
    pub work: Work,
    pub drift: Drift,
}

// Opens the payload of the record from `from` to `to` into its place in the output, sets the flags there, and tells what that took.
fn open_part(
    keys: RoundKeys,
    nonce: Nonce,
    flags: u8,
    block: &[u8],
    output: &mut [u8],
    from: usize,
    to: usize,
) -> Work
    requires span { Span block.now output.old from to }
    requires nonce_value { nonce_fits nonce ≡ true }
    ensures took { Took (part block.now (from + header_octets) (to - (from + header_octets))) result }
    ensures output_after { output.new
        ≡ replaced (set output.old (from + flags_at) flags) (from + header_octets)
        (sealed keys.octets nonce (part block.now (from + header_octets) (to - (from + header_octets)))) }
{
    output[from + FLAGS] = flags;
    let start = from + HEADER_OCTETS;
    let input = &block[start..to];
    let answer = seal_expanded(true, keys, nonce, input, &mut output[start..to]);
    Work {
        count: seal_count(answer),
        runs: seal_runs(answer),
    }
}

// Whether a record that ends at `to` lies in a block of `size` octets and an output of `room`, and its counter blocks are of their range.
#[tactic(auto, unfolding(crate::specs::Span::span_fits, octets::specs::Choice::both))]
fn span_fits(nonce: Nonce, size: usize, room: usize, to: usize) -> bool
    ensures { result ≡ span_fits nonce size room to }
{
    ((to <= size) & ((room == size) & (size <= MOST_OCTETS))) & nonce_fits(nonce)
}

// Opens the record of so many EQs that starts at `from`, under a key that is expanded, into its place in an output of the block's length,
// and tells what that took.
pub fn open_span(
    keys: RoundKeys,
    nonce: Nonce,
    flags: u8,
    block: &[u8],
    output: &mut [u8],
    from: u32,
    eqs: u32,
) -> Work
    ensures { with_output result output.new ≡ span_opening keys.octets nonce flags block.now output.old from eqs }
{
    let start = from as usize;
    let to = start + record_octets(eqs);
    if !span_fits(nonce, block.len(), output.len(), to) {
        return NO_WORK;
    }
    open_part(keys, nonce, flags, block, output, start, to)
}

#[tactic(auto, unfolding(octets::specs::Choice::pick))]
fn key_for(keys: &Keys, index: u8) -> RoundKeys
    ensures { result ≡ pick (eqb index 0) keys.now.first keys.now.second }
{
    if index == 0 { keys.first } else { keys.second }
}

// Writes a record as the verdict on it says, and tells what that took; a clear or refused record stays as it is.
fn open_as(
    settings: &[u8],
    keys: &Keys,
    block: &[u8],
    output: &mut [u8],
    turn: Turn<RecordVerdict>,
) -> Work
    requires ready { Ready settings.now keys.now block.now output.old turn.from }
    requires settled { Settled settings.now block.now turn.from turn.header turn.verdict }
    ensures took_as { TookAs (record_from block.now turn.from) turn.verdict result }
    ensures output_after { output.new ≡ written settings.now block.now output.old turn.from turn.verdict }
{
    match turn.verdict {
        Err(_) => NO_WORK,
        Ok(access) => match access {
            Access::Clear => NO_WORK,
            Access::Sealed(index, clock) => {
                let h = turn.header;
                let nonce = Nonce {
                    channel: h.channel,
                    mac: mac(settings),
                    clock,
                };
                let to = turn.from + record_octets(h.eqs);
                open_part(
                    key_for(keys, index),
                    nonce,
                    cleared(h.flags),
                    block,
                    output,
                    turn.from,
                    to,
                )
            }
        },
    }
}

// Opens the n records of an output that is a copy of the block, each where the one before it ends, and tells what they came to.
fn open_records(reader: &Reader<'_>, keys: &Keys, block: &[u8], output: &mut [u8], n: u16) -> Read
    requires { Copied reader.now.settings.now keys.now block.now output.old n }
    ensures took_all { TookAll reader.now.near reader.now.settings.now block.now result }
    ensures output_after { output.new ≡ rebuilt (record_by reader.now.near reader.now.settings.now block.now) block.now }
{
    let mut work = NO_WORK;
    let mut walk = Walk::start(n);
    for _ in 0..n {
        let turn = walk.turn(reader, block);
        let more = open_as(reader.settings, keys, block, output, turn);
        work.count += more.count;
        work.runs += more.runs;
    }
    Read {
        work,
        drift: walk.drift,
    }
}

// Key i of the settings, expanded where it is present.
#[tactic(auto, unfolding(records::specs::Settings::key_present))]
fn expand(settings: &[u8], i: u8) -> RoundKeys
    ensures { key_present (presence_of settings.now) i ≡ true → result.octets ≡ key_expansion (key_of settings.now i) }
{
    if octets::bit(presence(settings), i) != 1 {
        return RoundKeys { octets: [0u8; 176] };
    }
    expand_key(key(settings, i))
}

fn expand_keys(settings: &[u8]) -> Keys
    ensures { Expanded settings.now result }
{
    let first = expand(settings, 0);
    let second = expand(settings, 1);
    Keys { first, second }
}

// The keys that `expand_keys` expands.
#[tactic(auto, using(octets::proofs::Bits::bit_below), unfolding(reading::specs::Opening::expansions))]
fn expansions(settings: &[u8]) -> u8
    ensures { result ≡ expansions settings.now }
{
    let present = presence(settings);
    octets::bit(present, 0) + octets::bit(present, 1)
}

// Opens a block into an output of its length, in the near way or the usual one. Each present key is expanded once.
fn open_by(near: bool, settings: &[u8], block: &[u8], output: &mut [u8]) -> NearAnswer
    ensures { with_output result output.new ≡ opening_by near settings.now block.now output.old }
{
    match call_directory(output.len() == block.len(), settings, block) {
        Err(refusal) => NearAnswer {
            opened: Err(refusal),
            smallest: 0,
            largest: 0,
        },
        Ok(n) => {
            let keys = expand_keys(settings);
            octets::copy(block, output);
            let reader = Reader { near, settings };
            let read = open_records(&reader, &keys, block, output, n);
            NearAnswer {
                opened: Ok(Opened {
                    count: read.work.count,
                    runs: read.work.runs,
                    expansions: expansions(settings),
                }),
                smallest: signed(read.drift.smallest),
                largest: signed(read.drift.largest),
            }
        }
    }
}

// Opens a block into an output of its length.
pub fn open(settings: &[u8], block: &[u8], output: &mut [u8]) -> OpenAnswer
    ensures output_after { with_output result output.new ≡ opening settings.now block.now output.old }
    ensures opened_if_accepted { OpenedIfAccepted settings.now block.now (length output.old) }
{
    open_by(false, settings, block, output).opened
}

// Opens a block into an output of its length, each record at the clock nearest to the one expected (02, C-18).
pub fn open_near(settings: &[u8], block: &[u8], output: &mut [u8]) -> NearAnswer
    ensures output_after { with_output result output.new ≡ opening_by true settings.now block.now output.old }
    ensures reads_as_exact { ReadsAsExact settings.now block.now output.old }
    ensures not_empty { NotEmpty }
{
    open_by(true, settings, block, output)
}

// 0, or the refusal code.
pub fn number(answer: OpenAnswer) -> u8
    ensures { result ≡ open_number answer }
{
    match answer {
        Ok(_) => 0,
        Err(refusal) => u8::from(refusal),
    }
}

// The pair that a refusal names, or 0.
pub fn pair(answer: OpenAnswer) -> u16
    ensures { result ≡ open_pair answer }
{
    match answer {
        Ok(_) => 0,
        Err(refusal) => refusal::pair(refusal),
    }
}

// The octets deciphered, 0 where the call was refused.
pub fn octets_opened(answer: OpenAnswer) -> u64
    ensures { result ≡ open_count answer }
{
    answer.map_or(0, |opened| opened.count)
}

// The runs of the cipher, 0 where the call was refused.
pub fn runs(answer: OpenAnswer) -> u64
    ensures { result ≡ open_runs answer }
{
    answer.map_or(0, |opened| opened.runs)
}

// The keys expanded, 0 where the call was refused.
pub fn keys_expanded(answer: OpenAnswer) -> u8
    ensures { result ≡ open_expansions answer }
{
    answer.map_or(0, |opened| opened.expansions)
}
