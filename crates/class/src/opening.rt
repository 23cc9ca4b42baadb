// Opening a capture block for the user who asks, into an output of the same length.
ghost use Rattle.std.specs.Prelude.{◌≡◌, ◌+◌, ◌*◌, ◌≤◌, ◌<◌, length, replicate};
ghost use Rattle.octets.specs.Lists.{copied, replaced};
ghost use Rattle.octets.specs.Output.{with_output};
ghost use Rattle.records.specs.Record.{record_octets};
ghost use Rattle.records.specs.Settings.{settings_keys};
ghost use Rattle.records.specs.Block.{most_octets, record_from};
ghost use Rattle.directory.specs.Rebuilt.{rebuilt};
ghost use Rattle.capture.specs.Duties.{TookAs, written};
ghost use Rattle.rights.specs.Settings.{most_sets, set_of, set_for};
ghost use Rattle.class.specs.Opening.{hidden_record, written_for, record_for, expansions_for, opening_for};
ghost use Rattle.class.specs.Secrecy.{Secret, Example};
ghost use Rattle.class.specs.Claims.{Reader};
ghost use Rattle.class.specs.Duties.{expanded_octets, keys_octets, expanded_at, ExpandedNext, Expanded, TookFor, TookAllFor, Ready, SettledAs, SettledFor, placed_at, Copied};

use crate::asker::Asker;
use capture::opening::{Read, open_span};
use capture::walk::{Turn, Walk};
use cipher::aes128::RoundKeys;
use cipher::key_expansion::expand_key;
use envelope::{NO_WORK, Nonce, Work};
use octets::{clear, copy_at, octets48, part_of};
use reading::{NearAnswer, Opened};
use records::header::{Access, RecordVerdict, cleared, record_octets};
use records::near::signed;
use records::settings::{SETTINGS_KEYS, key, mac, presence};
use rights::judging::ClassVerdict;
use rights::settings::{Caller, may_open, rights_at, set_at, set_for};

// The octets of an expanded key, and of all that a class can have: two for each of 16 sets (D99).
const EXPANDED_OCTETS: usize = 176;

const KEYS_OCTETS: usize = 5632;

// The place of the EQs in a record's header.
const EQS: usize = 12;

// Key k of the class among those that are expanded: one key, for one record.
fn key_at(keys: &[u8], k: u8) -> RoundKeys
    ensures { result.octets ≡ copied (expanded_at keys.now k) (replicate expanded_octets 0) }
{
    let mut octets = [0u8; EXPANDED_OCTETS];
    octets::copy(
        part_of(keys, EXPANDED_OCTETS * k as usize, EXPANDED_OCTETS),
        &mut octets,
    );
    RoundKeys { octets }
}

// Writes a record as document 01's verdict on it says: j is the set of its LLID.
fn open_told(
    sets: &[u8],
    j: u8,
    keys: &[u8],
    block: &[u8],
    output: &mut [u8],
    turn: Turn<RecordVerdict>,
) -> Work
    requires j_lt_most_sets { (j < most_sets) × (length keys.now ≡ keys_octets) }
    requires ready { Ready block.now output.old turn.from }
    requires settled_as { SettledAs sets.now keys.now block.now j turn.from turn.header turn.verdict }
    ensures took_as { TookAs (record_from block.now turn.from) turn.verdict result }
    ensures output_after { output.new ≡ written (set_of sets.now j) block.now output.old turn.from turn.verdict }
{
    match turn.verdict {
        Err(_) => NO_WORK,
        Ok(access) => match access {
            Access::Clear => NO_WORK,
            Access::Sealed(index, clock) => {
                let h = turn.header;
                let nonce = Nonce {
                    channel: h.channel,
                    mac: mac(set_at(sets, j)),
                    clock,
                };
                let expanded = key_at(keys, SETTINGS_KEYS * j + index);
                let flags = cleared(h.flags);
                open_span(
                    expanded,
                    nonce,
                    flags,
                    block,
                    output,
                    turn.from as u32,
                    h.eqs,
                )
            }
        },
    }
}

// Writes zeros over the record of so many EQs that starts at `from`, but for its EQs.
fn hide(output: &mut [u8], from: usize, eqs: u32)
    requires { (from + record_octets eqs ≤ length output.old) × (length output.old ≤ most_octets) }
    ensures { output.new ≡ replaced output.old from (hidden_record eqs) }
{
    let to = from + record_octets(eqs);
    clear(&mut output[from..to]);
    let e = octets48(eqs as u64);
    let low = [e[2], e[3], e[4], e[5]];
    copy_at(&low, output, from + EQS);
}

impl<'a> Asker<'a> {
    // Expands key k of the class into its place among all, if it is present and the user may open its set; tells how many that are.
    fn expand_at(&self, keys: &mut [u8], k: u8) -> u8
        requires { (k < settings_keys * most_sets) × (length keys.old ≡ keys_octets) }
        ensures { ExpandedNext self.now.caller self.now.sets.now self.now.rights.now keys.old keys.new k result }
    {
        let j = k / SETTINGS_KEYS;
        let i = k % SETTINGS_KEYS;
        let set = set_at(self.sets, j);
        let opens = may_open(rights_at(self.caller, self.rights, j));
        if !(opens & (octets::bit(presence(set), i) == 1)) {
            return 0;
        }
        let expanded = expand_key(key(set, i)).octets;
        copy_at(&expanded, keys, EXPANDED_OCTETS * k as usize);
        1
    }

    // Expands each present key of a set that the user may open, once, and tells how many.
    fn expand(&self, keys: &mut [u8]) -> u8
        requires { (self.now.caller.sets ≤ most_sets) × (length keys.old ≡ keys_octets) }
        ensures value { result ≡ expansions_for self.now.caller self.now.sets.now self.now.rights.now }
        ensures expanded { Expanded self.now.caller self.now.sets.now self.now.rights.now keys.new (settings_keys * self.now.caller.sets) }
    {
        let mut count = 0;
        for k in 0..SETTINGS_KEYS * self.caller.sets {
            count += self.expand_at(keys, k);
        }
        count
    }

    // Writes a record as the verdict for the user says, and tells what that took.
    fn write(&self, keys: &[u8], block: &[u8], output: &mut [u8], turn: Turn<ClassVerdict>) -> Work
        requires keys_len { length keys.now ≡ keys_octets }
        requires ready { Ready block.now output.old turn.from }
        requires settled_for { SettledFor self.now.caller self.now.sets.now keys.now block.now turn.from turn.header turn.verdict }
        ensures took_for { TookFor (record_from block.now turn.from) turn.verdict result }
        ensures output_after { output.new
            ≡ placed_at block.now output.old turn.from
            (written_for (set_of self.now.sets.now (set_for self.now.caller self.now.sets.now turn.header.llid))
            (record_from block.now turn.from) turn.verdict) }
    {
        let Turn {
            from,
            header,
            verdict,
        } = turn;
        match verdict {
            ClassVerdict::Hidden => {
                hide(output, from, header.eqs);
                NO_WORK
            }
            ClassVerdict::Seen => NO_WORK,
            ClassVerdict::Told(verdict) => {
                let j = set_for(self.caller, self.sets, header.llid);
                let told = Turn {
                    from,
                    header,
                    verdict,
                };
                open_told(self.sets, j, keys, block, output, told)
            }
        }
    }

    // Opens the n records of an output that is a copy of the block, each where the one before it ends, and tells what they came to.
    fn open_records(&self, keys: &[u8], block: &[u8], output: &mut [u8], n: u16) -> Read
        requires { Copied self.now.caller self.now.sets.now self.now.rights.now keys.now block.now output.old n }
        ensures took_all_for { TookAllFor self.now.near self.now.caller self.now.sets.now self.now.rights.now block.now result }
        ensures output_after { output.new
            ≡ rebuilt (record_for self.now.near self.now.caller self.now.sets.now self.now.rights.now block.now) block.now }
    {
        let mut work = NO_WORK;
        let mut walk = Walk::start(n);
        for _ in 0..n {
            let turn = walk.turn(self, block);
            let more = self.write(keys, block, output, turn);
            work.count += more.count;
            work.runs += more.runs;
        }
        Read {
            work,
            drift: walk.drift,
        }
    }
}

// Opens a block for the user who asks into an output of its length, in the near way or the usual one.
pub fn open_for(
    near: bool,
    caller: Caller,
    sets: &[u8],
    rights: &[u8],
    block: &[u8],
    output: &mut [u8],
) -> NearAnswer
    ensures output_after { with_output result output.new
        ≡ opening_for near caller sets.now rights.now block.now output.old }
    ensures secret { Secret near caller sets.now rights.now block.now output.old }
    ensures reader { Reader near caller sets.now rights.now block.now output.old }
    ensures example { Example }
{
    let asker = Asker {
        near,
        caller,
        sets,
        rights,
    };
    match asker.call(output.len() == block.len(), block) {
        Err(refusal) => NearAnswer {
            opened: Err(refusal),
            smallest: 0,
            largest: 0,
        },
        Ok(n) => {
            let mut keys = [0u8; KEYS_OCTETS];
            let expanded = asker.expand(&mut keys);
            octets::copy(block, output);
            let read = asker.open_records(&keys, block, output, n);
            NearAnswer {
                opened: Ok(Opened {
                    count: read.work.count,
                    runs: read.work.runs,
                    expansions: expanded,
                }),
                smallest: signed(read.drift.smallest),
                largest: signed(read.drift.largest),
            }
        }
    }
}
