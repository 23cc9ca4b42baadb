// The verdicts on the records of a block: on one that is asked for by its number, from 1, and on all of them.
ghost use Rattle.std.specs.Prelude.{◌≡◌, true, length, Ok};
ghost use Rattle.octets.specs.Output.{with_output};
ghost use Rattle.records.specs.Settings.{settings_verdict};
ghost use Rattle.records.specs.Block.{most_records};
ghost use Rattle.directory.specs.Directory.{directory_of};
ghost use Rattle.reading.specs.Verdict.{verdict_asked, call_directory, verdicts_of};
ghost use Rattle.reading.specs.Reading.{drift_by, asked_by, numbers_by, judging_by};
ghost use Rattle.refusal.specs.Verdict.{no_refusal};

use crate::walk::{Reader, Walk};
use crate::ways::verdict_by;
use directory::check;
use directory::payload::payload_verdict;
use reading::NearVerdicts;
use records::block::MOST_RECORDS;
use records::header::{RecordVerdict, number};
use records::near::{Drift, signed};
use records::settings::settings_verdict;
use refusal::Refusal;

// What a call finds: whether the output that it was lent suits, then the settings, then the directory.
#[tactic(auto, unfolding(reading::specs::Verdict::call_directory, octets::specs::Choice::pick))]
pub(crate) fn call_directory(suits: bool, settings: &[u8], block: &[u8]) -> Result<u16, Refusal>
    ensures { result ≡ call_directory suits settings.now block.now }
{
    if !suits {
        return Err(Refusal::BadLength);
    }
    settings_verdict(settings)?;
    check(block)
}

// The verdict on record k, in the near way or the usual one. The refusals of the call itself come first.
#[tactic(auto, using(directory::proofs::Records::asked_first, directory::proofs::Records::asked_last), unfolding(reading::specs::Reading::asked_by))]
fn ask_by(near: bool, settings: &[u8], block: &[u8], k: usize) -> RecordVerdict
    ensures { result ≡ asked_by near settings.now block.now k }
{
    settings_verdict(settings)?;
    payload_verdict(block, k)?;
    verdict_by(near, settings, block, (k - 1) as u16)
}

// The verdict on record k.
#[tactic(auto, using(reading::proofs::Readings::asked_usual))]
pub fn ask(settings: &[u8], block: &[u8], k: usize) -> RecordVerdict
    ensures { result ≡ verdict_asked settings.now block.now k }
{
    ask_by(false, settings, block, k)
}

// The same in the near way (02, C-18).
pub fn ask_near(settings: &[u8], block: &[u8], k: usize) -> RecordVerdict
    ensures { result ≡ asked_by true settings.now block.now k }
{
    ask_by(true, settings, block, k)
}

// Writes the codes of the verdicts on the n records of a block, one after the other, and gives the corrections behind them.
fn put_numbers(reader: &Reader<'_>, block: &[u8], output: &mut [u8], n: u16) -> Drift
    requires settings_value { (settings_verdict reader.now.settings.now ≡ no_refusal) × (directory_of block.now ≡ Ok n) }
    requires output_len { length output.old ≡ most_records }
    ensures value { result ≡ drift_by reader.now.near reader.now.settings.now block.now n }
    ensures output_after { output.new ≡ numbers_by reader.now.near reader.now.settings.now block.now n output.old }
{
    let mut walk = Walk::start(n);
    for i in 0..n {
        output[i as usize] = number(walk.turn(reader, block).verdict);
    }
    walk.drift
}

fn verdicts_by(near: bool, settings: &[u8], block: &[u8], output: &mut [u8]) -> NearVerdicts
    ensures { with_output result output.new ≡ judging_by near settings.now block.now output.old }
{
    match call_directory(output.len() == MOST_RECORDS as usize, settings, block) {
        Err(refusal) => NearVerdicts {
            directory: Err(refusal),
            smallest: 0,
            largest: 0,
        },
        Ok(n) => {
            let drift = put_numbers(&Reader { near, settings }, block, output, n);
            NearVerdicts {
                directory: Ok(n),
                smallest: signed(drift.smallest),
                largest: signed(drift.largest),
            }
        }
    }
}

// The code of the verdict on record k at octet k - 1 of an output of 256 octets, for all records in one pass; the octets behind
// them stay.
pub fn verdicts(settings: &[u8], block: &[u8], output: &mut [u8]) -> Result<u16, Refusal>
    ensures { with_output result output.new ≡ verdicts_of settings.now block.now output.old }
{
    verdicts_by(false, settings, block, output).directory
}

// The same in the near way (02, C-18).
pub fn verdicts_near(settings: &[u8], block: &[u8], output: &mut [u8]) -> NearVerdicts
    ensures { with_output result output.new ≡ judging_by true settings.now block.now output.old }
{
    verdicts_by(true, settings, block, output)
}
