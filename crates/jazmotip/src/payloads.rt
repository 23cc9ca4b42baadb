// Sealing and opening of payloads (01, Counter block and mask). EncEnabled is a number here, and an answer a code and a count.
ghost use Rattle.std.specs.Prelude.{◌≡◌};
ghost use Rattle.octets.specs.Output.{with_output};
ghost use Rattle.envelope.specs.ControlMask.{count_enciphered};
ghost use Rattle.cipher.specs.KeyExpansion.{key_expansion};
ghost use Rattle.jazmotip.specs.Payloads.{payload_answer, flag_denied, sealing_by, in_place_by, in_numbers};

use cipher::aes128::RoundKeys;
use cipher::key_expansion::expand_key;
use envelope::{Nonce, SealAnswer, count, lengths_fit, seal_count, seal_number, seal_runs};
use refusal::Refusal;
use sealing::counter_mode::{seal, seal_expanded, seal_expanded_in_place, seal_in_place};

#[repr(C)]
#[derive(Clone, Copy)]
pub struct PayloadAnswer {
    // 0, or the refusal code
    pub number: u8,
    // the octets enciphered or deciphered, 0 where the call was refused
    pub count: u64,
    // the runs of the cipher (02, C-17), 0 where the call was refused
    pub runs: u64,
}

fn numbered(answer: SealAnswer) -> PayloadAnswer
    ensures { result ≡ payload_answer answer }
{
    PayloadAnswer {
        number: seal_number(answer),
        count: seal_count(answer),
        runs: seal_runs(answer),
    }
}

// EncEnabled is above 1: the lengths come first (D125).
#[tactic(auto, unfolding(crate::specs::Payloads::flag_denied, octets::specs::Choice::pick))]
fn deny_flag(n: usize, m: usize) -> SealAnswer
    ensures { result ≡ flag_denied n m }
{
    if lengths_fit(n, m) {
        return Err(Refusal::OutOfRange);
    }
    Err(Refusal::BadLength)
}

#[unsafe(no_mangle)]
pub extern "C" fn jazmotip_expand_key(key: &[u8; 16]) -> RoundKeys
    ensures { result.octets ≡ key_expansion key.now }
{
    expand_key(*key)
}

#[unsafe(no_mangle)]
#[tactic(auto, using(crate::proofs::Flags::denied))]
pub extern "C" fn jazmotip_seal(
    encenabled: u8,
    key: &[u8; 16],
    nonce: Nonce,
    input: &[u8],
    output: &mut [u8],
) -> PayloadAnswer
    ensures { with_output result output.new
        ≡ in_numbers (sealing_by encenabled (key_expansion key.now) nonce input.now output.old) }
{
    if 1 < encenabled {
        return numbered(deny_flag(input.len(), output.len()));
    }
    let answer = seal(encenabled == 1, *key, nonce, input, output);
    numbered(answer)
}

// The same under a key that was expanded before.
#[unsafe(no_mangle)]
#[tactic(auto, using(crate::proofs::Flags::denied))]
pub extern "C" fn jazmotip_seal_expanded(
    encenabled: u8,
    keys: RoundKeys,
    nonce: Nonce,
    input: &[u8],
    output: &mut [u8],
) -> PayloadAnswer
    ensures { with_output result output.new
        ≡ in_numbers (sealing_by encenabled keys.octets nonce input.now output.old) }
{
    if 1 < encenabled {
        return numbered(deny_flag(input.len(), output.len()));
    }
    let answer = seal_expanded(encenabled == 1, keys, nonce, input, output);
    numbered(answer)
}

// The two in place: the payload is input and output.
#[unsafe(no_mangle)]
#[tactic(auto, using(crate::proofs::Flags::denied))]
pub extern "C" fn jazmotip_seal_in_place(
    encenabled: u8,
    key: &[u8; 16],
    nonce: Nonce,
    payload: &mut [u8],
) -> PayloadAnswer
    ensures { with_output result payload.new
        ≡ in_numbers (in_place_by encenabled (key_expansion key.now) nonce payload.old) }
{
    if 1 < encenabled {
        return numbered(deny_flag(payload.len(), payload.len()));
    }
    let answer = seal_in_place(encenabled == 1, *key, nonce, payload);
    numbered(answer)
}

#[unsafe(no_mangle)]
#[tactic(auto, using(crate::proofs::Flags::denied))]
pub extern "C" fn jazmotip_seal_expanded_in_place(
    encenabled: u8,
    keys: RoundKeys,
    nonce: Nonce,
    payload: &mut [u8],
) -> PayloadAnswer
    ensures { with_output result payload.new ≡ in_numbers (in_place_by encenabled keys.octets nonce payload.old) }
{
    if 1 < encenabled {
        return numbered(deny_flag(payload.len(), payload.len()));
    }
    let answer = seal_expanded_in_place(encenabled == 1, keys, nonce, payload);
    numbered(answer)
}

#[unsafe(no_mangle)]
pub extern "C" fn jazmotip_count(payload: &[u8]) -> u64
    ensures { result ≡ count_enciphered payload.now }
{
    count(payload)
}
