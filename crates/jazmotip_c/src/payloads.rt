// Sealing and opening of payloads, for C.
ghost use Rattle.std.specs.Prelude.{◌≡◌};
ghost use Rattle.octets.specs.Output.{with_output};
ghost use Rattle.envelope.specs.ControlMask.{count_enciphered};
ghost use Rattle.cipher.specs.KeyExpansion.{key_expansion};
ghost use Rattle.jazmotip.specs.Payloads.{sealing_by, in_place_by, in_numbers};

use cipher::aes128::RoundKeys;
use envelope::Nonce;
use jazmotip::payloads::PayloadAnswer;

#[unsafe(no_mangle)]
pub extern "C" fn jazmotip_expand_key(key: &[u8; 16]) -> RoundKeys
    ensures { result.octets ≡ key_expansion key.now }
{
    jazmotip::payloads::jazmotip_expand_key(key)
}

#[unsafe(no_mangle)]
pub extern "C" fn jazmotip_seal(
    encenabled: u8,
    key: &[u8; 16],
    nonce: Nonce,
    input: &[u8],
    output: &mut [u8],
) -> PayloadAnswer
    ensures { with_output result output.new
        ≡ in_numbers (sealing_by encenabled (key_expansion key.now) nonce input.now output.old) }
{
    jazmotip::payloads::jazmotip_seal(encenabled, key, nonce, input, output)
}

#[unsafe(no_mangle)]
pub extern "C" fn jazmotip_seal_expanded(
    encenabled: u8,
    keys: RoundKeys,
    nonce: Nonce,
    input: &[u8],
    output: &mut [u8],
) -> PayloadAnswer
    ensures { with_output result output.new
        ≡ in_numbers (sealing_by encenabled keys.octets nonce input.now output.old) }
{
    jazmotip::payloads::jazmotip_seal_expanded(encenabled, keys, nonce, input, output)
}

#[unsafe(no_mangle)]
pub extern "C" fn jazmotip_seal_in_place(
    encenabled: u8,
    key: &[u8; 16],
    nonce: Nonce,
    payload: &mut [u8],
) -> PayloadAnswer
    ensures { with_output result payload.new
        ≡ in_numbers (in_place_by encenabled (key_expansion key.now) nonce payload.old) }
{
    jazmotip::payloads::jazmotip_seal_in_place(encenabled, key, nonce, payload)
}

#[unsafe(no_mangle)]
pub extern "C" fn jazmotip_seal_expanded_in_place(
    encenabled: u8,
    keys: RoundKeys,
    nonce: Nonce,
    payload: &mut [u8],
) -> PayloadAnswer
    ensures { with_output result payload.new ≡ in_numbers (in_place_by encenabled keys.octets nonce payload.old) }
{
    jazmotip::payloads::jazmotip_seal_expanded_in_place(encenabled, keys, nonce, payload)
}

#[unsafe(no_mangle)]
pub extern "C" fn jazmotip_count(payload: &[u8]) -> u64
    ensures { result ≡ count_enciphered payload.now }
{
    jazmotip::payloads::jazmotip_count(payload)
}
