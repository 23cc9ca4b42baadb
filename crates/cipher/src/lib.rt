// AES-128 (FIPS 197): the key expansion and the forward cipher, on one block and on two counter blocks at once.
#![tactic(auto)]

pub mod aes128;
pub mod first_round;
pub mod key_expansion;
pub mod row_words;
