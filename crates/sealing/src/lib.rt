// The sealing and opening of envelope payloads with AES-128 in counter mode, under the control mask (01, Counter block and mask).
#![tactic(auto)]

pub mod counter_mode;
mod mask;
