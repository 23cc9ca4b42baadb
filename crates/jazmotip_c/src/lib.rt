// The archive that firmware links, libjazmotip.a: the calls of `jazmotip` under their own names, for C. Each promises again what the call
// that it makes does. A slice crosses as a pointer and a length, an array as a pointer, a struct in C's layout (D123).
#![tactic(auto)]

pub mod at_olt;
pub mod at_onu;
pub mod blocks;
pub mod class_blocks;
pub mod exercises;
pub mod key_exchange;
pub mod near_blocks;
pub mod payloads;
pub mod stored;
pub mod two_blocks;
