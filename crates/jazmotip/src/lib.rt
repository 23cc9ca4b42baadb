// What firmware calls, from C or Rust, by the exports of `jazmotip_c`: every call of both ends, of sealing, of the capture reader, for one or
// for a class, of the store, of two recordings, of exercises and of the key exchange on XG-PON lines, under one prefix. Each has the
// contract of the call that it stands for. A slice crosses as a pointer and a length, an array as a pointer, a struct in C's layout (D123).
#![tactic(auto)]

pub mod at_olt;
pub mod at_onu;
pub mod blocks;
pub mod class_blocks;
pub mod exercises;
pub mod key_exchange;
pub mod near_blocks;
pub mod payloads;
pub mod stored;
pub mod two_blocks;
