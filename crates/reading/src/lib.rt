// What the calls on a capture block answer (01, Capture block; 02, C-18). Their definitions and laws are in this crate, their code is
// in `capture`.
#![tactic(auto)]

use refusal::Refusal;

// What opening a block took: the octets deciphered, the runs of the cipher, and the keys expanded.
#[derive(Clone, Copy, Debug, PartialEq, Eq)]
pub struct Opened {
    pub count: u64,
    pub runs: u64,
    pub expansions: u8,
}

pub type OpenAnswer = Result<Opened, Refusal>;

// What a call in the near way answers, and its smallest and largest correction, each as the octet of a signed number.
#[derive(Clone, Copy)]
pub struct NearAnswer {
    pub opened: OpenAnswer,
    pub smallest: u8,
    pub largest: u8,
}

// What the call on all records finds in the near way, and its smallest and largest correction, each as the octet of a signed number.
#[derive(Clone, Copy)]
pub struct NearVerdicts {
    pub directory: Result<u16, Refusal>,
    pub smallest: u8,
    pub largest: u8,
}
