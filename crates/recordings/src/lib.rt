// Two recordings of one line, held against each other (02, C-15).
#![tactic(auto)]

pub mod compare;
pub mod listing;
mod partners;
pub mod verdict;
