// The capture reader (01, Capture block): the verdicts on the records of a capture block, opening and listing it.
#![tactic(auto)]

pub mod listing;
pub mod opening;
pub mod verdict;
pub mod walk;
mod ways;
