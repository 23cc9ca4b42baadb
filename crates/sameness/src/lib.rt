// Two records held against each other (02, C-15, C-20): whether they pair, and whether they hold the same.
#![tactic(auto)]

pub mod partners;
pub mod payloads;
