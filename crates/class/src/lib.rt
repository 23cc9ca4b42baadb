// The reader of a class (02, C-19): a capture block opened and listed for the user who asks.
#![tactic(auto)]

mod asker;
pub mod listing;
pub mod opening;
