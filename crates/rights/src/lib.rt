// Who may see what (02, C-19): the settings of a class and its users' rights, the verdict on a call and on a record for the user who
// asks, and the loading of a key.
#![tactic(auto)]

pub mod judging;
pub mod loading;
pub mod settings;
pub mod verdict;
