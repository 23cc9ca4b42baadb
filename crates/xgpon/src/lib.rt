// The OLT's key exchange with one ONU of an XG-PON line (003, 15.5.3.2; 02, C-21). Its state is a plain value: a step takes the state and an
// input, and answers with the next state, the message to send, and the timers to start and to stop.
#![tactic(auto)]

pub mod answers;
pub mod keys;
pub mod moves;
pub mod timers;
pub mod values;
