// The records of a capture (01, Capture block), each by itself: the settings that judge it, its header, and its place in any block.
#![tactic(auto)]

pub mod block;
pub mod header;
pub mod near;
pub mod place;
pub mod settings;
