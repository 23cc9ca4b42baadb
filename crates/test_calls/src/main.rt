// Plays every exported call of the library that firmware links, a line for each: its code and what it handed over. What it must print
// is made by tools/test_calls.py.
#![tactic(auto)]

mod block_calls;
mod class_calls;
mod near_calls;
mod olt_calls;
mod onu_calls;
mod payload_calls;
mod show;
mod values;
mod whole_line;
mod xgpon_calls;

use std::io;

fn main(rt: HostRuntime) -> io::Result<()> {
    whole_line::play(&rt)?;
    payload_calls::play(&rt)?;
    block_calls::play(&rt)?;
    near_calls::play(&rt)?;
    class_calls::play(&rt)?;
    xgpon_calls::play(&rt)
}
