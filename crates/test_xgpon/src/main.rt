// Plays every state of the OLT's key exchange with every input, and exchanges outside their values too. A line has the exchange, the input,
// and the answer: its code, the next state, the message, and the timers that start (+) and stop (-). What it must print is made by
// tools/test_xgpon.py.
#![tactic(auto)]

mod show;

use show::Shown;
use std::io;
use xgpon::keys::{received_under, sent_under};
use xgpon::moves::{Input, fresh, step};
use xgpon::timers::recommended_starts;
use xgpon::values::KeyExchange;

fn row(rt: &impl Print, x: KeyExchange, input: Input) -> io::Result<()> {
    println!(rt; "{}, {}: {}", Shown(x), Shown(input), Shown(step(x, input)))
}

fn play(rt: &impl Print, x: KeyExchange) -> io::Result<()> {
    println!(rt; "{} may be sent under: {}", Shown(x), Shown(sent_under(x)))?;
    println!(rt;
        "{} may be received under: {}",
        Shown(x),
        Shown(received_under(x))
    )?;
    for index in 0..4 {
        row(rt, x, Input::NewKey(index))?;
        row(rt, x, Input::ExistingKey(index))?;
    }
    for input in [
        Input::Tk1Expires,
        Input::Tk2Expires,
        Input::Tk3Expires,
        Input::Begin,
        Input::BeginToSend,
        Input::Rekey,
        Input::KeyCheck,
    ] {
        row(rt, x, input)?;
    }
    Ok(())
}

fn play_all(rt: &impl Print, state: u8, keys: &[(u8, u8)]) -> io::Result<()> {
    for (oldkey, newkey) in keys {
        play(
            rt,
            KeyExchange {
                state,
                oldkey: *oldkey,
                newkey: *newkey,
            },
        )?;
    }
    Ok(())
}

fn main(rt: HostRuntime) -> io::Result<()> {
    print!(&rt; "{}", Shown(recommended_starts()))?;
    play(&rt, fresh())?;
    // The first exchange, the rekey after it, and the one after that.
    for state in 1..5 {
        play_all(&rt, state, &[(0, 1), (1, 2), (2, 1)])?;
    }
    // Outside their values.
    play_all(&rt, 0, &[(0, 1), (1, 0)])?;
    play_all(&rt, 1, &[(0, 0), (0, 2)])?;
    play_all(&rt, 2, &[(1, 1)])?;
    play_all(&rt, 3, &[(2, 2)])?;
    play_all(&rt, 4, &[(3, 1), (2, 3)])?;
    play_all(&rt, 5, &[(0, 1)])?;
    play_all(&rt, 255, &[(0, 0)])
}
