// The calls of the key exchange on an XG-PON line, each with its line.
use crate::show;
use jazmotip::key_exchange::{
    InputRecord, jazmotip_xgpon_fresh, jazmotip_xgpon_received_under,
    jazmotip_xgpon_recommended_starts, jazmotip_xgpon_sent_under, jazmotip_xgpon_step,
};
use std::fmt::{Display, Formatter};
use std::{fmt, io};
use xgpon::keys::ValidKeys;
use xgpon::timers::Timers;
use xgpon::values::KeyExchange;

// An exchange as a line has it.
#[derive(Clone, Copy)]
struct Exchange(KeyExchange);

impl Display for Exchange {
    fn fmt<W: fmt::Write>(&self, f: &mut Formatter<W>) -> fmt::Result {
        let KeyExchange {
            state,
            oldkey,
            newkey,
        } = self.0;
        write!(f, "{state} {oldkey} {newkey}")
    }
}

// The flags of timers.
#[derive(Clone, Copy)]
struct Flags(Timers);

impl Display for Flags {
    fn fmt<W: fmt::Write>(&self, f: &mut Formatter<W>) -> fmt::Result {
        let Timers { tk1, tk2, tk3 } = self.0;
        write!(f, "{tk1} {tk2} {tk3}")
    }
}

fn fresh(rt: &impl Print) -> io::Result<KeyExchange> {
    let x = jazmotip_xgpon_fresh();
    println!(rt; "jazmotip_xgpon_fresh {}", Exchange(x))?;
    Ok(x)
}

fn step(rt: &impl Print, x: KeyExchange, kind: u8, index: u8) -> io::Result<KeyExchange> {
    let answer = jazmotip_xgpon_step(x, InputRecord { kind, index });
    let message = answer.message;
    show::begin(rt, "xgpon_step", answer.number)?;
    print!(rt;
        " {} {} {}",
        Exchange(answer.exchange),
        message.kind,
        message.index
    )?;
    println!(rt; " {} {}", Flags(answer.starts), Flags(answer.stops))?;
    Ok(answer.exchange)
}

fn valid(rt: &impl Print, call: &str, keys: ValidKeys) -> io::Result<()> {
    println!(rt;
        "jazmotip_{call} {} {} {}",
        keys.number, keys.oldkey, keys.newkey
    )
}

fn keys(rt: &impl Print, x: KeyExchange) -> io::Result<()> {
    valid(rt, "xgpon_sent_under", jazmotip_xgpon_sent_under(x))?;
    valid(rt, "xgpon_received_under", jazmotip_xgpon_received_under(x))
}

fn starts(rt: &impl Print) -> io::Result<()> {
    let s = jazmotip_xgpon_recommended_starts();
    println!(rt;
        "jazmotip_xgpon_recommended_starts {} {} {}",
        s.tk1, s.tk2, s.tk3
    )
}

// Asked for, reported under another index, reported, sent under and confirmed.
fn first_key(rt: &impl Print, x: KeyExchange) -> io::Result<KeyExchange> {
    let asked = step(rt, step(rt, x, 6, 0)?, 1, 2)?;
    let known = step(rt, asked, 1, 1)?;
    keys(rt, known)?;
    step(rt, step(rt, known, 7, 0)?, 2, 1)
}

// Checked, and asked for anew; the timers run out in turn.
fn second_key(rt: &impl Print, x: KeyExchange) -> io::Result<()> {
    let asked = step(rt, step(rt, x, 9, 0)?, 8, 0)?;
    let again = step(rt, step(rt, asked, 4, 0)?, 3, 0)?;
    let waiting = step(rt, step(rt, again, 1, 2)?, 7, 0)?;
    keys(rt, waiting)?;
    step(rt, step(rt, waiting, 5, 0)?, 3, 0)?;
    Ok(())
}

// Kinds are 1 to 9, states 0 to 4.
fn refusals(rt: &impl Print, x: KeyExchange) -> io::Result<()> {
    step(rt, x, 0, 0)?;
    step(rt, x, 10, 1)?;
    let outside = KeyExchange {
        state: 5,
        oldkey: 0,
        newkey: 1,
    };
    step(rt, outside, 6, 0)?;
    keys(rt, outside)
}

pub(crate) fn play(rt: &impl Print) -> io::Result<()> {
    let active = first_key(rt, fresh(rt)?)?;
    second_key(rt, active)?;
    refusals(rt, active)?;
    starts(rt)
}
