// The parts of a line.
use std::fmt;
use std::fmt::{Display, Formatter};
use xgpon::answers::{Answer, CONFIRM, GENERATE, KeyControl};
use xgpon::keys::ValidKeys;
use xgpon::moves::Input;
use xgpon::timers::{TimerStarts, Timers};
use xgpon::values::KeyExchange;

// A value of the library as a line has it.
#[derive(Clone, Copy)]
pub(crate) struct Shown<T>(pub T);

// The timers with a sign ahead of each.
#[derive(Clone, Copy)]
struct Signed(char, Timers);

impl Display for Shown<KeyExchange> {
    fn fmt<W: fmt::Write>(&self, f: &mut Formatter<W>) -> fmt::Result {
        let KeyExchange {
            state,
            oldkey,
            newkey,
        } = self.0;
        write!(f, "KL{state} {oldkey} {newkey}")
    }
}

impl Display for Shown<Input> {
    fn fmt<W: fmt::Write>(&self, f: &mut Formatter<W>) -> fmt::Result {
        match self.0 {
            Input::NewKey(index) => write!(f, "Key_Report(NewKey) {index}"),
            Input::ExistingKey(index) => write!(f, "Key_Report(ExistingKey) {index}"),
            Input::Tk1Expires => f.write_str("TK1 expires"),
            Input::Tk2Expires => f.write_str("TK2 expires"),
            Input::Tk3Expires => f.write_str("TK3 expires"),
            Input::Begin => f.write_str("begin key exchange"),
            Input::BeginToSend => f.write_str("begin to send with the new key"),
            Input::Rekey => f.write_str("rekey"),
            Input::KeyCheck => f.write_str("key check"),
        }
    }
}

impl Display for Shown<KeyControl> {
    fn fmt<W: fmt::Write>(&self, f: &mut Formatter<W>) -> fmt::Result {
        let KeyControl { kind, index } = self.0;
        match kind {
            GENERATE => write!(f, " Generate {index}"),
            CONFIRM => write!(f, " Confirm {index}"),
            _ => Ok(()),
        }
    }
}

impl Display for Signed {
    fn fmt<W: fmt::Write>(&self, f: &mut Formatter<W>) -> fmt::Result {
        let Signed(sign, Timers { tk1, tk2, tk3 }) = *self;
        for (flag, name) in [(tk1, 1), (tk2, 2), (tk3, 3)] {
            if flag == 1 {
                write!(f, " {sign}TK{name}")?;
            }
        }
        Ok(())
    }
}

impl Display for Shown<Answer> {
    fn fmt<W: fmt::Write>(&self, f: &mut Formatter<W>) -> fmt::Result {
        let Answer {
            number,
            exchange,
            message,
            starts,
            stops,
        } = self.0;
        write!(
            f,
            "{number} {}{}{}{}",
            Shown(exchange),
            Shown(message),
            Signed('+', starts),
            Signed('-', stops),
        )
    }
}

impl Display for Shown<ValidKeys> {
    fn fmt<W: fmt::Write>(&self, f: &mut Formatter<W>) -> fmt::Result {
        let ValidKeys {
            number,
            oldkey,
            newkey,
        } = self.0;
        write!(f, "{number} {oldkey} {newkey}")
    }
}

// A line for each timer.
impl Display for Shown<TimerStarts> {
    fn fmt<W: fmt::Write>(&self, f: &mut Formatter<W>) -> fmt::Result {
        let TimerStarts { tk1, tk2, tk3 } = self.0;
        writeln!(f, "TK1 {tk1} ms")?;
        writeln!(f, "TK2 {tk2} ms")?;
        writeln!(f, "TK3 {tk3} ms")
    }
}
