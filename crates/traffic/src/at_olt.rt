// What send and receive of the OLT refuse ahead of the unit that they name (01, 'When the reader says no').
ghost use Rattle.std.specs.Prelude.{◌≡◌, not};
ghost use Rattle.refusal.specs.declared.Refusal.TheVariants.{BadLength, OutOfRange};
ghost use Rattle.envelope.specs.Acceptance.{lengths_fit};
ghost use Rattle.octets.specs.Choice.{both};
ghost use Rattle.envelope.specs.Channels.{downstream, upstream};
ghost use Rattle.protocol.specs.Headers.{valid_header};
ghost use Rattle.refusal.specs.Order.{refuse_if};
ghost use Rattle.refusal.specs.Verdict.{no_refusal};

use crate::carrying;
use envelope::{downstream, upstream};
use protocol::Header;
use refusal::{Refusal, Verdict};
use unit::passing::valid_header;

// What a send refuses ahead of 2.
#[tactic(auto, unfolding(refusal::specs::Order::refuse_if))]
pub(crate) fn send_ahead(n: usize, m: usize, channel: u8) -> Verdict
    ensures { result ≡ refuse_if (not (lengths_fit n m)) BadLength (refuse_if (not (downstream channel)) OutOfRange no_refusal) }
{
    if carrying::misfit(n, m) {
        return Err(Refusal::BadLength);
    }
    if !downstream(channel) {
        return Err(Refusal::OutOfRange);
    }
    Ok(())
}

// What a receipt refuses ahead of 2.
#[tactic(auto, unfolding(refusal::specs::Order::refuse_if, octets::specs::Choice::both))]
pub(crate) fn receive_ahead(n: usize, m: usize, header: Header) -> Verdict
    ensures { result
        ≡ refuse_if (not (lengths_fit n m)) BadLength (refuse_if (not (both (upstream header.channel) (valid_header header))) OutOfRange no_refusal) }
{
    if carrying::misfit(n, m) {
        return Err(Refusal::BadLength);
    }
    if !(upstream(header.channel) & valid_header(header)) {
        return Err(Refusal::OutOfRange);
    }
    Ok(())
}
