// The payload of an envelope, at both ends alike (01, Keys; Counter block and mask).
ghost use Rattle.std.specs.Prelude.{◌≡◌, not, length};
ghost use Rattle.envelope.specs.Acceptance.{seal_verdict, lengths_fit};
ghost use Rattle.octets.specs.Output.{with_output};
ghost use Rattle.traffic.specs.Passages.{passage_nonce, passed, passed_work, carried_after, carried_fitting};
ghost use Rattle.refusal.specs.Verdict.{no_refusal};

use envelope::{NO_WORK, Nonce, Work, lengths_fit, seal_count, seal_runs, seal_verdict};
use protocol::Passage;
use refusal::{Verdict, and_then};
use sealing::counter_mode::seal;
use unit::passing::is_enciphered;

// 14: the lengths of payload and output.
pub(crate) fn misfit(n: usize, m: usize) -> bool
    ensures { result ≡ not (lengths_fit n m) }
{
    !lengths_fit(n, m)
}

// Seals or opens the payload, and gives what that took. An empty one needs no key.
#[tactic(auto, using(crate::proofs::Passages::empty_carried), unfolding(crate::specs::Passages::passed, crate::specs::Passages::passed_count, crate::specs::Passages::passed_runs))]
pub(crate) fn carry(passage: Passage, channel: u8, payload: &[u8], output: &mut [u8]) -> Work
    requires { seal_verdict (length payload.now) (length output.old) (passage_nonce channel passage) ≡ no_refusal }
    ensures { with_output result output.new
        ≡ with_output (passed_work passage payload.now) (passed channel passage payload.now) }
{
    if payload.len() == 0 {
        return NO_WORK;
    }
    let choice = passage.choice;
    let enciphered = is_enciphered(choice);
    let key = passage.key;
    let nonce = Nonce {
        channel,
        mac: passage.mac,
        clock: passage.clock,
    };
    let answer = seal(enciphered, key, nonce, payload, output);
    Work {
        count: seal_count(answer),
        runs: seal_runs(answer),
    }
}

// Refused, the output stays and nothing is counted.
#[tactic(auto, unfolding(crate::specs::Passages::carried_after))]
pub(crate) fn carry_accepted(
    verdict: Verdict,
    passage: Passage,
    channel: u8,
    payload: &[u8],
    output: &mut [u8],
) -> Work
    requires { verdict ≡ no_refusal → seal_verdict (length payload.now) (length output.old) (passage_nonce channel passage) ≡ no_refusal }
    ensures { with_output result output.new ≡ carried_after verdict channel passage payload.now output.old }
{
    match verdict {
        Ok(()) => carry(passage, channel, payload, output),
        Err(_) => NO_WORK,
    }
}

// The same for any lengths and any counter block: what sealing refuses is refused after the verdict.
#[tactic(auto, using(refusal::proofs::Order::then_accepted))]
pub fn carry_fitting(
    verdict: Verdict,
    passage: Passage,
    channel: u8,
    payload: &[u8],
    output: &mut [u8],
) -> Work
    ensures { with_output result output.new ≡ carried_fitting verdict channel passage payload.now output.old }
{
    let nonce = Nonce {
        channel,
        mac: passage.mac,
        clock: passage.clock,
    };
    let fits = seal_verdict(payload.len(), output.len(), nonce);
    carry_accepted(and_then(verdict, fits), passage, channel, payload, output)
}
