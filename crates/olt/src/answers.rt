// Answers of the calls: a refusal gives back the end that was lent.
ghost use Rattle.std.specs.Prelude.{◌≡◌, Err};
ghost use Rattle.protocol.specs.Replies.{silent, reply};
ghost use Rattle.protocol.specs.OltCalls.{olt_answer};
ghost use Rattle.refusal.specs.Verdict.{no_refusal};

use ends::Olt;
use protocol::OltAnswer;
use refusal::Refusal;

#[tactic(auto, unfolding(protocol::specs::OltCalls::olt_answer, protocol::specs::Replies::reply))]
pub(crate) fn accepted(olt: Olt) -> OltAnswer
    ensures { result ≡ olt_answer (reply no_refusal olt silent olt silent) }
{
    OltAnswer { number: 0, olt }
}

#[tactic(auto, unfolding(protocol::specs::OltCalls::olt_answer, protocol::specs::Replies::reply))]
pub(crate) fn refused(olt: Olt, refusal: Refusal) -> OltAnswer
    ensures { result ≡ olt_answer (reply (Err refusal) olt silent olt silent) }
{
    let number = u8::from(refusal);
    OltAnswer { number, olt }
}
