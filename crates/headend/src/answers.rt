// Answers of a head end's calls: a refusal gives back the end that was lent.
ghost use Rattle.std.specs.Prelude.{◌≡◌, Err};
ghost use Rattle.protocol.specs.Replies.{silent, reply};
ghost use Rattle.headend.specs.HeadCalls.{head_answer};
ghost use Rattle.refusal.specs.Verdict.{no_refusal};

use crate::HeadAnswer;
use group_protocol::HeadEnd;
use refusal::Refusal;

#[tactic(auto, unfolding(crate::specs::HeadCalls::head_answer, protocol::specs::Replies::reply))]
pub(crate) fn accepted(head: HeadEnd) -> HeadAnswer
    ensures { result ≡ head_answer (reply no_refusal head silent head silent) }
{
    HeadAnswer { number: 0, head }
}

#[tactic(auto, unfolding(crate::specs::HeadCalls::head_answer, protocol::specs::Replies::reply))]
pub(crate) fn refused(head: HeadEnd, refusal: Refusal) -> HeadAnswer
    ensures { result ≡ head_answer (reply (Err refusal) head silent head silent) }
{
    let number = u8::from(refusal);
    HeadAnswer { number, head }
}
