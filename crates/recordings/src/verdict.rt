// The verdict on two blocks, each by itself, and on the call.
ghost use Rattle.std.specs.Prelude.{◌≡◌};
ghost use Rattle.recordings.specs.Comparing.{headers_fit, block_verdict, ruled, repeat_verdict, no_denial, ruling_on};

use directory::check;
use records::block::{count, header_at};
use records::header::is_well_formed;
use refusal::{Refusal, Verdict};
use sameness::partners::is_distinct;

// The octets of the output, an entry each.
pub const OUTPUT_OCTETS: usize = 512;

// Why two blocks are not compared.
#[derive(Clone, Copy, Debug, PartialEq, Eq)]
pub struct Denial {
    pub refusal: Refusal,
    // the block that earns it, 1 or 2, or 0 where it is of the call itself
    pub block: u8,
}

pub type Ruling = Result<(), Denial>;

// A refusal that this block earns.
#[tactic(auto, unfolding(crate::specs::Comparing::ruled))]
fn ruled(block: u8, verdict: Verdict) -> Ruling
    ensures { result ≡ ruled block verdict no_denial }
{
    verdict.map_err(|refusal| Denial { refusal, block })
}

#[tactic(auto, unfolding(crate::specs::Comparing::headers_fit))]
fn are_headers_fit(block: &[u8]) -> bool
    ensures { result ≡ headers_fit block.now }
{
    (0..count(block)).all(|i| is_well_formed(header_at(block, i)))
}

// 15, 18 or 19, then 1 for any record.
#[tactic(auto, unfolding(crate::specs::Comparing::block_verdict, refusal::specs::Order::and_then, refusal::specs::Order::refuse_if))]
fn block_verdict(block: &[u8]) -> Verdict
    ensures { result ≡ block_verdict block.now }
{
    check(block)?;
    if !are_headers_fit(block) {
        return Err(Refusal::OutOfRange);
    }
    Ok(())
}

// 22.
#[tactic(auto, unfolding(crate::specs::Comparing::repeat_verdict, refusal::specs::Order::refuse_if))]
fn repeat_verdict(block: &[u8]) -> Verdict
    ensures { result ≡ repeat_verdict block.now }
{
    if !is_distinct(block) {
        return Err(Refusal::RepeatedRecord);
    }
    Ok(())
}

// 14, the first block's own refusals, the second's, then 22.
#[tactic(auto, unfolding(crate::specs::Comparing::ruling_on, crate::specs::Comparing::ruled, refusal::specs::Order::refuse_if, crate::specs::Comparing::repeat_verdict))]
pub(crate) fn rule(size: usize, a: &[u8], b: &[u8]) -> Ruling
    ensures { result ≡ ruling_on size a.now b.now }
{
    if size != OUTPUT_OCTETS {
        return ruled(0, Err(Refusal::BadLength));
    }
    ruled(1, block_verdict(a))?;
    ruled(2, block_verdict(b))?;
    ruled(1, repeat_verdict(a))?;
    ruled(2, repeat_verdict(b))
}
