// Which records of two blocks pair: channel index, LLID and clock agree.
ghost use Rattle.std.specs.Prelude.{◌≡◌, ◌-◌};
ghost use Rattle.records.specs.Block.{record_of};
ghost use Rattle.sameness.specs.Pairing.{keys_agree, first_from, distinct};

use records::block::{count, header_at};
use records::header::Header;

#[tactic(auto, unfolding(crate::specs::Pairing::keys_agree, octets::specs::Choice::both))]
fn keys_agree(g: Header, h: Header) -> bool
    ensures { result ≡ keys_agree g h }
{
    (g.channel, g.llid, g.clock) == (h.channel, h.llid, h.clock)
}

// The first record of b, from record `from` of n on, that pairs with record i of a, or n where none does.
pub fn first_from(a: &[u8], i: u16, b: &[u8], from: u16, n: u16) -> u16
    ensures { result ≡ first_from (record_of a.now i) b.now from (n - from) }
{
    let key = header_at(a, i);
    (from..n)
        .find(|&j| keys_agree(key, header_at(b, j)))
        .unwrap_or(n.max(from))
}

// Whether no two records of a block agree in all three.
pub fn is_distinct(block: &[u8]) -> bool
    ensures { result ≡ distinct block.now }
{
    let n = count(block);
    (0..n).all(|i| first_from(block, i, block, i + 1, n) == n)
}
