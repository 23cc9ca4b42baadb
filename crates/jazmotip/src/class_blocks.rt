// The reader of a class (02, C-19): a capture block opened and listed for the user who asks, in the usual direction and in the near one, and
// the loading of a key.
ghost use Rattle.std.specs.Prelude.{◌≡◌, true, false, ◌≤◌, length, take, drop};
ghost use Rattle.octets.specs.Output.{with_output};
ghost use Rattle.rights.specs.Loading.{loading};
ghost use Rattle.rights.specs.Claims.{LoadsOne};
ghost use Rattle.class.specs.Opening.{opening_for};
ghost use Rattle.class.specs.Listing.{listing_for};
ghost use Rattle.class.specs.Secrecy.{Secret, Example};
ghost use Rattle.class.specs.Claims.{Reader};
ghost use Rattle.jazmotip.specs.Blocks.{nearly_opened};
ghost use Rattle.jazmotip.specs.Class.{opened_for, key_loaded};

use crate::blocks::{BlockAnswer, answer_in_numbers};
use crate::near_blocks::BlockNearAnswer;
use class::listing::{LISTING_OCTETS, list_for};
use class::opening::open_for;
use refusal::verdict_number;
use rights::loading::load;
use rights::settings::Caller;

// A hidden record is written as zeros but for its EQs, a seen one is copied.
#[unsafe(no_mangle)]
pub extern "C" fn jazmotip_class_open(
    caller: Caller,
    sets: &[u8],
    rights: &[u8],
    block: &[u8],
    output: &mut [u8],
) -> BlockAnswer
    ensures output_after { with_output result output.new
        ≡ opened_for (opening_for false caller sets.now rights.now block.now output.old) }
    ensures secret { Secret false caller sets.now rights.now block.now output.old }
    ensures reader { Reader false caller sets.now rights.now block.now output.old }
    ensures example { Example }
{
    answer_in_numbers(open_for(false, caller, sets, rights, block, output).opened)
}

#[unsafe(no_mangle)]
pub extern "C" fn jazmotip_class_open_near(
    caller: Caller,
    sets: &[u8],
    rights: &[u8],
    block: &[u8],
    output: &mut [u8],
) -> BlockNearAnswer
    ensures output_after { with_output result output.new
        ≡ nearly_opened (opening_for true caller sets.now rights.now block.now output.old) }
    ensures secret { Secret true caller sets.now rights.now block.now output.old }
    ensures reader { Reader true caller sets.now rights.now block.now output.old }
    ensures example { Example }
{
    let near = open_for(true, caller, sets, rights, block, output);
    BlockNearAnswer {
        answer: answer_in_numbers(near.opened),
        smallest: near.smallest,
        largest: near.largest,
    }
}

// Lists a block for the user who asks, and gives the length of the text.
#[unsafe(no_mangle)]
pub extern "C" fn jazmotip_class_list(
    caller: Caller,
    sets: &[u8],
    rights: &[u8],
    block: &[u8],
    text: &mut [u8; LISTING_OCTETS],
) -> usize
    ensures upper_bound { (result ≤ length text.new) × (result ≡ length (take result text.new)) }
    ensures text_after { take result text.new ≡ listing_for false caller sets.now rights.now block.now }
    ensures text_unchanged { drop result text.new ≡ drop result text.old }
{
    list_for(false, caller, sets, rights, block, text)
}

#[unsafe(no_mangle)]
pub extern "C" fn jazmotip_class_list_near(
    caller: Caller,
    sets: &[u8],
    rights: &[u8],
    block: &[u8],
    text: &mut [u8; LISTING_OCTETS],
) -> usize
    ensures upper_bound { (result ≤ length text.new) × (result ≡ length (take result text.new)) }
    ensures text_after { take result text.new ≡ listing_for true caller sets.now rights.now block.now }
    ensures text_unchanged { drop result text.new ≡ drop result text.old }
{
    list_for(true, caller, sets, rights, block, text)
}

// Loads key 0 or 1 of an LLID into the sets that are lent; nothing else of them changes, and nothing where it is refused.
#[unsafe(no_mangle)]
pub extern "C" fn jazmotip_class_load(
    caller: Caller,
    sets: &mut [u8],
    rights: &[u8],
    llid: u16,
    index: u8,
    key: &[u8; 16],
) -> u8
    ensures sets_after { with_output result sets.new
        ≡ key_loaded (loading caller sets.old rights.now llid index key.now) }
    ensures loads_one { LoadsOne caller sets.old rights.now llid index key.now }
{
    verdict_number(load(caller, sets, rights, llid, index, key))
}
