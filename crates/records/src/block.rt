// Where a block keeps its records, by its count and its pairs, whether they are right or not. What lies outside the block reads as
// zeros, and a part of it is as long as the block has octets there.
ghost use Rattle.std.specs.Prelude.{◌≡◌, ◌<◌};
ghost use Rattle.octets.specs.BigEndian.{six_octets};
ghost use Rattle.records.specs.Record.{record_header, payload_of};
ghost use Rattle.records.specs.Block.{directory_octets, records_in, offset_of, length_of, record_of, header_from};

use crate::header::{HEADER_OCTETS, Header, NUMBER_OCTETS, number_in, read};
use octets::{number16, part_of};

// The most octets of a block.
pub const MOST_OCTETS: usize = 65536;

pub const MOST_RECORDS: u16 = 256;

// The octets of the count, and of a pair.
pub const COUNT_OCTETS: usize = 2;

const PAIR_OCTETS: usize = 8;

// The octets of the count and n pairs.
pub fn directory_octets(n: u16) -> usize
    ensures { result ≡ directory_octets n }
{
    COUNT_OCTETS + PAIR_OCTETS * n as usize
}

// The count of records, in the first two octets.
#[tactic(auto, unfolding(crate::specs::Block::records_in))]
pub fn count(block: &[u8]) -> u16
    ensures { result ≡ records_in block.now }
{
    number16(block, 0)
}

#[tactic(auto, unfolding(crate::specs::Block::offset_of))]
pub fn offset(block: &[u8], i: u16) -> u32
    ensures { result ≡ offset_of block.now i }
{
    number_in(block, directory_octets(i))
}

#[tactic(auto, unfolding(crate::specs::Block::length_of))]
pub fn length_of(block: &[u8], i: u16) -> u32
    ensures { result ≡ length_of block.now i }
{
    number_in(block, directory_octets(i) + NUMBER_OCTETS)
}

// Record i, which has i others before it.
#[tactic(auto, unfolding(crate::specs::Block::record_of))]
pub fn record_at(block: &[u8], i: u16) -> &[u8]
    ensures { result.now ≡ record_of block.now i }
{
    part_of(
        block,
        offset(block, i) as usize,
        length_of(block, i) as usize,
    )
}

pub fn header_at(block: &[u8], i: u16) -> Header
    ensures value { result ≡ record_header (record_of block.now i) }
    ensures clock_lt_six_octets { result.clock < six_octets }
{
    read(record_at(block, i))
}

// The header that starts at a place.
pub fn header_from(block: &[u8], from: usize) -> Header
    ensures value { result ≡ header_from block.now from }
    ensures clock_lt_six_octets { result.clock < six_octets }
{
    read(part_of(block, from, HEADER_OCTETS))
}

// What follows the header of record i.
#[tactic(auto, unfolding(crate::specs::Record::payload_of))]
pub fn payload_at(block: &[u8], i: u16) -> &[u8]
    ensures { result.now ≡ payload_of (record_of block.now i) }
{
    let r = record_at(block, i);
    part_of(r, HEADER_OCTETS, r.len())
}
