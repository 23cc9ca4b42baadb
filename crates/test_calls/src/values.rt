// Names, keys, payloads, settings and blocks.
use ends::Identity;
use envelope::Nonce;
use group_protocol::Roster;

pub const OLT_MAC: u64 = 0x0200_0000_0001;

// LLIDs 5 and 6.
pub(crate) fn unit() -> Identity {
    Identity {
        mac: 0x0200_0000_0002,
        llids: [5, 6, 0, 0],
        count: 2,
    }
}

// LLIDs 6 and 5 are of one unit.
pub(crate) fn roster(count: u8) -> Roster {
    Roster {
        llids: [6, 5, 0, 0, 0, 0, 0, 0],
        count,
    }
}

// The key of FIPS 197, A.1.
pub(crate) fn key() -> [u8; 16] {
    *b"\x2b\x7e\x15\x16\x28\xae\xd2\xa6\xab\xf7\x15\x88\x09\xcf\x4f\x3c"
}

// Three EQs with control octets 00, 81 and 01.
pub(crate) fn payload() -> [u8; 27] {
    *b"\x00\x10\x11\x12\x13\x14\x15\x16\x17\
       \x81\x20\x21\x22\x23\x24\x25\x26\x27\
       \x01\x30\x31\x32\x33\x34\x35\x36\x37"
}

pub(crate) fn lent() -> [u8; 27] {
    [0xaa; 27]
}

pub(crate) fn nonce() -> Nonce {
    Nonce {
        channel: 0x81,
        mac: OLT_MAC,
        clock: 0x41,
    }
}

// Two keys, of which 1 is the one above, the OLT's MAC and LLID 5.
pub(crate) fn settings() -> [u8; 41] {
    *b"\x03\
       \x00\x01\x02\x03\x04\x05\x06\x07\x08\x09\x0a\x0b\x0c\x0d\x0e\x0f\
       \x2b\x7e\x15\x16\x28\xae\xd2\xa6\xab\xf7\x15\x88\x09\xcf\x4f\x3c\
       \x02\x00\x00\x00\x00\x01\
       \x00\x05"
}

// A clear record without EQs and one of `eqs` EQs, sealed under key 1; 18, 16, 34 and 1 are right.
pub(crate) fn block(first: u8, length: u8, second: u8, eqs: u8) -> [u8; 59] {
    let mut r = *b"\x00\x02\
       \x00\x00\x00\x00\x00\x00\x00\x00\
       \x00\x00\x00\x00\x00\x00\x00\x19\
       \x00\x00\x00\x05\x00\x01\x00\x00\x00\x00\x00\x41\x00\x00\x00\x00\
       \x00\x00\x00\x05\x03\x01\x00\x00\x00\x00\x00\x41\x00\x00\x00\x00\
       \x00\xe2\xa1\x3c\xb2\x95\x34\xd1\x0e";
    r[5] = first;
    r[9] = length;
    r[13] = second;
    r[49] = eqs;
    r
}

// The settings of 01's example: no key is present.
pub(crate) fn example_settings() -> [u8; 41] {
    *b"\x00\
       \x00\x00\x00\x00\x00\x00\x00\x00\x00\x00\x00\x00\x00\x00\x00\x00\
       \x00\x00\x00\x00\x00\x00\x00\x00\x00\x00\x00\x00\x00\x00\x00\x00\
       \x02\x00\x00\x00\x00\x01\
       \x00\x05"
}

// The block of 01's example.
pub(crate) fn example() -> [u8; 50] {
    *b"\x00\x02\
       \x00\x00\x00\x12\x00\x00\x00\x10\
       \x00\x00\x00\x22\x00\x00\x00\x10\
       \x00\x00\x00\x05\x00\x01\x00\x00\x00\x00\x00\x41\x00\x00\x00\x00\
       \x00\x00\x00\x05\x01\x02\x00\x00\x00\x00\x00\x42\x00\x00\x00\x00"
}
