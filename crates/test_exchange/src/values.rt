// Names, keys, payloads and headers.
use crate::script;
use crate::script::Numbers;
use ends::limits::MAX_CHANGES;
use ends::{FirstSend, Identity, Slots};
use group_protocol::{Answer, Roster};
use protocol::{Header, KeyMessage};

pub const OLT_MAC: u64 = 0x0200_0000_0001;

// LLIDs 5 and 6.
pub(crate) fn unit() -> Identity {
    Identity {
        mac: 0x0200_0000_0002,
        llids: [5, 6, 7, 8],
        count: 2,
    }
}

// MAC, two LLIDs, and how many of four places are in use.
pub(crate) fn identity(n: Numbers) -> Identity {
    Identity {
        mac: n.a,
        llids: [script::u16_of(n.b), script::u16_of(n.c), 7, 8],
        count: script::u8_of(n.d),
    }
}

// A unit counts travel from 2^61 below zero.
pub(crate) fn travelled(travel: u64) -> u64 {
    travel.wrapping_add(MAX_CHANGES)
}

// The same from zero, of a first send that is noted.
pub(crate) fn first_travel(first: FirstSend) -> u64 {
    if first.noted == 0 {
        return first.at;
    }
    first.at.wrapping_sub(MAX_CHANGES)
}

// A key by its first octet; 0 is the key of zeros.
pub(crate) fn key(first: u64) -> [u8; 16] {
    if first == 0 {
        return [0; 16];
    }
    let octet = script::u8_of(first);
    [octet, 1, 2, 3, 4, 5, 6, 7, 8, 9, 10, 11, 12, 13, 14, 15]
}

// Key n has the first octet 17; `other` is that of the key in the other slot.
pub(crate) fn slots(n: u32, other: u64) -> Slots {
    let zeros = Slots {
        even: [0; 16],
        odd: [0; 16],
    };
    let one = ends::keyslots::with_key(zeros, n, key(17));
    ends::keyslots::with_key(one, 1 - n % 2, key(other))
}

// Kind and number, after an LLID; then whether a unit is named, and by which LLID.
pub(crate) fn acknowledgement(n: Numbers) -> Answer {
    Answer {
        kind: script::u8_of(n.b),
        named: script::u8_of(n.d),
        unit: script::u16_of(n.e),
        number: script::u32_of(n.c),
    }
}

fn higher(llid: u64, n: u64) -> u16 {
    script::u16_of(llid.wrapping_add(n))
}

// How many members, and the LLIDs that name the first three; each one after is four higher than the one before.
pub(crate) fn roster(count: u64, one: u64, two: u64, three: u64) -> Roster {
    Roster {
        llids: [
            script::u16_of(one),
            script::u16_of(two),
            script::u16_of(three),
            higher(three, 4),
            higher(three, 8),
            higher(three, 12),
            higher(three, 16),
            higher(three, 20),
        ],
        count: script::u8_of(count),
    }
}

// LLID, number and the first octet of the key.
pub(crate) fn key_message(n: Numbers) -> KeyMessage {
    let llid = script::u16_of(n.a);
    let number = script::u32_of(n.b);
    let key = key(n.c);
    KeyMessage { llid, number, key }
}

// Channel index, LLID, EncEnabled, EncKey and EPAM.
pub(crate) fn header(n: Numbers) -> Header {
    Header {
        channel: script::u8_of(n.a),
        llid: script::u16_of(n.b),
        encenabled: script::u8_of(n.c),
        enckey: script::u8_of(n.d),
        epam: script::u8_of(n.e),
    }
}

// Four EQs, the first three with those control octets.
pub(crate) fn payload(a: u64, b: u64, c: u64) -> [u8; 36] {
    let mut eqs = *b"\x00\x10\x11\x12\x13\x14\x15\x16\x17\
       \x00\x20\x21\x22\x23\x24\x25\x26\x27\
       \x00\x30\x31\x32\x33\x34\x35\x36\x37\
       \x00\x40\x41\x42\x43\x44\x45\x46\x47";
    eqs[0] = script::u8_of(a);
    eqs[9] = script::u8_of(b);
    eqs[18] = script::u8_of(c);
    eqs
}
