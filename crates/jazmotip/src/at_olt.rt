// The calls of the OLT with its groups. All take the end by value but advance, which changes the end that is lent (01, Clock).
ghost use Rattle.std.specs.Prelude.{◌≡◌, true, false};
ghost use Rattle.octets.specs.Output.{with_output};
ghost use Rattle.group_protocol.specs.declared.HeadEnd.{HeadEnd};
ghost use Rattle.headend.specs.HeadCalls.{fresh_head_of, head_acknowledge_of, head_advance_of, head_capture_of, head_clock_send_of, head_measure_of, head_offer_of, head_register_of, head_retry_of, parts_of, register_group_of};
ghost use Rattle.headend.specs.HeadTraffic.{head_receive_of, head_send_of};

use ends::{Identity, Olt};
use group_protocol::{Answer, Groups, HeadEnd, Roster};
use headend::{
    HeadAnswer, HeadClockSent, HeadKeySent, HeadReceived, HeadSent, Parts, at_head, head_traffic,
};
use protocol::Header;

// An end made of its parts. The numbers that are there are stored again, so that each part is handed on where it lies (D119).
fn whole(parts: Parts) -> HeadEnd
    ensures { (h : HeadEnd) → parts ≡ parts_of h → result ≡ h }
{
    let olt = parts.olt;
    let groups = parts.groups;
    let mut head = HeadEnd { olt, groups };
    head.olt.shared.mac = parts.mac;
    head.groups.count = parts.count;
    head
}

#[unsafe(no_mangle)]
pub extern "C" fn jazmotip_olt_fresh(mac: u64, clock: u64) -> HeadAnswer
    ensures { result ≡ fresh_head_of mac clock }
{
    at_head::fresh(mac, clock)
}

#[unsafe(no_mangle)]
pub extern "C" fn jazmotip_olt_register(
    olt: HeadEnd,
    identity: Identity,
    trip: u64,
    interval: u64,
) -> HeadAnswer
    ensures { result ≡ head_register_of olt identity trip interval }
{
    let done = at_head::register(olt, identity, trip, interval);
    let head = whole(done.parts);
    HeadAnswer {
        number: done.number,
        head,
    }
}

// A group takes a unit's place; each member is named by any LLID of its unit.
#[unsafe(no_mangle)]
pub extern "C" fn jazmotip_olt_register_group(
    olt: HeadEnd,
    llid: u16,
    interval: u64,
    roster: Roster,
) -> HeadAnswer
    ensures { result ≡ register_group_of olt llid interval roster }
{
    at_head::register_group(olt, llid, interval, roster)
}

// What an advance leaves, the groups apart: `grouped` says whether they moved.
#[derive(Clone, Copy)]
pub struct AfterAdvance {
    pub olt: Olt,
    pub number: u8,
    pub grouped: bool,
}

// The advance by value, with what the one in place needs of its contract (D116).
fn advanced(olt: HeadEnd, n: u64) -> AfterAdvance
    ensures { ((result.number ≡ (head_advance_of olt n).number) × (result.olt ≡ (head_advance_of olt n).head.olt))
        × ((result.grouped ≡ true → (head_advance_of olt n).number ≡ 0)
        × (result.grouped ≡ false → olt.groups ≡ (head_advance_of olt n).head.groups)) }
{
    let done = at_head::moved(olt, n);
    let number = done.number;
    AfterAdvance {
        olt: done.olt,
        number,
        grouped: (number == 0) & (olt.groups.count != 0),
    }
}

// The same of the groups that moved.
fn groups_after(groups: Groups, n: u64) -> Groups
    ensures { (h : HeadEnd) → h.groups ≡ groups → (head_advance_of h n).number ≡ 0 → result ≡ (head_advance_of h n).head.groups }
{
    at_head::groups_moved(groups, n)
}

// The OLT is stored, also where it is refused and so the same, and the groups where there are any.
#[unsafe(no_mangle)]
pub extern "C" fn jazmotip_olt_advance(olt: &mut HeadEnd, n: u64) -> u8
    ensures { (result ≡ (head_advance_of olt.old n).number) × (olt.new ≡ (head_advance_of olt.old n).head) }
{
    let answer = advanced(*olt, n);
    olt.olt = answer.olt;
    if answer.grouped {
        olt.groups = groups_after(olt.groups, n);
    }
    answer.number
}

#[unsafe(no_mangle)]
pub extern "C" fn jazmotip_olt_capture(olt: HeadEnd, llid: u16) -> HeadAnswer
    ensures { result ≡ head_capture_of olt llid }
{
    let done = at_head::capture(olt, llid);
    let head = whole(done.parts);
    HeadAnswer {
        number: done.number,
        head,
    }
}

// The round trip measured again (02, C-16).
#[unsafe(no_mangle)]
pub extern "C" fn jazmotip_olt_measure(olt: HeadEnd, llid: u16, trip: u64) -> HeadAnswer
    ensures { result ≡ head_measure_of olt llid trip }
{
    let done = at_head::measure(olt, llid, trip);
    let head = whole(done.parts);
    HeadAnswer {
        number: done.number,
        head,
    }
}

#[unsafe(no_mangle)]
pub extern "C" fn jazmotip_olt_clock_send(olt: HeadEnd, llid: u16) -> HeadClockSent
    ensures { result ≡ head_clock_send_of olt llid }
{
    let done = at_head::clock_send(olt, llid);
    let head = whole(done.parts);
    HeadClockSent {
        number: done.number,
        head,
        message: done.handed,
    }
}

#[unsafe(no_mangle)]
pub extern "C" fn jazmotip_olt_offer(olt: HeadEnd, llid: u16, key: &[u8; 16]) -> HeadKeySent
    ensures { result ≡ head_offer_of olt llid key.now }
{
    let done = at_head::offer(olt, llid, *key);
    let head = whole(done.parts);
    HeadKeySent {
        number: done.number,
        head,
        message: done.handed,
    }
}

#[unsafe(no_mangle)]
pub extern "C" fn jazmotip_olt_retry(olt: HeadEnd, llid: u16) -> HeadKeySent
    ensures { result ≡ head_retry_of olt llid }
{
    let done = at_head::retry(olt, llid);
    let head = whole(done.parts);
    HeadKeySent {
        number: done.number,
        head,
        message: done.handed,
    }
}

#[unsafe(no_mangle)]
pub extern "C" fn jazmotip_olt_acknowledge(
    olt: HeadEnd,
    llid: u16,
    acknowledgement: Answer,
) -> HeadAnswer
    ensures { result ≡ head_acknowledge_of olt llid acknowledgement }
{
    let done = at_head::acknowledge(olt, llid, acknowledgement);
    let head = whole(done.parts);
    HeadAnswer {
        number: done.number,
        head,
    }
}

#[unsafe(no_mangle)]
pub extern "C" fn jazmotip_olt_send(
    olt: HeadEnd,
    llid: u16,
    channel: u8,
    payload: &[u8],
    output: &mut [u8],
) -> HeadSent
    ensures { with_output result output.new ≡ head_send_of olt llid channel payload.now output.old }
{
    let done = head_traffic::send(olt, llid, channel, payload, output);
    let head = whole(done.parts);
    HeadSent {
        number: done.number,
        head,
        header: done.header,
        count: done.count,
        runs: done.runs,
    }
}

#[unsafe(no_mangle)]
pub extern "C" fn jazmotip_olt_receive(
    olt: HeadEnd,
    header: Header,
    octets: &[u8],
    output: &mut [u8],
) -> HeadReceived
    ensures { with_output result output.new ≡ head_receive_of olt header octets.now output.old }
{
    let done = head_traffic::receive(olt, header, octets, output);
    let head = whole(done.parts);
    HeadReceived {
        number: done.number,
        head,
        count: done.count,
        runs: done.runs,
    }
}
