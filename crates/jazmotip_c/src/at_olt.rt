// The calls of the OLT with its groups, for C.
ghost use Rattle.std.specs.Prelude.{◌≡◌};
ghost use Rattle.octets.specs.Output.{with_output};
ghost use Rattle.group_protocol.specs.declared.HeadEnd.{HeadEnd};
ghost use Rattle.headend.specs.HeadCalls.{fresh_head_of, head_acknowledge_of, head_advance_of, head_capture_of, head_clock_send_of, head_measure_of, head_offer_of, head_register_of, head_retry_of, register_group_of};
ghost use Rattle.headend.specs.HeadTraffic.{head_receive_of, head_send_of};

use ends::Identity;
use group_protocol::{Answer, HeadEnd, Roster};
use headend::{HeadAnswer, HeadClockSent, HeadKeySent, HeadReceived, HeadSent};
use protocol::Header;

#[unsafe(no_mangle)]
pub extern "C" fn jazmotip_olt_fresh(mac: u64, clock: u64) -> HeadAnswer
    ensures { result ≡ fresh_head_of mac clock }
{
    jazmotip::at_olt::jazmotip_olt_fresh(mac, clock)
}

#[unsafe(no_mangle)]
pub extern "C" fn jazmotip_olt_register(
    olt: HeadEnd,
    identity: Identity,
    trip: u64,
    interval: u64,
) -> HeadAnswer
    ensures { result ≡ head_register_of olt identity trip interval }
{
    jazmotip::at_olt::jazmotip_olt_register(olt, identity, trip, interval)
}

#[unsafe(no_mangle)]
pub extern "C" fn jazmotip_olt_register_group(
    olt: HeadEnd,
    llid: u16,
    interval: u64,
    roster: Roster,
) -> HeadAnswer
    ensures { result ≡ register_group_of olt llid interval roster }
{
    jazmotip::at_olt::jazmotip_olt_register_group(olt, llid, interval, roster)
}

#[unsafe(no_mangle)]
pub extern "C" fn jazmotip_olt_advance(olt: &mut HeadEnd, n: u64) -> u8
    ensures { (result ≡ (head_advance_of olt.old n).number) × (olt.new ≡ (head_advance_of olt.old n).head) }
{
    jazmotip::at_olt::jazmotip_olt_advance(olt, n)
}

#[unsafe(no_mangle)]
pub extern "C" fn jazmotip_olt_capture(olt: HeadEnd, llid: u16) -> HeadAnswer
    ensures { result ≡ head_capture_of olt llid }
{
    jazmotip::at_olt::jazmotip_olt_capture(olt, llid)
}

#[unsafe(no_mangle)]
pub extern "C" fn jazmotip_olt_measure(olt: HeadEnd, llid: u16, trip: u64) -> HeadAnswer
    ensures { result ≡ head_measure_of olt llid trip }
{
    jazmotip::at_olt::jazmotip_olt_measure(olt, llid, trip)
}

#[unsafe(no_mangle)]
pub extern "C" fn jazmotip_olt_clock_send(olt: HeadEnd, llid: u16) -> HeadClockSent
    ensures { result ≡ head_clock_send_of olt llid }
{
    jazmotip::at_olt::jazmotip_olt_clock_send(olt, llid)
}

#[unsafe(no_mangle)]
pub extern "C" fn jazmotip_olt_offer(olt: HeadEnd, llid: u16, key: &[u8; 16]) -> HeadKeySent
    ensures { result ≡ head_offer_of olt llid key.now }
{
    jazmotip::at_olt::jazmotip_olt_offer(olt, llid, key)
}

#[unsafe(no_mangle)]
pub extern "C" fn jazmotip_olt_retry(olt: HeadEnd, llid: u16) -> HeadKeySent
    ensures { result ≡ head_retry_of olt llid }
{
    jazmotip::at_olt::jazmotip_olt_retry(olt, llid)
}

#[unsafe(no_mangle)]
pub extern "C" fn jazmotip_olt_acknowledge(
    olt: HeadEnd,
    llid: u16,
    acknowledgement: Answer,
) -> HeadAnswer
    ensures { result ≡ head_acknowledge_of olt llid acknowledgement }
{
    jazmotip::at_olt::jazmotip_olt_acknowledge(olt, llid, acknowledgement)
}

#[unsafe(no_mangle)]
pub extern "C" fn jazmotip_olt_send(
    olt: HeadEnd,
    llid: u16,
    channel: u8,
    payload: &[u8],
    output: &mut [u8],
) -> HeadSent
    ensures { with_output result output.new ≡ head_send_of olt llid channel payload.now output.old }
{
    jazmotip::at_olt::jazmotip_olt_send(olt, llid, channel, payload, output)
}

#[unsafe(no_mangle)]
pub extern "C" fn jazmotip_olt_receive(
    olt: HeadEnd,
    header: Header,
    octets: &[u8],
    output: &mut [u8],
) -> HeadReceived
    ensures { with_output result output.new ≡ head_receive_of olt header octets.now output.old }
{
    jazmotip::at_olt::jazmotip_olt_receive(olt, header, octets, output)
}
