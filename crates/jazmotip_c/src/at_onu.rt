// The calls of the ONU with the groups that it joined, for C.
ghost use Rattle.std.specs.Prelude.{◌≡◌};
ghost use Rattle.octets.specs.Output.{with_output};
ghost use Rattle.subscriber.specs.SubscriberCalls.{fresh_subscriber_of, join_of, subscriber_advance_of, subscriber_clock_message_of, subscriber_key_message_of, subscriber_new_time_of};
ghost use Rattle.subscriber.specs.SubscriberTraffic.{subscriber_receive_of, subscriber_send_of};

use clock::Stamps;
use ends::Identity;
use group_protocol::Subscriber;
use protocol::{Header, KeyMessage};
use subscriber::{SubscriberAcknowledged, SubscriberAnswer, SubscriberReceived, SubscriberSent};

#[unsafe(no_mangle)]
pub extern "C" fn jazmotip_onu_fresh(identity: Identity, oltmac: u64, time: u64) -> SubscriberAnswer
    ensures { result ≡ fresh_subscriber_of identity oltmac time }
{
    jazmotip::at_onu::jazmotip_onu_fresh(identity, oltmac, time)
}

#[unsafe(no_mangle)]
pub extern "C" fn jazmotip_onu_join(onu: Subscriber, llid: u16) -> SubscriberAnswer
    ensures { result ≡ join_of onu llid }
{
    jazmotip::at_onu::jazmotip_onu_join(onu, llid)
}

#[unsafe(no_mangle)]
pub extern "C" fn jazmotip_onu_advance(onu: &mut Subscriber, n: u64) -> u8
    ensures { (result ≡ (subscriber_advance_of onu.old n).number)
        × (onu.new ≡ (subscriber_advance_of onu.old n).subscriber) }
{
    jazmotip::at_onu::jazmotip_onu_advance(onu, n)
}

#[unsafe(no_mangle)]
pub extern "C" fn jazmotip_onu_new_time(onu: Subscriber, time: u64) -> SubscriberAnswer
    ensures { result ≡ subscriber_new_time_of onu time }
{
    jazmotip::at_onu::jazmotip_onu_new_time(onu, time)
}

#[unsafe(no_mangle)]
pub extern "C" fn jazmotip_onu_clock_message(
    onu: Subscriber,
    message: Stamps,
) -> SubscriberAcknowledged
    ensures { result ≡ subscriber_clock_message_of onu message }
{
    jazmotip::at_onu::jazmotip_onu_clock_message(onu, message)
}

#[unsafe(no_mangle)]
pub extern "C" fn jazmotip_onu_key_message(
    onu: Subscriber,
    message: KeyMessage,
) -> SubscriberAcknowledged
    ensures { result ≡ subscriber_key_message_of onu message }
{
    jazmotip::at_onu::jazmotip_onu_key_message(onu, message)
}

#[unsafe(no_mangle)]
pub extern "C" fn jazmotip_onu_send(
    onu: Subscriber,
    llid: u16,
    channel: u8,
    payload: &[u8],
    output: &mut [u8],
) -> SubscriberSent
    ensures { with_output result output.new ≡ subscriber_send_of onu llid channel payload.now output.old }
{
    jazmotip::at_onu::jazmotip_onu_send(onu, llid, channel, payload, output)
}

#[unsafe(no_mangle)]
pub extern "C" fn jazmotip_onu_receive(
    onu: Subscriber,
    header: Header,
    octets: &[u8],
    output: &mut [u8],
) -> SubscriberReceived
    ensures { with_output result output.new ≡ subscriber_receive_of onu header octets.now output.old }
{
    jazmotip::at_onu::jazmotip_onu_receive(onu, header, octets, output)
}
