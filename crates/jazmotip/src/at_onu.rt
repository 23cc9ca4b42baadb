// The calls of the ONU with the groups that it joined. All take the end by value but advance, which changes the end that is lent (01, Clock).
ghost use Rattle.std.specs.Prelude.{◌≡◌};
ghost use Rattle.octets.specs.Output.{with_output};
ghost use Rattle.subscriber.specs.SubscriberCalls.{fresh_subscriber_of, join_of, subscriber_advance_of, subscriber_clock_message_of, subscriber_key_message_of, subscriber_moved_of, subscriber_new_time_of};
ghost use Rattle.subscriber.specs.SubscriberTraffic.{subscriber_receive_of, subscriber_send_of};

use clock::Stamps;
use ends::Identity;
use group_protocol::Subscriber;
use protocol::{Header, KeyMessage};
use subscriber::{
    SubscriberAcknowledged, SubscriberAnswer, SubscriberMoved, SubscriberReceived, SubscriberSent,
    at_subscriber, subscriber_traffic,
};

#[unsafe(no_mangle)]
pub extern "C" fn jazmotip_onu_fresh(identity: Identity, oltmac: u64, time: u64) -> SubscriberAnswer
    ensures { result ≡ fresh_subscriber_of identity oltmac time }
{
    at_subscriber::fresh(identity, oltmac, time)
}

#[unsafe(no_mangle)]
pub extern "C" fn jazmotip_onu_join(onu: Subscriber, llid: u16) -> SubscriberAnswer
    ensures { result ≡ join_of onu llid }
{
    at_subscriber::join(onu, llid)
}

// The advance by value, with what the one in place needs of its contract.
fn advanced(onu: Subscriber, n: u64) -> SubscriberMoved
    ensures { result ≡ subscriber_moved_of onu n }
{
    at_subscriber::moved(onu, n)
}

// The whole end is stored, also where it is refused and so the same.
#[unsafe(no_mangle)]
pub extern "C" fn jazmotip_onu_advance(onu: &mut Subscriber, n: u64) -> u8
    ensures { (result ≡ (subscriber_advance_of onu.old n).number)
        × (onu.new ≡ (subscriber_advance_of onu.old n).subscriber) }
{
    let answer = advanced(*onu, n);
    *onu = answer.subscriber;
    answer.number
}

// A new LocalTime (02, C-16).
#[unsafe(no_mangle)]
pub extern "C" fn jazmotip_onu_new_time(onu: Subscriber, time: u64) -> SubscriberAnswer
    ensures { result ≡ subscriber_new_time_of onu time }
{
    at_subscriber::new_time(onu, time)
}

#[unsafe(no_mangle)]
pub extern "C" fn jazmotip_onu_clock_message(
    onu: Subscriber,
    message: Stamps,
) -> SubscriberAcknowledged
    ensures { result ≡ subscriber_clock_message_of onu message }
{
    at_subscriber::clock_message(onu, message)
}

#[unsafe(no_mangle)]
pub extern "C" fn jazmotip_onu_key_message(
    onu: Subscriber,
    message: KeyMessage,
) -> SubscriberAcknowledged
    ensures { result ≡ subscriber_key_message_of onu message }
{
    at_subscriber::key_message(onu, message)
}

#[unsafe(no_mangle)]
pub extern "C" fn jazmotip_onu_send(
    onu: Subscriber,
    llid: u16,
    channel: u8,
    payload: &[u8],
    output: &mut [u8],
) -> SubscriberSent
    ensures { with_output result output.new ≡ subscriber_send_of onu llid channel payload.now output.old }
{
    subscriber_traffic::send(onu, llid, channel, payload, output)
}

#[unsafe(no_mangle)]
pub extern "C" fn jazmotip_onu_receive(
    onu: Subscriber,
    header: Header,
    octets: &[u8],
    output: &mut [u8],
) -> SubscriberReceived
    ensures { with_output result output.new ≡ subscriber_receive_of onu header octets.now output.old }
{
    subscriber_traffic::receive(onu, header, octets, output)
}
