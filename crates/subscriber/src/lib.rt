// The calls of a unit with the groups that it joined, a subscriber (02, C-14). A call that names a group's LLID is made on the group, any other
// on the unit as 01 has it. Each takes the end by value and gives back the code, the end and what is handed over; refused, the end and the
// output are those that were lent.

#![tactic(auto)]

pub mod at_subscriber;
pub mod subscriber_traffic;

use group_protocol::{Answer, Subscriber};
use protocol::Header;

#[repr(C)]
#[derive(Clone, Copy)]
pub struct SubscriberAnswer {
    pub number: u8,
    pub subscriber: Subscriber,
}

#[derive(Clone, Copy)]
pub struct SubscriberMoved {
    pub subscriber: Subscriber,
    pub number: u8,
}

#[repr(C)]
#[derive(Clone, Copy)]
pub struct SubscriberAcknowledged {
    pub number: u8,
    pub subscriber: Subscriber,
    pub answer: Answer,
}

#[repr(C)]
#[derive(Clone, Copy)]
pub struct SubscriberSent {
    pub number: u8,
    pub subscriber: Subscriber,
    pub header: Header,
    pub count: u64,
    pub runs: u64,
}

#[repr(C)]
#[derive(Clone, Copy)]
pub struct SubscriberReceived {
    pub number: u8,
    pub subscriber: Subscriber,
    pub count: u64,
    pub runs: u64,
}
