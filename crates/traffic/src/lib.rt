// Send and receive at both ends, with their octets (01, Keys; D108). Each takes the end by value and gives back the code, the end, the
// header, the octets enciphered and the runs of the cipher, and writes the output; refused, the end and the output are those that were lent.
#![tactic(auto)]

mod at_olt;
mod at_onu;
pub mod carrying;
mod travelling;

ghost use Rattle.std.specs.Prelude.{◌≡◌};
ghost use Rattle.octets.specs.Output.{with_output};
ghost use Rattle.refusal.specs.Number.{verdict_number};
ghost use Rattle.protocol.specs.OltTraffic.{receive_order, send_order};
ghost use Rattle.traffic.specs.Passages.{misfit};
ghost use Rattle.traffic.specs.Receipts.{olt_receive_of, onu_receive_of};
ghost use Rattle.traffic.specs.Sends.{olt_send_of, onu_send_of};

use ends::{Olt, Onu};
use octets::EQ_OCTETS;
use olt::place::locate;
use protocol::Header;
use refusal::verdict_number;
use unit::unit_traffic;

#[repr(C)]
#[derive(Clone, Copy)]
pub struct OltSent {
    pub number: u8,
    pub olt: Olt,
    pub header: Header,
    pub count: u64,
    pub runs: u64,
}

#[repr(C)]
#[derive(Clone, Copy)]
pub struct OltReceived {
    pub number: u8,
    pub olt: Olt,
    pub count: u64,
    pub runs: u64,
}

#[repr(C)]
#[derive(Clone, Copy)]
pub struct OnuSent {
    pub number: u8,
    pub onu: Onu,
    pub header: Header,
    pub count: u64,
    pub runs: u64,
}

#[repr(C)]
#[derive(Clone, Copy)]
pub struct OnuReceived {
    pub number: u8,
    pub onu: Onu,
    pub count: u64,
    pub runs: u64,
}

#[tactic(auto, unfolding(unit::specs::Reached::sent_outcome, crate::specs::Passages::misfit, ends::specs::Table::past_unit))]
pub fn olt_send(olt: Olt, llid: u16, channel: u8, payload: &[u8], output: &mut [u8]) -> OltSent
    ensures output_after { with_output result output.new ≡ olt_send_of olt llid channel payload.now output.old }
    ensures order { result.number ≡ verdict_number (send_order olt (misfit payload.now output.old) llid channel) }
{
    let mut r = olt;
    let ahead = at_olt::send_ahead(payload.len(), output.len(), channel);
    let at = locate(r, ahead, llid);
    let i = at.place;
    let way = at.verdict;
    let unit = r.units[i];
    let eqs = (payload.len() / EQ_OCTETS) as u64;
    let done = unit_traffic::send(way, r.shared, unit, llid, channel, eqs);
    let verdict = done.verdict;
    let mut next = unit;
    next.keys.timer.flag = done.flag;
    next.keys.active = done.active;
    next.keys.first.noted = done.noted;
    next.keys.first.at = done.at;
    let channels = done.channels;
    let sending = done.sending;
    let header = sending.header;
    let passage = sending.passage;
    let work = carrying::carry_accepted(verdict, passage, channel, payload, output);
    let number = verdict_number(verdict);
    r.shared.channels.zero = channels.zero;
    r.shared.channels.one = channels.one;
    r.units[i] = next;
    OltSent {
        number,
        olt: r,
        header,
        count: work.count,
        runs: work.runs,
    }
}

#[tactic(auto, unfolding(protocol::specs::Lift::outcome, crate::specs::Passages::misfit, ends::specs::Table::past_unit))]
pub fn olt_receive(olt: Olt, header: Header, octets: &[u8], output: &mut [u8]) -> OltReceived
    ensures output_after { with_output result output.new ≡ olt_receive_of olt header octets.now output.old }
    ensures order { result.number ≡ verdict_number (receive_order olt (misfit octets.now output.old) header) }
{
    let mut r = olt;
    let ahead = at_olt::receive_ahead(octets.len(), output.len(), header);
    let at = locate(r, ahead, header.llid);
    let i = at.place;
    let way = at.verdict;
    let unit = r.units[i];
    let done = unit_traffic::receive(way, r.shared, unit, header);
    let verdict = done.verdict;
    let next = done.after;
    let passage = done.handed;
    let work = carrying::carry_accepted(verdict, passage, header.channel, octets, output);
    let number = verdict_number(verdict);
    r.units[i] = next;
    OltReceived {
        number,
        olt: r,
        count: work.count,
        runs: work.runs,
    }
}

#[tactic(auto, using(crate::proofs::Passages::few_eqs, crate::proofs::Sends::onu_send_fits), unfolding(crate::specs::Passages::onu_decided, crate::specs::Passages::misfit))]
pub fn onu_send(onu: Onu, llid: u16, channel: u8, payload: &[u8], output: &mut [u8]) -> OnuSent
    ensures { with_output result output.new ≡ onu_send_of onu llid channel payload.now output.old }
{
    let misfit = carrying::misfit(payload.len(), output.len());
    let decided = at_onu::send(
        onu,
        misfit,
        llid,
        channel,
        (payload.len() / EQ_OCTETS) as u64,
    );
    let verdict = decided.verdict;
    let next = decided.after;
    let header = decided.handed.header;
    let passage = decided.handed.passage;
    let work = carrying::carry_accepted(verdict, passage, channel, payload, output);
    OnuSent {
        number: verdict_number(verdict),
        onu: next,
        header,
        count: work.count,
        runs: work.runs,
    }
}

#[tactic(auto, using(crate::proofs::Receipts::onu_receive_fits), unfolding(crate::specs::Passages::onu_decided, crate::specs::Passages::misfit))]
pub fn onu_receive(onu: Onu, header: Header, octets: &[u8], output: &mut [u8]) -> OnuReceived
    ensures { with_output result output.new ≡ onu_receive_of onu header octets.now output.old }
{
    let misfit = carrying::misfit(octets.len(), output.len());
    let decided = at_onu::receive(onu, misfit, header);
    let verdict = decided.verdict;
    let next = decided.after;
    let passage = decided.handed;
    let work = carrying::carry_accepted(verdict, passage, header.channel, octets, output);
    OnuReceived {
        number: verdict_number(verdict),
        onu: next,
        count: work.count,
        runs: work.runs,
    }
}
