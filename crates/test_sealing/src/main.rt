// Seals payloads and prints, case by case, code, count and a sum over the output: against values that an independent
// AES-128 in counter mode gave, with the mask of 01 applied (tools/test_sealing.py). In place, the runs of the cipher stand beside the count.
#![tactic(auto)]

ghost use Rattle.std.specs.Prelude.{◌≤◌};

use cipher::{aes128, key_expansion};
use envelope::Nonce;
use sealing::counter_mode;
use std::io;

// Room for a payload.
const ROOM: usize = 65536;

const KEY_0: [u8; 16] = *b"\x2b\x7e\x15\x16\x28\xae\xd2\xa6\xab\xf7\x15\x88\x09\xcf\x4f\x3c";

const KEY_1: [u8; 16] = [0, 1, 2, 3, 4, 5, 6, 7, 8, 9, 10, 11, 12, 13, 14, 15];

// The control octets of a payload's EQs: one value for all; mixed; mixed in three of ten blocks and FF hex in the others.
#[derive(Clone, Copy)]
enum Control {
    All(u8),
    Mixed,
    MostlyFf,
}

impl Control {
    // That of EQ e.
    fn at(self, e: usize) -> u8 {
        match self {
            Control::All(x) => x,
            Control::MostlyFf if e / 2 % 10 < 7 => 0xff,
            _ => ((e % 256 * 37 + 11) % 256) as u8,
        }
    }

    fn fill(self, payload: &mut [u8]) {
        for (i, x) in payload.iter_mut().enumerate() {
            *x = if i % 9 == 0 {
                self.at(i / 9)
            } else {
                ((i % 256 * 7 + i / 256 % 256 + 3) % 256) as u8
            };
        }
    }
}

// How a payload is made and sealed.
#[derive(Clone, Copy)]
struct Case {
    enciphered: bool,
    key: [u8; 16],
    nonce: Nonce,
    control: Control,
}

const NONCE: Nonce = Nonce {
    channel: 0x00,
    mac: 0x0200_0000_0001,
    clock: 0x41,
};

const CASE: Case = Case {
    enciphered: true,
    key: KEY_0,
    nonce: NONCE,
    control: Control::Mixed,
};

// A sum that tells the order of the octets too.
fn digest(s: &[u8]) -> u64 {
    s.iter().fold(1, |sum, x| {
        (sum % 4294967296 * 16777619 + u64::from(*x)) % 4294967296
    })
}

fn print_octets(rt: &impl Print, s: &[u8]) -> io::Result<()> {
    for x in s {
        print!(rt; "{x:02x}")?;
    }
    Ok(())
}

fn print_number(rt: &impl Print, n: u64) -> io::Result<()> {
    print!(rt; "{n} ")
}

// Fills the input, seals it and prints code, count, sum and the first octets of the output.
fn print_sealed(
    rt: &impl Print,
    case: Case,
    input: &mut [u8],
    output: &mut [u8],
) -> io::Result<()> {
    let Case {
        enciphered,
        key,
        nonce,
        control,
    } = case;
    control.fill(input);
    let answer = counter_mode::seal(enciphered, key, nonce, input, output);
    print_number(rt, envelope::seal_number(answer) as u64)?;
    print_number(rt, envelope::seal_count(answer))?;
    print!(rt; "{:08x}", digest(output))?;
    if matches!(output.len(), 1..=27) {
        print!(rt; " ")?;
        print_octets(rt, output)?;
    }
    println!(rt)
}

fn sealed(rt: &impl Print, case: Case, eqs: usize) -> io::Result<()>
    requires { eqs ≤ 5000 }
{
    let n = 9 * eqs;
    let mut input = [0u8; ROOM];
    let mut output = [0u8; ROOM];
    print_sealed(rt, case, &mut input[..n], &mut output[..n])
}

// Lengths that are refused, or values out of range.
fn refused(rt: &impl Print, n: usize, m: usize, channel: u8, mac: u64, clock: u64) -> io::Result<()>
    requires input { n ≤ 40 }
    requires output { m ≤ 40 }
{
    let nonce = Nonce {
        channel,
        mac,
        clock,
    };
    let control = Control::All(0);
    let mut input = [0u8; 40];
    let mut output = [0xaau8; 40];
    print_sealed(
        rt,
        Case {
            nonce,
            control,
            ..CASE
        },
        &mut input[..n],
        &mut output[..m],
    )
}

// Counter blocks and the cipher blocks that they give.
fn counters(rt: &impl Print) -> io::Result<()> {
    println!(rt; "counter block, cipher block")?;
    let nonce = Nonce {
        channel: 0x80,
        ..NONCE
    };
    for index in [0, 2, 65536, 2097151] {
        let block = envelope::counter_block(nonce, index);
        print_octets(rt, &block)?;
        print!(rt; " ")?;
        let cipher = aes128::encrypt_block(key_expansion::expand_key(KEY_1), block);
        print_octets(rt, &cipher)?;
        println!(rt)?;
    }
    Ok(())
}

fn masks(rt: &impl Print) -> io::Result<()> {
    println!(rt; "control octets 00, 01, 80, 81, ff, mixed")?;
    for control in [
        Control::All(0x00),
        Control::All(0x01),
        Control::All(0x80),
        Control::All(0x81),
        Control::All(0xff),
        Control::Mixed,
    ] {
        sealed(rt, Case { control, ..CASE }, 2)?;
    }
    Ok(())
}

fn lengths(rt: &impl Print) -> io::Result<()> {
    println!(rt; "0, 1, 2, 3, 7, 64, 1500, 4999 and 5000 EQs")?;
    let nonce = Nonce {
        channel: 0x01,
        ..NONCE
    };
    let case = Case {
        key: KEY_1,
        nonce,
        ..CASE
    };
    for eqs in [0, 1, 2, 3, 7, 64, 1500, 4999, 5000] {
        sealed(rt, case, eqs)?;
    }
    Ok(())
}

fn sealed_under(rt: &impl Print, channel: u8, mac: u64, clock: u64, eqs: usize) -> io::Result<()>
    requires { eqs ≤ 5000 }
{
    let nonce = Nonce {
        channel,
        mac,
        clock,
    };
    sealed(rt, Case { nonce, ..CASE }, eqs)
}

fn nonces(rt: &impl Print) -> io::Result<()> {
    println!(rt; "channel indices, MACs and clocks at their ends; clear")?;
    sealed_under(rt, 0x80, 0x0200_0000_0001, 0x41, 3)?;
    sealed_under(rt, 0x81, 0x0200_0000_0001, 0x41, 3)?;
    sealed_under(rt, 0x00, 0, 0, 3)?;
    sealed_under(rt, 0x81, 0xffff_ffff_ffff, 0xffff_ffff_ffff, 3)?;
    sealed_under(rt, 0x80, 0x1234_5678_9abc, 0xffff_ffff_ffff, 5)?;
    let clear = Case {
        enciphered: false,
        ..CASE
    };
    sealed(rt, clear, 3)?;
    let nonce = Nonce {
        channel: 0x81,
        ..NONCE
    };
    let long = Case {
        key: KEY_1,
        nonce,
        control: Control::All(0x00),
        ..clear
    };
    sealed(rt, long, 1500)
}

fn refusals(rt: &impl Print) -> io::Result<()> {
    println!(rt; "refused: lengths, channel index, MAC, clock, a length before a value")?;
    refused(rt, 10, 10, 0, 1, 1)?;
    refused(rt, 18, 9, 0, 1, 1)?;
    refused(rt, 18, 27, 0, 1, 1)?;
    refused(rt, 18, 18, 0x02, 1, 1)?;
    refused(rt, 18, 18, 0x7f, 1, 1)?;
    refused(rt, 18, 18, 0x82, 1, 1)?;
    refused(rt, 18, 18, 0xff, 1, 1)?;
    refused(rt, 18, 18, 0, 0x1_0000_0000_0000, 1)?;
    refused(rt, 18, 18, 0, 1, 0x1_0000_0000_0000)?;
    refused(rt, 10, 10, 0x02, 1, 1)?;
    refused(rt, 18, 18, 0, 0xffff_ffff_ffff, 0xffff_ffff_ffff)
}

// Seals a payload of n octets in its place and prints code, count, runs of the cipher and sum.
fn work(
    rt: &impl Print,
    enciphered: bool,
    control: Control,
    n: usize,
    channel: u8,
) -> io::Result<()>
    requires { n ≤ 65536 }
{
    let nonce = Nonce { channel, ..NONCE };
    let mut room = [0u8; ROOM];
    let payload = &mut room[..n];
    control.fill(payload);
    let answer = counter_mode::seal_in_place(enciphered, KEY_1, nonce, payload);
    print_number(rt, envelope::seal_number(answer) as u64)?;
    print_number(rt, envelope::seal_count(answer))?;
    print_number(rt, envelope::seal_runs(answer))?;
    println!(rt; "{:08x}", digest(payload))
}

// Payloads of 0, 1, 2, 3, 20, 1499 and 1500 EQs.
fn works(rt: &impl Print, control: Control) -> io::Result<()> {
    for n in [0, 9, 18, 27, 180, 13491, 13500] {
        work(rt, true, control, n, 0x80)?;
    }
    Ok(())
}

fn runs(rt: &impl Print) -> io::Result<()> {
    println!(rt; "runs: control octets ff")?;
    works(rt, Control::All(0xff))?;
    println!(rt; "runs: control octets fe")?;
    works(rt, Control::All(0xfe))?;
    println!(rt; "runs: seven of ten blocks ff")?;
    works(rt, Control::MostlyFf)?;
    println!(rt; "runs: clear; refused")?;
    let zeros = Control::All(0x00);
    work(rt, false, zeros, 27, 0x80)?;
    work(rt, true, zeros, 28, 0x80)?;
    work(rt, true, zeros, 27, 0x82)
}

fn main(rt: HostRuntime) -> io::Result<()> {
    counters(&rt)?;
    masks(&rt)?;
    lengths(&rt)?;
    nonces(&rt)?;
    refusals(&rt)?;
    runs(&rt)
}
