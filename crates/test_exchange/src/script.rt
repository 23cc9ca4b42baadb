// Reading the script: words and numbers, one space apart. A number is decimal, hexadecimal as 0x41, or a power of 2 as 2^48, and may
// have another added or taken away, as 2^48-1.
ghost use Rattle.std.specs.Prelude.{◌≤◌, ◌<◌, length, IfSome};

// Up to six numbers after a word; those that are not there are 0.
#[derive(Clone, Copy)]
pub struct Numbers {
    pub a: u64,
    pub b: u64,
    pub c: u64,
    pub d: u64,
    pub e: u64,
    pub f: u64,
}

// The word that a row begins with, and what stands after the space or the line end behind it; none where nothing is left.
pub(crate) fn split_word(row: &[u8]) -> Option<(&[u8], &[u8])>
    ensures { IfSome result (λ w. length w.1.now < length row.now) }
{
    if row.is_empty() {
        return None;
    }
    match row.iter().position(|x| matches!(*x, b' ' | b'\n')) {
        Some(n) => Some((&row[..n], &row[n + 1..])),
        None => Some((row, &row[row.len()..])),
    }
}

// The value of a digit of the base.
fn digit(x: u8, base: u64) -> Option<u64> {
    let value = u64::from(match x {
        b'a'..=b'f' => x - 87,
        _ => x.wrapping_sub(b'0'),
    });
    if value < base { Some(value) } else { None }
}

// The digits that stand ahead, as a number, and what stands after them.
fn digits(s: &[u8], base: u64) -> (u64, &[u8])
    requires { base ≤ 16 }
{
    let mut value: u64 = 0;
    for (i, x) in s.iter().enumerate() {
        let Some(digit) = digit(*x, base) else {
            return (value, &s[i..]);
        };
        value = (value % 0x1000_0000_0000_0000 * base).wrapping_add(digit);
    }
    (value, &s[s.len()..])
}

// 2^64 is 0, so that 2^64-1 is the last number.
fn power(n: u64) -> u64 {
    if n < 64 { 1 << n } else { 0 }
}

fn unsigned(s: &[u8]) -> (u64, &[u8]) {
    let (first, after) = digits(s, 10);
    match after {
        [b'x', rest @ ..] => digits(rest, 16),
        [b'^', rest @ ..] => {
            let (exponent, after) = digits(rest, 10);
            (power(exponent), after)
        }
        _ => (first, after),
    }
}

pub(crate) fn is_number(word: &[u8]) -> bool {
    matches!(word, [b'0'..=b'9', ..])
}

fn number(word: &[u8]) -> u64 {
    let (first, after) = unsigned(word);
    match after {
        [b'+', rest @ ..] => first.wrapping_add(unsigned(rest).0),
        [b'-', rest @ ..] => first.wrapping_sub(unsigned(rest).0),
        _ => first,
    }
}

impl Numbers {
    // Those that a row begins with.
    pub(crate) fn ahead(row: &[u8]) -> Numbers {
        let mut values = [0; 6];
        let words = row.split(|x| *x == b' ');
        for (value, word) in values.iter_mut().zip(words) {
            if !is_number(word) {
                break;
            }
            *value = number(word);
        }
        let [a, b, c, d, e, f] = values;
        Numbers { a, b, c, d, e, f }
    }
}

pub(crate) fn u8_of(x: u64) -> u8 {
    (x % 256) as u8
}

pub(crate) fn u16_of(x: u64) -> u16 {
    (x % 65536) as u16
}

pub(crate) fn u32_of(x: u64) -> u32 {
    (x % 4294967296) as u32
}
