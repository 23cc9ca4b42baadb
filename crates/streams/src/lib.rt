// Octets from a reader.
#![tactic(auto)]

ghost use Rattle.std.specs.Prelude.{◌≡◌, ◌≤◌, ◌<◌, length, take, IfOk, IfSome, IfNone};
ghost use Rattle.std.specs.Io.KnownBytes.{Consumes, IsAtEnd};

use std::io;
use std::io::Read;

// Reads until the buffer is full or the reader ends, and says how many octets now stand at the buffer's start.
pub fn read_full<R: Read>(reader: &mut R, buffer: &mut [u8]) -> io::Result<usize>
    ensures room { IfOk result (λ n. (n ≤ length buffer.new) × (n ≡ length (take n buffer.new))) }
    ensures octets { IfOk result (λ n. Consumes (R.remaining reader.old) (R.remaining reader.new) (take n buffer.new)) }
    ensures end { IfOk result (λ n. n < length buffer.new → IsAtEnd (R.remaining reader.new)) }
{
    let mut done = 0;
    while done < buffer.len() {
        let n = reader.read(&mut buffer[done..])?;
        if n == 0 {
            break;
        }
        done += n;
    }
    Ok(done)
}

// Reads as many octets as are asked for, or as there is room for, or as there are: what was read.
pub fn read_most<'a, R: Read>(
    reader: &mut R,
    buffer: &'a mut [u8],
    most: usize,
) -> io::Result<&'a [u8]>
    ensures room { IfOk result (λ read. (length read.now ≤ length buffer.old) × (length read.now ≤ most)) }
    ensures octets { IfOk result (λ read. Consumes (R.remaining reader.old) (R.remaining reader.new) read.now) }
    ensures end { IfOk result (λ read. length read.now < length buffer.old → length read.now < most → IsAtEnd (R.remaining reader.new)) }
{
    let room = most.min(buffer.len());
    let n = read_full(reader, &mut buffer[..room])?;
    Ok(&buffer[..n])
}

// Fills the buffer, and gives what it holds then, or nothing where the reader ends before.
pub fn read_next<'a, R: Read>(reader: &mut R, buffer: &'a mut [u8]) -> io::Result<Option<&'a [u8]>>
    ensures room { IfOk result (λ read. IfSome read (λ part. length part.now ≡ length buffer.old)) }
    ensures octets { IfOk result (λ read. IfSome read (λ part. Consumes (R.remaining reader.old) (R.remaining reader.new) part.now)) }
    ensures end { IfOk result (λ read. IfNone read (IsAtEnd (R.remaining reader.new))) }
{
    let n = read_full(reader, buffer)?;
    if n < buffer.len() {
        return Ok(None);
    }
    Ok(Some(&buffer[..n]))
}
