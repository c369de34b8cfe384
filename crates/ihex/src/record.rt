// The record in a line.
ghost use Rattle.std.specs.Prelude.{◌≡◌, ◌+◌, ◌*◌, ◌≤◌, length};
ghost use Rattle.ihex.specs.Line.{line_end, record_in};
ghost use Rattle.ihex.specs.Code.{pair_at, record_read};

use crate::digits::{octet, sum};

#[derive(Clone, Copy, Debug, PartialEq, Eq)]
pub struct Record {
    pub address: u16,
    // The record's type. A byte and no enum: any may stand there, and a program tells it.
    pub kind: u8,
    // How many data bytes there are: bytes 4 to 3 + count of the record.
    pub count: u8,
}

// How many bytes end the line.
fn end_len(line: &[u8]) -> usize
    ensures { result ≡ line_end line.now }
{
    match line {
        [.., b'\r', b'\n'] => 2,
        [.., b'\n'] => 1,
        _ => 0,
    }
}

// The number in bytes i and i + 1 of the record.
pub fn pair(line: &[u8], i: usize) -> Option<u16>
    requires { 5 + 2 * i ≤ length line.now }
    ensures { result ≡ pair_at line.now i }
{
    let high = octet(line, i)?;
    let low = octet(line, i + 1)?;
    Some(u16::from_be_bytes([high, low]))
}

pub fn record_in(line: &[u8]) -> Option<Record>
    ensures { result ≡ record_read (record_in line.now) }
{
    let end = end_len(line);
    // The shortest record has five bytes.
    if end == 0 || line.len() < 11 + end {
        return None;
    }
    if line[0] != b':' {
        return None;
    }
    let count = octet(line, 0)?;
    let n = usize::from(count) + 5;
    if line.len() - 1 - end != 2 * n {
        return None;
    }
    if sum(line, n)? != 0 {
        return None;
    }
    Some(Record {
        address: pair(line, 1)?,
        kind: octet(line, 3)?,
        count,
    })
}
