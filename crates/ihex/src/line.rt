// The lines of a text.
ghost use Rattle.std.specs.Prelude.{◌≡◌, [], ◌-◌, get_or};
ghost use Rattle.ihex.specs.Line.{record_in, line_of};
ghost use Rattle.ihex.specs.Text.{lines};
ghost use Rattle.ihex.specs.Code.{record_read, line_read};

use crate::record::{Record, pair, record_in};

#[derive(Clone, Copy, Debug, PartialEq, Eq)]
pub enum Line {
    Data { address: u16, count: u8 },
    End,
    Upper(u16),
}

// What a line says, if it is not broken.
pub fn line_of(line: &[u8]) -> Option<Line>
    ensures { result ≡ line_read (line_of line.now) }
{
    let record = record_in(line)?;
    match (record.kind, record.count) {
        (0, count) => Some(Line::Data {
            address: record.address,
            count,
        }),
        (1, 0) => Some(Line::End),
        (4, 2) => Some(Line::Upper(pair(line, 4)?)),
        _ => None,
    }
}

// The record in line `number`, from 1, for a program that tells its user of it.
pub fn record_at(text: &[u8], number: usize) -> Option<Record>
    ensures { result ≡ record_read (record_in (get_or (lines text.now) (number - 1) [])) }
{
    let line = text
        .split_inclusive(|&c| c == b'\n')
        .nth(number.saturating_sub(1))?;
    record_in(line)
}
