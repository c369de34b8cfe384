// The answer to an input.
ghost use Rattle.std.specs.Prelude.{◌≡◌, ◌==◌, ◌≤◌, length, take, position};
ghost use Rattle.std.specs.Option.{unwrap_or};
ghost use Rattle.wake.specs.Wake as spec;
ghost use Rattle.wake.specs.Wake.{before_lf, short_number, printed};

use crate::fitting::most_blocks;
use decimal::Output;

// Where the first LF stands.
fn first_lf(text: &[u8]) -> Option<usize>
    ensures { result ≡ position (λ b. b == 10) text.now }
{
    text.iter().position(|&b| b == b'\n')
}

// How many bytes stand before the first LF.
fn line_len(text: &[u8]) -> usize
    ensures { result ≡ length (before_lf text.now) }
{
    first_lf(text).unwrap_or(text.len())
}

// A number of one to nine digits.
fn short_number(text: &[u8]) -> Option<u32>
    ensures { result ≡ short_number text.now }
{
    if 9 < text.len() {
        return None;
    }
    decimal::parse(text)
}

// The number to print, none for anything but two lines of one to nine digits.
fn answer(input: &[u8]) -> Option<usize>
    ensures { unwrap_or result 0 ≡ spec.answer input.now }
{
    let first = line_len(input);
    if first == input.len() {
        return None;
    }
    let rest = &input[first + 1..];
    let second = line_len(rest);
    if second + 1 != rest.len() {
        return None;
    }
    let len = short_number(&input[..first])?;
    let budget = short_number(&rest[..second])?;
    Some(most_blocks(len as usize, budget as usize))
}

// A line: at most four digits and LF. A buffer with its length, not a number for `println!`: no contract says what that prints, and `answer_line` says each byte.
#[derive(Drop)]
pub struct Line {
    pub bytes: [u8; 5],
    pub len: usize,
}

// The line to print.
pub fn answer_line(input: &[u8]) -> Line
    ensures { (take result.len result.bytes ≡ printed input.now) × (result.len ≤ length result.bytes) }
{
    let number = answer(input).unwrap_or(0);
    let mut bytes = [0u8; 5];
    let mut output = Output {
        buffer: &mut bytes,
        end: 0,
    };
    output.put_line(b"", number);
    let len = output.end;
    Line { bytes, len }
}
