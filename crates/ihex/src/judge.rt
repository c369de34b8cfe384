// The first reading: the refusal of the earliest line at fault, if there is one.
ghost use Rattle.std.specs.Prelude.{◌≡◌, false, Some};
ghost use Rattle.ihex.specs.Line.{line_of};
ghost use Rattle.ihex.specs.Read.{wrong_length, judged};
ghost use Rattle.ihex.specs.Code.{Steps, text_answer};

use crate::line::{Line, line_of};
use crate::reading::Fault;
use crate::seen;
use crate::seen::{SEEN_LEN, mark};
use wire::Refusal;

// A line that is not behind the end record: the upper half for the next one, or none after the end record.
fn advance(
    line: &[u8],
    upper: u16,
    base: u32,
    len: usize,
    seen: &mut [u8; SEEN_LEN],
) -> Result<Option<u16>, Refusal>
    requires { wrong_length base len ≡ false }
    ensures { Steps base len (Some upper) (line_of line.now) seen.old result seen.new }
{
    match line_of(line) {
        None => Err(Refusal::Text),
        Some(Line::End) => Ok(None),
        Some(Line::Upper(value)) => Ok(Some(value)),
        Some(Line::Data { address, count }) => {
            if count == 0 {
                return Ok(Some(upper));
            }
            let first = upper as usize * 65536 + address as usize;
            let base = base as usize;
            let count = count as usize;
            // A record that runs over the last address has begun outside the image, or left it before.
            if first < base {
                return Err(Refusal::Place);
            }
            if base + len < first + count {
                return Err(Refusal::Place);
            }
            if mark(seen, first - base, count) {
                return Err(Refusal::Twice);
            }
            Ok(Some(upper))
        }
    }
}

// Base and length stay two numbers: outsiders hand them to `read` so, and a type of right ones would be made there for one call of this and one of `write`.
pub fn judge(text: &[u8], base: u32, len: usize) -> Result<(), Fault>
    requires { wrong_length base len ≡ false }
    ensures { result ≡ text_answer (judged base len text.now) }
{
    let mut seen = seen::none();
    let mut upper: u16 = 0;
    // Counted by hand: the number is asked for behind the last line, too.
    let mut number = 1;
    // The bytes behind the lines that were judged. Any behind the end record is at fault: its line, however long, is not read.
    let mut left = text.len();
    for line in text.split_inclusive(|&c| c == b'\n') {
        left -= line.len();
        match advance(line, upper, base, len, &mut seen) {
            Ok(Some(next)) => upper = next,
            Ok(None) => {
                if left == 0 {
                    return Ok(());
                }
                return Err(Fault {
                    refusal: Refusal::Text,
                    line: number + 1,
                });
            }
            Err(refusal) => {
                return Err(Fault {
                    refusal,
                    line: number,
                });
            }
        }
        number += 1;
    }
    Err(Fault {
        refusal: Refusal::Text,
        line: number,
    })
}
