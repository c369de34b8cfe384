// The second reading, of a text that is known to be good: the image.
ghost use Rattle.std.specs.Prelude.{◌≡◌, false, List, ◌+◌, ◌≤◌, length, replicate};
ghost use Rattle.std.proofs.Math.Seq.{paste};
ghost use Rattle.ihex.specs.Line.{line_of};
ghost use Rattle.ihex.specs.Text.{Byte, image_of};
ghost use Rattle.ihex.specs.Read.{wrong_length, judged, names};
ghost use Rattle.ihex.specs.Code.{data_in, Placeable, Places};

use crate::digits::known_octet;
use crate::line::{Line, line_of};

// What no line names is 0xFF.
fn clear(out: &mut [u8])
    ensures { out.new ≡ replicate (length out.old) 255 }
{
    out.fill(0xFF);
}

// The data of a line of type 00, to out[at..]. Buffer and index, as `octets::copy` has them: the contract says `paste` at an index.
fn put(line: &[u8], count: usize, out: &mut [u8], at: usize)
    requires { (count ≡ length (data_in (line_of line.now))) × (at + count ≤ length out.old) }
    ensures { out.new ≡ paste out.old at (data_in (line_of line.now)) count }
{
    for i in 0..count {
        out[at + i] = known_octet(line, 4 + i);
    }
}

// A line of a text with no fault: its data to their place. The answer is the upper half for the next line.
fn place(line: &[u8], upper: u16, base: u32, out: &mut [u8]) -> u16
    requires { Placeable base (length out.old) upper (line_of line.now) }
    ensures { Places base (length out.old) upper (line_of line.now) out.old result out.new }
{
    match line_of(line) {
        Some(Line::Data { address, count }) if count != 0 => {
            let first = upper as usize * 65536 + address as usize;
            put(line, count as usize, out, first - base as usize);
            upper
        }
        Some(Line::Upper(value)) => value,
        _ => upper,
    }
}

// The image of a text with no fault, over the whole of `out`.
pub fn write(text: &[u8], base: u32, out: &mut [u8])
    requires { (wrong_length base (length out.old) ≡ false) × ((bs : List Byte) × (judged base (length out.old) text.now ≡ names bs)) }
    ensures { (bs : List Byte) → judged base (length out.old) text.now ≡ names bs → out.new ≡ image_of base (length out.old) bs }
{
    clear(out);
    let mut upper: u16 = 0;
    for line in text.split_inclusive(|&c| c == b'\n') {
        upper = place(line, upper, base, out);
    }
}
