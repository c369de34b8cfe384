// The image in image.hex. A refusal is told on standard error by its word, with the number of its line.
ghost use Rattle.std.specs.Prelude.{◌≡◌, ◌<◌, length, IfSome};
ghost use Rattle.streams.specs.Counts.{IsPrefixLen};
ghost use Rattle.ihex.specs.Read as spec;
ghost use Rattle.ihex.specs.Write as writing;
ghost use Rattle.pack.specs.Make.{ImageRead};

use crate::make::print_error;
use ihex::Fault;
use wire::Refusal;

// Zeros for the longest image. The contract says all that a caller needs, so that no proof counts them one by one; it names its
// own limit, as those of the other buffers do theirs.
pub fn buffer() -> [u8; ihex::MAX_LEN]
    ensures { spec.max_length ≡ length result }
{
    [0u8; ihex::MAX_LEN]
}

// A number below 16, as a digit of base 16. By hand: this promises its digit, and no contract says what `eprintln!` prints.
fn hex_digit(number: u8) -> u8
    requires { number < 16 }
    ensures { result ≡ writing.hex_digit number }
{
    if number < 10 {
        b'0' + number
    } else {
        b'A' - 10 + number
    }
}

fn print_type(rt: &impl Eprint, kind: u8) {
    let first = char::from(hex_digit(kind / 16));
    let second = char::from(hex_digit(kind % 16));
    let _ = eprintln!(rt; "record type {first}{second}; only types 00, 01 and 04 are read");
}

// What is wrong with a line that is refused 16, or that the text lacks.
fn broken(rt: &impl Eprint, text: &[u8], line: usize) {
    print_error(rt, "text: image.hex, line ", line, ": ");
    let Some(record) = ihex::record_at(text, line) else {
        let _ = eprintln!(rt;
            "no whole record (colon, digits, count, checksum, line end), or bytes behind the end record, or no end record"
        );
        return;
    };
    match record.kind {
        0 | 1 | 4 => {
            let _ = eprintln!(rt;
                "a record behind the end record, or 01 with data, or 04 without two bytes"
            );
        }
        kind => print_type(rt, kind),
    }
}

fn refuse(rt: &impl Eprint, text: &[u8], refusal: Refusal, line: usize) {
    match refusal {
        Refusal::Text => broken(rt, text, line),
        Refusal::Place => print_error(
            rt,
            "place: image.hex, line ",
            line,
            ": a byte outside the LENGTH bytes from address BASE on\n",
        ),
        Refusal::Twice => print_error(
            rt,
            "twice: image.hex, line ",
            line,
            ": a byte named before\n",
        ),
        _ => print_error(
            rt,
            "size: LENGTH must be 1 to ",
            ihex::MAX_LEN,
            ", and BASE + LENGTH at most 4294967296\n",
        ),
    }
}

// Puts the image at the start of `out`, and answers its length. A refusal is told.
pub fn image(rt: &impl Eprint, text: &[u8], base: u32, len: u32, out: &mut [u8]) -> Option<usize>
    ensures image_read { ImageRead len (spec.read text.now base len out.old) result out.new }
    ensures prefix_len { IfSome result (λ n. IsPrefixLen n out.new) }
{
    let len = len as usize;
    match ihex::read(text, base, len, out) {
        Ok(()) => Some(len),
        Err(Fault { refusal, line }) => {
            refuse(rt, text, refusal, line);
            None
        }
    }
}
