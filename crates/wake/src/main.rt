// The planner's program: reads the block length and the number of compressions of a wake-up from standard input, a line each, and prints the largest number of
// blocks whose messages before the last all fit.
#![tactic(auto)]

mod answer;
mod fitting;

ghost use Rattle.std.specs.Prelude.{◌≡◌, length};
ghost use Rattle.wake.specs.Wake.{input_length};

use answer::answer_line;
use std::io;
use streams::read_full;

// The longest right input has two lines of nine digits; a byte more shows that one is too long.
const INPUT_LEN: usize = 2 * (9 + 1) + 1;

// Zeros, as many as the bytes that are looked at: the contract names its own limit, as those of other programs' buffers do theirs.
fn input_buffer() -> [u8; INPUT_LEN]
    ensures { length result ≡ input_length }
{
    [0u8; INPUT_LEN]
}

fn main(rt: HostRuntime) -> io::Result<()> {
    let mut input = input_buffer();
    let n = read_full(&mut rt.stdin(), &mut input);
    let line = answer_line(&input[..n]);
    let bytes = line.bytes;
    let len = line.len;
    rt.write_all(&bytes[..len])
}
