// The lines of the output, written into a buffer one behind the other.
// An `Output`, and no `write!`: its `Err` for a full buffer cannot come here, and each line would have to do something about it.
ghost use Rattle.std.specs.Prelude.{◌≡◌, ◌+◌, ◌≤◌, length};
ghost use Rattle.decimal.specs.Buffer.{Appended};
ghost use Rattle.bundle.specs.Text.{message_line, state_words, state_line};

use decimal::Output;
use machine::{Device, Stage};

// A message's line: the number due, and the answer's number.
pub fn put_message(output: &mut Output, words: &[u8], due: usize, answer: u8)
    requires { output.old.end + length (message_line words.now due answer) ≤ length output.old.buffer.now }
    ensures same_buffer { output.new.buffer.ghost_name ≡ output.old.buffer.ghost_name }
    ensures put { Appended output.old.buffer.now output.old.end output.new.buffer.now output.new.end (message_line words.now due answer) }
{
    output.put(words);
    output.put_decimal(due);
    output.put_line(b" ", answer as usize);
}

// What the last line begins with.
#[tactic(auto, unfolding(crate::specs::Text::state_words))]
fn state_words(stage: Stage) -> &'static [u8]
    ensures is { result.now ≡ state_words stage }
    ensures short { length result.now ≤ 15 }
{
    match stage {
        Stage::Idle => b"state idle ",
        Stage::Loading(_) => b"state loading ",
        Stage::Complete => b"state complete ",
    }
}

// The last line. It has at most 36 bytes.
#[tactic(auto, using(crate::proofs::TextLaws::state_lines))]
pub fn put_state(output: &mut Output, device: Device)
    requires { output.old.end + 36 ≤ length output.old.buffer.now }
    ensures same_buffer { output.new.buffer.ghost_name ≡ output.old.buffer.ghost_name }
    ensures put { Appended output.old.buffer.now output.old.end output.new.buffer.now output.new.end (state_line device) }
    ensures short { output.new.end ≤ output.old.end + 36 }
{
    output.put_line(state_words(device.stage), device::accepted_blocks(device));
}
