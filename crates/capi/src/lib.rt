// The interface for C (include/lertxuno.h). A slice crosses as a pointer and a length, a reference to an array or a number as a pointer. A function
// that returns a number gives 0 or that of a refusal, but for lertxuno_digest, which refuses nothing and returns its count; where one refuses, what it writes
// through a pointer is as before, but for the line that lertxuno_ihex refuses at. Names, parameters and contracts are the interface's, so that each function stands by itself,
// however like another it is.
#![tactic(auto)]

mod state;
mod status;

ghost use Rattle.std.specs.Prelude.{◌≡◌, ℕ};
ghost use Rattle.std.specs.Result.{result_unwrap_or};
ghost use Rattle.sha256.specs.Sha256.{digest, compressions};
ghost use Rattle.lms.specs.Lms.{valid};
ghost use Rattle.sender.specs.Job.{in_blocks, job};
ghost use Rattle.sender.specs.Given.{job_of};
ghost use Rattle.sender.specs.Send.{Does, send_manifest, send_program, send_block, send_update, send_path};
ghost use Rattle.machine.specs.Device.{fresh_with};
ghost use Rattle.machine.specs.Readers.{number_of};
ghost use Rattle.capi.specs.State.{encode};
ghost use Rattle.capi.specs.Call.{verdict, length_outcome, read_text, receive, boot_check_of};
ghost use Rattle.capi.specs.Status.{status, block_message_length, block_message_cost};
ghost use Rattle.capi.specs.Report.{answered};

use machine::Answer;
use sender::{Image, Job};
use state::{HASHES_AT, STAGE_AT, STATE_LEN};
use status::STATUS_LEN;
use wire::Refusal;

// The number that C gets of an answer.
fn number_of(answer: Answer) -> u32
    ensures { result ≡ number_of answer }
{
    u32::from(device::answer_number(answer))
}

// What C gets of an answer with a value: the number, and the value through a pointer. After a refusal what is there is as before.
fn report<T: Copy>(answer: Result<T, Refusal>, out: &mut T) -> u32
    ensures number { result ≡ answered answer }
    ensures value { out.new ≡ result_unwrap_or answer out.old }
{
    match answer {
        Ok(value) => {
            *out = value;
            0
        }
        Err(refusal) => number_of(Err(refusal)),
    }
}

// What C hands over of a job.
fn job(image: &[u8], len: u32, model: u32, serial: u32) -> Job<'_>
    ensures { job_of result ≡ job (in_blocks image.now len) model serial }
{
    let image = Image {
        bytes: image,
        block_len: len,
    };
    Job {
        image,
        model,
        serial,
    }
}

// SHA-256 of the message, and how many compressions it took.
#[unsafe(no_mangle)]
pub extern "C" fn lertxuno_digest(message: &[u8], out: &mut [u8; 32]) -> usize
    ensures { (out.new ≡ digest message.now) × (result ≡ compressions message.now) }
{
    sha256::digest(message, out)
}

// Whether the signature over the message is valid under the key.
#[unsafe(no_mangle)]
pub extern "C" fn lertxuno_verify(key: &[u8], message: &[u8], signature: &[u8]) -> u32
    ensures { result ≡ verdict (valid key.now message.now signature.now) }
{
    number_of(verified(key, message, signature))
}

#[tactic(auto, unfolding(crate::specs::Call::verdict))]
fn verified(key: &[u8], message: &[u8], signature: &[u8]) -> Answer
    ensures { number_of result ≡ verdict (valid key.now message.now signature.now) }
{
    if lms::verify(key, message, signature) {
        return Ok(());
    }
    Err(Refusal::Unsigned)
}

// The bare manifest, for signing.
#[unsafe(no_mangle)]
pub extern "C" fn lertxuno_manifest(
    image: &[u8],
    len: u32,
    model: u32,
    serial: u32,
    out: &mut [u8],
    written: &mut usize,
) -> u32
    ensures { Does (length_outcome written.old) (send_manifest (job (in_blocks image.now len) model serial) out.old) (record { answer = result; written = written.new }) out.new }
{
    report(job(image, len, model, serial).manifest(out), written)
}

// Kind 1.
#[unsafe(no_mangle)]
pub extern "C" fn lertxuno_program(
    image: &[u8],
    len: u32,
    model: u32,
    serial: u32,
    signature: &[u8],
    out: &mut [u8],
    written: &mut usize,
) -> u32
    ensures { Does (length_outcome written.old) (send_program (job (in_blocks image.now len) model serial) signature.now out.old) (record { answer = result; written = written.new }) out.new }
{
    report(
        job(image, len, model, serial).program(signature, out),
        written,
    )
}

// Kind 2.
#[unsafe(no_mangle)]
pub extern "C" fn lertxuno_block(
    image: &[u8],
    len: u32,
    number: u32,
    out: &mut [u8],
    written: &mut usize,
) -> u32
    ensures { Does (length_outcome written.old) (send_block (in_blocks image.now len) number out.old) (record { answer = result; written = written.new }) out.new }
{
    let image = Image {
        bytes: image,
        block_len: len,
    };
    report(image.block(number, out), written)
}

// Kind 3.
#[unsafe(no_mangle)]
pub extern "C" fn lertxuno_update(
    image: &[u8],
    len: u32,
    model: u32,
    serial: u32,
    number: u32,
    signature: &[u8],
    out: &mut [u8],
    written: &mut usize,
) -> u32
    ensures { Does (length_outcome written.old) (send_update (job (in_blocks image.now len) model serial) number signature.now out.old) (record { answer = result; written = written.new }) out.new }
{
    report(
        job(image, len, model, serial).update(number, signature, out),
        written,
    )
}

// Kind 4.
#[unsafe(no_mangle)]
pub extern "C" fn lertxuno_path_update(
    image: &[u8],
    len: u32,
    model: u32,
    serial: u32,
    number: u32,
    signature: &[u8],
    out: &mut [u8],
    written: &mut usize,
) -> u32
    ensures { Does (length_outcome written.old) (send_path (job (in_blocks image.now len) model serial) number signature.now out.old) (record { answer = result; written = written.new }) out.new }
{
    report(
        job(image, len, model, serial).path_update(number, signature, out),
        written,
    )
}

// The image that an Intel HEX text denotes.
#[unsafe(no_mangle)]
pub extern "C" fn lertxuno_ihex(
    text: &[u8],
    base: u32,
    length: usize,
    out: &mut [u8],
    line: &mut usize,
) -> u32
    ensures { read_text text.now base length out.old ≡ record { answer = result; line = line.new; buffer = out.new } }
{
    match ihex::read(text, base, length, out) {
        Ok(()) => {
            *line = 0;
            0
        }
        Err(fault) => {
            *line = fault.line;
            number_of(Err(fault.refusal))
        }
    }
}

// A fresh device's state.
#[unsafe(no_mangle)]
pub extern "C" fn lertxuno_fresh(model: u32, key: &[u8; lms::KEY_LEN], state: &mut [u8; STATE_LEN])
    ensures { state.new ≡ encode (fresh_with model key.now) }
{
    *state = state::to_bytes(device::fresh(model, *key));
}

// The device takes a message, with a budget of compressions; what an accepted one reports is written to `compressions`. The hashes stay in the state's bytes: by
// value they would be copied on the stack. Out of line of the wrapper that C calls: its code has some 700 bytes more within that.
#[inline(never)]
#[unsafe(no_mangle)]
pub extern "C" fn lertxuno_receive(
    state: &mut [u8],
    flash: &mut [u8],
    message: &[u8],
    budget: u32,
    compressions: &mut u32,
) -> u32
    ensures { receive state.old flash.old message.now budget compressions.old ≡ record { answer = result; compressions = compressions.new; state = state.new; flash = flash.new } }
{
    report(received(state, flash, message, budget), compressions)
}

// The compressions that an accepted message reports; the new state is then in the bytes. (`let .. else` for bytes that encode no state: with `ok_or(Refusal::State)?` the
// goals behind it stay open.)
fn received(state: &mut [u8], flash: &mut [u8], message: &[u8], budget: u32) -> Result<u32, Refusal>
    ensures { (before : ℕ) → receive state.old flash.old message.now budget before ≡ record { answer = answered result; compressions = result_unwrap_or result before; state = state.new; flash = flash.new } }
{
    let Some(stage) = state::stage_in(state) else {
        return Err(Refusal::State);
    };
    let (fields, hashes) = state.split_at_mut(HASHES_AT);
    let view = state::view_in(fields, stage);
    let after = device::receive_in_place(&view, hashes, flash, message, budget);
    after.answer?;
    state::put_progress(&mut fields[STAGE_AT..], after.stage, after.manifest);
    Ok(after.compressions)
}

// The boot check.
#[unsafe(no_mangle)]
pub extern "C" fn lertxuno_boot_check(state: &[u8], flash: &[u8]) -> u32
    ensures { result ≡ boot_check_of state.now flash.now }
{
    number_of(checked(state, flash))
}

fn checked(state: &[u8], flash: &[u8]) -> Answer
    ensures { number_of result ≡ boot_check_of state.now flash.now }
{
    let Some(stage) = state::stage_in(state) else {
        return Err(Refusal::State);
    };
    device::boot_check(stage, state::whole_manifest_in(state), flash)
}

// What the state holds, as numbers.
#[unsafe(no_mangle)]
pub extern "C" fn lertxuno_status(state: &[u8], out: &mut [u32; STATUS_LEN]) -> u32
    ensures { status state.now out.old ≡ record { answer = result; out = out.new } }
{
    report(status::status_in(state), out)
}

// The length of the block message that is due next.
#[unsafe(no_mangle)]
pub extern "C" fn lertxuno_block_message_length(state: &[u8], length: &mut usize) -> u32
    ensures { block_message_length state.now length.old ≡ record { answer = result; written = length.new } }
{
    report(status::due_length(state), length)
}

// What the block message that is due next costs, in compressions.
#[unsafe(no_mangle)]
pub extern "C" fn lertxuno_block_cost(state: &[u8], compressions: &mut u32) -> u32
    ensures { block_message_cost state.now compressions.old ≡ record { answer = result; written = compressions.new } }
{
    report(status::due_cost(state), compressions)
}
