// The messages of a bundle, handed to a device one after the other. Only `load` calls these, and meets their `requires`.
ghost use Rattle.std.specs.Prelude.{◌≡◌, false, ◌+◌, ◌*◌, ◌≤◌, length};
ghost use Rattle.merkle.specs.Limits.{max_blocks};
ghost use Rattle.wire.specs.Size.{wrong_size};
ghost use Rattle.machine.specs.declared.state.Stage.TheVariants.{Idle};
ghost use Rattle.bundle.specs.Load as spec;
ghost use Rattle.bundle.specs.Steps.{Ran};

use crate::parts::{TRAILER_LEN, start_of};
use crate::text::put_message;
use decimal::Output;
use machine::Device;

// The budget that goes with each message: enough for every program. specs/Load.antt has the same number for the contracts.
const LOADER_BUDGET: u32 = 29199;

// The block messages, until one is refused or all are accepted; answers the device after them. A line has at most 15 bytes.
fn blocks(start: Device, flash: &mut [u8], bytes: &[u8], output: &mut Output) -> Device
    requires { (wrong_size start.manifest.block_len start.manifest.image_len ≡ false) × (output.old.end + 15 * max_blocks ≤ length output.old.buffer.now) }
    ensures same_buffer { output.new.buffer.ghost_name ≡ output.old.buffer.ghost_name }
    ensures ran { Ran (spec.blocks start flash.old bytes.now) output.old.buffer.now output.old.end output.new.buffer.now output.new.end result flash.new }
    ensures short { output.new.end ≤ output.old.end + 15 * max_blocks }
{
    let geometry = start.manifest.known_geometry();
    let n = geometry.count();
    let mut device = start;
    let mut rest = bytes;
    for number in 1..=n {
        let len = geometry.due_len(number).min(rest.len());
        let outcome = device::receive(device, flash, &rest[..len], LOADER_BUDGET);
        let answer = outcome.answer;
        device = outcome.device;
        put_message(output, b"block ", number, device::answer_number(answer));
        if answer.is_err() {
            return device;
        }
        rest = &rest[len..];
    }
    device
}

// The manifest's message, and if that is accepted the blocks'; answers the device after them. Its line has at most 14 bytes.
pub fn messages(fresh: Device, flash: &mut [u8], bundle: &[u8], output: &mut Output) -> Device
    requires { (fresh.stage ≡ Idle) × (output.old.end + 14 + 15 * max_blocks ≤ length output.old.buffer.now) }
    ensures same_buffer { output.new.buffer.ghost_name ≡ output.old.buffer.ghost_name }
    ensures ran { Ran (spec.messages fresh flash.old bundle.now) output.old.buffer.now output.old.end output.new.buffer.now output.new.end result flash.new }
    ensures short { output.new.end ≤ output.old.end + 14 + 15 * max_blocks }
{
    // 3 is 01's own word here: 'gives the line `slip 0 3`'.
    let Some(start) = start_of(bundle) else {
        put_message(output, b"slip ", 0, 3);
        return fresh;
    };
    let end = bundle.len() - TRAILER_LEN;
    let outcome = device::receive(fresh, flash, &bundle[start..end], LOADER_BUDGET);
    let answer = outcome.answer;
    let device = outcome.device;
    put_message(output, b"slip ", 0, device::answer_number(answer));
    if answer.is_err() {
        return device;
    }
    blocks(device, flash, &bundle[..start], output)
}
