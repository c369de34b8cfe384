// What a caller reads off a state: the device's numbers, and those of the block message that is due.
ghost use Rattle.std.specs.Prelude.{◌≡◌, false, List, [], ◌∷◌, ℕ};
ghost use Rattle.std.specs.Result.{result_unwrap_or};
ghost use Rattle.wire.specs.Size.{wrong_size};
ghost use Rattle.wire.specs.Geometry.{count_of};
ghost use Rattle.machine.specs.Refusals.{senseless};
ghost use Rattle.device.specs.Fields.{device_of};
ghost use Rattle.capi.specs.Status.{status_of, status, block_message_length, block_message_cost};
ghost use Rattle.capi.specs.Report.{answered, IsDue};

use crate::state::{manifest_in, sensible_in, stage_number};
use machine::Stage;
use wire::{Manifest, Refusal};

pub const STATUS_LEN: usize = 7;

// Stage, next number, block count, model, serial, image length, block length of the device in s.
pub fn status_in(s: &[u8]) -> Result<[u32; STATUS_LEN], Refusal>
    ensures { (out : List ℕ) → status s.now out ≡ record { answer = answered result; out = result_unwrap_or result out } }
{
    let Some(stage) = sensible_in(s) else {
        return Err(Refusal::State);
    };
    Ok(status_of(octets::u32_at(s, 0), stage, manifest_in(s)))
}

// The numbers of a device that makes sense. Those that follow from the manifest are 0 while it is idle.
#[tactic(auto, unfolding(crate::specs::Status::status_of, crate::specs::Status::unless_idle, crate::specs::State::stage_number, machine::specs::Device::next_of, machine::specs::Device::serial_of))]
fn status_of(model: u32, stage: Stage, manifest: Manifest) -> [u32; STATUS_LEN]
    requires { (key hashes : List ℕ) → senseless (device_of model key stage manifest hashes) ≡ false }
    ensures { (key hashes : List ℕ) → result ≡ status_of (device_of model key stage manifest hashes) }
{
    let at = u32::from(stage_number(stage));
    match stage {
        Stage::Idle => [at, 0, 0, model, 0, 0, 0],
        Stage::Loading(next) => with_manifest(model, manifest, at, u32::from(next)),
        Stage::Complete => with_manifest(model, manifest, at, 0),
    }
}

// The numbers of a device that has a manifest; `at` and `next` are those of its stage.
#[tactic(auto, unfolding(wire::specs::Geometry::count_of))]
fn with_manifest(model: u32, manifest: Manifest, at: u32, next: u32) -> [u32; STATUS_LEN]
    requires { wrong_size manifest.block_len manifest.image_len ≡ false }
    ensures { result ≡ at ∷ next ∷ count_of manifest ∷ model ∷ manifest.serial ∷ manifest.image_len ∷ manifest.block_len ∷ [] }
{
    let count = manifest.known_geometry().count() as u32;
    [
        at,
        next,
        count,
        model,
        manifest.serial,
        manifest.image_len,
        u32::from(manifest.block_len),
    ]
}

// The block that is due to the device in s: its manifest, and the block's number.
fn due_in(s: &[u8]) -> Result<(Manifest, u16), Refusal>
    ensures { IsDue s.now result }
{
    let Some(stage) = sensible_in(s) else {
        return Err(Refusal::State);
    };
    let Stage::Loading(next) = stage else {
        return Err(Refusal::Stage);
    };
    Ok((manifest_in(s), next))
}

// The length of the message of the block that is due to the device in s.
pub fn due_length(s: &[u8]) -> Result<usize, Refusal>
    ensures { (before : ℕ) → block_message_length s.now before ≡ record { answer = answered result; written = result_unwrap_or result before } }
{
    let (manifest, next) = due_in(s)?;
    Ok(manifest.known_geometry().due_len(usize::from(next)))
}

// What the message of the block that is due to the device in s costs, in compressions.
pub fn due_cost(s: &[u8]) -> Result<u32, Refusal>
    ensures { (before : ℕ) → block_message_cost s.now before ≡ record { answer = answered result; written = result_unwrap_or result before } }
{
    let (manifest, next) = due_in(s)?;
    Ok(manifest.known_geometry().cost_due(usize::from(next)) as u32)
}
