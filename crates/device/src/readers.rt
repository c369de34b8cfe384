// What is read of an answer, of a kind and of a device.
#![tactic(auto, unfolding(machine::specs::Device::next_of, machine::specs::Readers::accepted_blocks, wire::specs::Geometry::count_of, crate::specs::Inner::updates))]

ghost use Rattle.std.specs.Prelude.{◌≡◌};
ghost use Rattle.machine.specs.Device.{next_of};
ghost use Rattle.machine.specs.Readers.{number_of, accepted_blocks};
ghost use Rattle.device.specs.Inner as inner;

use machine::{Answer, Device, Stage};
use wire::Kind;

// 0 if accepted, else the refusal's number. A function, since neither type is of this crate: no impl of `From` for them may stand here.
pub fn answer_number(answer: Answer) -> u8
    ensures { result ≡ number_of answer }
{
    match answer {
        Ok(()) => 0,
        Err(refusal) => u8::from(refusal),
    }
}

// Whether a message of this kind is an update.
pub fn updates(kind: Kind) -> bool
    ensures { result ≡ inner.updates kind }
{
    matches!(kind, Kind::Update | Kind::PathUpdate)
}

// How many blocks of its program the device has. Any struct value is taken: one without blocks or bytes has none.
pub fn accepted_blocks(device: Device) -> usize
    ensures { result ≡ accepted_blocks device }
{
    let manifest = device.manifest;
    match device.stage {
        Stage::Idle => 0,
        Stage::Loading(next) => usize::from(next.saturating_sub(1)),
        Stage::Complete if manifest.block_len == 0 || manifest.image_len == 0 => 0,
        Stage::Complete => wire::block_count(
            usize::from(manifest.block_len),
            manifest.image_len as usize,
        ),
    }
}

// The number of the next block while loading; 0 and no None otherwise, as the definition of this name has it.
pub fn next_of(stage: Stage) -> u16
    ensures { result ≡ next_of stage }
{
    match stage {
        Stage::Loading(next) => next,
        Stage::Idle | Stage::Complete => 0,
    }
}
