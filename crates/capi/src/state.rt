// A device's state as bytes at fixed offsets: C holds it so (include/lertxuno.h), with no struct's layout to know.
ghost use Rattle.std.specs.Prelude.{◌≡◌, List, ℕ, ◌-◌, ◌≤◌, length, option_map};
ghost use Rattle.octets.specs.Octets.{number, part, joined};
ghost use Rattle.lms.specs.Lms.{key_length};
ghost use Rattle.wire.specs.Manifest.{manifest_length, read};
ghost use Rattle.device.specs.Fields.{device_of, lent};
ghost use Rattle.capi.specs.State.{encode, stage_in, stage_number, key_at, stage_at, manifest_at, hashes_at};
ghost use Rattle.capi.specs.Status.{sensible};
ghost use Rattle.capi.specs.Progress.{progress_of};

use device::View;
use machine::{Device, Stage};
use wire::Manifest;

// Where the fields start: model (4 bytes), key, stage (2), next number (2), manifest, held hashes. specs/State.antt has the same for the contracts.
const KEY_AT: usize = 4;

pub const STAGE_AT: usize = KEY_AT + lms::KEY_LEN;

const NEXT_AT: usize = STAGE_AT + 2;

const MANIFEST_AT: usize = NEXT_AT + 2;

pub const HASHES_AT: usize = MANIFEST_AT + wire::MANIFEST_LEN;

pub const STATE_LEN: usize = HASHES_AT + merkle::HELD_LEN;

// The number that stands for a stage. A function, since neither type is of this crate: no impl of `From` for them may stand here.
#[tactic(auto, unfolding(crate::specs::State::stage_number))]
pub fn stage_number(stage: Stage) -> u16
    ensures { result ≡ stage_number stage }
{
    match stage {
        Stage::Idle => 0,
        Stage::Loading(_) => 1,
        Stage::Complete => 2,
    }
}

// Writes the fields that a message may change, but for the hashes, in their bytes of a state.
pub fn put_progress(bytes: &mut [u8], stage: Stage, manifest: Manifest)
    requires { length bytes.old ≡ hashes_at - stage_at }
    ensures { bytes.new ≡ joined (progress_of stage manifest) }
{
    octets::copy(bytes, 0, &stage_number(stage).to_be_bytes());
    octets::copy(
        bytes,
        NEXT_AT - STAGE_AT,
        &device::next_of(stage).to_be_bytes(),
    );
    octets::copy(bytes, MANIFEST_AT - STAGE_AT, &manifest.to_bytes());
}

// The state's bytes. A function: neither a device nor an array is a type of this crate.
pub fn to_bytes(device: Device) -> [u8; STATE_LEN]
    ensures { result ≡ encode device }
{
    let mut s = [0u8; STATE_LEN];
    octets::copy(&mut s, 0, &device.model.to_be_bytes());
    octets::copy(&mut s, KEY_AT, &device.key);
    put_progress(&mut s[STAGE_AT..HASHES_AT], device.stage, device.manifest);
    octets::copy(&mut s, HASHES_AT, &device.hashes);
    s
}

// The stage in s: there is one where the length is right and the stage's number known.
#[tactic(auto, unfolding(crate::specs::State::stage_in, crate::specs::State::stage_from))]
pub fn stage_in(s: &[u8]) -> Option<Stage>
    ensures { result ≡ stage_in s.now }
{
    if s.len() != STATE_LEN {
        return None;
    }
    match octets::u16_at(s, STAGE_AT) {
        0 => Some(Stage::Idle),
        1 => Some(Stage::Loading(octets::u16_at(s, NEXT_AT))),
        2 => Some(Stage::Complete),
        _ => None,
    }
}

// The manifest in s, a state, for who looks at a few of its numbers: no root is copied.
pub fn manifest_in(s: &[u8]) -> Manifest
    requires { hashes_at ≤ length s.now }
    ensures { result ≡ read (part manifest_at manifest_length s.now) }
{
    Manifest::read(&s[MANIFEST_AT..HASHES_AT])
}

// The manifest in s, which is a state, or one without its hashes, for who needs its root.
pub fn whole_manifest_in(s: &[u8]) -> Manifest
    requires { hashes_at ≤ length s.now }
    ensures { result ≡ read (part manifest_at manifest_length s.now) }
{
    Manifest::read_out_of_line(&s[MANIFEST_AT..HASHES_AT])
}

// The device that the fields before its hashes are of, at this stage.
pub fn view_in(fields: &[u8], stage: Stage) -> View<'_>
    requires { length fields.now ≡ hashes_at }
    ensures { (hashes : List ℕ) → lent result hashes ≡ device_of (number (part 0 4 fields.now)) (part key_at key_length fields.now) stage (read (part manifest_at manifest_length fields.now)) hashes }
{
    View {
        model: octets::u32_at(fields, 0),
        key: &fields[KEY_AT..STAGE_AT],
        stage,
        manifest: whole_manifest_in(fields),
    }
}

// The stage in s, where the state makes sense too: refusal 1 does not apply to it.
pub fn sensible_in(s: &[u8]) -> Option<Stage>
    ensures { result ≡ option_map (λ d. d.stage) (sensible s.now) }
{
    let stage = stage_in(s)?;
    if device::senseless(stage, manifest_in(s)) {
        return None;
    }
    Some(stage)
}
