// When each refusal is given: a test for each, but for 2 and 3, which stand in `judge`, and those of a block that is brought, which stand in `place`.
#![tactic(auto, unfolding(machine::specs::Refusals::wrong_version, machine::specs::Refusals::senseless, machine::specs::Refusals::other_model, machine::specs::Refusals::not_newer, machine::specs::Refusals::too_small, machine::specs::Refusals::unsigned, machine::specs::Refusals::not_loading, machine::specs::Refusals::not_complete, machine::specs::Refusals::not_next, machine::specs::Refusals::unlike, crate::specs::Inner::early, wire::specs::Geometry::count_of))]

ghost use Rattle.std.specs.Prelude.{◌≡◌, false, ◌||◌, List, ℕ, ◌≤◌, length};
ghost use Rattle.sha256.specs.Sha256.{digest};
ghost use Rattle.lms.specs.Lms.{valid};
ghost use Rattle.wire.specs.declared.kind.Kind.TheVariants as kinds;
ghost use Rattle.wire.specs.Size.{wrong_size};
ghost use Rattle.wire.specs.Message.{least_length};
ghost use Rattle.machine.specs.Refusals.{wrong_version, other_model, not_newer, too_small, not_loading, not_complete, not_next};
ghost use Rattle.machine.specs.Refusals as spec;
ghost use Rattle.device.specs.Fields.{device_of, lent};
ghost use Rattle.device.specs.Inner as inner;

use crate::readers::updates;
use crate::view::View;
use machine::Stage;
use wire::{Kind, Manifest};

// 1. Stage and manifest, and no `View`: outsiders call it so.
pub fn senseless(stage: Stage, manifest: Manifest) -> bool
    ensures { (model : ℕ) (key hashes : List ℕ) → result ≡ spec.senseless (device_of model key stage manifest hashes) }
{
    match stage {
        Stage::Idle => false,
        Stage::Loading(next) => {
            broken(manifest) || wire::outside(manifest.known_geometry().count(), usize::from(next))
        }
        Stage::Complete => broken(manifest),
    }
}

// 4 or 5.
fn broken(manifest: Manifest) -> bool
    ensures { result ≡ (wrong_version manifest || wrong_size manifest.block_len manifest.image_len) }
{
    wrong_version(manifest) || wrong_size(manifest)
}

// 4.
pub fn wrong_version(manifest: Manifest) -> bool
    ensures { result ≡ wrong_version manifest }
{
    manifest.version != 1
}

// 5.
pub fn wrong_size(manifest: Manifest) -> bool
    ensures { result ≡ wrong_size manifest.block_len manifest.image_len }
{
    wire::wrong_size(manifest.block_len as usize, manifest.image_len as usize)
}

// 8.
pub fn too_small(manifest: Manifest, flash: &[u8]) -> bool
    ensures { result ≡ too_small manifest flash.now }
{
    flash.len() < manifest.image_len as usize
}

// 10, kind 2.
pub fn not_loading(stage: Stage) -> bool
    ensures { result ≡ not_loading stage }
{
    !matches!(stage, Stage::Loading(_))
}

// 10, kinds 3 and 4.
pub fn not_complete(stage: Stage) -> bool
    ensures { result ≡ not_complete stage }
{
    !matches!(stage, Stage::Complete)
}

// 10, of the kinds that carry a manifest: an update, and not complete. A new program may come at any stage.
pub fn early(kind: Kind, stage: Stage) -> bool
    ensures { result ≡ inner.early kind stage }
{
    updates(kind) && not_complete(stage)
}

// 11, kind 2.
pub fn not_next(next: u16, message: &[u8]) -> bool
    requires { least_length kinds.Block ≤ length message.now }
    ensures { result ≡ not_next next message.now }
{
    wire::number_in(message) != next
}

// 13.
pub fn unlike(manifest: Manifest, old: Manifest) -> bool
    ensures { result ≡ spec.unlike manifest old }
{
    manifest.block_len != old.block_len || manifest.image_len != old.image_len
}

// 19 of kind 3 and of the boot check, for the current manifest: the tree over the flash as handed in lacks its root.
// Not inlined, as the tree with a block in place is not: its hashes would stand in the frame of every message.
#[inline(never)]
pub fn lacks_root(manifest: Manifest, flash: &[u8]) -> bool
    requires { (wrong_size manifest.block_len manifest.image_len ≡ false) × (too_small manifest flash.now ≡ false) }
    ensures { result ≡ spec.lacks_root digest manifest flash.now }
{
    let blocks = manifest.known_geometry().blocks(flash);
    let mut tree = [0u8; merkle::HASH_LEN];
    blocks.root(&mut tree);
    !octets::equal(&tree, &manifest.root)
}

impl View<'_> {
    // 6.
    pub(crate) fn other_model(&self, manifest: Manifest) -> bool
        ensures { (hashes : List ℕ) → result ≡ other_model (lent self.now hashes) manifest }
    {
        manifest.model != self.model
    }

    // 7.
    pub(crate) fn not_newer(&self, manifest: Manifest) -> bool
        ensures { (hashes : List ℕ) → result ≡ not_newer (lent self.now hashes) manifest }
    {
        manifest.serial <= self.serial()
    }

    // 9, for a manifest's bytes and the signature over them.
    pub(crate) fn unsigned(&self, manifest: &[u8], signature: &[u8]) -> bool
        ensures { (hashes : List ℕ) → result ≡ spec.unsigned valid (lent self.now hashes) manifest.now signature.now }
    {
        !lms::verify(self.key, manifest, signature)
    }
}
