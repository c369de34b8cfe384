// The boot check: whether a complete device's program stands in the flash, whoever wrote that. Nothing is written here.
#![tactic(auto, unfolding(machine::specs::BootCheck::of_boot, machine::specs::BootCheck::boot_check, wire::specs::Refusal::first_that_applies, machine::specs::Step::answer_of))]

ghost use Rattle.std.specs.Prelude.{◌≡◌, List, ℕ};
ghost use Rattle.sha256.specs.Sha256.{digest};
ghost use Rattle.machine.specs.BootCheck.{boot_check};
ghost use Rattle.device.specs.Fields.{device_of};

use crate::conditions::{lacks_root, not_complete, senseless, too_small};
use machine::{Answer, Stage};
use wire::{Manifest, Refusal};

// 1, 10, 8, 19. Stage and manifest, and no `View`: outsiders call it so.
pub fn boot_check(stage: Stage, manifest: Manifest, flash: &[u8]) -> Answer
    ensures { (model : ℕ) (key hashes : List ℕ) → result ≡ boot_check digest (device_of model key stage manifest hashes) flash.now }
{
    if senseless(stage, manifest) {
        return Err(Refusal::State);
    }
    if not_complete(stage) {
        return Err(Refusal::Stage);
    }
    if too_small(manifest, flash) {
        return Err(Refusal::Area);
    }
    if lacks_root(manifest, flash) {
        return Err(Refusal::Altered);
    }
    Ok(())
}
