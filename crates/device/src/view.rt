// A device as it is lent to be looked at: all of it but its hashes.
#![tactic(auto, unfolding(machine::specs::Device::serial_of))]

ghost use Rattle.std.specs.Prelude.{◌≡◌, List, ℕ};
ghost use Rattle.machine.specs.Device.{serial_of};
ghost use Rattle.device.specs.Fields.{lent};

use machine::Stage;
use wire::Manifest;

#[derive(Drop)]
pub struct View<'a> {
    pub model: u32,
    pub key: &'a [u8],
    pub stage: Stage,
    // What stage is about; means nothing while that is idle.
    pub manifest: Manifest,
}

impl View<'_> {
    // The serial that a new one must be above: 0 when idle, as the definition `serial_of` has it.
    pub(crate) fn serial(&self) -> u32
        ensures { (hashes : List ℕ) → result ≡ serial_of (lent self.now hashes) }
    {
        match self.stage {
            Stage::Idle => 0,
            Stage::Loading(_) | Stage::Complete => self.manifest.serial,
        }
    }
}
