// What an accepted message does. Only here are hashes and flash written, and only `receive_in_place` calls this, where no refusal applies.
#![tactic(auto, unfolding(machine::specs::Step::accept, machine::specs::Step::accept_program, machine::specs::Step::stage_after, crate::specs::Inner::program_of, crate::specs::Inner::block_number_of, crate::specs::Inner::head_of, crate::specs::Inner::block_of))]

ghost use Rattle.std.specs.Prelude.{◌≡◌, false, List, ℕ, pred, ◌+◌, ◌-◌, ◌*◌, ◌≤◌, ◌<◌, length};
ghost use Rattle.merkle.specs.Limits.{max_blocks, hash_length};
ghost use Rattle.merkle.specs.Frontier.{carried_count};
ghost use Rattle.merkle.specs.Held.{advanced};
ghost use Rattle.wire.specs.declared.kind.Kind.TheVariants as kinds;
ghost use Rattle.wire.specs.Geometry.{count_of, with_block};
ghost use Rattle.wire.specs.Message.{least_length};
ghost use Rattle.wire.specs.Message as messages;
ghost use Rattle.machine.specs.declared.state.Device.{Device};
ghost use Rattle.machine.specs.Step.{accept_program, stage_after};
ghost use Rattle.machine.specs.Step as spec;
ghost use Rattle.device.specs.Fields.{device_of, lent, Unrefused};
ghost use Rattle.device.specs.Inner as inner;

use crate::place::Place;
use crate::readers::{next_of, updates};
use crate::view::View;
use machine::Stage;
use wire::{Kind, Manifest};

// Stage and manifest after an accepted message.
#[derive(Drop)]
pub struct InPlaceSituation {
    pub stage: Stage,
    pub manifest: Manifest,
}

impl View<'_> {
    // What an accepted message of this kind makes of stage, manifest, hashes and flash; model and key stay.
    pub(crate) fn accept(
        &self,
        hashes: &mut [u8; merkle::HELD_LEN],
        kind: Kind,
        flash: &mut [u8],
        message: &[u8],
    ) -> InPlaceSituation
        requires { (kind ≡ messages.kind message.now) × Unrefused self.now hashes.old flash.old message.now }
        ensures { spec.accept kind (lent self.now hashes.old) flash.old message.now ≡ record { device = device_of self.now.model self.now.key.now result.stage result.manifest hashes.new; flash = flash.new } }
    {
        match kind {
            Kind::Program => accept_program(hashes, message),
            Kind::Block | Kind::Update | Kind::PathUpdate => {
                self.accept_block(hashes, kind, flash, message)
            }
            // Never accepted; the definition has this arm too.
            Kind::Unknown => InPlaceSituation {
                stage: self.stage,
                manifest: self.manifest,
            },
        }
    }

    // Kinds 2, 3 and 4. One write for all of them: the compiler writes a copy of unknown length out at each place. An update leaves stage and hashes.
    fn accept_block(
        &self,
        hashes: &mut [u8; merkle::HELD_LEN],
        kind: Kind,
        flash: &mut [u8],
        message: &[u8],
    ) -> InPlaceSituation
        requires { (kind ≡ messages.kind message.now) × (inner.updates kind ≡ false → kind ≡ kinds.Block) × Unrefused self.now hashes.old flash.old message.now }
        ensures { spec.accept kind (lent self.now hashes.old) flash.old message.now ≡ record { device = device_of self.now.model self.now.key.now result.stage result.manifest hashes.new; flash = flash.new } }
    {
        let stage = self.stage;
        let update = updates(kind);
        let manifest = program_of(update, self.manifest, message);
        let place = Place {
            manifest: &manifest,
            number: number_of(update, stage, message),
        };
        let len = place.own_len();
        write_block(
            flash,
            usize::from(manifest.block_len),
            place.number,
            block_of(update, message, len),
        );
        if update {
            return InPlaceSituation { stage, manifest };
        }
        let stage = place.advance(hashes, wire::hashes_after(message, len));
        InPlaceSituation { stage, manifest }
    }
}

// Kind 1. It does not look at the flash.
fn accept_program(hashes: &mut [u8; merkle::HELD_LEN], message: &[u8]) -> InPlaceSituation
    requires { least_length kinds.Program ≤ length message.now }
    ensures { (d : Device) (flash : List ℕ) → accept_program d flash message.now ≡ record { device = device_of d.model d.key result.stage result.manifest hashes.new; flash = flash } }
{
    let manifest = wire::manifest_in(message);
    let root = manifest.root;
    merkle::begin(hashes, &root);
    InPlaceSituation {
        stage: Stage::Loading(1),
        manifest,
    }
}

// Writes block `number`, from 1, to its place.
fn write_block(flash: &mut [u8], len: usize, number: u16, block: &[u8])
    requires { (0 < number) × ((number - 1) * len + length block.now ≤ length flash.old) }
    ensures { flash.new ≡ with_block len flash.old number block.now }
{
    octets::copy(flash, (number as usize - 1) * len, block);
}

// The stage after block `number` of n.
fn stage_after(n: usize, number: u16) -> Stage
    requires { n ≤ max_blocks }
    ensures { result ≡ stage_after n number }
{
    if (number as usize) < n {
        let next = number + 1;
        return Stage::Loading(next);
    }
    Stage::Complete
}

// Three functions by `update`, and no two for each kind that brings a block: so one write serves all kinds (`accept_block`).

// The manifest of the program that a brought block belongs to: an update brings its own.
fn program_of(update: bool, current: Manifest, message: &[u8]) -> Manifest
    requires { inner.head_of update ≤ length message.now }
    ensures { result ≡ inner.program_of update current message.now }
{
    if update {
        return wire::manifest_in(message);
    }
    current
}

// Its number.
fn number_of(update: bool, stage: Stage, message: &[u8]) -> u16
    requires { inner.head_of update ≤ length message.now }
    ensures { result ≡ inner.block_number_of update stage message.now }
{
    if update {
        return wire::update_number(message);
    }
    next_of(stage)
}

// Its bytes, `len` of them.
fn block_of(update: bool, message: &[u8], len: usize) -> &[u8]
    requires { inner.head_of update + len ≤ length message.now }
    ensures { result.now ≡ inner.block_of update len message.now }
{
    if update {
        return wire::update_block(message, len);
    }
    wire::block_in(message, len)
}

impl Place<'_> {
    // The siblings that came with this block take the place of the held hash it was compared with; the answer is the stage after it.
    fn advance(&self, hashes: &mut [u8; merkle::HELD_LEN], siblings: &[u8]) -> Stage
        requires { length siblings.now ≡ hash_length * carried_count (count_of self.now.manifest.now) self.now.number }
        ensures { (result ≡ stage_after (count_of self.now.manifest.now) self.now.number) × (hashes.new ≡ advanced (count_of self.now.manifest.now) (pred self.now.number) hashes.old siblings.now) }
    {
        let n = self.count();
        merkle::advance(hashes, n, self.index(), siblings);
        stage_after(n, self.number)
    }
}
