// The first refusal that applies, if any: the tests of each kind, in the papers' order. Nothing is written here. The hashes, which one test looks at, are handed on
// beside the view. What the functions under `judge` require is met here: all their calls stand in this file. It is
// what the tests before have shown; a type for each such fact would be made and taken apart for one call.
#![tactic(auto, unfolding(crate::specs::Judged::verdict, crate::specs::Judged::judged, crate::specs::Inner::of_unhashed, crate::specs::Inner::early, crate::specs::Inner::updates, machine::specs::Flash::updated, machine::specs::Refusals::of_manifest, machine::specs::Refusals::of_program, machine::specs::Refusals::of_block, machine::specs::Refusals::of_successor, machine::specs::Refusals::of_update, machine::specs::Refusals::of_path_update, machine::specs::Refusals::of_kind, machine::specs::Refusals::no_kind, machine::specs::Refusals::always, wire::specs::Message::short, wire::specs::Message::carries, machine::specs::Refusals::refusals, wire::specs::Refusal::first_that_applies, machine::specs::Step::answer_of, machine::specs::Step::total))]

ghost use Rattle.std.specs.Prelude.{◌≡◌, true, false, List, [], ◌∷◌, ℕ, pred, ◌+◌, ◌*◌, ◌≤◌, length};
ghost use Rattle.sha256.specs.Sha256.{digest};
ghost use Rattle.merkle.specs.Limits.{hash_length};
ghost use Rattle.merkle.specs.Path.{leaf_depth};
ghost use Rattle.lms.specs.Lms.{valid};
ghost use Rattle.wire.specs.declared.kind.Kind.TheVariants as kinds;
ghost use Rattle.wire.specs.declared.refusal.Refusal.TheVariants as refusal;
ghost use Rattle.wire.specs.Refusal.{first_that_applies};
ghost use Rattle.wire.specs.Geometry.{count_of, blocks_of};
ghost use Rattle.wire.specs.Cost.{block_cost};
ghost use Rattle.wire.specs.Message.{carries, least_length, manifest_in, update_number, update_block, path_in};
ghost use Rattle.machine.specs.Device.{next_of};
ghost use Rattle.machine.specs.Refusals.{not_complete, too_small, of_kind, of_manifest, of_program, of_block, of_successor, of_update, of_path_update};
ghost use Rattle.machine.specs.Refusals as spec;
ghost use Rattle.machine.specs.Step.{answer_of};
ghost use Rattle.device.specs.Judged.{verdict, judged};
ghost use Rattle.device.specs.Fields.{lent};
ghost use Rattle.device.specs.Inner.{Sensible, Newer, of_unhashed};

use crate::conditions::{
    early, lacks_root, not_loading, not_next, senseless, too_small, unlike, wrong_size,
    wrong_version,
};
use crate::place::Place;
use crate::readers::next_of;
use crate::view::View;
use machine::Answer;
use wire::{Kind, Manifest, Refusal};

impl View<'_> {
    // Always 1, 2, 3; then those of the kind. No message of an unknown kind is short, so 2 can wait for the match. Where none applies, what the message reports, in
    // SHA-256 compressions: a block's total, 0 for the other kinds.
    pub(crate) fn judge(
        &self,
        hashes: &[u8; merkle::HELD_LEN],
        kind: Kind,
        flash: &[u8],
        message: &[u8],
        budget: u32,
    ) -> Result<u32, Refusal>
        ensures { result ≡ judged budget kind (lent self.now hashes.now) flash.now message.now }
    {
        if senseless(self.stage, self.manifest) {
            return Err(Refusal::State);
        }
        if wire::short(kind, message) {
            return Err(Refusal::Short);
        }
        match kind {
            Kind::Unknown => Err(Refusal::Kind),
            Kind::Block => self.judge_block(hashes, flash, message, budget),
            Kind::Program | Kind::Update | Kind::PathUpdate => {
                self.judge_carrier(kind, flash, message)?;
                Ok(0)
            }
        }
    }

    // Kinds 1, 3 and 4, which carry a manifest: 10 of an update, 4, 5, 6, 7 of the manifest, then the kind's own. One call for all of them, and one of
    // `judge_manifest`: the compiler writes such a test out at each place that calls it.
    fn judge_carrier(&self, kind: Kind, flash: &[u8], message: &[u8]) -> Answer
        requires { (carries kind ≡ true) × (least_length kind ≤ length message.now) }
        ensures { (budget : ℕ) (hashes : List ℕ) → result ≡ answer_of (first_that_applies (of_kind digest valid budget kind (lent self.now hashes) flash.now message.now)) }
    {
        if early(kind, self.stage) {
            return Err(Refusal::Stage);
        }
        let manifest = wire::manifest_in(message);
        self.judge_manifest(manifest)?;
        match kind {
            Kind::Program => self.judge_program(manifest, flash, message),
            Kind::Update => self.judge_update(manifest, flash, message),
            Kind::PathUpdate => self.judge_path_update(manifest, flash, message),
            // Neither comes here: they carry none.
            Kind::Block | Kind::Unknown => Err(Refusal::Kind),
        }
    }

    // A new manifest, in kind 1, 3 or 4: 4, 5, 6, 7.
    fn judge_manifest(&self, manifest: Manifest) -> Answer
        ensures { (hashes : List ℕ) → result ≡ answer_of (first_that_applies (of_manifest (lent self.now hashes) manifest)) }
    {
        if wrong_version(manifest) {
            return Err(Refusal::Version);
        }
        if wrong_size(manifest) {
            return Err(Refusal::Size);
        }
        if self.other_model(manifest) {
            return Err(Refusal::Model);
        }
        if self.not_newer(manifest) {
            return Err(Refusal::Serial);
        }
        Ok(())
    }

    // Kind 1: 4, 5, 6, 7, which have passed, then 8, 9.
    fn judge_program(&self, manifest: Manifest, flash: &[u8], message: &[u8]) -> Answer
        requires { (least_length kinds.Program ≤ length message.now) × (manifest ≡ manifest_in message.now) × Newer self.now manifest }
        ensures { (hashes : List ℕ) → result ≡ answer_of (first_that_applies (of_program valid (lent self.now hashes) flash.now message.now (manifest_in message.now))) }
    {
        if too_small(manifest, flash) {
            return Err(Refusal::Area);
        }
        if self.unsigned(
            wire::manifest_bytes(message),
            wire::program_signature(message),
        ) {
            return Err(Refusal::Unsigned);
        }
        Ok(())
    }

    // The first of kind 2, before anything is hashed: 10, 8, 11, 12, 20. Where they pass, a block is awaited, and what its message costs is within the budget, so that
    // `judge_block` can add up both comparisons.
    fn judge_unhashed(&self, flash: &[u8], message: &[u8], budget: u32) -> Answer
        requires { Sensible self.now × (least_length kinds.Block ≤ length message.now) }
        ensures { result ≡ answer_of (first_that_applies (of_unhashed budget self.now.stage self.now.manifest flash.now message.now (next_of self.now.stage))) }
    {
        if not_loading(self.stage) {
            return Err(Refusal::Stage);
        }
        let next = next_of(self.stage);
        if too_small(self.manifest, flash) {
            return Err(Refusal::Area);
        }
        if not_next(next, message) {
            return Err(Refusal::Turn);
        }
        let place = Place {
            manifest: &self.manifest,
            number: next,
        };
        if place.wrong_length(message) {
            return Err(Refusal::Length);
        }
        if place.spent(budget) {
            return Err(Refusal::Spent);
        }
        Ok(())
    }

    // Kind 2: those of `judge_unhashed`, then 14, 19, with what both comparisons took. The last block's message walks the whole tree; a damaged one does not come so far.
    fn judge_block(
        &self,
        hashes: &[u8; merkle::HELD_LEN],
        flash: &[u8],
        message: &[u8],
        budget: u32,
    ) -> Result<u32, Refusal>
        requires { Sensible self.now × (least_length kinds.Block ≤ length message.now) }
        ensures { result ≡ verdict (first_that_applies (of_block digest budget (lent self.now hashes.now) flash.now message.now (next_of self.now.stage))) (block_cost digest self.now.manifest (next_of self.now.stage) flash.now message.now) }
    {
        self.judge_unhashed(flash, message, budget)?;
        let place = Place {
            manifest: &self.manifest,
            number: next_of(self.stage),
        };
        let own = place.compare(hashes, message);
        if !own.same {
            return Err(Refusal::Mismatch);
        }
        let whole = place.compare_last(flash, message);
        if !whole.same {
            return Err(Refusal::Altered);
        }
        Ok((own.compressions + whole.compressions) as u32)
    }

    // An update of either kind: 10, 4, 5, 6, 7, which have passed, then 13, 8.
    fn judge_successor(&self, flash: &[u8], manifest: Manifest) -> Answer
        requires { (not_complete self.now.stage ≡ false) × Newer self.now manifest }
        ensures { (hashes : List ℕ) → result ≡ answer_of (first_that_applies (of_successor (lent self.now hashes) flash.now manifest)) }
    {
        if unlike(manifest, self.manifest) {
            return Err(Refusal::Unlike);
        }
        if too_small(manifest, flash) {
            return Err(Refusal::Area);
        }
        Ok(())
    }

    // Kind 3: those of `judge_successor`, then 19, 11, 12, 9, 14.
    fn judge_update(&self, manifest: Manifest, flash: &[u8], message: &[u8]) -> Answer
        requires { (least_length kinds.Update ≤ length message.now) × (manifest ≡ manifest_in message.now) × (not_complete self.now.stage ≡ false) × Newer self.now manifest }
        ensures { (hashes : List ℕ) → result ≡ answer_of (first_that_applies (of_update digest valid (lent self.now hashes) flash.now message.now (manifest_in message.now) (update_number message.now))) }
    {
        let number = wire::update_number(message);
        self.judge_successor(flash, manifest)?;
        if lacks_root(self.manifest, flash) {
            return Err(Refusal::Altered);
        }
        let place = Place::of(&manifest, number)?;
        if place.below_least_update(message) {
            return Err(Refusal::Length);
        }
        let len = place.own_len();
        if self.unsigned(
            wire::manifest_bytes(message),
            wire::update_signature(message, len),
        ) {
            return Err(Refusal::Unsigned);
        }
        let tree = place.compare_with(flash, wire::update_block(message, len));
        if !tree.same {
            return Err(Refusal::Mismatch);
        }
        Ok(())
    }

    // Kind 4: those of `judge_successor`, then 11, 12, 9, 15, 14; no 19.
    fn judge_path_update(&self, manifest: Manifest, flash: &[u8], message: &[u8]) -> Answer
        requires { (least_length kinds.PathUpdate ≤ length message.now) × (manifest ≡ manifest_in message.now) × (not_complete self.now.stage ≡ false) × Newer self.now manifest }
        ensures { (hashes : List ℕ) → result ≡ answer_of (first_that_applies (of_path_update digest valid (lent self.now hashes) flash.now message.now (manifest_in message.now) (update_number message.now))) }
    {
        let number = wire::update_number(message);
        self.judge_successor(flash, manifest)?;
        let place = Place::of(&manifest, number)?;
        if place.below_least_path(message) {
            return Err(Refusal::Length);
        }
        let len = place.own_len();
        let depth = place.depth();
        if self.unsigned(
            wire::manifest_bytes(message),
            wire::path_signature(message, len, depth),
        ) {
            return Err(Refusal::Unsigned);
        }
        self.judge_path(&place, flash, message, len, depth)
    }

    // The last of kind 4: 15, 14, for a block of `len` bytes and a leaf of this depth.
    fn judge_path(
        &self,
        place: &Place,
        flash: &[u8],
        message: &[u8],
        len: usize,
        depth: usize,
    ) -> Answer
        requires { (too_small place.now.manifest.now flash.now ≡ false) × (depth ≡ leaf_depth (count_of place.now.manifest.now) (pred place.now.number)) × (least_length kinds.Update + len + hash_length * depth ≤ length message.now) }
        ensures { result ≡ answer_of (first_that_applies ((refusal.Path, spec.strays digest place.now.manifest.now place.now.number (blocks_of place.now.manifest.now flash.now (pred place.now.number)) (path_in len depth message.now) self.now.manifest.root) ∷ (refusal.Mismatch, spec.strays digest place.now.manifest.now place.now.number (update_block len message.now) (path_in len depth message.now) place.now.manifest.now.root) ∷ [])) }
    {
        let siblings = wire::path_in(message, len, depth);
        let old = place.block_in(flash);
        if place.strays(old, siblings, &self.manifest.root) {
            return Err(Refusal::Path);
        }
        let new = wire::update_block(message, len);
        if place.strays(new, siblings, &place.manifest.root) {
            return Err(Refusal::Mismatch);
        }
        Ok(())
    }
}
