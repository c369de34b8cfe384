// A block of a program, and the tests of a message that brings it.
#![tactic(auto, using(wire::proofs::SizeLaws::inside), unfolding(machine::specs::Refusals::too_small, machine::specs::Refusals::wrong_length, wire::specs::Geometry::count_of, wire::specs::Geometry::blocks_of))]

ghost use Rattle.std.specs.Prelude.{◌≡◌, false, ◌≤◌, ◌<◌};
ghost use Rattle.wire.specs.Size.{wrong_size};
ghost use Rattle.wire.specs.Geometry.{count_of};

use merkle::Comparison;
use wire::{Geometry, Manifest, Refusal};

// Block `number`, from 1, of a program of an allowed size.
#[derive(Drop)]
pub struct Place<'a> {
    pub manifest: &'a Manifest,
    pub number: u16,
    pub ghost sized: { wrong_size manifest.now.block_len manifest.now.image_len ≡ false },
    pub ghost low: { 0 < number },
    pub ghost high: { number ≤ count_of manifest.now },
}

impl<'a> Place<'a> {
    ghost use Rattle.std.specs.Prelude.{true, not, List, ℕ, pred, ◌*◌, ltb, length, MatchResult};
    ghost use Rattle.sha256.specs.Sha256.{digest};
    ghost use Rattle.merkle.specs.Limits.{hash_length};
    ghost use Rattle.merkle.specs.Path.{leaf_depth};
    ghost use Rattle.wire.specs.declared.refusal.Refusal.TheVariants as refusal;
    ghost use Rattle.wire.specs.Size.{outside};
    ghost use Rattle.wire.specs.Geometry.{block_length, blocks_of, with_block};
    ghost use Rattle.wire.specs.Cost.{tree_cost, comparison_cost, last_cost};
    ghost use Rattle.wire.specs.Message.{least_update, least_path};
    ghost use Rattle.machine.specs.declared.state.Stage.TheVariants.{Loading};
    ghost use Rattle.machine.specs.Refusals.{too_small, wrong_length};
    ghost use Rattle.machine.specs.Refusals as spec;
    ghost use Rattle.device.specs.Fields.{device_of};

    // 11, kinds 3 and 4: the number that an update brings, where its program has such a block.
    pub fn of(manifest: &'a Manifest, number: u16) -> Result<Place<'a>, Refusal>
        requires { wrong_size manifest.now.block_len manifest.now.image_len ≡ false }
        ensures { MatchResult result (λ place. (place.manifest.now ≡ manifest.now) × (place.number ≡ number) × (outside (count_of manifest.now) number ≡ false)) (λ refused. (refused ≡ refusal.Turn) × (outside (count_of manifest.now) number ≡ true)) }
    {
        if wire::outside(manifest.known_geometry().count(), usize::from(number)) {
            return Err(Refusal::Turn);
        }
        Ok(Place { manifest, number })
    }

    // The lengths of its program.
    fn geometry(&self) -> Geometry
        ensures { (result.block_len ≡ self.now.manifest.now.block_len) × (result.image_len ≡ self.now.manifest.now.image_len) }
    {
        self.manifest.known_geometry()
    }

    // How many blocks its program has.
    pub fn count(&self) -> usize
        ensures { result ≡ count_of self.now.manifest.now }
    {
        self.geometry().count()
    }

    // Its index, from 0: so many blocks come before it.
    pub fn index(&self) -> usize
        ensures { result ≡ pred self.now.number }
    {
        usize::from(self.number) - 1
    }

    // How many bytes it has: in the last block maybe fewer than L.
    pub fn own_len(&self) -> usize
        ensures { result ≡ block_length self.now.manifest.now.block_len self.now.manifest.now.image_len self.now.number }
    {
        self.geometry().block_length(usize::from(self.number))
    }

    // Its bytes in the flash.
    pub fn block_in<'b>(&self, flash: &'b [u8]) -> &'b [u8]
        requires { too_small self.now.manifest.now flash.now ≡ false }
        ensures { result.now ≡ blocks_of self.now.manifest.now flash.now (pred self.now.number) }
    {
        self.geometry().block(flash, usize::from(self.number))
    }

    // The depth of its leaf: so many siblings has a path update.
    pub fn depth(&self) -> usize
        ensures { result ≡ leaf_depth (count_of self.now.manifest.now) (pred self.now.number) }
    {
        self.geometry().leaf_depth(usize::from(self.number))
    }

    // 12, kind 2.
    pub fn wrong_length(&self, message: &[u8]) -> bool
        ensures { result ≡ wrong_length self.now.manifest.now self.now.number message.now }
    {
        message.len() != self.geometry().due_len(usize::from(self.number))
    }

    // 12, kind 3.
    pub fn below_least_update(&self, message: &[u8]) -> bool
        ensures { result ≡ ltb (length message.now) (least_update self.now.manifest.now.block_len self.now.manifest.now.image_len self.now.number) }
    {
        message.len() < self.geometry().least_update(usize::from(self.number))
    }

    // 12, kind 4.
    pub fn below_least_path(&self, message: &[u8]) -> bool
        ensures { result ≡ ltb (length message.now) (least_path self.now.manifest.now.block_len self.now.manifest.now.image_len self.now.number) }
    {
        message.len() < self.geometry().least_path(usize::from(self.number))
    }

    // 20, kind 2: the message of this block costs more than the budget. Nothing is hashed to know it.
    pub fn spent(&self, budget: u32) -> bool
        ensures { (flash m : List ℕ) → too_small self.now.manifest.now flash ≡ false → wrong_length self.now.manifest.now self.now.number m ≡ false → result ≡ spec.spent digest budget self.now.manifest.now self.now.number flash m }
    {
        (budget as usize) < self.geometry().cost_due(usize::from(self.number))
    }

    // The comparisons answer their count where the hashes differ, too: their contracts promise it.

    // 14, kind 2: whether the hash worked out from block and message is the held one.
    pub fn compare(&self, hashes: &[u8; merkle::HELD_LEN], message: &[u8]) -> Comparison
        requires { wrong_length self.now.manifest.now self.now.number message.now ≡ false }
        ensures { ((model : ℕ) (key : List ℕ) → not result.same ≡ spec.mismatch digest (device_of model key (Loading self.now.number) self.now.manifest.now hashes.now) self.now.number message.now)
            × (result.compressions ≡ comparison_cost digest self.now.manifest.now self.now.number message.now) }
    {
        let len = self.own_len();
        merkle::fits(
            hashes,
            self.count(),
            self.index(),
            wire::block_in(message, len),
            wire::hashes_after(message, len),
        )
    }

    // 14 of kind 3, for the new manifest, and 19 of kind 2: whether the tree over the flash with the block in place has its root. The flash is only read.
    // Not inlined: the tree's hashes are 416 bytes, which the frame of every message would have.
    #[inline(never)]
    pub fn compare_with(&self, flash: &[u8], block: &[u8]) -> Comparison
        requires { (too_small self.now.manifest.now flash.now ≡ false) × (length block.now ≡ block_length self.now.manifest.now.block_len self.now.manifest.now.image_len self.now.number) }
        ensures { (not result.same ≡ spec.lacks_root digest self.now.manifest.now (with_block self.now.manifest.now.block_len flash.now self.now.number block.now))
            × (result.compressions ≡ tree_cost digest self.now.manifest.now (with_block self.now.manifest.now.block_len flash.now self.now.number block.now)) }
    {
        let blocks = self.geometry().blocks(flash);
        let mut found = [0u8; merkle::HASH_LEN];
        let compressions = blocks.root_with(self.index(), block, &mut found);
        Comparison {
            same: octets::equal(&found, &self.manifest.root),
            compressions,
        }
    }

    // 19, kind 2: where this is the last block, whether the tree over the flash with it in place has the root of the current manifest.
    pub fn compare_last(&self, flash: &[u8], message: &[u8]) -> Comparison
        requires { (too_small self.now.manifest.now flash.now ≡ false) × (wrong_length self.now.manifest.now self.now.number message.now ≡ false) }
        ensures { (not result.same ≡ spec.last_altered digest self.now.manifest.now self.now.number flash.now message.now)
            × (result.compressions ≡ last_cost digest self.now.manifest.now self.now.number flash.now message.now) }
    {
        if usize::from(self.number) != self.count() {
            return Comparison {
                same: true,
                compressions: 0,
            };
        }
        self.compare_with(flash, wire::block_in(message, self.own_len()))
    }

    // 15 and 14, kind 4: the block with these siblings does not lead to the root.
    pub fn strays(&self, block: &[u8], siblings: &[u8], root: &[u8; 32]) -> bool
        requires { length siblings.now ≡ hash_length * leaf_depth (count_of self.now.manifest.now) (pred self.now.number) }
        ensures { result ≡ spec.strays digest self.now.manifest.now self.now.number block.now siblings.now root.now }
    {
        let mut found = [0u8; merkle::HASH_LEN];
        merkle::path_hash(self.count(), self.index(), block, siblings, &mut found);
        !octets::equal(&found, root)
    }
}
