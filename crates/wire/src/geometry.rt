// How long an image and its blocks are, and what follows from that: how many blocks there are, how long each is, how long its messages must be and what they cost.
#![tactic(auto, using(crate::proofs::GeometryLaws::allowed), unfolding(crate::specs::Message::due_length, crate::specs::Message::messages_length, crate::specs::Message::least_update, crate::specs::Message::least_path))]

ghost use Rattle.std.specs.Prelude.{◌≡◌, false, true};
ghost use Rattle.wire.specs.Size.{wrong_size};

use crate::blocks::{block_length, block_of};
use crate::message::{BLOCK_LEAST, UPDATE_LEAST};
use crate::refusal::Refusal;
use crate::sizes::{block_count, wrong_size};
use merkle::Blocks;

// The lengths of a program's blocks and of its image: 01's L and T, of an allowed size. Blocks count from 1.
#[derive(Clone, Copy, Debug, PartialEq, Eq)]
pub struct Geometry {
    // 01: L, the bytes of a block.
    pub block_len: usize,
    // 01: T, the bytes of the image.
    pub image_len: usize,
    pub ghost allowed: { wrong_size block_len image_len ≡ false },
}

impl Geometry {
    ghost use Rattle.std.specs.Prelude.{pred, ◌≤◌, ◌<◌, length, take, MatchResult};
    ghost use Rattle.sha256.specs.Sha256.{digest};
    ghost use Rattle.merkle.specs.Blocks.{block_count, cut};
    ghost use Rattle.merkle.specs.Cost.{known_cost};
    ghost use Rattle.merkle.specs.Hash.{plain};
    ghost use Rattle.merkle.specs.Path.{leaf_depth};
    ghost use Rattle.wire.specs.declared.refusal.Refusal.TheVariants as refusal;
    ghost use Rattle.wire.specs.Geometry.{block_length};
    ghost use Rattle.wire.specs.Message.{due_length, messages_length, least_update, least_path};

    // Refusal 5 where the lengths are not allowed.
    pub fn new(block_len: usize, image_len: usize) -> Result<Geometry, Refusal>
        ensures { MatchResult result (λ geometry. (geometry.block_len ≡ block_len) × (geometry.image_len ≡ image_len)) (λ refused. (refused ≡ refusal.Size) × (wrong_size block_len image_len ≡ true)) }
    {
        if wrong_size(block_len, image_len) {
            return Err(Refusal::Size);
        }
        Ok(Geometry {
            block_len,
            image_len,
        })
    }

    // The number of blocks (01: n).
    pub fn count(self) -> usize
        ensures { result ≡ block_count self.block_len self.image_len }
    {
        block_count(self.block_len, self.image_len)
    }

    // The number of a block stays beside the lengths: a bundle asks one thing of each number, the sender two or three. The device, which asks more, has both in a `Place`,
    // and that holds a manifest, which the others have not.

    // The bytes of block `number`: its own, which in the last one may be fewer than L.
    pub fn block_length(self, number: usize) -> usize
        requires { (0 < number) × (number ≤ block_count self.block_len self.image_len) }
        ensures { result ≡ block_length self.block_len self.image_len number }
    {
        block_length(self.block_len, self.image_len, number)
    }

    // Block `number` of the image that the bytes begin with.
    pub fn block(self, bytes: &[u8], number: usize) -> &[u8]
        requires { (0 < number) × (number ≤ block_count self.block_len self.image_len) × (self.image_len ≤ length bytes.now) }
        ensures { result.now ≡ cut self.block_len (take self.image_len bytes.now) (pred number) }
    {
        block_of(bytes, self.block_len, self.image_len, number)
    }

    // All blocks of the image that the bytes begin with.
    pub fn blocks(self, bytes: &[u8]) -> Blocks
        requires { self.image_len ≤ length bytes.now }
        ensures { (result.bytes.now ≡ take self.image_len bytes.now) × (result.len ≡ self.block_len) × (result.count ≡ block_count self.block_len self.image_len) }
    {
        Blocks {
            bytes: &bytes[..self.image_len],
            len: self.block_len,
            count: self.count(),
        }
    }

    // What the message of block `number` costs, in SHA-256 compressions. Nothing is hashed to know it.
    pub fn cost_due(self, number: usize) -> usize
        requires { (0 < number) × (number ≤ block_count self.block_len self.image_len) }
        ensures { result ≡ known_cost (plain digest) self.block_len (block_count self.block_len self.image_len) (pred number) (block_length self.block_len self.image_len number) }
    {
        merkle::known_cost(
            self.block_len,
            self.count(),
            number - 1,
            self.block_length(number),
        )
    }

    // The depth of the leaf of block `number`: so many siblings has a path update.
    pub fn leaf_depth(self, number: usize) -> usize
        requires { (0 < number) × (number ≤ block_count self.block_len self.image_len) }
        ensures { result ≡ leaf_depth (block_count self.block_len self.image_len) (pred number) }
    {
        merkle::leaf_depth(self.count(), number - 1)
    }

    // Refusal 12, kind 2: the bytes of block message `number`.
    pub fn due_len(self, number: usize) -> usize
        requires { (0 < number) × (number ≤ block_count self.block_len self.image_len) }
        ensures { result ≡ due_length self.block_len self.image_len number }
    {
        let counts = merkle::count(self.count(), number - 1);
        BLOCK_LEAST + self.block_length(number) + merkle::HASH_LEN * counts.carried
    }

    // The bytes of all block messages together.
    pub fn messages_len(self) -> usize
        ensures { result ≡ messages_length self.block_len self.image_len }
    {
        let n = self.count();
        BLOCK_LEAST * n + self.image_len + merkle::HASH_LEN * (n - 1)
    }

    // Refusal 12, kind 3: the least bytes of an update of block `number`.
    pub fn least_update(self, number: usize) -> usize
        requires { (0 < number) × (number ≤ block_count self.block_len self.image_len) }
        ensures { result ≡ least_update self.block_len self.image_len number }
    {
        UPDATE_LEAST + self.block_length(number)
    }

    // Refusal 12, kind 4: the least bytes of a path update of block `number`, with the siblings of its leaf.
    pub fn least_path(self, number: usize) -> usize
        requires { (0 < number) × (number ≤ block_count self.block_len self.image_len) }
        ensures { result ≡ least_path self.block_len self.image_len number }
    {
        self.least_update(number) + merkle::HASH_LEN * self.leaf_depth(number)
    }
}
