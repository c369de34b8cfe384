// The hash of the tree over blocks of a run of bytes, one of them replaced or none, and of its subtrees. No block is copied or written. All hashes of one
// tree are made in one array, since each level of the recursion would have its own hashes on the stack otherwise.
ghost use Rattle.std.specs.Prelude.{◌≡◌, ℕ, ◌+◌, ◌-◌, ◌*◌, ◌%◌, ◌^◌, ◌<◌, ◌≤◌, List, length, take, drop};
ghost use Rattle.std.proofs.Math.Seq.{paste};
ghost use Rattle.octets.specs.Octets.{part};
ghost use Rattle.sha256.specs.Sha256 as sha;
ghost use Rattle.merkle.specs.Limits.{hash_length, held_bytes};
ghost use Rattle.merkle.specs.Blocks.{cut, overlay};
ghost use Rattle.merkle.specs.Shape.{depth, shape};
ghost use Rattle.merkle.specs.Hash.{plain, leaf_input, node_input, leaf_hash, node_hash, hash, root_over};
ghost use Rattle.merkle.specs.Cost.{cost, cost_without};

use crate::blocks::Blocks;
use crate::limits::{HASH_LEN, HELD_LEN};
use crate::node::{block_hash, node_hash, split};
use octets::{array_at, copy};

// The array has room for one hash on each level of the deepest tree, which is MAX_HELD deep, and behind these, at NEW_AT, for the one that replaces a block's
// own.
const NEW_AT: usize = HELD_LEN + HASH_LEN;

const ROOM: usize = NEW_AT + HASH_LEN;

// The hash of the first block of what is left, which is shorter than len where the bytes end within it.
fn leaf(rest: &[u8], len: usize, out: &mut [u8; 32]) -> usize
    ensures { (out.new ≡ leaf_hash (plain sha.digest) (take len rest.now)) × (result ≡ sha.compressions (leaf_input (plain sha.digest) (take len rest.now))) }
{
    let end = len.min(rest.len());
    block_hash(&rest[..end], out)
}

// The hash over the two hashes from index `at` on.
fn pair(hashes: &[u8], at: usize, out: &mut [u8; 32]) -> usize
    requires { at + 2 * hash_length ≤ length hashes.now }
    ensures { (out.new ≡ node_hash (plain sha.digest) (part at hash_length hashes.now) (part (at + hash_length) hash_length hashes.now)) × (result ≡ sha.compressions (node_input (plain sha.digest) (part at hash_length hashes.now) (part (at + hash_length) hash_length hashes.now))) }
{
    let end = at + 2 * HASH_LEN;
    node_hash(&hashes[at..end], out)
}

// Puts the hash of the subtree over n blocks of len bytes to index `to`. What stands behind that hash, up to NEW_AT, is lost. `rest` are the bytes from the
// subtree's first block on; those before it do not count. The replaced block comes `skip` blocks after the first one, modulo 2^64. So `skip` is 0 where the
// first block is the replaced one, and n or more where the replaced one is outside the subtree. The answer leaves out what the replaced block's own hash took, which
// is made before. It is small, so that no sum overflows: at most 17 for each block and 2 for each node.
// Bytes, length and count stand apart here: as `Blocks` both halves would lie in each frame, 64 bytes twelve times, and the last block's stack would miss its goal.
fn put_hash(
    hashes: &mut [u8; ROOM],
    to: usize,
    rest: &[u8],
    len: usize,
    n: usize,
    skip: usize,
) -> usize
    requires { (0 < n) × (to + hash_length * depth n ≤ held_bytes) × ((n - 1) * len ≤ length rest.now) × (len ≤ 1024) }
    ensures kept { (take to hashes.new ≡ take to hashes.old) × (drop (held_bytes + hash_length) hashes.new ≡ drop (held_bytes + hash_length) hashes.old) }
    ensures put { (bytes block : List ℕ) (first at : ℕ) → first + n < 2 ^ 64 → (skip + first) % 2 ^ 64 ≡ at → drop (first * len) bytes ≡ rest.now → (at < first + n → part (held_bytes + hash_length) hash_length hashes.old ≡ leaf_hash (plain sha.digest) block) → (part to hash_length hashes.new ≡ hash (plain sha.digest) (overlay (cut len bytes) at block) first (shape n)) × (result ≡ cost_without (plain sha.digest) at (overlay (cut len bytes) at block) first (shape n)) }
    ensures few { result + 2 ≤ 19 * n }
{
    let mut below: usize = 0;
    if 1 < n {
        let k = split(n);
        let left = put_hash(hashes, to, rest, len, k, skip);
        let from = k * len;
        let right = put_hash(
            hashes,
            to + HASH_LEN,
            &rest[from..],
            len,
            n - k,
            skip.wrapping_sub(k),
        );
        below = left + right;
    }
    // One local hash and one copy for all three: each byte of the frame stands on the stack twelve times.
    let mut x = [0u8; HASH_LEN];
    let own = if 1 < n {
        pair(hashes, to, &mut x)
    } else if skip == 0 {
        x = array_at(hashes, NEW_AT);
        0
    } else {
        leaf(rest, len, &mut x)
    };
    copy(hashes, to, &x);
    below + own
}

impl<'a> Blocks<'a> {
    // The hash of the tree over the blocks: as many are skipped as there are, so none is replaced.
    pub fn root(self, out: &mut [u8; 32]) -> usize
        ensures { (out.new ≡ root_over (plain sha.digest) (cut self.entry.len self.entry.bytes.now) self.entry.count) × (result ≡ cost (plain sha.digest) (cut self.entry.len self.entry.bytes.now) 0 (shape self.entry.count)) }
    {
        let mut hashes = [0u8; ROOM];
        let took = put_hash(&mut hashes, 0, self.bytes, self.len, self.count, self.count);
        *out = array_at(&hashes, 0);
        took
    }

    // The hash of the tree over the blocks with block `at` (blocks before it) replaced.
    pub fn root_with(self, at: usize, block: &[u8], out: &mut [u8; 32]) -> usize
        requires { (at < self.count) × (length block.now ≤ 1024) }
        ensures { (out.new ≡ root_over (plain sha.digest) (overlay (cut self.entry.len self.entry.bytes.now) at block.now) self.entry.count) × (result ≡ cost (plain sha.digest) (overlay (cut self.entry.len self.entry.bytes.now) at block.now) 0 (shape self.entry.count)) }
    {
        let mut hashes = [0u8; ROOM];
        let own = block_hash(block, out);
        copy(&mut hashes, NEW_AT, out);
        let others = put_hash(&mut hashes, 0, self.bytes, self.len, self.count, at);
        *out = array_at(&hashes, 0);
        own + others
    }

    // Puts the hash of the tree over the blocks to place `index` of the hashes in `out`.
    pub(crate) fn put_root(self, out: &mut [u8], index: usize)
        requires { hash_length * index + hash_length ≤ length out.old }
        ensures { out.new ≡ paste out.old (hash_length * index) (root_over (plain sha.digest) (cut self.entry.len self.entry.bytes.now) self.entry.count) hash_length }
    {
        let mut hash = [0u8; HASH_LEN];
        self.root(&mut hash);
        copy(out, HASH_LEN * index, &hash);
    }
}
