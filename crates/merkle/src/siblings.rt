// The hashes of a block message: the climb over them, and the sender's writing of them.
ghost use Rattle.std.specs.Prelude.{◌≡◌, ◌+◌, ◌*◌, ◌<◌, ◌≤◌, Bool, List, ◌++◌, length, drop};
ghost use Rattle.sha256.specs.Sha256 as sha;
ghost use Rattle.merkle.specs.Limits.{hash_length};
ghost use Rattle.merkle.specs.Blocks.{cut};
ghost use Rattle.merkle.specs.Shape.{shape, Place};
ghost use Rattle.merkle.specs.Hash.{plain, leaf_input, leaf_hash};
ghost use Rattle.merkle.specs.Path.{ascend};
ghost use Rattle.merkle.specs.Turns.{turns_of};
ghost use Rattle.merkle.specs.Cost.{ascend_cost};
ghost use Rattle.merkle.specs.Frontier.{largest, carried_count};
ghost use Rattle.merkle.specs.Held.{hashes_in, sent};

use crate::blocks::Blocks;
use crate::counting::count;
use crate::limits::HASH_LEN;
use crate::node::{block_hash, rise, split};

// From a block up over its siblings, lowest first, to the hash at the top. `turns` has a bit for each, the lowest for the first: 1 where the sibling stands on the
// left.
pub fn climb(turns: usize, block: &[u8], siblings: &[u8], x: &mut [u8; 32]) -> usize
    ensures { (ws : List (Place × Bool)) → turns ≡ turns_of ws → length siblings.now ≡ hash_length * length ws → (x.new ≡ ascend (plain sha.digest) (leaf_hash (plain sha.digest) block.now) ws (hashes_in (length ws) siblings.now)) × (result ≡ sha.compressions (leaf_input (plain sha.digest) block.now) + ascend_cost (plain sha.digest) (leaf_hash (plain sha.digest) block.now) ws (hashes_in (length ws) siblings.now)) }
{
    let mut took = block_hash(block, x);
    let mut left = turns;
    let (hashes, _) = siblings.as_chunks::<HASH_LEN>();
    for sibling in hashes {
        took += rise(x, left % 2 == 0, sibling);
        left /= 2;
    }
    took
}

// How many blocks the largest subtree has that starts after `before` of n blocks.
fn subtree(n: usize, before: usize) -> usize
    requires { before < n }
    ensures { (0 < result) × (before + result ≤ n) × (largest 0 (shape n) before ≡ (before, shape result)) }
{
    let mut m = n;
    let mut i = before;
    // No range: how often is known only behind it.
    while 0 < i {
        let k = split(m);
        if i < k {
            m = k;
        } else {
            m -= k;
            i -= k;
        }
    }
    m
}

impl<'a> Blocks<'a> {
    // Writes the hashes that go with the block that has `before` blocks before it. The highest sibling comes first, to its place at the end.
    pub fn write_siblings(self, out: &mut [u8], before: usize)
        requires { (before < self.count) × (hash_length * carried_count self.count (before + 1) ≤ length out.old) }
        ensures { out.new ≡ sent (plain sha.digest) self.entry.count (cut self.entry.len self.entry.bytes.now) before ++ drop (hash_length * carried_count self.entry.count (before + 1)) out.old }
    {
        let mut tree = self.part(before, subtree(self.count, before));
        let mut c = count(self.count, before).carried;
        // No range: how often is known only behind it.
        while 1 < tree.count {
            let (left, right) = tree.halves();
            c -= 1;
            right.put_root(out, c);
            tree = left;
        }
    }
}
