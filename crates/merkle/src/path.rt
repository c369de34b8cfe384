// A block's whole way up to the root: how many siblings stand beside it, the root worked out from the block and these, and the sender's writing of them.
ghost use Rattle.std.specs.Prelude.{◌≡◌, ◌*◌, ◌<◌, ◌≤◌, ◌++◌, length, drop};
ghost use Rattle.sha256.specs.Sha256 as sha;
ghost use Rattle.merkle.specs.Limits.{hash_length};
ghost use Rattle.merkle.specs.Blocks.{cut};
ghost use Rattle.merkle.specs.Shape.{shape};
ghost use Rattle.merkle.specs.Hash.{plain};
ghost use Rattle.merkle.specs.Path.{leaf_depth, way, sent_path, path_hash};
ghost use Rattle.merkle.specs.Turns.{turns_of};
ghost use Rattle.merkle.specs.Cost.{path_cost};
ghost use Rattle.merkle.specs.Held.{hashes_in};

use crate::blocks::Blocks;
use crate::node::split;
use crate::siblings::climb;

// The way from the root down to a block: how many nodes are on it, and which way it goes at each, a bit for each: 1 for right. The lowest node has the lowest bit, so
// that the way up reads them off in its order.
#[derive(Clone, Copy, Debug, PartialEq, Eq)]
struct Descent {
    depth: usize,
    turns: usize,
}

// Down to the block that has `before` of the n blocks before it.
fn descend(n: usize, before: usize) -> Descent
    requires { before < n }
    ensures { (result.depth ≡ leaf_depth n before) × (result.turns ≡ turns_of (way 0 (shape n) before)) }
{
    let mut m = n;
    let mut i = before;
    let mut depth: usize = 0;
    let mut turns: usize = 0;
    // No range: how often is known only behind it.
    while 1 < m {
        let k = split(m);
        depth += 1;
        if i < k {
            m = k;
            turns = 2 * turns;
        } else {
            m -= k;
            i -= k;
            turns = 2 * turns + 1;
        }
    }
    Descent { depth, turns }
}

// The depth of the leaf that has `before` of the n blocks before it.
pub fn leaf_depth(n: usize, before: usize) -> usize
    requires { before < n }
    ensures { result ≡ leaf_depth n before }
{
    let descent = descend(n, before);
    descent.depth
}

// The root over n blocks, worked out from the block that has `before` blocks before it and the siblings on its way up, lowest first.
pub fn path_hash(
    n: usize,
    before: usize,
    block: &[u8],
    siblings: &[u8],
    out: &mut [u8; 32],
) -> usize
    requires { (before < n) × (length siblings.now ≡ hash_length * leaf_depth n before) }
    ensures { (out.new ≡ path_hash (plain sha.digest) 0 (shape n) before block.now (hashes_in (leaf_depth n before) siblings.now)) × (result ≡ path_cost (plain sha.digest) 0 (shape n) before block.now (hashes_in (leaf_depth n before) siblings.now)) }
{
    let descent = descend(n, before);
    climb(descent.turns, block, siblings, out)
}

impl<'a> Blocks<'a> {
    // Writes the siblings of the block that has `before` blocks before it. The highest comes first, to its place at the end.
    pub fn write_path(self, out: &mut [u8], before: usize)
        requires { (before < self.count) × (hash_length * leaf_depth self.count before ≤ length out.old) }
        ensures { out.new ≡ sent_path (plain sha.digest) self.entry.count (cut self.entry.len self.entry.bytes.now) before ++ drop (hash_length * leaf_depth self.entry.count before) out.old }
    {
        let mut tree = self;
        let mut i = before;
        let mut depth = leaf_depth(self.count, before);
        // No range: how often is known only behind it.
        while 1 < tree.count {
            let (left, right) = tree.halves();
            depth -= 1;
            if i < left.count {
                right.put_root(out, depth);
                tree = left;
            } else {
                left.put_root(out, depth);
                i -= left.count;
                tree = right;
            }
        }
    }
}
