// The frontier's hashes in one flat array, at its end and in block order: the next one needed comes first.
ghost use Rattle.std.specs.Prelude.{◌≡◌, ◌+◌, ◌*◌, ◌<◌, ◌≤◌, length};
ghost use Rattle.sha256.specs.Sha256 as sha;
ghost use Rattle.merkle.specs.Limits.{max_blocks, hash_length, held_bytes};
ghost use Rattle.merkle.specs.Hash.{plain};
ghost use Rattle.merkle.specs.Frontier.{carried_count};
ghost use Rattle.merkle.specs.Cost.{fits_cost};
ghost use Rattle.merkle.specs.Held as spec;
ghost use Rattle.merkle.specs.Held.{held_start, begun, advanced};

use crate::counting::count;
use crate::limits::{HASH_LEN, HELD_LEN};
use crate::siblings::climb;
use octets::{copy, equal};

// Before the first block the root alone is held.
pub fn begin(hashes: &mut [u8; HELD_LEN], root: &[u8; HASH_LEN])
    ensures { hashes.new ≡ begun root.now }
{
    let zeros = [0u8; HELD_LEN - HASH_LEN];
    copy(hashes, 0, &zeros);
    copy(hashes, HELD_LEN - HASH_LEN, root);
}

// Where the next hash needed stands. The next block's siblings have room up to its end.
fn next_at(n: usize, before: usize) -> usize
    requires { (before < n) × (n ≤ max_blocks) }
    ensures { (result ≡ held_start n before) × (result + hash_length ≤ held_bytes) × (hash_length * carried_count n (before + 1) ≤ result + hash_length) }
{
    let counts = count(n, before);
    HELD_LEN - HASH_LEN * counts.held
}

// Whether two hashes are the same, and the compressions that it took to work one of them out. No Option: the contracts promise the number where they differ, too. (n and
// the blocks before stay two numbers here, as in counting.rt.)
#[derive(Clone, Copy, Debug, PartialEq, Eq)]
pub struct Comparison {
    pub same: bool,
    pub compressions: usize,
}

// Whether the hash worked out from the block after `before` of n and its siblings is the next one held.
pub fn fits(
    hashes: &[u8; HELD_LEN],
    n: usize,
    before: usize,
    block: &[u8],
    siblings: &[u8],
) -> Comparison
    requires { (before < n) × (n ≤ max_blocks) × (length siblings.now ≡ hash_length * carried_count n (before + 1)) }
    ensures { (result.same ≡ spec.fits (plain sha.digest) n before hashes.now block.now siblings.now) × (result.compressions ≡ fits_cost (plain sha.digest) n before block.now siblings.now) }
{
    let start = next_at(n, before);
    let end = start + HASH_LEN;
    let mut x = [0u8; HASH_LEN];
    let took = climb(0, block, siblings, &mut x);
    Comparison {
        same: equal(&hashes[start..end], &x),
        compressions: took,
    }
}

// The siblings of the block after `before` of n take the place of the next hash needed.
pub fn advance(hashes: &mut [u8; HELD_LEN], n: usize, before: usize, siblings: &[u8])
    requires { (before < n) × (n ≤ max_blocks) × (length siblings.now ≡ hash_length * carried_count n (before + 1)) }
    ensures { hashes.new ≡ advanced n before hashes.old siblings.now }
{
    let to = next_at(n, before) + HASH_LEN - siblings.len();
    copy(hashes, to, siblings);
}
