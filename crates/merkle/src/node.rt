// The hash of a block and of a node, and where a node's blocks are split. A hash is put to a place that the caller has, and the answer is the number of compressions
// that it took. Every digest of this crate is taken here.
ghost use Rattle.std.specs.Prelude.{◌≡◌, ◌<◌};
ghost use Rattle.sha256.specs.Sha256 as sha;
ghost use Rattle.merkle.specs.Shape as spec;
ghost use Rattle.merkle.specs.Hash.{plain, leaf_input, leaf_hash};
ghost use Rattle.merkle.specs.Path.{beside_input};

use crate::limits::HASH_LEN;
use octets::copy;
use sha256::digest;

// Of a block.
pub fn block_hash(block: &[u8], out: &mut [u8; 32]) -> usize
    ensures { (out.new ≡ leaf_hash (plain sha.digest) block.now) × (result ≡ sha.compressions (leaf_input (plain sha.digest) block.now)) }
{
    digest(block, out)
}

// Of a left and a right hash, one behind the other. Beside `block_hash`, since a version may put other bytes before each.
pub fn node_hash(both: &[u8], out: &mut [u8; 32]) -> usize
    ensures { (out.new ≡ sha.digest both.now) × (result ≡ sha.compressions both.now) }
{
    digest(both, out)
}

// One node up: the hash over x and its sibling, which stands on the right or on the left, takes the place of x.
pub fn rise(x: &mut [u8; 32], right: bool, sibling: &[u8; 32]) -> usize
    ensures { (x.new ≡ sha.digest (beside_input (plain sha.digest) x.old right sibling.now)) × (result ≡ sha.compressions (beside_input (plain sha.digest) x.old right sibling.now)) }
{
    let mut both = [0u8; 2 * HASH_LEN];
    if right {
        copy(&mut both, 0, x);
        copy(&mut both, HASH_LEN, sibling);
    } else {
        copy(&mut both, 0, sibling);
        copy(&mut both, HASH_LEN, x);
    }
    node_hash(&both, x)
}

// The largest power of two below n. Not inlined: the frame of the tree's recursion, which stands on the stack twelve times, would hold the logarithm too.
#[inline(never)]
pub fn split(n: usize) -> usize
    requires { 1 < n }
    ensures value { result ≡ spec.split n }
    ensures between { (0 < result) × (result < n) }
{
    1 << (n - 1).ilog2()
}
