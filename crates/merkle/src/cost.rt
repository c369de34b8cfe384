// What a block message costs, worked out before anything is hashed.
ghost use Rattle.std.specs.Prelude.{◌≡◌, ◌<◌, ◌≤◌};
ghost use Rattle.sha256.specs.Sha256 as sha;
ghost use Rattle.merkle.specs.Limits.{max_blocks};
ghost use Rattle.merkle.specs.Hash.{plain};
ghost use Rattle.merkle.specs.Cost.{known_cost};

use crate::counting::count;
use sha256::compressions;

// The compressions of the message of the block after `before` of n, which has `own` bytes; the blocks but the last have `len`. A comparison takes two for each hash
// that the message carries, and the whole tree, which the last block takes besides, two for each node.
pub fn known_cost(len: usize, n: usize, before: usize, own: usize) -> usize
    requires { (len ≤ 1024) × (own ≤ 1024) × (before < n) × (n ≤ max_blocks) }
    ensures { result ≡ known_cost (plain sha.digest) len n before own }
{
    let counts = count(n, before);
    let last = compressions(own);
    let compared = last + 2 * counts.carried;
    if before + 1 == n {
        let whole = (n - 1) * (compressions(len) + 2) + last;
        return compared + whole;
    }
    compared
}
