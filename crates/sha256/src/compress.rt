// The hash value after more blocks (FIPS 180-4, 6.2.2).
ghost use Rattle.std.specs.Prelude.{◌≡◌, ◌*◌, ◌/◌, length, drop};
ghost use Rattle.sha256.specs.Sha256 as spec;

use crate::functions::add;
use crate::rounds::rounds;
use crate::schedule::schedule;

// The initial hash value (5.3.3).
pub const H0: [u32; 8] = [
    0x6a09e667, 0xbb67ae85, 0x3c6ef372, 0xa54ff53a, 0x510e527f, 0x9b05688c, 0x1f83d9ab, 0x5be0cd19,
];

// The hash value after one more block.
#[tactic(auto, using(crate::proofs::RoundLaws::step_four))]
pub fn compress(H: &mut [u32; 8], block: &[u8; 64])
    ensures { H.new ≡ spec.compress H.old block.now }
{
    // Step 1.
    let W = schedule(block);
    // Steps 2 and 3.
    let v = rounds(*H, W);
    // Step 4: v[0] is a, and so on to v[7], which is h.
    for i in 0..8 {
        H[i] = add(v[i], H[i]);
    }
}

// The page's loop over the blocks: the hash value after the whole blocks of s, each compressed where it lies. The answer is what follows them.
pub fn compress_all<'a>(H: &mut [u32; 8], s: &'a [u8]) -> &'a [u8]
    ensures { (H.new ≡ spec.hash_value H.old (length s.now / 64) s.now) × (result.now ≡ drop (64 * (length s.now / 64)) s.now) }
{
    let (blocks, rest) = s.as_chunks::<64>();
    for block in blocks {
        compress(H, block);
    }
    rest
}
