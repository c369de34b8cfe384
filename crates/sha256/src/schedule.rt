// The message schedule (FIPS 180-4, 6.2.2, step 1): all 64 words W, before the rounds.
ghost use Rattle.std.specs.Prelude.{◌≡◌, ℕ, List, take};
ghost use Rattle.sha256.specs.Sha256 as spec;

use crate::functions::{SSIG0, SSIG1, add};

// Step 1: the words W of a block. For t up to 15, W[t] is the block's own word M[t].
pub fn schedule(block: &[u8; 64]) -> [u32; 64]
    ensures { result ≡ spec.schedule block.now }
{
    let mut W = [0u32; 64];
    for t in 0..16 {
        W[t] = octets::u32_at(block, 4 * t);
    }
    extended(W)
}

// The words for t from 16 to 63, from those before them. Two loops as in `rounds`: t = 8 i + j.
fn extended(mut W: [u32; 64]) -> [u32; 64]
    ensures { (b : List ℕ) → take 16 W ≡ spec.words 16 b → result ≡ spec.schedule b }
{
    for i in 2..8 {
        for j in 0..8 {
            let t = 8 * i + j;
            W[t] = add(
                add(add(SSIG1(W[t - 2]), W[t - 7]), SSIG0(W[t - 15])),
                W[t - 16],
            );
        }
    }
    W
}
