// SHA-256 (FIPS 180-4) of a message in one call, in pieces through a `Context`, or of one padded block. The files are the standard's sections: functions
// (4.1.2), padding (5.1.1), and of 6.2.2 schedule (step 1), rounds (steps 2 and 3) and compress (all four).
#![tactic(auto)]

mod compress;
mod context;
mod functions;
mod padding;
mod rounds;
mod schedule;

ghost use Rattle.std.specs.Prelude.{◌≡◌};
ghost use Rattle.sha256.specs.Sha256 as spec;

use compress::{H0, compress, compress_all};
pub use context::Context;
pub use padding::compressions;
use padding::concatenated;

// The digest of a message, put to a place that the caller has: a result by value would stand on the stack twice. The answer is the number of compressions that it
// took. The whole blocks are compressed where they lie, and one block is the place for what follows them, with its padding. Out of line: written out in the
// recursion of a tree its arrays would stand on the stack once for each level.
#[inline(never)]
pub fn digest(message: &[u8], out: &mut [u8; 32]) -> usize
    ensures { (out.new ≡ spec.digest message.now) × (result ≡ spec.compressions message.now) }
{
    let mut H = H0;
    let rest = compress_all(&mut H, message);
    let used = rest.len();
    let mut b = [0u8; 64];
    octets::copy(&mut b, 0, rest);
    // The bit 1 and seven zero bits; the other zero bits stand in b already.
    b[used] = 0x80;
    if 56 <= used {
        compress(&mut H, &b);
        b = [0u8; 64];
    }
    let bits = (message.len() as u64) << 3;
    octets::copy(&mut b, 56, &bits.to_be_bytes());
    compress(&mut H, &b);
    *out = concatenated(H);
    compressions(message.len())
}

// The hash value after one block, as a digest: that of the message whose padding (5.1.1) the block is. One compression. For callers that hash many messages of one
// length.
pub fn digest_padded(block: &[u8; 64]) -> [u8; 32]
    ensures { result ≡ spec.concatenated (spec.compress spec.H0 block.now) }
{
    let mut H = H0;
    compress(&mut H, block);
    concatenated(H)
}
