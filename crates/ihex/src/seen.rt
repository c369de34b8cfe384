// Which bytes of the image are named already: a bit for each.
ghost use Rattle.std.specs.Prelude.{◌≡◌, ◌+◌, ◌/◌, ◌≤◌, length, replicate};
ghost use Rattle.ihex.specs.Read.{max_length};
ghost use Rattle.ihex.specs.Code.{Marked};

use crate::reading::MAX_LEN;

// A bit for each byte of the longest image.
pub const SEEN_LEN: usize = MAX_LEN / 8;

// No byte is named yet. The contract says all that a caller needs, so that no proof counts the zeros one by one; and a
// function of its own for each such buffer, since the contract names its own limit.
pub fn none() -> [u8; SEEN_LEN]
    ensures { result ≡ replicate (max_length / 8) 0 }
{
    [0u8; SEEN_LEN]
}

// Whether one of the bytes from `from` on is named already. If not, they are now.
pub fn mark(seen: &mut [u8; SEEN_LEN], from: usize, count: usize) -> bool
    requires { from + count ≤ max_length }
    ensures { Marked seen.old from count result seen.new }
{
    for i in from..from + count {
        let bit = 1u8 << (i % 8);
        let byte = seen[i / 8];
        if byte & bit != 0 {
            return true;
        }
        seen[i / 8] = byte | bit;
    }
    false
}
