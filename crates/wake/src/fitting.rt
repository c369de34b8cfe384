// The most blocks for a number of compressions.
ghost use Rattle.std.specs.Prelude.{◌≡◌};
ghost use Rattle.wake.specs.Wake.{most_blocks};

// Of a download whose block messages before the last all fit; of these the first one costs most. 0, as in the definition of this name and as it is printed, where
// those of two blocks do not, or blocks of `len` bytes are not allowed.
pub fn most_blocks(len: usize, budget: usize) -> usize
    ensures { result ≡ most_blocks len budget }
{
    if !wire::allowed(len) {
        return 0;
    }
    for n in (2..=merkle::MAX_BLOCKS).rev() {
        if merkle::known_cost(len, n, 0, len) <= budget {
            return n;
        }
    }
    0
}
