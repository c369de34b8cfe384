// How many hashes are held and carried. Neither number is stored: both follow from the block count and the blocks before. These stay two numbers, here and in the files
// beside: a walk changes one of them or both at each step, where a pair of them that says `before < n` would be made anew, as for every single call.
ghost use Rattle.std.specs.Prelude.{◌≡◌, ◌+◌, ◌^◌, ◌<◌, ◌≤◌};
ghost use Rattle.std.specs.Int.Count.{count_trailing_zeros};
ghost use Rattle.merkle.specs.Limits.{max_blocks};
ghost use Rattle.merkle.specs.Shape as shape;
ghost use Rattle.merkle.specs.Frontier.{held_count, carried_count};

// How many hashes are held before a block, and how many its message carries.
#[derive(Clone, Copy, Debug, PartialEq, Eq)]
pub struct Counts {
    pub held: usize,
    pub carried: usize,
}

// The lowest set bit of x. Trees are split at powers of two, so the largest subtree that starts after x blocks has this many, or all that are left
// where those are fewer.
fn low(x: usize) -> usize
    requires { 0 < x }
    ensures { result ≡ 2 ^ count_trailing_zeros 64 x }
{
    1 << x.trailing_zeros()
}

// The depth of the tree over n blocks: the bit length of n - 1, which is 0 for one block.
fn depth(n: usize) -> usize
    requires { 0 < n }
    ensures { result ≡ shape.depth n }
{
    (64 - (n - 1).leading_zeros()) as usize
}

// The hashes held where `before` of n blocks are accepted, at least one: each is of the largest subtree that starts where the one before it ends.
fn held_after(n: usize, before: usize) -> usize
    requires { (0 < before) × (before < n) × (n ≤ max_blocks) }
    ensures { result ≡ held_count n before }
{
    let mut held: usize = 0;
    let mut at = before;
    // No range: how often is known only behind it.
    while at < n {
        at += low(at);
        held += 1;
    }
    held
}

// The hashes held where `before` of n blocks are accepted, and those that the next block's message carries: as many as the largest subtree that starts
// with that block is deep.
pub fn count(n: usize, before: usize) -> Counts
    requires { (before < n) × (n ≤ max_blocks) }
    ensures { (result.held ≡ held_count n before) × (result.carried ≡ carried_count n (before + 1)) }
{
    if before == 0 {
        return Counts {
            held: 1,
            carried: depth(n),
        };
    }
    let size = low(before).min(n - before);
    Counts {
        held: held_after(n, before),
        carried: depth(size),
    }
}
