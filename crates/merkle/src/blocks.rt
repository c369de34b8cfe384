// A run of bytes as blocks.
ghost use Rattle.std.specs.Prelude.{◌≡◌, ◌+◌, ◌-◌, ◌*◌, ◌<◌, ◌≤◌, length, drop};
ghost use Rattle.merkle.specs.Limits.{max_blocks};
ghost use Rattle.merkle.specs.Shape as spec;

use crate::node::split;

// The `count` blocks of `len` bytes each, the last one perhaps shorter.
#[derive(Clone, Copy, Debug, PartialEq, Eq)]
pub struct Blocks<'a> {
    pub bytes: &'a [u8],
    pub len: usize,
    pub count: usize,
    pub ghost some: { 0 < count },
    pub ghost few: { count ≤ max_blocks },
    pub ghost short: { len ≤ 1024 },
    pub ghost within: { (count - 1) * len ≤ length bytes.now },
}

impl<'a> Blocks<'a> {
    // The `count` blocks from block `first` on.
    pub(crate) fn part(self, first: usize, count: usize) -> Blocks<'a>
        requires { (0 < count) × (first + count ≤ self.count) }
        ensures { (result.bytes.now ≡ drop (first * self.entry.len) self.entry.bytes.now) × (result.len ≡ self.entry.len) × (result.count ≡ count) }
    {
        let from = first * self.len;
        Blocks {
            bytes: &self.bytes[from..],
            len: self.len,
            count,
        }
    }

    // The halves of the tree over the blocks: those before the split, and the others.
    pub(crate) fn halves(self) -> (Blocks<'a>, Blocks<'a>)
        requires { 1 < self.count }
        ensures left { (result.0.bytes.now ≡ self.entry.bytes.now) × (result.0.len ≡ self.entry.len) × (result.0.count ≡ spec.split self.entry.count) }
        ensures right { (result.1.bytes.now ≡ drop (spec.split self.entry.count * self.entry.len) self.entry.bytes.now) × (result.1.len ≡ self.entry.len) × (result.1.count ≡ self.entry.count - spec.split self.entry.count) }
    {
        let k = split(self.count);
        let left = Blocks {
            bytes: self.bytes,
            len: self.len,
            count: k,
        };
        (left, self.part(k, self.count - k))
    }
}
