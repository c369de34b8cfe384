// A block of an image: how many bytes it has, and these bytes. Blocks count from 1; the lengths need not be of an allowed size, as those of a `Geometry` are.
ghost use Rattle.std.specs.Prelude.{◌≡◌, pred, ◌≤◌, ◌<◌, length, take};
ghost use Rattle.merkle.specs.Blocks.{block_count, cut};
ghost use Rattle.wire.specs.Geometry.{block_length};

// The bytes of block `number`: the last one ends with the image.
#[tactic(auto, using(crate::proofs::GeometryLaws::starts), unfolding(crate::specs::Geometry::block_length))]
pub fn block_length(block_len: usize, image_len: usize, number: usize) -> usize
    requires { (0 < number) × (number ≤ block_count block_len image_len) }
    ensures { result ≡ block_length block_len image_len number }
{
    block_len.min(image_len - (number - 1) * block_len)
}

// Block `number` of the image that the bytes begin with.
#[tactic(auto, using(crate::proofs::GeometryLaws::standing))]
pub fn block_of(bytes: &[u8], block_len: usize, image_len: usize, number: usize) -> &[u8]
    requires { (0 < number) × (number ≤ block_count block_len image_len) × (image_len ≤ length bytes.now) }
    ensures { result.now ≡ cut block_len (take image_len bytes.now) (pred number) }
{
    let len = block_length(block_len, image_len, number);
    let from = (number - 1) * block_len;
    &bytes[from..from + len]
}
