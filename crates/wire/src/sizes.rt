// Which block lengths, image lengths and block numbers are allowed, and what follows from them.
ghost use Rattle.std.specs.Prelude.{◌≡◌, ◌+◌, ◌<◌, ltb};
ghost use Rattle.merkle.specs.Blocks.{block_count};
ghost use Rattle.wire.specs.Size as spec;
ghost use Rattle.wire.specs.Size.{allowed_length, wrong_size};

#[tactic(auto, unfolding(crate::specs::Size::allowed_length))]
pub fn allowed(block_len: usize) -> bool
    ensures { result ≡ allowed_length block_len }
{
    matches!(block_len, 64 | 128 | 256 | 512 | 1024)
}

// The number of blocks of an image (01: n).
#[tactic(auto, using(crate::proofs::SizeLaws::counts))]
pub fn block_count(block_len: usize, image_len: usize) -> usize
    requires { 0 < block_len }
    ensures { result ≡ block_count block_len image_len }
{
    image_len.div_ceil(block_len)
}

// Refusal 5.
#[tactic(auto, using(crate::proofs::SizeLaws::ranges), unfolding(crate::specs::Size::wrong_size))]
pub fn wrong_size(block_len: usize, image_len: usize) -> bool
    ensures { result ≡ wrong_size block_len image_len }
{
    !allowed(block_len) || image_len == 0 || merkle::MAX_BLOCKS < block_count(block_len, image_len)
}

// Refusal 11 for kinds 3 and 4 and for the sender: the number is outside 1..n.
#[tactic(auto, unfolding(crate::specs::Size::outside))]
pub fn outside(n: usize, number: usize) -> bool
    ensures { result ≡ spec.outside n number }
{
    number == 0 || n < number
}

// Refusal 8 for the sender: a buffer of `room` bytes for `least` bytes and `more`, whose sum need not fit a number.
pub fn too_short(room: usize, least: usize, more: usize) -> bool
    ensures { result ≡ ltb room (least + more) }
{
    room < least || room - least < more
}
