// The limits, each in one place; specs/Limits.antt has the same numbers for the contracts.

// The most blocks of an image.
pub const MAX_BLOCKS: usize = 1536;

// The bytes of a hash.
pub const HASH_LEN: usize = 32;

// The most hashes that are held, and their bytes.
pub const MAX_HELD: usize = 11;

pub const HELD_LEN: usize = MAX_HELD * HASH_LEN;
