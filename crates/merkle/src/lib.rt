// The Merkle tree over the blocks of an image or of the flash. Only our own crates call this one, and meet its `requires`.
#![tactic(auto)]

mod blocks;
mod cost;
mod counting;
mod frontier;
mod limits;
mod node;
mod path;
mod siblings;
mod tree;

pub use blocks::Blocks;
pub use cost::known_cost;
pub use counting::count;
pub use frontier::{Comparison, advance, begin, fits};
pub use limits::{HASH_LEN, HELD_LEN, MAX_BLOCKS};
pub use path::{leaf_depth, path_hash};
