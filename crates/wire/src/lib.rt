// What goes over the radio (01, 'Slip, messages, state'): the manifest and the messages, with the place and length of each part, which sizes are allowed, and the
// refusals with their numbers. Only our own crates call this one, and meet its `requires`.
#![tactic(auto)]

mod blocks;
mod geometry;
mod kind;
mod manifest;
mod message;
mod refusal;
mod sizes;
mod writing;

pub use blocks::{block_length, block_of};
pub use geometry::Geometry;
pub use kind::{Kind, kind_of};
pub use manifest::{MANIFEST_LEN, Manifest};
pub use message::{
    block_in, hashes_after, least_len, manifest_bytes, manifest_in, number_in, path_in,
    path_signature, program_signature, short, update_block, update_number, update_signature,
};
pub use refusal::Refusal;
pub use sizes::{allowed, block_count, outside, too_short, wrong_size};
pub use writing::{put_block, put_manifest, put_program, put_successor};
