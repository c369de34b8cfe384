// The sender: from an image it writes, into the caller's buffer, the bare manifest for signing, or a message of any kind. It works from the image
// alone: no second copy, no table of hashes. Every function ends in an answer for all inputs; after a refusal the buffer is as before.
#![tactic(auto)]

mod send;

pub use send::{Image, Job};
