// RFC 8554: the verdict on one LMS signature, with no HSS layer. Outsiders call `verify` and `possible_len`; what the other functions require, this crate keeps.
#![tactic(auto)]

mod chains;
mod hash;
mod leaf;
mod ots;
mod parameters;
mod tree;
mod verdict;

pub use parameters::possible_len;
pub use verdict::{KEY_LEN, verify};
