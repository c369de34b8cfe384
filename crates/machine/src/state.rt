// A device's state. How many hashes are held and how many blocks there are is stored nowhere: both follow from manifest and next number.
use wire::{Manifest, Refusal};

// 01: the stage.
#[derive(Clone, Copy, Debug, PartialEq, Eq)]
pub enum Stage {
    Idle,
    // The number of the next block, from 1.
    Loading(u16),
    Complete,
}

// 01: the drive's state.
#[derive(Drop)]
pub struct Device {
    pub model: u32,
    pub key: [u8; lms::KEY_LEN],
    pub stage: Stage,
    // What stage is about; means nothing while that is idle.
    pub manifest: Manifest,
    // The held hashes, at the end and in block order (`merkle`).
    pub hashes: [u8; merkle::HELD_LEN],
}

// The answer to a message: Ok where it is accepted.
pub type Answer = Result<(), Refusal>;
