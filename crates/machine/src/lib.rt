// The device's model (01: drive): what its state holds and what it answers. The definitions in `specs` say which answer each message gets and what it does;
// `device` is the code that does it, and `guarantee` says what follows for every list of calls.
#![tactic(auto)]

mod state;

pub use state::{Answer, Device, Stage};
