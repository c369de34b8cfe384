// Numbers in base ten: read, and written into a buffer as a line. Only our own crates call this one, and meet the `requires` of its functions.
#![tactic(auto)]

mod reading;
mod writing;

pub use reading::parse;
pub use writing::Output;
