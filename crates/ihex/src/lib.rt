// Intel HEX: the image that a text denotes. The text is read twice, first to judge it and then to write, so that a refused one leaves the buffer as it was.
// `read` and `record_at` take every input; functions with `requires` are this crate's own.
#![tactic(auto)]

mod digits;
mod judge;
mod line;
mod reading;
mod record;
mod seen;
mod write;

pub use line::record_at;
pub use reading::{Fault, MAX_LEN, read};
pub use record::Record;
