// Outside test data, run through the proved functions. What is printed is compared with the file `stdout`.
#![tactic(auto)]

mod digests;
mod messages;
mod signatures;

use std::io;

fn main(rt: HostRuntime) -> io::Result<()> {
    digests::run(&rt)?;
    signatures::run(&rt)?;
    messages::run(&rt)
}
