// The loader: reads key.bin and bundle.bin, and writes what `bundle::load` makes of them. A missing file counts as an empty one.
#![tactic(auto)]

ghost use Rattle.streams.specs.Counts.{IsPrefixLen};

use std::rt::Files;
use std::{fs, io};
use streams::read_full;

// The flash that the loader lends to a fresh device.
const FLASH_LEN: usize = 65536;

// Puts the file at the start of `buffer`, and answers how many bytes: of a longer file, as many as fit. (The program `vectors` reads its files so, too: four lines, for
// which the two have no crate between them.)
fn read_file(rt: &impl Files, path: &str, buffer: &mut [u8]) -> usize
    ensures { IsPrefixLen result buffer.new }
{
    match fs::open(rt, path) {
        Ok(mut file) => read_full(&mut file, buffer),
        Err(_) => 0,
    }
}

fn main(rt: HostRuntime) -> io::Result<()> {
    // One byte more than a file may have shows that it is too long. Buffers, and no `Vec` of the whole file: so the memory is fixed, however long a file is.
    let mut key = [0u8; bundle::KEY_FILE_LEN + 1];
    let mut bundle = [0u8; bundle::BUNDLE_LEN + 1];
    let mut flash = [0u8; FLASH_LEN];
    let mut out = [0u8; bundle::OUT_LEN];
    let key_len = read_file(&rt, "key.bin", &mut key);
    let bundle_len = read_file(&rt, "bundle.bin", &mut bundle);
    let answer = bundle::load(&key[..key_len], &bundle[..bundle_len], &mut flash, &mut out);
    rt.write_all(&out[..bundle::sent_len(answer)])
}
