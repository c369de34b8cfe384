// Bundles on slices (01, 'Bundle and loader'): everything that the program `loader` decides and prints, and the bundle that the program `pack` writes.
#![tactic(auto)]

mod packing;
mod parts;
mod run;
mod text;

ghost use Rattle.std.specs.Prelude.{◌≡◌, length, ◌≤◌};
ghost use Rattle.sender.specs.Send.{length_of};
ghost use Rattle.bundle.specs.Load as spec;

use decimal::Output;
use lms::KEY_LEN;
pub use packing::{pack, sent_len};
use text::put_state;
use wire::Refusal;

// A bundle has at most so many bytes.
pub const BUNDLE_LEN: usize = 65536;

// Room for the longest output: a line for each block, and three more.
pub const OUT_LEN: usize = 65536;

// The bytes of key.bin: a key, and a model's four bytes.
pub const KEY_FILE_LEN: usize = KEY_LEN + 4;

// Loads the bundle into the flash, puts the output at the start of `out` and answers its length. Does nothing and refuses 8 where `out` has not
// OUT_LEN bytes. `key` is the content of key.bin, `bundle` that of bundle.bin or, of a longer one, more than BUNDLE_LEN bytes of it.
#[tactic(auto, using(crate::proofs::LoadLaws::loading))]
pub fn load(key: &[u8], bundle: &[u8], flash: &mut [u8], out: &mut [u8]) -> Result<usize, Refusal>
    ensures out_value { spec.load key.now bundle.now flash.old out.old ≡ record { answer = result; flash = flash.new; out = out.new } }
    ensures result_in_bounds { length_of result ≤ length out.new }
{
    if out.len() < OUT_LEN {
        return Err(Refusal::Area);
    }
    let mut output = Output {
        buffer: out,
        end: 0,
    };
    if key.len() != KEY_FILE_LEN {
        output.put(b"key\n");
        return Ok(output.end);
    }
    if BUNDLE_LEN < bundle.len() {
        output.put(b"bundle over\n");
        return Ok(output.end);
    }
    let device = device::fresh(octets::u32_at(key, KEY_LEN), octets::array_at(key, 0));
    output.put_line(b"bundle ", bundle.len());
    let last = run::messages(device, flash, bundle, &mut output);
    put_state(&mut output, last);
    Ok(output.end)
}
