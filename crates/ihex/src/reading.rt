// A whole text.
ghost use Rattle.std.specs.Prelude.{◌≡◌};
ghost use Rattle.ihex.specs.Read as spec;

use crate::judge::judge;
use crate::write::write;
use wire::Refusal;

// Why a text is not read.
#[derive(Clone, Copy, Debug, PartialEq, Eq)]
pub struct Fault {
    pub refusal: Refusal,
    // The number of the line at fault, from 1; 0 where the refusal comes before any line, as in the definition `read` and for C.
    pub line: usize,
}

// The longest image.
pub const MAX_LEN: usize = 32768;

const ADDRESSES: u64 = 0x1_0000_0000;

#[tactic(auto, using(std::proofs::lemmas::Bool::Decides::nat_tests), unfolding(crate::specs::Read::wrong_length))]
fn wrong_length(base: u32, len: usize) -> bool
    ensures { result ≡ spec.wrong_length base len }
{
    len < 1 || MAX_LEN < len || ADDRESSES < base as u64 + len as u64
}

// Puts the image of `len` bytes from address `base` on, as the text has it, at the start of `out`.
pub fn read(text: &[u8], base: u32, len: usize, out: &mut [u8]) -> Result<(), Fault>
    ensures { spec.read text.now base len out.old ≡ record { answer = result; buffer = out.new } }
{
    if wrong_length(base, len) {
        return Err(Fault {
            refusal: Refusal::Size,
            line: 0,
        });
    }
    if out.len() < len {
        return Err(Fault {
            refusal: Refusal::Area,
            line: 0,
        });
    }
    judge(text, base, len)?;
    write(text, base, &mut out[..len]);
    Ok(())
}
