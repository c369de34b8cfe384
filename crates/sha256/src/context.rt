// A digest in pieces: a context is started, fed slices of any length, and finished.
ghost use Rattle.std.specs.Prelude.{◌≡◌, ℕ, ◌+◌, ◌^◌, ◌<◌, List, ◌++◌, length};
ghost use Rattle.sha256.specs.Sha256 as spec;
ghost use Rattle.sha256.specs.Context.{Absorbed};

use crate::compress::{H0, compress, compress_all};
use crate::padding::{compressions, concatenated, padding, padding_len};

// A message in progress: the hash value after its whole blocks, a buffer that begins with the bytes after them, and the message's length in bytes, modulo 2^64. The
// message is no ghost field: `Absorbed`, in the three contracts, holds of every message that these fields stand for, and not of one alone.
#[derive(Debug, Drop)]
pub struct Context {
    H: [u32; 8],
    buffer: [u8; 64],
    length: u64,
}

impl Context {
    // The empty message.
    pub fn new() -> Context
        ensures { Absorbed result List.[] }
    {
        Context {
            H: H0,
            buffer: [0; 64],
            length: 0,
        }
    }

    // The message grows by the piece.
    pub fn update(mut self, piece: &[u8]) -> Context
        ensures { (m : List ℕ) → Absorbed self m → Absorbed result (m ++ piece.now) }
    {
        let used = (self.length % 64) as usize;
        let room = 64 - used;
        self.length = self.length.wrapping_add(piece.len() as u64);
        if piece.len() < room {
            octets::copy(&mut self.buffer, used, piece);
            return self;
        }
        // If bytes wait, the piece completes their block. Its whole blocks from there on are compressed where they lie, and the rest waits.
        let mut left = piece;
        if 0 < used {
            let mut b = self.buffer;
            octets::copy(&mut b, used, &piece[..room]);
            compress(&mut self.H, &b);
            left = &piece[room..];
        }
        let rest = compress_all(&mut self.H, left);
        octets::copy(&mut self.buffer, 0, rest);
        self
    }

    // The digest of the message: its padding is absorbed as a last piece. The answer is the number of compressions that the message took; a context counts its bytes
    // modulo 2^64.
    #[tactic(auto, using(crate::proofs::PaddingLaws::padding_lengths))]
    pub fn finish(self, out: &mut [u8; 32]) -> usize
        ensures { (m : List ℕ) → Absorbed self m → (out.new ≡ spec.digest m) × (length m < 2 ^ 64 → result ≡ spec.compressions m) }
    {
        let len = self.length;
        let p = padding(len);
        let n = padding_len(len);
        let c = self.update(&p[..n]);
        *out = concatenated(c.H);
        compressions(len as usize)
    }
}
