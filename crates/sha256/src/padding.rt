// The end of a message: its padding (FIPS 180-4, 5.1.1), the blocks that it takes with it, and the digest's bytes.
ghost use Rattle.std.specs.Prelude.{◌≡◌, ◌*◌, length, take};
ghost use Rattle.sha256.specs.Sha256 as spec;

// The digest's bytes: the eight words of the last hash value, one after the other (6.2.2).
pub fn concatenated(H: [u32; 8]) -> [u8; 32]
    ensures { result ≡ spec.concatenated H }
{
    let mut out = [0u8; 32];
    for i in 0..8 {
        octets::copy(&mut out, 4 * i, &H[i].to_be_bytes());
    }
    out
}

// The bytes of the padding of a message of `len` bytes, modulo 2^64: to the end of a block, with room for the length in it.
#[tactic(auto, using(crate::proofs::PaddingLaws::padding_lengths))]
pub fn padding_len(len: u64) -> usize
    ensures { result ≡ length (spec.padding (8 * len)) }
{
    let used = (len % 64) as usize;
    if used < 56 { 64 - used } else { 128 - used }
}

// The padding itself, which begins the array: the bit 1, zero bits, and the length in bits; at most 72 bytes, behind 56 of a block. An
// array, and its length by `padding_len`: nothing is allocated here.
#[tactic(auto, using(crate::proofs::PaddingLaws::padding_lengths))]
pub fn padding(len: u64) -> [u8; 72]
    ensures { take (length (spec.padding (8 * len))) result ≡ spec.padding (8 * len) }
{
    let mut p = [0u8; 72];
    p[0] = 0x80;
    let bits = len << 3;
    octets::copy(&mut p, padding_len(len) - 8, &bits.to_be_bytes());
    p
}

// The compressions that a message of `len` bytes takes: its length plus 9, over 64, rounded up. The sum is of its last block alone, so that it fits for every length.
pub fn compressions(len: usize) -> usize
    ensures { result ≡ spec.compressions_for len }
{
    len / 64 + (len % 64 + 72) / 64
}
