// Bytes in slices: copying, comparing, and big-endian numbers. Only our own crates call this one.
#![tactic(auto)]

mod number;

ghost use Rattle.std.specs.Prelude.{◌≡◌, ◌+◌, ◌≤◌, length};
ghost use Rattle.std.proofs.Math.Seq.{paste};
ghost use Rattle.octets.specs.Octets as spec;
ghost use Rattle.octets.specs.Octets.{part};

pub use number::{u16_at, u32_at};

// Copies src over dst from index at on.
pub fn copy(dst: &mut [u8], at: usize, src: &[u8])
    requires { at + length src.now ≤ length dst.old }
    ensures { dst.new ≡ paste dst.old at src.now (length src.now) }
{
    // A loop by hand: the library's `copy_from_slice` is longer at each call, some 650 bytes more in the device's code, which is held to what was reached (bench/size).
    for i in 0..src.len() {
        dst[at + i] = src[i];
    }
}

// The N bytes of s from index at on: a number's bytes, a hash, a block.
pub fn array_at<const N: usize>(s: &[u8], at: usize) -> [u8; N]
    requires { at + N ≤ length s.now }
    ensures { result ≡ part at N s.now }
{
    let mut r = [0u8; N];
    copy(&mut r, 0, &s[at..at + N]);
    r
}

// Whether a and b have the same bytes.
pub fn equal(a: &[u8], b: &[u8]) -> bool
    ensures { result ≡ spec.equal a.now b.now }
{
    if a.len() != b.len() {
        return false;
    }
    // A loop by hand: the library's `==` on slices takes some 140 bytes more of the device's code (bench/size).
    for i in 0..a.len() {
        if a[i] != b[i] {
            return false;
        }
    }
    true
}
