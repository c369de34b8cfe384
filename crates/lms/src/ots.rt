// RFC 8554, section 4: the one-time public key that a one-time signature leads to.
ghost use Rattle.std.specs.Prelude.{◌≡◌, ◌+◌, ◌-◌, ◌*◌, ◌/◌, ◌^◌, ◌≤◌, ◌<◌, length};
ghost use Rattle.lms.specs.Notation as notation;
ghost use Rattle.lms.specs.Ots as spec;
ghost use Rattle.lms.specs.Types.{row};

use crate::chains::Chains;
use crate::hash::{D_MESG, D_PBLC, start};
use crate::leaf::Leaf;
use sha256::Context;

// The largest digit of the row's w bits.
fn largest(t: Chains) -> usize
    ensures { result ≡ 2 ^ t.w - 1 }
{
    (1 << t.w) - 1
}

// Digit i of s in digits of the row's w bits.
#[tactic(auto, using(crate::proofs::DigitLaws::digit_ends), unfolding(crate::specs::Notation::coef))]
fn coef(s: &[u8], i: usize, t: Chains) -> usize
    requires { (length s.now ≤ 34) × (i * t.w < 8 * length s.now) }
    ensures { result ≡ notation.coef s.now i t.w }
{
    let w = t.w;
    largest(t) & (usize::from(s[i * w / 8]) >> (8 - (w * (i % (8 / w)) + w)))
}

// The sum over the digits of a hash value of what each lacks to the largest.
#[tactic(auto, using(crate::proofs::DigitLaws::sums), unfolding(crate::specs::Ots::steps))]
fn steps(digest: &[u8; 32], t: Chains) -> usize
    ensures { result ≡ spec.steps t.w digest.now (256 / t.w) }
{
    let top = largest(t);
    let mut sum: usize = 0;
    for i in 0..256 / t.w {
        sum += top - coef(digest, i, t);
    }
    sum
}

// A hash value and its checksum: the digits of all chains.
fn checked(digest: &[u8; 32], t: Chains) -> [u8; 34]
    ensures { result ≡ spec.checked (row t) digest.now }
{
    let sum = steps(digest, t);
    let checksum = (sum << t.ls) as u16;
    let mut s = [0u8; 34];
    octets::copy(&mut s, 0, digest);
    octets::copy(&mut s, 32, &checksum.to_be_bytes());
    s
}

// The hash of the message, with the signature's random bytes c before it.
fn message_hash(leaf: &Leaf, c: &[u8], message: &[u8]) -> [u8; 32]
    ensures { result ≡ spec.message_hash leaf.now.id leaf.now.q c.now message.now }
{
    let s = start(&leaf.id, leaf.q, D_MESG);
    let mut hash = [0u8; 32];
    Context::new()
        .update(&s)
        .update(c)
        .update(message)
        .finish(&mut hash);
    hash
}

// Chain i from its digit a up to the largest, on y. One padded block holds each step's hash input: only j and tmp change in it.
fn chain(leaf: &Leaf, i: u16, a: usize, top: usize, y: &[u8; 32]) -> [u8; 32]
    requires { (top ≤ 255) × (a ≤ top) }
    ensures { result ≡ spec.chain leaf.now.id leaf.now.q i a y.now (top - a) }
{
    let s = start(&leaf.id, leaf.q, i);
    let mut block = [0u8; 64];
    // The padding of a message of 55 bytes: the bit 1, and the length in bits, 0x01b8.
    block[55] = 0x80;
    block[62] = 0x01;
    block[63] = 0xb8;
    octets::copy(&mut block, 0, &s);
    let mut tmp = *y;
    for j in a..top {
        block[22] = j as u8;
        octets::copy(&mut block, 23, &tmp);
        tmp = sha256::digest_padded(&block);
    }
    tmp
}

// The candidate for the one-time public key, of a one-time signature of the type t.
#[tactic(auto, using(crate::proofs::DigitLaws::digits), unfolding(crate::specs::Ots::Kc))]
pub fn candidate(leaf: &Leaf, t: Chains, message: &[u8], signature: &[u8]) -> [u8; 32]
    requires { length signature.now ≡ 4 + 32 * (t.p + 1) }
    ensures { result ≡ spec.Kc (row t) leaf.now.id leaf.now.q message.now signature.now }
{
    let digest = message_hash(leaf, &signature[4..36], message);
    let digits = checked(&digest, t);
    let top = largest(t);
    // Behind the type and the random bytes stand y[0] to y[p - 1].
    let (y, _) = signature[36..].as_chunks::<32>();
    let mut context = Context::new().update(&start(&leaf.id, leaf.q, D_PBLC));
    for i in 0..t.p {
        let a = coef(&digits, i, t);
        let z = chain(leaf, i as u16, a, top, &y[i]);
        context = context.update(&z);
    }
    let mut key = [0u8; 32];
    context.finish(&mut key);
    key
}
