// The six functions on 32-bit words (FIPS 180-4, 4.1.2), the rotation and the shift in them (3.2), and the sum of words (2.2.2). Names are the standard's;
// where it has a Greek letter, RFC 6234's: BSIG0 is Σ0, SSIG0 is σ0.
ghost use Rattle.std.specs.Prelude.{◌≡◌, ◌+◌, ◌<◌};
ghost use Rattle.sha256.specs.Sha256 as spec;

// The sum modulo 2^32: without the carry out of the top.
pub fn add(x: u32, y: u32) -> u32
    ensures { result ≡ spec.word (x + y) }
{
    x.wrapping_add(y)
}

fn ROTR(n: u32, x: u32) -> u32
    requires { (0 < n) × (n < 32) }
    ensures { result ≡ spec.ROTR n x }
{
    x.rotate_right(n)
}

fn SHR(n: u32, x: u32) -> u32
    requires { n < 32 }
    ensures { result ≡ spec.SHR n x }
{
    x >> n
}

pub fn Ch(x: u32, y: u32, z: u32) -> u32
    ensures { result ≡ spec.Ch x y z }
{
    (x & y) ^ (!x & z)
}

pub fn Maj(x: u32, y: u32, z: u32) -> u32
    ensures { result ≡ spec.Maj x y z }
{
    (x & y) ^ (x & z) ^ (y & z)
}

// Σ0.
pub fn BSIG0(x: u32) -> u32
    ensures { result ≡ spec.Σ0 x }
{
    ROTR(2, x) ^ ROTR(13, x) ^ ROTR(22, x)
}

// Σ1.
pub fn BSIG1(x: u32) -> u32
    ensures { result ≡ spec.Σ1 x }
{
    ROTR(6, x) ^ ROTR(11, x) ^ ROTR(25, x)
}

// σ0.
pub fn SSIG0(x: u32) -> u32
    ensures { result ≡ spec.σ0 x }
{
    ROTR(7, x) ^ ROTR(18, x) ^ SHR(3, x)
}

// σ1.
pub fn SSIG1(x: u32) -> u32
    ensures { result ≡ spec.σ1 x }
{
    ROTR(17, x) ^ ROTR(19, x) ^ SHR(10, x)
}
