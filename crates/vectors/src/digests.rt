// SHA-256: the examples of FIPS 180-4 (NIST's example values for SHA-256), the empty message, and lengths around the end of a block.
// The expected digests in `stdout` were made with Python's hashlib (OpenSSL).
ghost use Rattle.std.specs.Prelude.{◌≡◌, ◌≤◌, length};

use std::io;

// Every line on digests.
pub fn run(rt: &(impl Print + Alloc)) -> io::Result<()> {
    show(rt, "empty", b"")?;
    show(rt, "abc", b"abc")?;
    show(
        rt,
        "448 bits",
        b"abcdbcdecdefdefgefghfghighijhijkijkljklmklmnlmnomnopnopq",
    )?;
    prefix(rt, "55 bytes", 55)?;
    prefix(rt, "56 bytes", 56)?;
    prefix(rt, "63 bytes", 63)?;
    prefix(rt, "64 bytes", 64)?;
    prefix(rt, "65 bytes", 65)?;
    prefix(rt, "119 bytes", 119)?;
    prefix(rt, "120 bytes", 120)?;
    million(rt)
}

// The bytes 0, 1, 2, up to 119.
fn counted() -> [u8; 120]
    ensures { 120 ≡ length result }
{
    let mut bytes = [0u8; 120];
    for i in 0..120u8 {
        bytes[usize::from(i)] = i;
    }
    bytes
}

// The line on the first n bytes of `counted`.
fn prefix(rt: &impl Print, name: &str, n: usize) -> io::Result<()>
    requires { n ≤ 120 }
{
    let bytes = counted();
    show(rt, name, &bytes[..n])
}

// A line: name, digest in one call, and how many of the cuts into two pieces give the same.
fn show(rt: &impl Print, name: &str, message: &[u8]) -> io::Result<()> {
    print!(rt; "{name}")?;
    let mut whole = [0u8; 32];
    sha256::digest(message, &mut whole);
    hex(rt, whole)?;
    let same = cuts(message, whole);
    println!(rt; " same in two pieces: {same}")
}

fn cuts(message: &[u8], whole: [u8; 32]) -> usize {
    (0..=message.len())
        .filter(|&at| cut(message, at, whole))
        .count()
}

// Whether the digest in two pieces is that of the whole.
fn cut(message: &[u8], at: usize, whole: [u8; 32]) -> bool
    requires { at ≤ length message.now }
{
    let mut pieces = [0u8; 32];
    sha256::Context::new()
        .update(&message[..at])
        .update(&message[at..])
        .finish(&mut pieces);
    pieces == whole
}

// One million 'a', in one call and in pieces of 1,000.
fn million(rt: &(impl Print + Alloc)) -> io::Result<()> {
    print!(rt; "a million a")?;
    let mut digest = [0u8; 32];
    let whole = vec![in rt.alloc(); b'a'; 1000000]?;
    sha256::digest(&whole, &mut digest);
    hex(rt, digest)?;
    let piece = [b'a'; 1000];
    let mut context = sha256::Context::new();
    for _ in 0..1000 {
        context = context.update(&piece);
    }
    print!(rt; "\na thousand times a thousand")?;
    context.finish(&mut digest);
    hex(rt, digest)?;
    println!(rt)
}

// A space and the digest.
fn hex(rt: &impl Print, digest: [u8; 32]) -> io::Result<()> {
    print!(rt; " ")?;
    for byte in digest {
        print!(rt; "{byte:02x}")?;
    }
    Ok(())
}
