// The four LMS signatures inside the test cases of RFC 8554, appendix F: each is accepted, and rejected after any change.
use std::rt::Files;
use std::{fs, io};
use streams::read_full;

// Every line on signatures.
pub fn run(rt: &(impl Files + Print)) -> io::Result<()> {
    tried(rt, "case1_top", 34, 5)?;
    tried(rt, "case1_second", 34, 5)?;
    tried(rt, "case2_top", 67, 10)?;
    tried(rt, "case2_second", 34, 5)
}

// The verdict on a file: the key (56 bytes), the signature (n bytes), the message. The first `taken` bytes behind the key are handed over as the signature.
fn verdict(file: &[u8], n: u16, taken: u16) -> bool {
    let message_at = 56 + n as usize;
    let end = 56 + taken as usize;
    if file.len() < message_at || file.len() < end {
        return false;
    }
    lms::verify(&file[0..56], &file[message_at..], &file[56..end])
}

fn line(rt: &impl Print, what: &str, accepted: bool) -> io::Result<()> {
    let answer = if accepted { "accepted" } else { "rejected" };
    println!(rt; "{what}: {answer}")
}

fn flip(file: &mut [u8], at: usize) {
    if at < file.len() {
        file[at] ^= 1;
    }
}

// For this line one bit of the byte `at` is flipped. The file, the signature's length n and the chains p stay apart here: a value of all three would have to lend the
// file anew for each line.
fn changed(rt: &impl Print, what: &str, file: &mut [u8], n: u16, at: usize) -> io::Result<()> {
    flip(file, at);
    line(rt, what, verdict(file, n, n))?;
    flip(file, at);
    Ok(())
}

fn change_key(rt: &impl Print, file: &mut [u8], n: u16) -> io::Result<()> {
    changed(rt, "  key, tree type", file, n, 3)?;
    changed(rt, "  key, signature type", file, n, 7)?;
    changed(rt, "  key, I", file, n, 8)?;
    changed(rt, "  key, top hash", file, n, 55)
}

fn change_one_time_signature(rt: &impl Print, file: &mut [u8], n: u16, p: u8) -> io::Result<()> {
    changed(rt, "  q", file, n, 59)?;
    changed(rt, "  q beyond the tree", file, n, 56)?;
    changed(rt, "  signature type", file, n, 63)?;
    changed(rt, "  C", file, n, 64)?;
    changed(rt, "  first y", file, n, 96)?;
    changed(rt, "  last y", file, n, 95 + 32 * p as usize)
}

fn change_path_and_message(rt: &impl Print, file: &mut [u8], n: u16, p: u8) -> io::Result<()> {
    changed(rt, "  tree type", file, n, 99 + 32 * p as usize)?;
    changed(rt, "  first path node", file, n, 100 + 32 * p as usize)?;
    changed(rt, "  last path node", file, n, 55 + n as usize)?;
    changed(rt, "  message", file, n, 56 + n as usize)
}

// Every line on the signature in the file, of p chains and the given height.
fn lines(rt: &impl Print, name: &str, file: &mut [u8], p: u8, height: u8) -> io::Result<()> {
    let hashes = 32 * (p as u16 + height as u16);
    let n = 44 + hashes;
    let cut = 43 + hashes;
    let grown = 45 + hashes;
    print!(rt; "{name}, bytes {n}")?;
    line(rt, "", verdict(file, n, n))?;
    change_key(rt, file, n)?;
    change_one_time_signature(rt, file, n, p)?;
    change_path_and_message(rt, file, n, p)?;
    line(rt, "  cut by a byte", verdict(file, n, cut))?;
    line(rt, "  grown by a byte", verdict(file, n, grown))
}

// A file that cannot be read counts as an empty one.
fn tried(rt: &(impl Files + Print), path: &str, p: u8, height: u8) -> io::Result<()> {
    // A buffer, and no `Vec` of the whole file: so the memory is fixed.
    let mut buffer = [0u8; 4096];
    let length = match fs::open(rt, path) {
        Ok(mut file) => read_full(&mut file, &mut buffer),
        Err(_) => 0,
    };
    lines(rt, path, &mut buffer[..length], p, height)
}
