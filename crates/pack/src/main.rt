// The showroom's tool. In a folder with image.bin, `pack BLOCK MODEL SERIAL` writes slip.bin, the manifest for signing, and, where signature.bin is there
// too, bundle.bin: both or neither, unless the last renaming alone fails. `pack BLOCK MODEL SERIAL BASE LENGTH` does so with the image in image.hex, LENGTH
// bytes from address BASE on. What was written is told on standard output, what went wrong on standard error.
#![tactic(auto)]

mod files;
mod hex;
mod make;

ghost use Rattle.std.specs.Prelude.{◌≡◌, ◌*◌, length};
ghost use Rattle.merkle.specs.Limits.{max_blocks};

use files::NotRead;
use sender::{Image, Job};
use std::env::{Env, FillError};
use std::io;

// The longest image: the most blocks, each of 1,024 bytes.
const IMAGE_LEN: usize = merkle::MAX_BLOCKS * 1024;

// Zeros. The contract says all that a caller needs, so that no proof counts them one by one; it names the limit that the page has, as those of the other buffers do
// theirs.
fn image_buffer() -> [u8; IMAGE_LEN]
    ensures { max_blocks * 1024 ≡ length result }
{
    [0u8; IMAGE_LEN]
}

// How many arguments there are, the program's name among them; 7 stands for more, too.
fn argument_count(rt: &HostRuntime) -> usize {
    for i in 0..7 {
        if let Err(FillError::NotPresent) = rt.arg(i, &mut []) {
            return i;
        }
    }
    7
}

// Argument i as a number; one that is none is told by its name.
fn argument(rt: &HostRuntime, i: usize, name: &str) -> Option<u32> {
    let mut text = [0u8; 4096];
    let number = match rt.arg(i, &mut text) {
        Ok(len) => decimal::parse(&text[..len]),
        Err(_) => None,
    };
    if number.is_none() {
        let _ = eprintln!(rt; "{name}: not a number from 0 to 4294967295 in base ten");
    }
    number
}

// To standard output: a file that was written, and its length.
fn print_length(rt: &impl Print, name: &str, len: usize) -> io::Result<()> {
    println!(rt; "{name} {len}")
}

fn with_signature(
    rt: &HostRuntime,
    job: &Job,
    signature: &[u8],
    manifest: &[u8],
) -> io::Result<()> {
    let length = signature.len();
    if !lms::possible_len(length) {
        make::print_error(
            rt,
            "signature.bin: no LMS type has signatures of ",
            length,
            " bytes; an HSS one has four more in front\n",
        );
        return Ok(());
    }
    let mut bundle = [0u8; bundle::BUNDLE_LEN];
    let Some(n) = make::bundle(rt, job, signature, &mut bundle) else {
        return Ok(());
    };
    if files::save_both(rt, manifest, &bundle[..n]) {
        print_length(rt, "slip.bin", manifest.len())?;
        print_length(rt, "bundle.bin", n)?;
    }
    Ok(())
}

fn without_signature(rt: &HostRuntime, manifest: &[u8]) -> io::Result<()> {
    if files::save_manifest(rt, manifest) {
        print_length(rt, "slip.bin", manifest.len())?;
        println!(rt; "no signature.bin: bundle.bin was not written")?;
    }
    Ok(())
}

fn with_image(rt: &HostRuntime, arguments: Arguments, image: &[u8]) -> io::Result<()> {
    let job = Job {
        image: Image {
            bytes: image,
            block_len: arguments.block_len,
        },
        model: arguments.model,
        serial: arguments.serial,
    };
    let mut manifest = [0u8; wire::MANIFEST_LEN];
    if make::manifest(rt, &job, &mut manifest).is_none() {
        return Ok(());
    }
    // A longer signature fits no bundle; a buffer, so that the memory is fixed here, too.
    let mut signature = [0u8; bundle::BUNDLE_LEN];
    match files::read(rt, "signature.bin", &mut signature) {
        Ok(n) => with_signature(rt, &job, &signature[..n], &manifest),
        Err(NotRead::Missing) => without_signature(rt, &manifest),
        Err(NotRead::Unusable) => Ok(()),
    }
}

// Where the image comes from.
#[derive(Clone, Copy)]
enum Source {
    // image.bin, as it is.
    Binary,
    // image.hex: the image's first address, and its length.
    Hex(u32, u32),
}

// What the program was called with.
#[derive(Clone, Copy)]
struct Arguments {
    block_len: u32,
    model: u32,
    serial: u32,
    source: Source,
}

fn name_of(source: Source) -> &'static str {
    match source {
        Source::Binary => "image.bin",
        Source::Hex(_, _) => "image.hex",
    }
}

fn with_file(rt: &HostRuntime, arguments: Arguments, file: &[u8]) -> io::Result<()> {
    match arguments.source {
        Source::Binary => with_image(rt, arguments, file),
        Source::Hex(base, image_len) => {
            let mut image = hex::buffer();
            match hex::image(rt, file, base, image_len, &mut image) {
                Some(n) => with_image(rt, arguments, &image[..n]),
                None => Ok(()),
            }
        }
    }
}

fn with_arguments(rt: &HostRuntime, arguments: Arguments) -> io::Result<()> {
    let name = name_of(arguments.source);
    // Room for the longest image; a text may be as long. A buffer, and no `Vec` of the whole file: so the memory is fixed, however long a file is.
    let mut file = image_buffer();
    match files::read(rt, name, &mut file) {
        Ok(n) => with_file(rt, arguments, &file[..n])?,
        Err(NotRead::Missing) => {
            let _ = eprintln!(rt; "{name}: missing");
        }
        Err(NotRead::Unusable) => {}
    }
    Ok(())
}

// BLOCK, MODEL and SERIAL, and where `hex` is set BASE and LENGTH. The first that is no number is told, in this order, which a function handed in for the last two would
// have to know.
fn given(rt: &HostRuntime, hex: bool) -> Option<Arguments> {
    Some(Arguments {
        block_len: argument(rt, 1, "BLOCK")?,
        model: argument(rt, 2, "MODEL")?,
        serial: argument(rt, 3, "SERIAL")?,
        source: if hex {
            Source::Hex(argument(rt, 4, "BASE")?, argument(rt, 5, "LENGTH")?)
        } else {
            Source::Binary
        },
    })
}

fn main(rt: HostRuntime) -> io::Result<()> {
    let hex = match argument_count(&rt) {
        4 => false,
        6 => true,
        _ => {
            let _ = eprintln!(rt;
                "usage: pack BLOCK MODEL SERIAL, in a folder with image.bin; or pack BLOCK MODEL SERIAL BASE LENGTH, in one with image.hex"
            );
            return Ok(());
        }
    };
    match given(&rt, hex) {
        Some(arguments) => with_arguments(&rt, arguments),
        None => Ok(()),
    }
}
