// Files of the folder, by name. What goes wrong with one is told on standard error.
ghost use Rattle.std.specs.Prelude.{IfOk};
ghost use Rattle.streams.specs.Counts.{IsPrefixLen};

use std::fs::{File, OpenOptions, Permissions};
use std::io::{ErrorKind, Read, Write};
use std::os::unix::fs::{OpenOptionsExt, PermissionsExt};
use std::random::RandomSource;
use std::{fs, io};
use streams::read_full;

// How many names are tried for a temporary file.
const MOST_NAMES: u32 = 1000;

// Why a file's content is not at hand.
#[derive(Clone, Copy)]
pub enum NotRead {
    Missing,
    // There, but not to be read, or too long; told already.
    Unusable,
}

// To standard error: the file, and in the system's words why a call failed.
fn tell(rt: &HostRuntime, path: &str, error: io::Error) {
    let _ = match format!(in rt.alloc(); "{error}") {
        Ok(text) => {
            // The words, without the number of the error behind them.
            let text = text.as_str();
            let words = text
                .rsplit_once(" (os error ")
                .map_or(text, |parts| parts.0);
            eprintln!(rt; "{path}: {words}")
        }
        Err(_) => eprintln!(rt; "{path}: {error}"),
    };
}

// Why a file was not opened.
fn unopened(rt: &HostRuntime, path: &str, error: io::Error) -> NotRead {
    if error.kind() == ErrorKind::NotFound {
        return NotRead::Missing;
    }
    tell(rt, path, error);
    NotRead::Unusable
}

// Whether a file that was read into a buffer of `most` bytes ends there. If not, that is told.
fn ended(rt: &HostRuntime, file: &mut File, path: &str, most: usize) -> bool {
    let mut next = [0u8; 1];
    match file.read(&mut next) {
        Ok(0) => true,
        Ok(_) => {
            let _ = eprintln!(rt; "{path}: over {most} bytes");
            false
        }
        Err(error) => {
            tell(rt, path, error);
            false
        }
    }
}

// Puts the file at the start of `buffer`, and answers its length.
pub fn read(rt: &HostRuntime, path: &str, buffer: &mut [u8]) -> Result<usize, NotRead>
    ensures { IfOk result (λ len. IsPrefixLen len buffer.new) }
{
    match fs::open(rt, path) {
        Ok(mut file) => {
            let len = read_full(&mut file, buffer);
            if ended(rt, &mut file, path, buffer.len()) {
                Ok(len)
            } else {
                Err(NotRead::Unusable)
            }
        }
        Err(error) => Err(unopened(rt, path, error)),
    }
}

// What follows answers whether it was done; if not, that is told already.

// Whether the name is free, or that of a file that may be written.
fn replaceable(rt: &HostRuntime, path: &str) -> bool {
    match OpenOptions::new().read(true).write(true).open(rt, path) {
        Ok(_) => true,
        Err(error) => matches!(unopened(rt, path, error), NotRead::Missing),
    }
}

// A name beside `path` that nobody foresees.
fn temporary_name(rt: &HostRuntime, path: &str) -> io::Result<String> {
    let mut random = [0u8; 4];
    rt.fill_bytes(&mut random)?;
    let number = u32::from_le_bytes(random);
    Ok(format!(in rt.alloc(); "{path}.{number:08x}")?)
}

// A new file under such a name, its owner's alone.
fn create_temporary(rt: &HostRuntime, path: &str) -> io::Result<(File, String)> {
    for _ in 0..MOST_NAMES {
        let name = temporary_name(rt, path)?;
        let created = OpenOptions::new()
            .read(true)
            .write(true)
            .create_new(true)
            .mode(0o600)
            .open(rt, name.as_str());
        match created {
            Ok(file) => return Ok((file, name)),
            Err(error) if error.kind() == ErrorKind::AlreadyExists => {}
            Err(error) => return Err(error),
        }
    }
    Err(io::Error::from(ErrorKind::AlreadyExists))
}

fn fill(file: &mut File, bytes: &[u8]) -> io::Result<()> {
    file.write_all(bytes)?;
    // A temporary file is its owner's alone.
    file.set_permissions(Permissions::from_mode(0o644))?;
    file.sync_all()
}

fn remove(rt: &HostRuntime, name: &str) {
    let _ = fs::remove_file(rt, name);
}

// Puts what is to become the file `path` into a temporary one, and answers the name of that.
fn stage(rt: &HostRuntime, path: &str, bytes: &[u8]) -> Option<String> {
    if !replaceable(rt, path) {
        return None;
    }
    match create_temporary(rt, path) {
        Ok((mut file, name)) => match fill(&mut file, bytes) {
            Ok(()) => Some(name),
            Err(error) => {
                tell(rt, path, error);
                remove(rt, name.as_str());
                None
            }
        },
        Err(error) => {
            tell(rt, path, error);
            None
        }
    }
}

// Gives the temporary file its name.
fn commit(rt: &HostRuntime, name: &str, path: &str) -> bool {
    match fs::rename(rt, name, path) {
        Ok(()) => true,
        Err(error) => {
            tell(rt, path, error);
            remove(rt, name);
            false
        }
    }
}

// The manifest alone, as slip.bin.
pub fn save_manifest(rt: &HostRuntime, manifest: &[u8]) -> bool {
    match stage(rt, "slip.bin", manifest) {
        Some(name) => commit(rt, name.as_str(), "slip.bin"),
        None => false,
    }
}

// Both or neither: all that may fail but the renaming is done before either gets its name.
pub fn save_both(rt: &HostRuntime, manifest: &[u8], bundle: &[u8]) -> bool {
    let Some(manifest_name) = stage(rt, "slip.bin", manifest) else {
        return false;
    };
    let Some(bundle_name) = stage(rt, "bundle.bin", bundle) else {
        remove(rt, manifest_name.as_str());
        return false;
    };
    if !commit(rt, bundle_name.as_str(), "bundle.bin") {
        remove(rt, manifest_name.as_str());
        return false;
    }
    commit(rt, manifest_name.as_str(), "slip.bin")
}
