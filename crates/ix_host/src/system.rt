//! Calls of the system that give and take a file's bytes. A read or a write that a signal interrupts is tried up to 100 times.
ghost use Rattle.std.specs.Prelude.{◌≡◌, ◌≤◌, length, IfOk, vec_len};

use ix_dir::DirError;
use std::alloc::{AllocError, Global};
use std::fs::{Metadata, OpenFile, OpenOptions};
use std::io;
use std::io::{ErrorKind, Read, Write};
use std::os::unix::fs::MetadataExt;
use std::rt::Files;

/// The most bytes of a file that is read or written: 64 MiB.
///
/// No file that the program writes comes near it. Its files come from an input of at most 16 MiB, and none of them is greater
/// than three times the input: a symbol takes at least 12 bytes of the input and, with empty names, 25 of a record file, a
/// dependency 4 and 9 of a unit file, and beyond that a text costs a byte for each of its bytes. A unit file has besides at most
/// 4,096 names of records, which the input doesn't spell.
pub const MAX_FILE: u64 = 64 << 20;

/// How often a read or a write is tried that a signal interrupts.
const TRIES: u32 = 100;

/// What the system answered. Each of its errors is a failure of the outside.
pub fn or_failed<T>(answer: io::Result<T>) -> Result<T, DirError> {
    match answer {
        Ok(value) => Ok(value),
        Err(_) => Err(DirError::Failed),
    }
}

/// The bytes of the plain file at the path; None where nothing stands there, or something that isn't a plain file.
/// What stands there is looked at before it is opened, so that neither a link is followed nor a pipe waited for.
pub fn file_bytes<R: Files>(
    alloc: Global,
    rt: &R,
    path: &str,
) -> Result<Option<Vec<u8>>, DirError> {
    let Some(named) = plain_file(rt, path)? else {
        return Ok(None);
    };
    let mut file = or_failed(OpenOptions::new().read(true).open(rt, path))?;
    let opened = or_failed(file.metadata())?;
    if !is_same_file(&named, &opened) {
        return Err(DirError::Failed);
    }
    Ok(Some(all_bytes(alloc, &mut file, opened.len())?))
}

/// What the system says of the plain file at the path, None where there is none.
pub fn plain_file<R: Files>(rt: &R, path: &str) -> Result<Option<Metadata>, DirError> {
    match rt.symlink_metadata(path) {
        Ok(found) if found.is_file() => Ok(Some(found)),
        Ok(_) => Ok(None),
        Err(fault) if fault.kind() == ErrorKind::NotFound => Ok(None),
        Err(_) => Err(DirError::Failed),
    }
}

/// Whether what was opened is the plain file that was looked at before.
fn is_same_file(named: &Metadata, opened: &Metadata) -> bool {
    opened.is_file() && named.dev() == opened.dev() && named.ino() == opened.ino()
}

/// All bytes of an open file that has so many.
fn all_bytes<F: Read>(alloc: Global, file: &mut F, size: u64) -> Result<Vec<u8>, DirError> {
    if size > MAX_FILE {
        return Err(DirError::Failed);
    }
    let mut bytes = zeros(alloc, size as usize)?;
    fill(file, &mut bytes)?;
    Ok(bytes)
}

/// Reads until all is filled. A file that ends before has failed.
fn fill<F: Read>(file: &mut F, into: &mut [u8]) -> Result<(), DirError> {
    let mut done = 0;
    while done < into.len() {
        let taken = read_some(file, &mut into[done..])?;
        if taken == 0 {
            return Err(DirError::Failed);
        }
        done += taken;
    }
    Ok(())
}

/// So many zeros.
pub fn zeros(alloc: Global, len: usize) -> Result<Vec<u8>, AllocError>
    ensures { IfOk result (λ v. vec_len v ≡ len) }
{
    vec![in alloc; 0u8; len]
}

/// One read.
pub fn read_some<F: Read>(file: &mut F, into: &mut [u8]) -> Result<usize, DirError>
    ensures { IfOk result (λ n. n ≤ length into.new) }
{
    for _ in 0..TRIES {
        match file.read(into) {
            Ok(taken) => return Ok(taken),
            Err(fault) => {
                if fault.kind() != ErrorKind::Interrupted {
                    return Err(DirError::Failed);
                }
            }
        }
    }
    Err(DirError::Failed)
}

/// Makes a file at the path, writes it whole and syncs it. What stood there, as a stop left it, is taken away before: a file is
/// always made anew, so that no link is followed and no file that has another name is written into.
pub fn write_new_file<R: Files>(rt: &R, path: &str, bytes: &[u8]) -> Result<(), DirError> {
    let mut file = new_file(rt, path)?;
    let written = written_and_synced(&mut file, bytes);
    if written.is_err() {
        // The room that it takes is wanted. The next file that is made here takes it away otherwise.
        let _ = rt.remove_file(path);
    }
    written
}

fn new_file<R: Files>(rt: &R, path: &str) -> Result<R::File, DirError> {
    match create_new(rt, path) {
        Err(fault) if fault.kind() == ErrorKind::AlreadyExists => {
            or_failed(rt.remove_file(path))?;
            or_failed(create_new(rt, path))
        }
        answer => or_failed(answer),
    }
}

fn create_new<R: Files>(rt: &R, path: &str) -> io::Result<R::File> {
    OpenOptions::new()
        .write(true)
        .create_new(true)
        .open(rt, path)
}

fn written_and_synced<F: Write + OpenFile>(file: &mut F, bytes: &[u8]) -> Result<(), DirError> {
    let mut rest = bytes;
    while !rest.is_empty() {
        let taken = write_some(file, rest)?;
        if taken == 0 {
            return Err(DirError::Failed);
        }
        rest = &rest[taken..];
    }
    or_failed(file.sync_all())
}

/// One write.
fn write_some<F: Write>(file: &mut F, bytes: &[u8]) -> Result<usize, DirError>
    ensures { IfOk result (λ n. n ≤ length bytes.now) }
{
    for _ in 0..TRIES {
        match file.write(bytes) {
            Ok(taken) => return Ok(taken),
            Err(fault) => {
                if fault.kind() != ErrorKind::Interrupted {
                    return Err(DirError::Failed);
                }
            }
        }
    }
    Err(DirError::Failed)
}

/// The folder at the path, open to be synced.
pub fn open_folder<R: Files>(rt: &R, path: &str) -> io::Result<R::File> {
    OpenOptions::new().read(true).open(rt, path)
}
