//! Files that are read whole, and files whose text is replaced.

use crate::faults::Fault;
use drm_traffic::PROGRAM;
use log::{Log, error};
use std::alloc::Global;
use std::fs::{OpenFile, OpenOptions};
use std::io::{ErrorKind, Read, Write};
use std::path::AsPath;
use std::rt::Files;
use std::{fs, io};

/// The most bytes of a file that is read whole. The longest journal has fewer: 100,001 lines of 256 bytes.
const MOST_BYTES: usize = 32 * 1024 * 1024;

/// The most names that are tried for a temporary file.
const MOST_NAMES: u32 = 1_000;

/// Logs the reason a file can't be read.
fn read_fault<R: Log>(rt: &R, path: &str, reason: &io::Error) -> Fault {
    error!(rt; target: PROGRAM, "{path}: {reason}");
    Fault::Read
}

/// Logs the reason a file can't be written.
pub(crate) fn write_fault<R: Log>(rt: &R, path: &str, reason: &io::Error) -> Fault {
    error!(rt; target: PROGRAM, "{path}: {reason}");
    Fault::Write
}

/// A reader that logs the reason if a read fails.
#[derive(Drop)]
pub(crate) struct LoggedRead<'a, R: Log, F: Read + Drop> {
    rt: &'a R,
    path: &'a str,
    file: F,
}

impl<'a, R: Log, F: Read + Drop> LoggedRead<'a, R, F> {
    pub(crate) fn new(rt: &'a R, path: &'a str, file: F) -> LoggedRead<'a, R, F> {
        LoggedRead { rt, path, file }
    }
}

impl<R: Log, F: Read + Drop> Read for LoggedRead<'_, R, F> {
    fn read(&mut self, buf: &mut [u8]) -> io::Result<usize> {
        match self.file.read(buf) {
            Err(reason) if reason.kind() != ErrorKind::Interrupted => {
                let path = self.path;
                error!(self.rt; target: PROGRAM, "{path}: {reason}");
                Err(reason)
            }
            read => read,
        }
    }
}

/// Returns the bytes of a reader, at most one more than [`MOST_BYTES`].
fn read_bounded<F: Read + Drop>(alloc: Global, file: F) -> io::Result<Vec<u8>> {
    let mut bytes = Vec::new(alloc);
    file.take(MOST_BYTES as u64 + 1).read_to_end(&mut bytes)?;
    Ok(bytes)
}

/// Returns the bytes of a reader. If it fails, or has more than 32 MiB, the reason is logged.
pub(crate) fn read_whole_from<R: Log, F: Read + Drop>(
    rt: &R,
    alloc: Global,
    path: &str,
    file: F,
) -> Result<Vec<u8>, Fault> {
    match read_bounded(alloc, file) {
        Ok(bytes) if bytes.len() > MOST_BYTES => {
            error!(rt; target: PROGRAM, "{path}: more than {MOST_BYTES} bytes, which is the most of a file that is read whole");
            Err(Fault::Read)
        }
        Ok(bytes) => Ok(bytes),
        Err(reason) => Err(read_fault(rt, path, &reason)),
    }
}

/// Returns the bytes of a file. If it can't be read, or has more than 32 MiB, the reason is logged.
pub(crate) fn read_whole<R: Files + Log>(
    rt: &R,
    alloc: Global,
    path: &str,
) -> Result<Vec<u8>, Fault> {
    match fs::open(rt, path) {
        Ok(file) => read_whole_from(rt, alloc, path, file),
        Err(reason) => Err(read_fault(rt, path, &reason)),
    }
}

/// A file that is removed on drop, unless it has replaced another.
struct Temporary<'a, R: Files> {
    rt: &'a R,
    path: String,
    is_moved: bool,
}

impl<R: Files> Drop for Temporary<'_, R> {
    fn drop(self) {
        let Self { rt, path, is_moved } = self;
        if !is_moved {
            let _ = fs::remove_file(rt, path.as_str());
        }
    }
}

/// Creates a file in the folder of `target`, which only its owner may read. No other file has its name.
fn create_beside<'a, R: Files>(
    rt: &'a R,
    alloc: Global,
    target: &str,
) -> io::Result<(R::File, Temporary<'a, R>)> {
    for number in 0..MOST_NAMES {
        let path = format!(in alloc; "{target}.new{number}")?;
        match OpenOptions::new()
            .write(true)
            .create_new(true)
            .open(rt, path.as_str())
        {
            Ok(file) => {
                let is_moved = false;
                return Ok((file, Temporary { rt, path, is_moved }));
            }
            Err(reason) if reason.kind() == ErrorKind::AlreadyExists => {}
            Err(reason) => return Err(reason),
        }
    }
    Err(io::Error::from(ErrorKind::AlreadyExists))
}

/// Replaces the text of a regular file, also through symbolic links.
///
/// The file is replaced as a whole or not at all. The text is first written to the disk as a new file in the same
/// folder, which then takes its place. The permissions are unchanged. The owner is the user who runs this, and other
/// hard links to the file keep the old text.
pub(crate) fn replace_text<R: Files + AllocGlobal>(
    rt: &R,
    alloc: Global,
    path: &str,
    text: &[u8],
) -> io::Result<()> {
    let target = fs::canonicalize(rt, path)?.into_string();
    let metadata = fs::metadata(rt, target.as_str())?;
    if !metadata.is_file() {
        return Err(io::Error::from(ErrorKind::InvalidInput));
    }
    let (mut file, mut temporary) = create_beside(rt, alloc, target.as_str())?;
    file.write_all(text)?;
    file.set_permissions(metadata.permissions())?;
    file.sync_all()?;
    drop(file);
    fs::rename(rt, temporary.path.as_str(), target.as_str())?;
    temporary.is_moved = true;
    Ok(())
}
