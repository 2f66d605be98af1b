//! The descriptors 0 to 2.

use drm_connections::wait_for;
use libc::net::POLLNVAL;
use std::fs::OpenOptions;
use std::os::fd::RawFd;
use std::rt::Files;

/// The file for standard streams that were closed.
const NOTHING: &str = "/dev/null";

/// The files of the standard streams that were closed.
#[derive(Drop)]
pub(crate) struct Standard<F: Drop> {
    input: Option<F>,
    output: Option<F>,
    error: Option<F>,
}

/// Opens `/dev/null` on a descriptor that is closed, which must be the lowest closed one.
fn open_if_closed<R: Files>(rt: &R, descriptor: RawFd, how: &OpenOptions) -> Option<R::File> {
    if wait_for(descriptor, 0, 0) & POLLNVAL != 0 {
        how.open(rt, NOTHING).ok()
    } else {
        None
    }
}

/// Opens `/dev/null` on each of the descriptors 0 to 2 that is closed.
///
/// No socket and no file then gets such a number. Otherwise, text for standard output or the log would reach a client.
/// Standard input is opened for writing, and the others for reading, so that their use still fails like that of a
/// closed one.
pub(crate) fn open_standard<R: Files>(rt: &R) -> Standard<R::File> {
    let mut writing = OpenOptions::new();
    writing.write(true);
    let mut reading = OpenOptions::new();
    reading.read(true);
    Standard {
        input: open_if_closed(rt, 0, &writing),
        output: open_if_closed(rt, 1, &reading),
        error: open_if_closed(rt, 2, &reading),
    }
}
