//! Looking at what a connection brings without taking it.

ghost use Rattle.std.specs.Io.{ReadsAtMost};
ghost use Rattle.std.specs.Io.KnownBytes.{Keeps};
ghost use Rattle.drm_connections.specs.Looks.{Shows};

use crate::outlet::wait_for;
use libc::net::{MSG_PEEK, POLLIN, POLLOUT, recv};
use std::io;
use std::io::Read;
use std::os::fd::AsRawFd;
use std::os::unix::net::UnixStream;

/// What [`Peek::wait`] waited for.
#[derive(Clone, Copy, Debug, PartialEq)]
pub enum Ready {
    /// There is room for answers, or the other end is closed.
    Room,
    /// There is no room, but there are bytes to read, or the end.
    Bytes,
}

/// A reader whose next bytes can be looked at (own). Neither call takes a byte.
pub trait Peek: Read {
    /// Waits for bytes and copies the next ones into the front of the buffer. They are left to be read. Returns 0 only at the
    /// end or if the buffer is empty.
    ///
    /// # Errors
    ///
    /// Those of recv(2).
    fn peek(&mut self, buf: &mut [u8]) -> io::Result<usize>
        ensures bound { ReadsAtMost result buf.new }
        ensures shows { Shows (Self.remaining self.old) (Self.remaining self.new) result buf.new };

    /// Waits until there is room for 64 answers of 1,028 bytes, or the other end is closed. If `for_bytes` is true, it also
    /// ends when there are bytes to read.
    fn wait(&mut self, for_bytes: bool) -> Ready
        ensures { Keeps (Self.remaining self.old) (Self.remaining self.new) };
}

impl Peek for &UnixStream {
    fn peek(&mut self, buf: &mut [u8]) -> io::Result<usize> {
        let count = unsafe { recv(self.as_raw_fd(), buf, MSG_PEEK) };
        match usize::try_from(count) {
            Ok(count) if count <= buf.len() => Ok(count),
            _ => Err(io::Error::from_raw_os_error(os::errno())),
        }
    }

    // Linux reports room in a Unix socket while a quarter of its buffer is used at most: 53,248 of 212,992 bytes by default.
    // An answer uses 2,304 bytes at most.
    fn wait(&mut self, for_bytes: bool) -> Ready {
        let events = if for_bytes { POLLOUT | POLLIN } else { POLLOUT };
        let occurred = wait_for(self.as_raw_fd(), events, -1);
        if for_bytes && occurred & (POLLIN | POLLOUT) == POLLIN {
            Ready::Bytes
        } else {
            Ready::Room
        }
    }
}
