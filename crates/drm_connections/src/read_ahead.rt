//! Bytes that were read ahead.

ghost use Rattle.std.specs.Prelude.{◌≡◌, ◌+◌, ◌<◌, ◌≤◌, ℕ, List, [], ◌++◌, length, take, drop, IfOk, OnErr, OnOk};
ghost use Rattle.std.specs.Io.KnownBytes.{Keeps};
ghost use Rattle.drm_connections.specs.Looks.{Moves};

use std::alloc::Global;
use std::io;
use std::io::{ErrorKind, Read};
use std::marker::Model;

/// How many bytes are read ahead at once.
const PIECE: usize = 4_096;

/// Bytes that were read ahead, of which the first were taken.
#[derive(Drop)]
pub(crate) struct ReadAhead {
    bytes: Vec<u8>,
    taken: usize,
}

impl Model for ReadAhead {
    ghost Value = { List ℕ };

    ghost view = { λ s. drop s.taken s.bytes.items };

    ghost invariant = { λ s. s.taken ≤ length s.bytes.items };
}

impl ReadAhead {
    pub(crate) fn new(alloc: Global) -> ReadAhead
        ensures { result ≡ [] }
    {
        ReadAhead {
            bytes: Vec::new(alloc),
            taken: 0,
        }
    }

    pub(crate) fn as_slice(&self) -> &[u8]
        ensures { result.now ≡ self.now }
    {
        match self.bytes.get(self.taken..) {
            Some(left) => left,
            None => &[],
        }
    }

    /// Moves the first bytes into the front of the buffer, and returns how many: as many as there are and as fit.
    pub(crate) fn take(&mut self, buf: &mut [u8]) -> usize
        ensures bound { result ≤ length buf.new }
        ensures bytes { self.old ≡ take result buf.new ++ self.new }
        ensures some { result ≡ 0 → 0 < length buf.new → self.old ≡ [] }
    {
        let count = {
            let left = self.as_slice();
            let count = left.len().min(buf.len());
            buf[..count].copy_from_slice(&left[..count]);
            count
        };
        self.taken += count;
        if self.taken >= self.bytes.len() {
            self.bytes.clear();
            self.taken = 0;
        }
        count
    }

    /// Reads a piece from the stream, and returns its length: 0 at the end.
    ///
    /// # Errors
    ///
    /// That of the stream, or that memory is refused. Nothing was read then.
    pub(crate) fn fill<S: Read>(&mut self, stream: &mut S) -> io::Result<usize>
        ensures { Moves (S.remaining stream.old) (S.remaining stream.new) self.old self.new result }
    {
        if self.bytes.reserve(PIECE).is_err() {
            return Err(io::Error::from(ErrorKind::OutOfMemory));
        }
        let mut piece = [0; PIECE];
        let count = stream.read(&mut piece)?;
        let Ok(()) = self.bytes.extend_from_slice(&piece[..count]) else {
            unreachable!()
        };
        Ok(count)
    }
}
