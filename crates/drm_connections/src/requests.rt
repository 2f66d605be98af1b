//! The bytes that a connection brings.

ghost use Rattle.std.specs.Prelude.{◌≡◌, ◌<◌, ◌≤◌, ℕ, [], length, OnOk, OnErr};
ghost use Rattle.std.specs.Io.{ReadsAtMost};
ghost use Rattle.std.specs.Io.KnownBytes.{Keeps, ReadConsumes};
ghost use Rattle.drm_connections.specs.Requests.{IsSettled, requests_left};

use crate::open_connections::ConnectionGuard;
use crate::peek::{Peek, Ready};
use crate::read_ahead::ReadAhead;
use std::alloc::Global;
use std::io;
use std::io::{ErrorKind, Read};
use std::sync::Wait;

/// How many bytes a hello has.
const HELLO: usize = 18;

/// After how many bytes of requests there must be room for answers again. With the last piece they are at most 383, and
/// so at most 64 requests.
const SHARE: usize = 256;

/// How many bytes a client may send ahead of the answers that it takes: more than the system keeps for a sender.
const MOST: usize = 262_144;

/// The most bytes that are handed on, or removed from a stream, at once. Most requests have fewer.
const PIECE: usize = 128;

/// The stream has failed, or bytes that were handed on and stayed in it are missing (own).
#[derive(Clone, Copy, Debug)]
pub struct Lost;

impl From<Lost> for io::Error {
    fn from(_: Lost) -> io::Error {
        io::Error::from(ErrorKind::UnexpectedEof)
    }
}

/// The bytes that a connection brings, each once and in the order of the stream (own).
///
/// The last of its hello is handed on once the connection is admitted. Requests are handed on only while there is room for
/// their answers. While the client takes none, what it sends is read ahead, up to 256 KiB.
///
/// A client that takes no answers may have passed the server a descriptor of this connection. The connection then stays
/// open as long as that is unread, even after the client's process has exited. So what it sends is read also then: a
/// read without room for descriptors drops them.
///
/// # Requests in place
///
/// When a request is removed from the stream, Linux wakes the client, since there is room to send more. A client that
/// waits for its answer finds none and sleeps again. That costs more than most requests. So a request is only looked at,
/// and removed once its answer is written: the answer has then woken the client already.
///
/// That is one more call of the system. With many connections it costs more than it saves. All processors are busy then,
/// so a client that was woken finds its answer by the time that it runs.
#[derive(Drop)]
pub struct Requests<'a, S: Peek, R: Wait> {
    stream: S,
    guard: &'a ConnectionGuard<'a, R>,
    ahead: ReadAhead,
    /// Whether the client sends no more.
    has_ended: bool,
    /// How many bytes were looked at, handed on, and are still in the stream.
    seen: usize,
    /// How many bytes of the share are left.
    share: usize,
    /// How many bytes of the hello were not handed on.
    lacking: usize,
    /// Where bytes are put that are removed. It is no variable, which would be cleared for each request.
    removed: [u8; PIECE],
}

impl<'a, S: Peek, R: Wait> Requests<'a, S, R> {
    /// Creates a reader of what the stream brings.
    pub fn new(alloc: Global, stream: S, guard: &'a ConnectionGuard<'a, R>) -> Requests<'a, S, R>
        ensures { Keeps (S.remaining stream) (requests_left S.remaining result) }
    {
        Requests {
            stream,
            guard,
            ahead: ReadAhead::new(alloc),
            has_ended: false,
            seen: 0,
            share: SHARE,
            lacking: HELLO,
            removed: [0; PIECE],
        }
    }

    /// Removes from the stream what was handed on and stayed in it. Does not wait.
    ///
    /// # Errors
    ///
    /// `Lost` if the stream fails or no longer has these bytes. The connection has then failed.
    pub fn settle(&mut self) -> Result<(), Lost>
        ensures kept { Keeps (requests_left S.remaining self.old) (requests_left S.remaining self.new) }
        ensures settled { OnOk result (IsSettled self.new) }
    {
        if self.seen == 0 {
            return Ok(());
        }
        self.remove_seen()
    }

    fn remove_seen(&mut self) -> Result<(), Lost>
        ensures kept { Keeps (requests_left S.remaining self.old) (requests_left S.remaining self.new) }
        ensures settled { OnOk result (IsSettled self.new) }
    {
        for _ in 0..u64::MAX {
            if self.seen == 0 {
                return Ok(());
            }
            let most = self.seen.min(PIECE);
            let piece = &mut self.removed[..];
            match self.stream.read(&mut piece[..most]) {
                Ok(0) => return Err(Lost),
                Ok(count) => self.seen -= count,
                Err(reason) if reason.kind() == ErrorKind::Interrupted => {}
                Err(_) => return Err(Lost),
            }
        }
        Err(Lost)
    }

    /// Waits until there is room for answers, and reads ahead meanwhile.
    fn wait_for_room(&mut self) -> io::Result<()>
        requires { IsSettled self.old }
        ensures kept { Keeps (requests_left S.remaining self.old) (requests_left S.remaining self.new) }
        ensures settled { IsSettled self.new }
    {
        for _ in 0..MOST {
            match self.stream.wait(!self.has_ended) {
                Ready::Room => {
                    self.share = SHARE;
                    return Ok(());
                }
                Ready::Bytes => self.has_ended = self.ahead.fill(&mut self.stream)? == 0,
            }
            if self.ahead.as_slice().len() > MOST {
                break;
            }
        }
        Err(io::Error::from(ErrorKind::QuotaExceeded))
    }

    /// Reads what was read ahead, or else from the stream.
    fn read_next(&mut self, buf: &mut [u8]) -> io::Result<usize>
        requires { IsSettled self.old }
        ensures bound { ReadsAtMost result buf.new }
        ensures bytes { ReadConsumes (requests_left S.remaining self.old) (requests_left S.remaining self.new) result buf.new }
    {
        if !self.ahead.as_slice().is_empty() {
            return Ok(self.ahead.take(buf));
        }
        if self.lacking > 0 || self.guard.is_crowded() {
            return self.stream.read(buf);
        }
        let count = self.stream.peek(buf)?;
        self.seen = count;
        Ok(count)
    }

    /// Counts bytes of the hello. Before the last one is handed on, the connection is admitted.
    fn admit_after(&mut self, count: usize)
        ensures { requests_left S.remaining self.new ≡ requests_left S.remaining self.old }
    {
        if self.lacking > 0 {
            self.lacking = self.lacking.saturating_sub(count);
            if self.lacking == 0 {
                self.guard.admit();
            }
        }
    }
}

impl<S: Peek, R: Wait> Read for Requests<'_, S, R> {
    ghost remaining = { requests_left S.remaining };

    fn read(&mut self, buf: &mut [u8]) -> io::Result<usize> {
        self.settle()?;
        if self.share == 0 {
            self.wait_for_room()?;
        }
        let most = buf.len().min(PIECE);
        let count = self.read_next(&mut buf[..most])?;
        self.share = self.share.saturating_sub(count);
        self.admit_after(count);
        Ok(count)
    }
}
