//! Sources of bytes.
ghost use Rattle.std.specs.Prelude.{◌≡◌, ◌-◌, ◌^◌, ◌<◌, length};
ghost use Rattle.drm_frames.specs.Streams.{
  SourceTrace,
  TakeGives,
  counts_taken,
  gave_after,
  no_calls,
};

use std::io::{ErrorKind, Read};
use std::marker::Model;

/// The result of one call of [`Source::take`].
///
/// # Examples
///
/// ```rust
/// use drm_frames::{FromRead, Source, Taken};
///
/// let mut source = FromRead::new(b"frame".as_slice());
/// let mut buffer = [0; 8];
/// assert!(rt; source.take(&mut buffer) == Taken::Got(5));
/// ```
#[derive(Clone, Copy, Debug, PartialEq)]
pub enum Taken {
    /// The number of bytes in the front of the buffer, at least 1.
    Got(usize),
    /// No byte is left.
    End,
    /// No byte this time. A later call may return some (`EINTR` of read(2)).
    Interrupted,
    /// No byte: the source failed.
    Fault,
}

/// A source of bytes that counts its calls.
///
/// # Examples
///
/// ```rust
/// use drm_frames::{FromRead, Sink, Source};
///
/// let mut source = FromRead::new(b"frame".as_slice());
/// let mut buffer = [0; 8];
/// source.take(&mut buffer);
/// assert!(rt; source.calls() == 1);
/// ```
pub trait Source {
    /// The bytes that are left, if the source knows them, the counts of its calls, and the number of bytes that the
    /// last call returned.
    ghost trace: { Self → SourceTrace };

    /// Returns the number of calls of `take`.
    fn calls(&self) -> u64
        ensures { result ≡ (trace self.now).counts.calls };

    /// Takes bytes into the front of the buffer, which must not be empty. The rest of the buffer is unspecified.
    ///
    /// An interruption counts as a fault, but not as a failure. Only `Got` takes bytes from those that are left.
    fn take(&mut self, buffer: &mut [u8]) -> Taken
        requires room { 0 < length buffer.old }
        requires countable { (trace self.old).counts.calls < 2 ^ 64 - 1 }
        ensures gives { TakeGives result (trace self.old).left (trace self.new).left
            buffer.new }
        ensures counts { (trace self.new).counts
            ≡ counts_taken result (trace self.old).counts }
        ensures gave { (trace self.new).gave ≡ gave_after result (trace self.old).gave };
}

/// A source that reads from a reader.
#[derive(Drop)]
pub struct FromRead<R: Read> {
    reader: R,
    calls: u64,
    ends: u64,
    faults: u64,
    /// The number of faults that were no interruption.
    failures: u64,
    /// The number of bytes of the last call that returned some.
    gave: usize,
}

impl<R: Read> Model for FromRead<R> {
    ghost use Rattle.std.specs.Prelude.{◌+◌, ◌≤◌};
    ghost use Rattle.drm_frames.specs.Streams.{SourceTrace};

    ghost Value = { SourceTrace };

    ghost view = { λ s. record {
      left = R.remaining s.reader;
      counts = record { calls = s.calls; ends = s.ends; faults = s.faults; failures = s.failures };
      gave = s.gave;
    } };

    ghost invariant = { λ s. (s.ends + s.faults ≤ s.calls) × (s.failures ≤ s.faults) };
}

impl<R: Read> FromRead<R> {
    /// Creates a source of the bytes that the reader has left, with no call counted.
    pub fn new(reader: R) -> Self
        ensures left { result.left ≡ R.remaining reader }
        ensures counts { result.counts ≡ no_calls }
    {
        FromRead {
            reader,
            calls: 0,
            ends: 0,
            faults: 0,
            failures: 0,
            gave: 0,
        }
    }

    /// Returns the reader, with the bytes that it has left.
    pub fn into_inner(self) -> R
        ensures { R.remaining result ≡ self.left }
    {
        self.reader
    }
}

impl<R: Read> Source for FromRead<R> {
    ghost trace = { λ s. s };

    fn calls(&self) -> u64 {
        self.calls
    }

    fn take(&mut self, buffer: &mut [u8]) -> Taken {
        self.calls += 1;
        match self.reader.read(buffer) {
            Ok(0) => {
                self.ends += 1;
                Taken::End
            }
            Ok(count) => {
                self.gave = count;
                Taken::Got(count)
            }
            Err(error) => {
                self.faults += 1;
                if error.kind() == ErrorKind::Interrupted {
                    Taken::Interrupted
                } else {
                    self.failures += 1;
                    Taken::Fault
                }
            }
        }
    }
}
