//! Sinks: the targets of bytes.
ghost use Rattle.std.specs.Prelude.{◌≡◌, ◌-◌, ◌^◌, ◌<◌, length};
ghost use Rattle.drm_frames.specs.Streams.{SinkTrace, PutGives, counts_put, no_calls};

use std::io::{ErrorKind, Write};
use std::marker::Model;

/// The result of one call of [`Sink::put`].
///
/// # Examples
///
/// ```rust
/// use drm_frames::{Put, Sink, ToWrite};
///
/// let mut sink = ToWrite::new(Vec::new(rt.alloc()));
/// assert!(rt; sink.put(b"frame") == Put::Took(5));
/// ```
#[derive(Clone, Copy, Debug, PartialEq)]
pub enum Put {
    /// It took this number of bytes from the front.
    Took(usize),
    /// It took no byte this time. A later call may take some (`EINTR` of write(2)).
    Interrupted,
    /// It took no byte: the sink failed.
    Fault,
}

/// A sink of bytes that counts its calls.
///
/// # Examples
///
/// ```rust
/// use drm_frames::{Sink, Source, ToWrite};
///
/// let mut sink = ToWrite::new(Vec::new(rt.alloc()));
/// sink.put(b"fra");
/// sink.put(b"me");
/// assert!(rt; sink.calls() == 2);
/// ```
pub trait Sink {
    /// The bytes that it has taken, if the sink knows them, the counts of its calls, and the number of bytes that the
    /// last call received.
    ghost trace: { Self → SinkTrace };

    /// Returns the number of calls of `put`.
    fn calls(&self) -> u64
        ensures { result ≡ (trace self.now).counts.calls };

    /// Puts bytes from the front of the text, which may be empty.
    ///
    /// An interruption counts as a fault, but not as a failure. To take no byte of a text that has some counts as a
    /// failure. Only `Took` adds bytes to those taken so far.
    fn put(&mut self, text: &[u8]) -> Put
        requires countable { (trace self.old).counts.calls < 2 ^ 64 - 1 }
        ensures gives { PutGives result (trace self.old).written (trace self.new).written
            text.now }
        ensures counts { (trace self.new).counts
            ≡ counts_put result text.now (trace self.old).counts }
        ensures handed { (trace self.new).handed ≡ length text.now };
}

/// A sink that writes to a writer.
#[derive(Drop)]
pub struct ToWrite<W: Write> {
    writer: W,
    calls: u64,
    faults: u64,
    /// The number of faults that were no interruption.
    failures: u64,
    /// The number of bytes that the last call received.
    handed: usize,
}

impl<W: Write> Model for ToWrite<W> {
    ghost use Rattle.std.specs.Prelude.{◌≤◌};
    ghost use Rattle.drm_frames.specs.Streams.{SinkTrace};

    ghost Value = { SinkTrace };

    ghost view = { λ s. record {
      written = W.contents s.writer;
      counts = record { calls = s.calls; ends = 0; faults = s.faults; failures = s.failures };
      handed = s.handed;
    } };

    ghost invariant = { λ s. (s.faults ≤ s.calls) × (s.failures ≤ s.faults) };
}

impl<W: Write> ToWrite<W> {
    /// Creates a sink that appends to the writer, with no call counted.
    pub fn new(writer: W) -> Self
        ensures written { result.written ≡ W.contents writer }
        ensures counts { result.counts ≡ no_calls }
    {
        ToWrite {
            writer,
            calls: 0,
            faults: 0,
            failures: 0,
            handed: 0,
        }
    }

    /// Returns the writer, with what it holds.
    pub fn into_inner(self) -> W
        ensures { W.contents result ≡ self.written }
    {
        self.writer
    }
}

impl<W: Write> Sink for ToWrite<W> {
    ghost trace = { λ s. s };

    fn calls(&self) -> u64 {
        self.calls
    }

    fn put(&mut self, text: &[u8]) -> Put {
        self.calls += 1;
        self.handed = text.len();
        match self.writer.write(text) {
            Ok(0) => {
                if !text.is_empty() {
                    self.faults += 1;
                    self.failures += 1;
                }
                Put::Took(0)
            }
            Ok(count) => Put::Took(count),
            Err(error) => {
                self.faults += 1;
                if error.kind() == ErrorKind::Interrupted {
                    Put::Interrupted
                } else {
                    self.failures += 1;
                    Put::Fault
                }
            }
        }
    }
}
