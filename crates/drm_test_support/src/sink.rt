//! A sink for tests.
ghost use Rattle.std.specs.Prelude.{◌≡◌, ◌<◌, [], Some};
ghost use Rattle.drm_frames.specs.Streams.{no_calls};

use crate::interruptions::Interruptions;
use arrayvec::ArrayVec;
use drm_frames::{Put, Sink};
use std::marker::Model;

/// A sink that takes up to `N` bytes in pieces, and fails or is interrupted at given places. Places are counted from
/// the bytes that it has. New interruptions replace earlier ones.
#[derive(Drop)]
pub struct CutSink<const N: usize> {
    bytes: ArrayVec<u8, N>,
    /// The number of bytes that it still takes.
    room: usize,
    piece: usize,
    /// Whether it takes nothing once it has no room, without a failure.
    is_silent: bool,
    interruptions: Interruptions,
    calls: u64,
    faults: u64,
    /// The number of faults that were no interruption.
    failures: u64,
    /// The number of bytes that the last call was handed.
    handed: usize,
}

impl<const N: usize> Model for CutSink<N> {
    ghost use Rattle.std.specs.Prelude.{◌+◌, ◌≤◌, ◌<◌, Some, length};
    ghost use Rattle.drm_frames.specs.Streams.{SinkTrace};

    ghost Value = { SinkTrace };

    ghost view = { λ s. record {
      written = Some s.bytes.items;
      counts = record { calls = s.calls; ends = 0; faults = s.faults; failures = s.failures };
      handed = s.handed;
    } };

    ghost invariant = { λ s. (0 < s.piece) × (s.faults ≤ s.calls) × (s.failures ≤ s.faults) × (length s.bytes.items + s.room ≤ N) };
}

impl<const N: usize> CutSink<N> {
    /// Returns an empty sink that takes at most `piece` bytes in a call, and faults once it has `N`.
    pub fn new(piece: usize) -> Self
        requires { 0 < piece }
        ensures written { result.written ≡ Some [] }
        ensures counts { result.counts ≡ no_calls }
    {
        CutSink {
            bytes: ArrayVec::new(),
            room: N,
            piece,
            is_silent: false,
            interruptions: Interruptions::never(),
            calls: 0,
            faults: 0,
            failures: 0,
            handed: 0,
        }
    }

    /// Returns the sink with a permanent fault after `at` more bytes.
    pub fn faulting_at(mut self, at: usize) -> Self
        ensures { result ≡ self.entry }
    {
        self.room = at.min(self.room);
        self.is_silent = false;
        self
    }

    /// Returns the sink taking nothing more after `at` more bytes.
    pub fn refusing_at(mut self, at: usize) -> Self
        ensures { result ≡ self.entry }
    {
        self.room = at.min(self.room);
        self.is_silent = true;
        self
    }

    /// Returns the sink with `times` interruptions before the byte at this place.
    pub fn interrupted(mut self, times: u64, at: usize) -> Self
        ensures { result ≡ self.entry }
    {
        self.interruptions = Interruptions::once(times, at);
        self
    }

    /// Returns the sink with `times` interruptions before each piece of `bytes` bytes.
    pub fn interrupted_every(mut self, times: u64, bytes: usize) -> Self
        requires { 0 < bytes }
        ensures { result ≡ self.entry }
    {
        self.interruptions = Interruptions::every(times, bytes);
        self
    }

    /// Returns the bytes that it took.
    pub fn written(&self) -> &[u8]
        ensures { self.now.written ≡ Some result.now }
    {
        self.bytes.as_slice()
    }
}

impl<const N: usize> Sink for CutSink<N> {
    ghost trace = { λ s. s };

    fn calls(&self) -> u64 {
        self.calls
    }

    fn put(&mut self, text: &[u8]) -> Put {
        self.calls += 1;
        self.handed = text.len();
        if self.interruptions.take_due() {
            self.faults += 1;
            return Put::Interrupted;
        }
        let wanted = self.piece.min(text.len());
        let count = wanted.min(self.room).min(self.interruptions.room());
        let (now, _) = text.split_at(count);
        if self.bytes.try_extend_from_slice(now).is_err() {
            self.faults += 1;
            self.failures += 1;
            return Put::Fault;
        }
        self.room -= count;
        self.interruptions.pass(count);
        if count > 0 || text.is_empty() {
            return Put::Took(count);
        }
        self.faults += 1;
        self.failures += 1;
        if self.is_silent {
            Put::Took(0)
        } else {
            Put::Fault
        }
    }
}
