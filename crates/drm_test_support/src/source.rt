//! A source for tests.
ghost use Rattle.std.specs.Prelude.{◌≡◌, ◌<◌, Some, take};
ghost use Rattle.std.specs.Option.{option_map};
ghost use Rattle.drm_frames.specs.Streams.{no_calls};

use crate::interruptions::Interruptions;
use drm_frames::{Source, Taken};
use std::marker::Model;

/// A source that returns its bytes in pieces, and fails, ends or is interrupted at given places. Places are counted
/// from the bytes that are left. New interruptions replace earlier ones.
#[derive(Drop)]
pub struct CutSource<'a> {
    rest: &'a [u8],
    piece: usize,
    /// Whether it fails after its bytes, in place of its end.
    is_faulty: bool,
    interruptions: Interruptions,
    calls: u64,
    ends: u64,
    faults: u64,
    /// The number of faults that were no interruption.
    failures: u64,
    /// The number of bytes of the last call that returned some.
    gave: usize,
}

impl<'a> Model for CutSource<'a> {
    ghost use Rattle.std.specs.Prelude.{◌+◌, ◌≤◌, ◌<◌, Some};
    ghost use Rattle.drm_frames.specs.Streams.{SourceTrace};

    ghost Value = { SourceTrace };

    ghost view = { λ s. record {
      left = Some s.rest.now;
      counts = record { calls = s.calls; ends = s.ends; faults = s.faults; failures = s.failures };
      gave = s.gave;
    } };

    ghost invariant = { λ s. (0 < s.piece) × (s.ends + s.faults ≤ s.calls) × (s.failures ≤ s.faults) };
}

impl<'a> CutSource<'a> {
    /// Returns a source of these bytes, with at most `piece` bytes in a call, and then its end.
    pub fn new(bytes: &'a [u8], piece: usize) -> Self
        requires { 0 < piece }
        ensures left { result.left ≡ Some bytes.now }
        ensures counts { result.counts ≡ no_calls }
    {
        CutSource {
            rest: bytes,
            piece,
            is_faulty: false,
            interruptions: Interruptions::never(),
            calls: 0,
            ends: 0,
            faults: 0,
            failures: 0,
            gave: 0,
        }
    }

    /// Returns the source with its end after `at` bytes, if it has more.
    pub fn ending_at(mut self, at: usize) -> Self
        ensures left { result.left ≡ option_map (take at) self.entry.left }
        ensures counts { result.counts ≡ self.entry.counts }
    {
        self.rest = &self.rest[..at.min(self.rest.len())];
        self.is_faulty = false;
        self
    }

    /// Returns the source with a permanent fault after `at` bytes, or after all if it has fewer.
    pub fn faulting_at(self, at: usize) -> Self
        ensures left { result.left ≡ option_map (take at) self.entry.left }
        ensures counts { result.counts ≡ self.entry.counts }
    {
        let mut source = self.ending_at(at);
        source.is_faulty = true;
        source
    }

    /// Returns the source with `times` interruptions before the byte at this place.
    pub fn interrupted(mut self, times: u64, at: usize) -> Self
        ensures { result ≡ self.entry }
    {
        self.interruptions = Interruptions::once(times, at);
        self
    }

    /// Returns the source with `times` interruptions before each piece of `bytes` bytes.
    pub fn interrupted_every(mut self, times: u64, bytes: usize) -> Self
        requires { 0 < bytes }
        ensures { result ≡ self.entry }
    {
        self.interruptions = Interruptions::every(times, bytes);
        self
    }
}

impl Source for CutSource<'_> {
    ghost trace = { λ s. s };

    fn calls(&self) -> u64 {
        self.calls
    }

    fn take(&mut self, buffer: &mut [u8]) -> Taken {
        self.calls += 1;
        if self.interruptions.take_due() {
            self.faults += 1;
            return Taken::Interrupted;
        }
        if self.rest.is_empty() {
            if self.is_faulty {
                self.faults += 1;
                self.failures += 1;
                return Taken::Fault;
            }
            self.ends += 1;
            return Taken::End;
        }
        let wanted = self.piece.min(buffer.len());
        let count = wanted.min(self.rest.len()).min(self.interruptions.room());
        let (now, later) = self.rest.split_at(count);
        buffer[..count].copy_from_slice(now);
        self.rest = later;
        self.interruptions.pass(count);
        self.gave = count;
        Taken::Got(count)
    }
}
