//! Lines of a source, one at a time.

ghost use Rattle.std.specs.Prelude.{◌≡◌, ◌≤◌, ◌<◌, ◌+◌, ◌++◌, true, false, length, position};
ghost use Rattle.drm_runs.specs.Lines.{is_end};

use arrayvec::ArrayVec;
use drm_frames::{Refill, Source, take_some};
use std::marker::Model;

/// The most bytes that one `take` returns.
const CHUNK: usize = 256;

/// The most bytes of a line.
const LINE: usize = 255;

/// The result of a scan of the pending bytes.
#[derive(Clone, Copy)]
enum Scan {
    Line,
    Wanting,
    TooLong,
}

/// The result of reading the next line.
#[derive(Clone, Copy)]
pub(crate) enum NextLine {
    /// The reader holds the line, and its end was read.
    Line,
    /// The source has ended. The reader holds the text after the last line end.
    End,
    /// The line has more than 255 bytes.
    TooLong,
    /// The source failed.
    ReadFault,
    /// A call of the source was needed, and no turn was left for it.
    TurnsUsed,
}

/// Reads lines of at most 255 bytes and holds one at a time. Each call of the source requests at most 256 bytes.
#[derive(Drop)]
pub(crate) struct LineReader {
    chunk: [u8; CHUNK],
    next: usize,
    end: usize,
    line: ArrayVec<u8, LINE>,
}

impl Model for LineReader {
    ghost use Rattle.std.specs.Prelude.{◌≤◌, take, drop};
    ghost use Rattle.drm_runs.specs.Reader.{Buffered};

    ghost Value = { Buffered };

    ghost view = { λ s. record { held = s.line.items; pending = drop s.next (take s.end s.chunk) } };

    ghost invariant = { λ s. (s.next ≤ s.end) × (s.end ≤ 256) };
}

fn end_of_line(bytes: &[u8]) -> Option<usize>
    ensures { result ≡ position is_end bytes.now }
{
    bytes.iter().position(|b| *b == b'\n')
}

/// Appends bytes to a line, if it has room for all of them.
fn extend_line(line: &mut ArrayVec<u8, LINE>, bytes: &[u8]) -> bool
    ensures room { result ≡ true → (line.new.items ≡ line.old.items ++ bytes.now) × (length line.new.items ≤ 255) }
    ensures none { result ≡ false → 255 < length line.old.items + length bytes.now }
    ensures short { length line.old.items ≤ 255 }
{
    if line.remaining_capacity() < bytes.len() {
        return false;
    }
    line.try_extend_from_slice(bytes).is_ok()
}

impl LineReader {
    ghost use Rattle.std.specs.Prelude.{◌≡◌, ◌<◌, ◌^◌, ◌+◌, ℕ, List, []};
    ghost use Rattle.drm_runs.specs.Reader.{Refilled, ReadsOn, Reads, Scans};

    /// Returns a reader that has read nothing.
    pub(crate) fn new() -> LineReader
        ensures { result ≡ record { held = []; pending = [] } }
    {
        LineReader {
            chunk: [0; CHUNK],
            next: 0,
            end: 0,
            line: ArrayVec::new(),
        }
    }

    /// Returns the line without its end.
    pub(crate) fn line(&self) -> &[u8]
        ensures { result.now ≡ self.now.held }
    {
        self.line.as_slice()
    }

    /// Moves pending bytes to the line, up to its end.
    fn scan(&mut self) -> Scan
        ensures { Scans self.old self.new result }
    {
        let (filled, _) = self.chunk.split_at(self.end);
        let (_, pending) = filled.split_at(self.next);
        match end_of_line(pending) {
            Some(len) => {
                let (front, _) = pending.split_at(len);
                if !extend_line(&mut self.line, front) {
                    return Scan::TooLong;
                }
                self.next += len + 1;
                Scan::Line
            }
            None => {
                if !extend_line(&mut self.line, pending) {
                    return Scan::TooLong;
                }
                self.next = 0;
                self.end = 0;
                Scan::Wanting
            }
        }
    }

    /// Takes bytes from the source if none are pending.
    fn refill<S: Source>(&mut self, source: &mut S, turns: &mut u64) -> Refill
        requires empty { self.old.pending ≡ [] }
        requires countable { (S.trace source.old).counts.calls + turns.old < 2 ^ 48 }
        ensures { Refilled result self.old self.new (S.trace source.old) (S.trace source.new) turns.old turns.new }
    {
        let refill = take_some(source, &mut self.chunk, turns);
        if let Refill::Got(count) = refill {
            self.next = 0;
            self.end = count;
        }
        refill
    }

    /// Looks for the line's end, and takes more bytes if there is none. It returns the result, once the line was read.
    fn read_on<S: Source>(&mut self, source: &mut S, turns: &mut u64) -> Option<NextLine>
        requires countable { (S.trace source.old).counts.calls + turns.old < 2 ^ 48 }
        ensures { ReadsOn self.old self.new (S.trace source.old) (S.trace source.new) turns.old turns.new result }
    {
        match self.scan() {
            Scan::Line => Some(NextLine::Line),
            Scan::TooLong => Some(NextLine::TooLong),
            Scan::Wanting => match self.refill(source, turns) {
                Refill::Got(_) => None,
                Refill::End => Some(NextLine::End),
                Refill::Fault => Some(NextLine::ReadFault),
                Refill::TurnsUsed => Some(NextLine::TurnsUsed),
            },
        }
    }

    /// Clears the line that is held.
    fn clear(&mut self)
        ensures { self.new ≡ record { held = []; pending = self.old.pending } }
    {
        self.line.clear();
    }

    /// Reads the next line, in place of the one that is held.
    pub(crate) fn next_line<S: Source>(&mut self, source: &mut S, turns: &mut u64) -> NextLine
        requires countable { (S.trace source.old).counts.calls + turns.old < 2 ^ 48 }
        ensures { (given : List ℕ) × Reads self.old self.new (S.trace source.old) (S.trace source.new) turns.old turns.new result given }
    {
        self.clear();
        'pieces: loop {
            if let Some(next) = self.read_on(source, turns) {
                return next;
            }
        }
    }
}
