//! The lines of a script, read one after the other.

use crate::reader::{LineReader, NextLine};
use crate::stops::{ScriptEnd, Stop};
use drm_frames::Source;
use drm_script::Malformed;
use std::marker::Model;

/// The lines of a script, read from a source (own).
///
/// It holds one line at a time and counts them. A line has at most 255 bytes.
///
/// # Examples
///
/// ```rust
/// use drm_runs::ScriptLines;
/// use drm_frames::FromRead;
///
/// let mut source = FromRead::new(b"open a card\n".as_slice());
/// let mut turns = 1000;
/// let mut lines = ScriptLines::new();
/// assert!(rt; lines.read_next(&mut source, &mut turns).is_none());
/// assert!(rt; lines.line() == b"open a card".as_slice());
/// ```
#[derive(Drop)]
pub struct ScriptLines {
    reader: LineReader,
    /// The number of lines that were read.
    number: u64,
    /// Whether the input has ended after the line that is held.
    is_last: bool,
}

impl Model for ScriptLines {
    ghost use Rattle.drm_runs.specs.LineSteps.{LinesState, lines_state};

    ghost Value = { LinesState };

    ghost view = { λ s. lines_state s.reader s.number s.is_last };
}

impl ScriptLines {
    ghost use Rattle.std.specs.Prelude.{◌≡◌, ◌<◌, ◌+◌, ◌^◌};
    ghost use Rattle.drm_runs.specs.LineSteps.{HoldsLast, ReadsNext, no_lines};

    /// Returns the lines of a source that has not been read. Does not allocate.
    pub fn new() -> ScriptLines
        ensures { result ≡ no_lines }
    {
        ScriptLines {
            reader: LineReader::new(),
            number: 0,
            is_last: false,
        }
    }

    /// Returns the line that is held, without its end. Does not allocate.
    pub fn line(&self) -> &[u8]
        ensures { result.now ≡ self.now.held }
    {
        self.reader.line()
    }

    /// Returns the number of lines that were read, which is that of the line that is held. Does not allocate.
    pub fn number(&self) -> u64
        ensures { result ≡ self.now.number }
    {
        self.number
    }

    /// Counts the text after the last line end as a line, if there is any.
    fn hold_last(&mut self) -> Option<Stop>
        requires number { self.old.number + 1 < 2 ^ 64 }
        ensures { HoldsLast self.old self.new result }
    {
        if self.reader.line().is_empty() {
            return Some(Stop::of(ScriptEnd::Done));
        }
        self.number += 1;
        self.is_last = true;
        None
    }

    /// Reads the next line in place of the one that is held, or returns how the script ends. Does not allocate.
    ///
    /// The end is one of:
    ///
    /// - `Done`: the input has ended.
    /// - `Malformed`: the line has more than 255 bytes.
    /// - `ReadFault`: the source failed.
    /// - `TurnsUsed`: no turn is left.
    pub fn read_next<S: Source>(&mut self, source: &mut S, turns: &mut u64) -> Option<Stop>
        requires number { self.old.number + 1 < 2 ^ 64 }
        requires countable { (S.trace source.old).counts.calls + turns.old < 2 ^ 48 }
        ensures { ReadsNext self.old self.new (S.trace source.old) (S.trace source.new) turns.old turns.new result }
    {
        if self.is_last {
            return Some(Stop::of(ScriptEnd::Done));
        }
        match self.reader.next_line(source, turns) {
            NextLine::Line => {
                self.number += 1;
                None
            }
            NextLine::End => self.hold_last(),
            NextLine::TooLong => Some(Stop::malformed(self.number + 1, Malformed::too_long())),
            NextLine::ReadFault => Some(Stop::of(ScriptEnd::ReadFault)),
            NextLine::TurnsUsed => Some(Stop::of(ScriptEnd::TurnsUsed)),
        }
    }
}
