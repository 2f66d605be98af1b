//! The lines of a script that a search leaves out or keeps, and trials without some of them.

ghost use Rattle.std.specs.Prelude.{◌≡◌};
ghost use Rattle.std.specs.Str.{bytes_eq};
ghost use Rattle.drm_script.specs.Lines.{answer_line};

use crate::expectations::script_of;
use drm_runs::{Interpreter, LineResult, Setup};
use drm_script::{Command, Label, Reading, first_line, line_of, read_line};
use drm_table::{Answer, Apart};
use std::alloc::{AllocError, Global};

/// Whether a line is kept.
#[derive(Clone, Copy, PartialEq)]
pub(crate) enum LineState {
    /// It is kept.
    Kept,
    /// It is left out by the trial that is being made.
    Tried,
    /// It is left out.
    LeftOut,
}

/// A line before the one whose answer stays.
#[derive(Drop)]
pub(crate) struct Line {
    script: Vec<u8>,
    /// The label of its client.
    pub(crate) label: Option<Label>,
}

/// Returns the label of a command.
fn label_of(command: &Command) -> Label {
    match command {
        Command::Open { label, .. } | Command::Close { label } | Command::Ask { label, .. } =>
            *label,
    }
}

/// Returns the label of a line, if it is a command.
pub(crate) fn label_in(script: &[u8]) -> Option<Label> {
    match read_line(script) {
        Ok(Reading::Says(command)) => Some(label_of(&command)),
        _ => None,
    }
}

/// Returns a line, and whether it is needed at all: an empty line or a comment is not.
fn line_from(alloc: Global, script: &[u8]) -> Result<(Line, LineState), AllocError> {
    let (label, state) = match read_line(script) {
        Ok(Reading::Skipped) => (None, LineState::LeftOut),
        Ok(Reading::Says(command)) => (Some(label_of(&command)), LineState::Kept),
        _ => (None, LineState::Kept),
    };
    let mut copy = Vec::new(alloc);
    copy.extend_from_slice(script)?;
    Ok((
        Line {
            script: copy,
            label,
        },
        state,
    ))
}

/// Returns whether the lines of two answers are the same.
pub(crate) fn is_same(a: &Result<Answer, Apart>, b: &Result<Answer, Apart>) -> bool
    ensures { result ≡ bytes_eq (answer_line a.now) (answer_line b.now) }
{
    line_of(a).as_bytes() == line_of(b).as_bytes()
}

/// The lines before a line, and those that are left out so far.
#[derive(Drop)]
pub(crate) struct Trials<'a> {
    alloc: Global,
    setup: &'a Setup,
    pub(crate) lines: Vec<Line>,
    pub(crate) states: Vec<LineState>,
    /// The line whose answer stays.
    pub(crate) last: &'a [u8],
    wanted: &'a Result<Answer, Apart>,
    /// The number of lines that were run.
    pub(crate) replayed: u64,
    /// The most lines to run.
    most: u64,
}

impl<'a> Trials<'a> {
    /// Returns the lines before the line with this number, with all commands and limits kept.
    pub(crate) fn new(
        alloc: Global,
        setup: &'a Setup,
        text: &'a [u8],
        number: u64,
        wanted: &'a Result<Answer, Apart>,
        most: u64,
    ) -> Result<Trials<'a>, AllocError> {
        let mut lines = Vec::new(alloc);
        let mut states = Vec::new(alloc);
        let mut rest = text;
        for _ in 1..number {
            let (line, behind) = first_line(rest);
            let (line, state) = line_from(alloc, script_of(line))?;
            lines.push(line)?;
            states.push(state)?;
            rest = behind;
        }
        Ok(Trials {
            alloc,
            setup,
            lines,
            states,
            last: script_of(first_line(rest).0),
            wanted,
            replayed: 0,
            most,
        })
    }

    /// Returns whether no further line may be run.
    fn is_used_up(&self) -> bool {
        self.replayed >= self.most
    }

    /// Returns the places of the kept lines.
    pub(crate) fn kept(&self) -> Result<Vec<usize>, AllocError> {
        let mut kept = Vec::new(self.alloc);
        for (place, state) in self.states.iter().enumerate() {
            if *state == LineState::Kept {
                kept.push(place)?;
            }
        }
        Ok(kept)
    }

    /// Runs the kept lines and the last one on a new device. Returns whether the last one has the same answer as
    /// after all lines.
    fn is_answered(&mut self) -> Result<bool, AllocError> {
        let mut interpreter = Interpreter::new(self.setup.clone()?);
        let mut outcome = Ok(Answer::Done);
        for (line, state) in self.lines.iter().zip(self.states.iter()) {
            if *state != LineState::Kept {
                continue;
            }
            self.replayed = self.replayed.saturating_add(1);
            match interpreter.interpret(self.alloc, line.script.as_slice(), &mut outcome) {
                LineResult::Answered | LineResult::Unanswered => {}
                LineResult::Malformed(_) | LineResult::NoMemory => return Ok(false),
            }
        }
        let result = interpreter.interpret(self.alloc, self.last, &mut outcome);
        Ok(result == LineResult::Answered && is_same(&outcome, self.wanted))
    }

    /// Leaves the tried lines out if the answer stays the same without them, and keeps them otherwise. Returns whether
    /// they are left out.
    pub(crate) fn settle(&mut self) -> Result<bool, AllocError> {
        if !self.states.contains(&LineState::Tried) {
            return Ok(false);
        }
        let is_shorter = !self.is_used_up() && self.is_answered()?;
        let state = if is_shorter {
            LineState::LeftOut
        } else {
            LineState::Kept
        };
        for tried in self.states.iter_mut() {
            if *tried == LineState::Tried {
                *tried = state;
            }
        }
        Ok(is_shorter)
    }

    /// Tries without the lines at these places.
    pub(crate) fn try_without(&mut self, places: &[usize]) -> Result<bool, AllocError> {
        for place in places {
            if let Some(state) = self.states.get_mut(*place) {
                *state = LineState::Tried;
            }
        }
        self.settle()
    }
}
