//! The steps of a script.

ghost use Rattle.std.specs.Prelude.{◌<◌, ◌+◌, ◌^◌};

use drm_checks::script_of;
use drm_explanations::Labels;
use drm_frames::Source;
use drm_refusals::Line;
use drm_rights::{Ledger, Step};
use drm_runs::{Interpreter, LineResult, ScriptEnd, ScriptLines, Setup, Stop};
use drm_script::line_of;
use drm_table::{Answer, Apart, Limits};
use std::alloc::{AllocError, Global};
use std::mem;

/// The recorded steps of a script, and the clients of its labels at the end. It also has the limits of its device, the
/// number of lines that were used, and the answer of the last one, if requested.
#[derive(Drop)]
pub(crate) struct Recording {
    pub(crate) ledger: Ledger,
    pub(crate) labels: Labels,
    pub(crate) limits: Limits,
    pub(crate) lines: u64,
    pub(crate) last: Option<Line>,
}

/// A script that is being run.
#[derive(Drop)]
struct Recorder {
    lines: ScriptLines,
    interpreter: Interpreter,
    /// The steps so far.
    ledger: Ledger,
    /// The last line to use, and its answer.
    until: Option<u64>,
    last: Option<Line>,
}

/// Returns the line of an answer, without its end.
fn text_of(alloc: Global, answer: &Result<Answer, Apart>) -> Result<String, AllocError> {
    let line = line_of(answer);
    let text = str::from_utf8(line.as_bytes()).unwrap_or("");
    String::from_str(alloc, text.trim_end())
}

impl Recorder {
    ghost use Rattle.std.specs.Prelude.{◌≡◌, ◌<◌, ◌+◌, ◌^◌, IfNone};
    ghost use Rattle.drm_runs.specs.LineSteps.{fuel_of, no_lines};

    fn new(alloc: Global, setup: Setup, until: Option<u64>) -> Recorder
        ensures { result.lines ≡ no_lines }
    {
        Recorder {
            lines: ScriptLines::new(),
            interpreter: Interpreter::new(setup),
            ledger: Ledger::new(alloc),
            until,
            last: None,
        }
    }

    /// Records the last event of the device's journal with its answer. If memory is refused, all earlier steps are
    /// dropped.
    fn note(&mut self, alloc: Global, answer: Answer) -> Result<(), AllocError>
        ensures { self.new.lines ≡ self.old.lines }
    {
        let Some(device) = self.interpreter.device() else {
            return Ok(());
        };
        let Some(event) = device.journal().last() else {
            return Ok(());
        };
        let event = event.clone()?;
        let before = mem::replace(&mut self.ledger, Ledger::new(alloc));
        self.ledger = before.note(Step { event, answer })?;
        Ok(())
    }

    /// Returns whether the line that is held is the last to use.
    fn is_at_last(&self) -> bool {
        self.until == Some(self.lines.number())
    }

    /// Keeps the answer of the last line, and records it if it is a step.
    fn keep(&mut self, alloc: Global, answer: Result<Answer, Apart>) -> Result<(), AllocError>
        ensures { self.new.lines ≡ self.old.lines }
    {
        if self.is_at_last() {
            let apart = match &answer {
                Ok(_) => None,
                Err(apart) => Some(*apart),
            };
            self.last = Some(Line {
                number: self.lines.number(),
                answer: text_of(alloc, &answer)?,
                apart,
            });
        }
        match answer {
            Ok(answer) => self.note(alloc, answer),
            Err(_) => Ok(()),
        }
    }

    /// Uses the line that is held. It returns the end of the script, or `None` if the script continues.
    fn use_held(&mut self, alloc: Global) -> Option<Stop>
        ensures { self.new.lines ≡ self.old.lines }
    {
        let line = script_of(self.lines.line());
        let mut outcome = Ok(Answer::Done);
        match self.interpreter.interpret(alloc, line, &mut outcome) {
            LineResult::Unanswered => None,
            LineResult::Answered => match self.keep(alloc, outcome) {
                Ok(()) => None,
                Err(_) => Some(Stop::of(ScriptEnd::NoMemory)),
            },
            LineResult::Malformed(cause) => Some(Stop::malformed(self.lines.number(), cause)),
            LineResult::NoMemory => Some(Stop::of(ScriptEnd::NoMemory)),
        }
    }

    /// Reads a line and uses it. It returns the end of the script, or `None` if the script continues.
    fn use_next<S: Source>(
        &mut self,
        alloc: Global,
        source: &mut S,
        turns: &mut u64,
    ) -> Option<Stop>
        requires number { self.old.lines.number + 1 < 2 ^ 64 }
        requires countable { (S.trace source.old).counts.calls + turns.old < 2 ^ 48 }
        ensures calls { (S.trace source.new).counts.calls + turns.new ≡ (S.trace source.old).counts.calls + turns.old }
        ensures fewer { IfNone result ((self.new.lines.number ≡ self.old.lines.number + 1) × (fuel_of self.new.lines turns.new < fuel_of self.old.lines turns.old)) }
    {
        if let Some(stop) = self.lines.read_next(source, turns) {
            return Some(stop);
        }
        self.use_held(alloc)
    }

    /// Returns the recording.
    fn finish(self) -> Recording {
        let Recorder {
            interpreter,
            ledger,
            lines,
            last,
            ..
        } = self;
        Recording {
            ledger,
            labels: *interpreter.labels(),
            limits: interpreter.limits(),
            lines: lines.number(),
            last,
        }
    }
}

/// Runs a script on a new device with this topology and these default limits, and records its steps. It ends at the
/// line of a number, or at the end of the script. Expected answers are ignored.
pub(crate) fn record<S: Source>(
    alloc: Global,
    setup: Setup,
    source: &mut S,
    turns: u64,
    until: Option<u64>,
) -> Result<Recording, Stop>
    requires { (S.trace source.old).counts.calls + turns < 2 ^ 48 }
{
    let mut recorder = Recorder::new(alloc, setup, until);
    let mut left = turns;
    'lines: loop {
        match recorder.use_next(alloc, source, &mut left) {
            None if recorder.is_at_last() => break,
            None => {}
            Some(stop) => match stop.end() {
                ScriptEnd::Done => break,
                _ => return Err(stop),
            },
        }
    }
    Ok(recorder.finish())
}
