//! The run of a script.

ghost use Rattle.std.specs.Prelude.{◌≡◌, ◌<◌, ◌+◌, ◌^◌, is_some};
ghost use Rattle.drm_runs.specs.Runs.{Runs, RunsOn, is_malformed};

use crate::devices::Setup;
use crate::interpreter::Interpreter;
use crate::script_lines::ScriptLines;
use crate::stops::{ScriptEnd, Stop};
use crate::writing::{AnswerBuffer, use_line};
use drm_frames::{Sink, Source};
use drm_script::Malformed;
use std::alloc::Global;

/// A run that has not ended.
#[derive(Drop)]
struct Run {
    lines: ScriptLines,
    interpreter: Interpreter,
    /// The number of calls of the source and the sink that are left.
    turns: u64,
}

impl Run {
    ghost use Rattle.std.specs.Prelude.{◌≡◌};
    ghost use Rattle.drm_runs.specs.RunSteps.{Advances, IsCountable, at_first};

    fn new(setup: Setup, turns: u64) -> Run
        ensures { result ≡ at_first setup turns }
    {
        Run {
            lines: ScriptLines::new(),
            interpreter: Interpreter::new(setup),
            turns,
        }
    }

    /// Reads a line and uses it. Its answer is built on the buffer. It returns the end of the run, or `None` if the run
    /// continues.
    fn use_next<S: Source, K: Sink>(
        &mut self,
        alloc: Global,
        source: &mut S,
        buffer: &mut AnswerBuffer,
        sink: &mut K,
    ) -> Option<Stop>
        requires countable { IsCountable self.old (S.trace source.old) (K.trace sink.old) }
        ensures { Advances self.old self.new (S.trace source.old) (S.trace source.new) (K.trace sink.old) (K.trace sink.new) result }
    {
        if let Some(stop) = self.lines.read_next(source, &mut self.turns) {
            return Some(stop);
        }
        use_line(
            &mut self.interpreter,
            alloc,
            &self.lines,
            buffer,
            sink,
            &mut self.turns,
        )
    }
}

/// Runs a script from the source, and writes each answer as a line to the sink (own).
///
/// It makes at most `turns` calls of the source and the sink. The device has the test topology. Its limits are those of
/// the script's first line, or the program's. It is created at the first well-formed line that is not skipped. A step
/// for which memory is refused is answered by a fault. Clients that are open at the end are not closed: the device is
/// dropped.
///
/// # Examples
///
/// ```rust
/// use drm_runs::{ScriptEnd, run_script};
/// use drm_frames::{FromRead, ToWrite};
///
/// let alloc = rt.alloc();
/// let mut source = FromRead::new(b"open a card\n".as_slice());
/// let mut sink = ToWrite::new(Vec::new(alloc));
/// let end = run_script(alloc, &mut source, &mut sink, 1000);
/// assert!(rt; end == ScriptEnd::Done);
/// assert!(rt; sink.into_inner().as_slice() == b"client 1\n".as_slice());
/// ```
pub fn run_script<S: Source, K: Sink>(
    alloc: Global,
    source: &mut S,
    sink: &mut K,
    turns: u64,
) -> ScriptEnd
    requires source_calls { (S.trace source.old).counts.calls + turns < 2 ^ 48 }
    requires sink_calls { (K.trace sink.old).counts.calls + turns < 2 ^ 48 }
    ensures { Runs (S.trace source.old) (S.trace source.new) (K.trace sink.old) (K.trace sink.new) turns result }
{
    run_on(alloc, Setup::usual(), source, sink, turns).end
}

/// The result of a run (own).
///
/// # Examples
///
/// ```rust
/// use drm_runs::{ScriptEnd, Setup, run_on};
/// use drm_frames::{FromRead, ToWrite};
///
/// let alloc = rt.alloc();
/// let mut source = FromRead::new(b"open a card\n".as_slice());
/// let mut sink = ToWrite::new(Vec::new(alloc));
/// let ran = run_on(alloc, Setup::usual(), &mut source, &mut sink, 1000);
/// assert!(rt; ran.end == ScriptEnd::Done && ran.cause.is_none());
/// ```
#[derive(Drop)]
pub struct Ran {
    /// The end of the run.
    pub end: ScriptEnd,
    /// If a line can't be used, the cause and the place in the line.
    pub cause: Option<Malformed>,
    /// The device at the end, and the clients that the labels name.
    pub interpreter: Interpreter,
}

/// Runs a script as `run_script` does, on a device that begins with this topology and these default limits. It also
/// returns the device, and the cause if a line can't be used.
pub fn run_on<S: Source, K: Sink>(
    alloc: Global,
    setup: Setup,
    source: &mut S,
    sink: &mut K,
    turns: u64,
) -> Ran
    requires source_calls { (S.trace source.old).counts.calls + turns < 2 ^ 48 }
    requires sink_calls { (K.trace sink.old).counts.calls + turns < 2 ^ 48 }
    ensures runs { RunsOn setup (S.trace source.old) (S.trace source.new) (K.trace sink.old) (K.trace sink.new) turns result.end result.interpreter.device result.interpreter.labels }
    ensures told { is_some result.cause ≡ is_malformed result.end }
{
    let mut run = Run::new(setup, turns);
    let mut buffer = AnswerBuffer::new();
    'lines: loop {
        if let Some(stop) = run.use_next(alloc, source, &mut buffer, sink) {
            return Ran {
                end: stop.end(),
                cause: stop.cause(),
                interpreter: run.interpreter,
            };
        }
    }
}
