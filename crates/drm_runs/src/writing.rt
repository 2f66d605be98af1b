//! The use of a line of a script: the device makes a step, and the line of its answer is written.

ghost use Rattle.std.specs.Prelude.{◌≡◌, ◌<◌, ◌+◌, ◌^◌};
ghost use Rattle.drm_frames.specs.Turns.{Writes};
ghost use Rattle.drm_script.specs.Lines.{answer_line};
ghost use Rattle.drm_runs.specs.Writing.{UsesLine};

use crate::interpreter::{Interpreter, LineResult};
use crate::script_lines::ScriptLines;
use crate::stops::{ScriptEnd, Stop};
use drm_frames::{Sink, Written, put_all};
use drm_script::LineText;
use drm_table::{Answer, Apart};
use std::alloc::Global;

/// The place where the answers of a run and their lines are built, one after the other.
#[derive(Drop)]
pub(crate) struct AnswerBuffer {
    outcome: Result<Answer, Apart>,
    text: LineText,
}

impl AnswerBuffer {
    pub(crate) fn new() -> AnswerBuffer {
        AnswerBuffer {
            outcome: Ok(Answer::Done),
            text: LineText::new(),
        }
    }
}

/// Writes the line of the answer on the buffer.
fn write_line<K: Sink>(buffer: &mut AnswerBuffer, sink: &mut K, turns: &mut u64) -> Written
    requires { (K.trace sink.old).counts.calls + turns.old < 2 ^ 48 }
    ensures { Writes result (K.trace sink.old) (K.trace sink.new) (answer_line buffer.old.outcome) turns.old turns.new }
{
    buffer.text.write(&buffer.outcome);
    put_all(sink, buffer.text.as_bytes(), turns)
}

/// Uses the line that is held, and writes its answer, which is built on the buffer. It returns the end of the run, or
/// `None` if the run continues.
pub(crate) fn use_line<K: Sink>(
    interpreter: &mut Interpreter,
    alloc: Global,
    lines: &ScriptLines,
    buffer: &mut AnswerBuffer,
    sink: &mut K,
    turns: &mut u64,
) -> Option<Stop>
    requires { (K.trace sink.old).counts.calls + turns.old < 2 ^ 48 }
    ensures { UsesLine interpreter.old interpreter.new lines.now (K.trace sink.old) (K.trace sink.new) turns.old turns.new result }
{
    match interpreter.interpret(alloc, lines.line(), &mut buffer.outcome) {
        LineResult::Unanswered => None,
        LineResult::Answered => Stop::of_writing(write_line(buffer, sink, turns)),
        LineResult::Malformed(cause) => Some(Stop::malformed(lines.number(), cause)),
        LineResult::NoMemory => Some(Stop::of(ScriptEnd::NoMemory)),
    }
}
