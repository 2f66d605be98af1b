//! The check of one line of a file after the other.

ghost use Rattle.std.specs.Prelude.{◌≡◌, ◌<◌, ◌+◌, ◌^◌};
ghost use Rattle.drm_frames.specs.Texts.{WritesOut};
ghost use Rattle.drm_checks.specs.Differences.{command_text, difference_text, end_of_expected, file_of, front_of, line_text, why_text};

use crate::expectations::{is_met, parts_of};
use drm_frames::{Sink, Written, put_each};
use drm_runs::{Interpreter, LineResult, ScriptEnd, ScriptLines, Setup, Stop};
use drm_script::line_of;
use drm_table::{Answer, Apart};
use std::alloc::Global;

/// Returns an expected text as it is shown: the text before its last byte, and that byte. A carriage return or a space
/// at the end is shown by an escape.
fn shown(expected: &[u8]) -> (&[u8], &[u8])
    ensures front { result.0.now ≡ front_of expected.now }
    ensures last { result.1.now ≡ end_of_expected expected.now }
{
    let (front, last) = expected.split_at(expected.len().saturating_sub(1));
    match last {
        [byte, ..] => {
            if *byte == b'\r' {
                (front, b"\\r")
            } else if *byte == b' ' {
                (front, b"\\x20")
            } else {
                (front, last)
            }
        }
        _ => (front, last),
    }
}

/// Writes the line of a difference: the file's name, the line's number, the expected text and the answer.
fn tell_line<K: Sink>(
    name: &[u8],
    number: u64,
    expected: &[u8],
    came: &Option<Result<Answer, Apart>>,
    sink: &mut K,
    turns: &mut u64,
) -> Written
    requires { (K.trace sink.old).counts.calls + turns.old < 2 ^ 48 }
    ensures { WritesOut result (K.trace sink.old) (K.trace sink.new) (line_text name.now number expected.now came.now) turns.old turns.new }
{
    let mut buffer = itoa::Buffer::new();
    let digits = buffer.format(number).as_bytes();
    let (front, last) = shown(expected);
    match came {
        Some(answer) => {
            let line = line_of(answer);
            let texts = [
                name,
                b":",
                digits,
                b": expected ",
                front,
                last,
                b", got ",
                line.as_bytes(),
            ];
            put_each(sink, &texts, turns)
        }
        None => {
            let texts = [
                name,
                b":",
                digits,
                b": expected ",
                front,
                last,
                b", got nothing\n",
            ];
            put_each(sink, &texts, turns)
        }
    }
}

/// Writes the command that explains a line, if there is one.
fn tell_command<K: Sink>(command: &[u8], number: u64, sink: &mut K, turns: &mut u64) -> Written
    requires { (K.trace sink.old).counts.calls + turns.old < 2 ^ 48 }
    ensures { WritesOut result (K.trace sink.old) (K.trace sink.new) (command_text command.now number) turns.old turns.new }
{
    match command {
        [] => Written::Whole,
        [_, ..] => {
            let mut buffer = itoa::Buffer::new();
            let digits = buffer.format(number).as_bytes();
            put_each(sink, &[b"    ", command, digits, b"\n"], turns)
        }
    }
}

/// Writes the command that explains the answer, if there is an answer.
fn tell_why<K: Sink>(
    command: &[u8],
    number: u64,
    came: &Option<Result<Answer, Apart>>,
    sink: &mut K,
    turns: &mut u64,
) -> Written
    requires { (K.trace sink.old).counts.calls + turns.old < 2 ^ 48 }
    ensures { WritesOut result (K.trace sink.old) (K.trace sink.new) (why_text command.now number came.now) turns.old turns.new }
{
    match came {
        Some(_) => tell_command(command, number, sink, turns),
        None => Written::Whole,
    }
}

/// Writes a difference, and a line with the command that explains it.
fn tell<K: Sink>(
    name: &[u8],
    command: &[u8],
    number: u64,
    expected: &[u8],
    came: &Option<Result<Answer, Apart>>,
    sink: &mut K,
    turns: &mut u64,
) -> Written
    requires { (K.trace sink.old).counts.calls + turns.old < 2 ^ 48 }
    ensures { WritesOut result (K.trace sink.old) (K.trace sink.new) (difference_text (file_of name.now command.now) number expected.now came.now) turns.old turns.new }
{
    match tell_line(name, number, expected, came, sink, turns) {
        Written::Whole => tell_why(command, number, came, sink, turns),
        stopped => stopped,
    }
}

/// The counts of the lines that were checked.
#[derive(Drop)]
pub(crate) struct Checker {
    interpreter: Interpreter,
    /// The number of expectations that were met.
    pub(crate) passed: u64,
    /// The number of expectations that were not met.
    pub(crate) failed: u64,
    /// The number of calls of the source and the sink that are left.
    pub(crate) turns: u64,
}

impl Checker {
    ghost use Rattle.std.specs.Prelude.{◌≡◌, ◌<◌, ◌+◌, ◌^◌};
    ghost use Rattle.std.specs.Option.{option_map};
    ghost use Rattle.drm_checks.specs.Checker.{ChecksLine, Notes, first_checker};
    ghost use Rattle.drm_checks.specs.Differences.{file_of};

    pub(crate) fn new(setup: Setup, turns: u64) -> Checker
        ensures { result ≡ first_checker setup turns }
    {
        Checker {
            interpreter: Interpreter::new(setup),
            passed: 0,
            failed: 0,
            turns,
        }
    }

    /// Counts whether the expectation was met, and writes the difference if it was not. It returns the end of the
    /// check, or `None` if the check continues.
    fn note<K: Sink>(
        &mut self,
        name: &[u8],
        command: &[u8],
        number: u64,
        expected: Option<&[u8]>,
        came: &Option<Result<Answer, Apart>>,
        sink: &mut K,
    ) -> Option<Stop>
        requires passed { self.old.passed + 1 < 2 ^ 64 }
        requires failed { self.old.failed + 1 < 2 ^ 64 }
        requires sink_calls { (K.trace sink.old).counts.calls + self.old.turns < 2 ^ 48 }
        ensures { Notes self.old self.new (file_of name.now command.now) number (option_map (λ e. e.now) expected.entry) came.now (K.trace sink.old) (K.trace sink.new) result }
    {
        let Some(expected) = expected else {
            return None;
        };
        if is_met(expected, came) {
            self.passed += 1;
            return None;
        }
        self.failed += 1;
        Stop::of_writing(tell(name, command, number, expected, came, sink, &mut self.turns))
    }

    /// Uses the line that is held, and compares its answer with the expected one. It returns the end of the check, or
    /// `None` if the check continues.
    pub(crate) fn check_line<K: Sink>(
        &mut self,
        alloc: Global,
        name: &[u8],
        command: &[u8],
        lines: &ScriptLines,
        sink: &mut K,
    ) -> Option<Stop>
        requires passed { self.old.passed + 1 < 2 ^ 64 }
        requires failed { self.old.failed + 1 < 2 ^ 64 }
        requires sink_calls { (K.trace sink.old).counts.calls + self.old.turns < 2 ^ 48 }
        ensures { ChecksLine self.old self.new (file_of name.now command.now) lines.now (K.trace sink.old) (K.trace sink.new) result }
    {
        let number = lines.number();
        let (script, expected) = parts_of(lines.line());
        let mut outcome = Ok(Answer::Done);
        match self.interpreter.interpret(alloc, script, &mut outcome) {
            LineResult::Unanswered => self.note(name, command, number, expected, &None, sink),
            LineResult::Answered => self.note(
                name,
                command,
                number,
                expected,
                &Some(outcome),
                sink,
            ),
            LineResult::Malformed(cause) => Some(Stop::malformed(number, cause)),
            LineResult::NoMemory => Some(Stop::of(ScriptEnd::NoMemory)),
        }
    }
}
