//! Checking a file.

ghost use Rattle.std.specs.Prelude.{◌≡◌, ◌<◌, ◌+◌, ◌^◌, is_some};
ghost use Rattle.drm_runs.specs.Runs.{is_malformed};
ghost use Rattle.drm_checks.specs.Checks.{ChecksOn};
ghost use Rattle.drm_checks.specs.Differences.{file_of};

use crate::checker::Checker;
use drm_frames::{Sink, Source};
use drm_runs::{ScriptEnd, ScriptLines, Setup, Stop};
use drm_script::Malformed;
use std::alloc::Global;

/// The result of the check of a file (own).
///
/// # Examples
///
/// ```rust
/// use drm_checks::Report;
/// use drm_runs::ScriptEnd;
///
/// let report = Report { end: ScriptEnd::Done, passed: 0, failed: 0 };
/// assert!(rt; report.expects_nothing() && report.failures() == 1);
/// ```
#[derive(Clone, Copy, Debug, PartialEq)]
pub struct Report {
    /// The end of the run of its script.
    pub end: ScriptEnd,
    /// The number of expectations that were met.
    pub passed: u64,
    /// The number of expectations that were not met.
    pub failed: u64,
}

impl Report {
    ghost use Rattle.std.specs.Prelude.{◌≡◌};
    ghost use Rattle.drm_checks.specs.Totals as totals;

    /// Returns whether the whole file was checked and none of its lines expects an answer. Does not allocate.
    pub fn expects_nothing(&self) -> bool
        ensures { result ≡ totals.expects_nothing self.now }
    {
        match self.end {
            ScriptEnd::Done => self.passed == 0 && self.failed == 0,
            _ => false,
        }
    }

    /// Returns the number of failures: of expectations that were not met, or 1 for a file without an expectation. Does
    /// not allocate.
    pub fn failures(&self) -> u64
        ensures { result ≡ totals.failures_of self.now }
    {
        if self.expects_nothing() {
            1
        } else {
            self.failed
        }
    }
}

/// A check that has not ended.
#[derive(Drop)]
struct Check {
    lines: ScriptLines,
    checker: Checker,
}

impl Check {
    ghost use Rattle.std.specs.Prelude.{◌≡◌};
    ghost use Rattle.drm_checks.specs.Differences.{file_of};
    ghost use Rattle.drm_checks.specs.Steps.{Advances, IsCountable, first_check};

    fn new(setup: Setup, turns: u64) -> Check
        ensures { result ≡ first_check setup turns }
    {
        Check {
            lines: ScriptLines::new(),
            checker: Checker::new(setup, turns),
        }
    }

    /// Reads a line and checks it. It returns the end of the check, or `None` if the check continues.
    fn check_next<S: Source, K: Sink>(
        &mut self,
        alloc: Global,
        name: &[u8],
        command: &[u8],
        source: &mut S,
        sink: &mut K,
    ) -> Option<Stop>
        requires countable { IsCountable self.old (S.trace source.old) (K.trace sink.old) }
        ensures { Advances self.old self.new (file_of name.now command.now) (S.trace source.old) (S.trace source.new) (K.trace sink.old) (K.trace sink.new) result }
    {
        if let Some(stop) = self.lines.read_next(source, &mut self.checker.turns) {
            return Some(stop);
        }
        self.checker
            .check_line(alloc, name, command, &self.lines, sink)
    }
}

/// Checks a file: runs its script on a new device, which begins with this topology and these default limits, and compares
/// each answer with the one that its line expects (own).
///
/// It writes a line to the sink for each answer that differs: `NAME:N: expected EXPECTED, came ANSWER`. After it is a line
/// with four spaces, the command and the line's number, unless the command is empty. It makes at most `turns` calls of the
/// source and the sink.
///
/// The text of a line before its first ` -> ` is a line of a script. The text after it is the expected line of the
/// answer. `denied N` and `apart N` are short for the whole line. A line without ` -> ` and a comment expect nothing.
///
/// If a line can't be used, the function also returns the cause: why the text before the first ` -> ` is no line of a
/// script, and at which place, or that the whole line is too long. It allocates only the device.
///
/// # Examples
///
/// ```rust
/// use drm_checks::check_on;
/// use drm_runs::Setup;
/// use drm_frames::{FromRead, ToWrite};
///
/// let alloc = rt.alloc();
/// let mut source = FromRead::new(b"open a card -> client 1\n".as_slice());
/// let mut sink = ToWrite::new(Vec::new(alloc));
/// let setup = Setup::usual();
/// let (report, cause) = check_on(alloc, setup, "a.script", "", &mut source, &mut sink, 1000);
/// assert!(rt; report.passed == 1 && cause.is_none());
/// ```
pub fn check_on<S: Source, K: Sink>(
    alloc: Global,
    setup: Setup,
    name: &str,
    command: &str,
    source: &mut S,
    sink: &mut K,
    turns: u64,
) -> (Report, Option<Malformed>)
    requires source_calls { (S.trace source.old).counts.calls + turns < 2 ^ 48 }
    requires sink_calls { (K.trace sink.old).counts.calls + turns < 2 ^ 48 }
    ensures checks { ChecksOn setup (file_of name.now command.now) (S.trace source.old) (S.trace source.new) (K.trace sink.old) (K.trace sink.new) turns result.0 }
    ensures told { is_some result.1 ≡ is_malformed result.0.end }
{
    let name = name.as_bytes();
    let command = command.as_bytes();
    let mut check = Check::new(setup, turns);
    'lines: loop {
        if let Some(stop) = check.check_next(alloc, name, command, source, sink) {
            let report = Report {
                end: stop.end(),
                passed: check.checker.passed,
                failed: check.checker.failed,
            };
            return (report, stop.cause());
        }
    }
}
