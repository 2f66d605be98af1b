//! The results of the checks of several files.

ghost use Rattle.std.specs.Prelude.{◌≡◌, ◌<◌, ◌+◌, ◌^◌};
ghost use Rattle.drm_frames.specs.Texts.{WritesOut};
ghost use Rattle.drm_checks.specs.Totals.{malformed_text, silent_text, totals_text};

use crate::check::Report;
use drm_frames::{Sink, Written, put_each};
use drm_runs::ScriptEnd;

/// The expectations and the files of several checks (own).
///
/// A file without an expectation counts as one failure.
///
/// # Examples
///
/// ```rust
/// use drm_checks::{Report, Totals};
/// use drm_runs::ScriptEnd;
///
/// let report = Report { end: ScriptEnd::Done, passed: 2, failed: 1 };
/// let totals = Totals::new().add(&report);
/// assert!(rt; totals.passed == 2 && totals.failed == 1);
/// ```
#[derive(Clone, Copy, Debug, PartialEq)]
pub struct Totals {
    /// The number of expectations that were met.
    pub passed: u64,
    /// The number of expectations that were not met, and of files that have none.
    pub failed: u64,
    /// The number of files that were malformed.
    pub malformed: u64,
}

impl Totals {
    ghost use Rattle.std.specs.Prelude.{◌≡◌};
    ghost use Rattle.drm_checks.specs.Totals.{added, no_files};

    /// Returns the totals of no files. Does not allocate.
    pub fn new() -> Totals
        ensures { result ≡ no_files }
    {
        Totals {
            passed: 0,
            failed: 0,
            malformed: 0,
        }
    }

    /// Returns the totals with one more file. No count exceeds 2^64 - 1. Does not allocate.
    pub fn add(self, report: &Report) -> Totals
        ensures { result ≡ added self report.now }
    {
        let malformed = match report.end {
            ScriptEnd::Malformed(_) => 1,
            _ => 0,
        };
        Totals {
            passed: self.passed.saturating_add(report.passed),
            failed: self.failed.saturating_add(report.failures()),
            malformed: self.malformed.saturating_add(malformed),
        }
    }
}

/// Writes `N passed, M failed`. Each expectation, and each file without an expectation, counts once. Does not allocate.
///
/// It makes at most `turns` calls of the sink and subtracts them.
pub fn write_totals<K: Sink>(totals: &Totals, sink: &mut K, turns: &mut u64) -> Written
    requires { (K.trace sink.old).counts.calls + turns.old < 2 ^ 48 }
    ensures { WritesOut result (K.trace sink.old) (K.trace sink.new) (totals_text totals.now) turns.old turns.new }
{
    let mut passed = itoa::Buffer::new();
    let mut failed = itoa::Buffer::new();
    let passed = passed.format(totals.passed).as_bytes();
    let failed = failed.format(totals.failed).as_bytes();
    put_each(sink, &[passed, b" passed, ", failed, b" failed\n"], turns)
}

/// Writes `NAME: no expected answers`. Does not allocate.
///
/// It makes at most `turns` calls of the sink and subtracts them.
pub fn write_silent<K: Sink>(name: &str, sink: &mut K, turns: &mut u64) -> Written
    requires { (K.trace sink.old).counts.calls + turns.old < 2 ^ 48 }
    ensures { WritesOut result (K.trace sink.old) (K.trace sink.new) (silent_text name.now) turns.old turns.new }
{
    put_each(sink, &[name.as_bytes(), b": no expected answers\n"], turns)
}

/// Writes `NAME:N: malformed` for line `number`, from 1. Does not allocate.
///
/// It makes at most `turns` calls of the sink and subtracts them.
pub fn write_malformed<K: Sink>(name: &str, number: u64, sink: &mut K, turns: &mut u64) -> Written
    requires { (K.trace sink.old).counts.calls + turns.old < 2 ^ 48 }
    ensures { WritesOut result (K.trace sink.old) (K.trace sink.new) (malformed_text name.now number) turns.old turns.new }
{
    let mut buffer = itoa::Buffer::new();
    let digits = buffer.format(number).as_bytes();
    put_each(
        sink,
        &[name.as_bytes(), b":", digits, b": malformed\n"],
        turns,
    )
}
