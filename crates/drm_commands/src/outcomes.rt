//! The outcomes of the program.

ghost use Rattle.std.specs.Prelude.{◌≡◌, []};
ghost use Rattle.drm_commands.specs.Outcomes.{checks_status, fault_of, line_by, status_by};
ghost use Rattle.drm_commands.specs.Faults.{fault_status, fault_line};

use crate::faults::{Fault, FaultLine};
use drm_checks::Totals;
use drm_runs::ScriptEnd;

/// The outcome of the program (own).
///
/// # Examples
///
/// ```rust
/// use drm_commands::{FaultLine, Outcome};
///
/// let outcome = Outcome { status: 0, line: FaultLine::empty() };
/// assert!(rt; outcome.line.as_str().is_empty());
/// ```
#[derive(Drop)]
pub struct Outcome {
    /// The exit status.
    pub status: u8,
    /// The line of the fault on standard error. Empty if there is none.
    pub line: FaultLine,
}

pub(crate) fn script_fault(end: &ScriptEnd) -> Option<Fault>
    ensures { result ≡ fault_of end.now }
{
    match end {
        ScriptEnd::Done => None,
        ScriptEnd::Malformed(number) => Some(Fault::ScriptLine(*number)),
        ScriptEnd::ReadFault => Some(Fault::Read),
        ScriptEnd::WriteFault => Some(Fault::Write),
        ScriptEnd::TurnsUsed => Some(Fault::Turns),
        ScriptEnd::NoMemory => Some(Fault::Memory),
    }
}

/// Returns the outcome for this fault (own). Does not allocate.
///
/// # Examples
///
/// ```rust
/// use drm_commands::{Fault, outcome_of_fault};
///
/// let outcome = outcome_of_fault(Fault::Write);
/// assert!(rt; outcome.status == 1 && outcome.line.as_str() == "fault: write");
/// ```
pub fn outcome_of_fault(fault: Fault) -> Outcome
    ensures status { result.status ≡ fault_status fault }
    ensures line { result.line ≡ fault_line fault }
{
    Outcome {
        status: fault.status(),
        line: fault.line(),
    }
}

/// Returns the outcome for this fault, or status 0 and no line if there is none (own). Does not allocate.
pub fn outcome_by(fault: Option<Fault>) -> Outcome
    ensures status { result.status ≡ status_by fault }
    ensures line { result.line ≡ line_by fault }
{
    match fault {
        Some(fault) => outcome_of_fault(fault),
        None => Outcome {
            status: 0,
            line: FaultLine::empty(),
        },
    }
}

/// Returns the outcome of `drm_server run` by the end of its script: status 0 and no line if it is done (own). Does not
/// allocate.
///
/// # Examples
///
/// ```rust
/// use drm_commands::outcome_of;
/// use drm_runs::ScriptEnd;
///
/// let outcome = outcome_of(&ScriptEnd::Malformed(2));
/// assert!(rt; outcome.status == 2);
/// ```
pub fn outcome_of(end: &ScriptEnd) -> Outcome
    ensures status { result.status ≡ status_by (fault_of end.now) }
    ensures line { result.line ≡ line_by (fault_of end.now) }
{
    outcome_by(script_fault(end))
}

/// Returns the outcome of `drm_server check` by the results of its files (own). Does not allocate.
///
/// The status is 2 if a file is malformed, else 4 if an expectation is not met or a file has none, else 0.
///
/// # Examples
///
/// ```rust
/// use drm_checks::Totals;
/// use drm_commands::outcome_of_checks;
///
/// let outcome = outcome_of_checks(&Totals::new());
/// assert!(rt; outcome.status == 0);
/// ```
pub fn outcome_of_checks(totals: &Totals) -> Outcome
    ensures status { result.status ≡ checks_status totals.now }
    ensures line { result.line ≡ [] }
{
    let status = if totals.malformed > 0 {
        2
    } else if totals.failed > 0 {
        4
    } else {
        0
    };
    Outcome {
        status,
        line: FaultLine::empty(),
    }
}
