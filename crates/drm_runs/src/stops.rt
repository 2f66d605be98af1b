//! The ends of a script.

use drm_frames::Written;
use drm_script::Malformed;
use std::marker::Model;

/// The end of the run of a script (own).
#[derive(Clone, Copy, Debug, PartialEq)]
pub enum ScriptEnd {
    /// The input ended, and every line was used.
    Done,
    /// The line with this number, from 1, can't be used. Those before it were used, and their answers are written.
    Malformed(u64),
    /// The source failed. Every whole line that it returned was used, and the answers are written.
    ReadFault,
    /// The sink failed. A front of the answers is written.
    WriteFault,
    /// A call of the source or the sink was needed, and no turn was left for it. A front of the answers is written.
    TurnsUsed,
    /// Memory for the device was refused. Nothing is written.
    NoMemory,
}

/// The end of a script, and the cause if a line can't be used (own). Contracts see the end.
///
/// # Examples
///
/// ```rust
/// use drm_runs::{ScriptEnd, Stop};
///
/// let stop = Stop::of(ScriptEnd::ReadFault);
/// assert!(rt; stop.end() == ScriptEnd::ReadFault);
/// ```
#[derive(Drop)]
pub struct Stop {
    end: ScriptEnd,
    cause: Option<Malformed>,
}

impl Model for Stop {
    ghost use Rattle.std.specs.Prelude.{◌≡◌, is_some};
    ghost use Rattle.drm_runs.specs.Runs.{is_malformed};
    ghost use Rattle.drm_runs.specs.declared.stops.ScriptEnd.{ScriptEnd};

    ghost Value = { ScriptEnd };

    ghost view = { λ stop. stop.end };

    ghost invariant = { λ stop. is_some stop.cause ≡ is_malformed stop.end };
}

impl Stop {
    ghost use Rattle.std.specs.Prelude.{◌≡◌, false, is_some};
    ghost use Rattle.drm_runs.specs.Runs.{is_malformed};
    ghost use Rattle.drm_runs.specs.Writing.{end_of_writing};

    /// Returns an end at which no line is malformed. Does not allocate.
    pub fn of(end: ScriptEnd) -> Stop
        requires { is_malformed end ≡ false }
        ensures { result ≡ end }
    {
        Stop { end, cause: None }
    }

    /// Returns the end at the line with this number, from 1, for this cause. Does not allocate.
    pub fn malformed(number: u64, cause: Malformed) -> Stop
        ensures { result ≡ ScriptEnd.Malformed number }
    {
        Stop {
            end: ScriptEnd::Malformed(number),
            cause: Some(cause),
        }
    }

    /// Returns the end of a script after a text was written, or `None` if it was written whole. Does not allocate.
    pub fn of_writing(written: Written) -> Option<Stop>
        ensures { result ≡ end_of_writing written }
    {
        match written {
            Written::Whole => None,
            Written::Fault => Some(Stop::of(ScriptEnd::WriteFault)),
            Written::TurnsUsed => Some(Stop::of(ScriptEnd::TurnsUsed)),
        }
    }

    /// Returns the end. Does not allocate.
    pub fn end(&self) -> ScriptEnd
        ensures { result ≡ self.now }
    {
        self.end
    }

    /// Returns the cause and the place in the line, or `None` if no line is malformed. Does not allocate.
    pub fn cause(&self) -> Option<Malformed>
        ensures { is_some result ≡ is_malformed self.now }
    {
        self.cause
    }
}
