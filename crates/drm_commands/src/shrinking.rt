//! The command `drm_server shrink`.

use crate::asked::Shrinking;
use crate::checking::{INPUT, fault_of};
use crate::devices::{asked_setup, read_asked};
use crate::faults::Fault;
use crate::files::{read_whole, read_whole_from};
use crate::visible::Visible;
use drm_checks::{ShrinkFault, Shrunk, shrink_script};
use drm_frames::{ToWrite, put_all};
use drm_traffic::PROGRAM;
use log::{Log, error, info, warn};
use std::alloc::Global;
use std::io;
use std::rt::Files;

/// The most lines that are run to find a shorter script.
const MOST_LINES: u64 = 8_000_000;

/// The most writes.
const MOST_TURNS: u64 = 1_000_000;

/// Logs the reason a script is not made shorter.
fn shrink_fault<R: Log>(rt: &R, shrinking: Shrinking<'_>, fault: ShrinkFault) -> Fault {
    let Shrinking { path, line, .. } = shrinking;
    match fault {
        ShrinkFault::NoLine(lines) => {
            error!(rt; target: PROGRAM, "{path}: there is no line {line}: the script has {lines} lines");
            Fault::CommandLine
        }
        ShrinkFault::NoAnswer => {
            error!(rt; target: PROGRAM, "{path}: line {line} makes no request");
            Fault::CommandLine
        }
        ShrinkFault::Malformed(number, cause) => {
            error!(rt; target: PROGRAM, "{path}:{number}: {cause}");
            Fault::ScriptLine(number)
        }
        ShrinkFault::NoMemory => Fault::Memory,
    }
}

/// Logs the result of the search.
fn tell_search<R: Log>(rt: &R, shrinking: Shrinking<'_>, shrunk: &Shrunk) {
    let Shrinking { path, line, .. } = shrinking;
    let Shrunk {
        lines,
        replayed,
        ..
    } = shrunk;
    if shrunk.is_minimal {
        info!(rt; target: PROGRAM, "{path}: {lines} of {line} lines are left; {replayed} lines were run");
    } else {
        warn!(rt; target: PROGRAM, "{path}: {lines} of {line} lines are left, and some may not be needed: the search ended after {replayed} lines were run");
    }
}

/// Prints a shorter script in which a line is answered the same, and logs the result of the search (own). Allocates the
/// texts and a device for each trial.
///
/// # Errors
///
/// A fault of the text, the line or standard output. All but `Fault::Memory` and those of standard output are logged.
///
/// # Examples
///
/// ```rust
/// use drm_commands::{AskedDevice, Shrinking, shrink};
///
/// let alloc = rt.alloc();
/// let device = AskedDevice { topology: None, limits: None };
/// let shrinking = Shrinking { path: "/dev/null", device, line: 1 };
/// assert!(rt; shrink(&rt, alloc, shrinking).is_err());
/// ```
pub fn shrink<R: Input + Files + Print + AllocGlobal + Log>(
    rt: &R,
    alloc: Global,
    shrinking: Shrinking<'_>,
) -> Result<(), Fault> {
    let path = shrinking.path;
    let topology = read_asked(rt, shrinking.device)?;
    let setup = asked_setup(rt, shrinking.device.limits, topology.as_ref())?;
    let text = if path == INPUT {
        read_whole_from(rt, alloc, path, rt.reader())?
    } else {
        read_whole(rt, alloc, path)?
    };
    let shrunk = match shrink_script(alloc, &setup, text.as_slice(), shrinking.line, MOST_LINES) {
        Ok(shrunk) => shrunk,
        Err(fault) => return Err(shrink_fault(rt, shrinking, fault)),
    };
    let mut sink = ToWrite::new(Visible::new(io::writer(rt)));
    let mut turns = MOST_TURNS;
    fault_of(put_all(&mut sink, shrunk.text.as_slice(), &mut turns))?;
    tell_search(rt, shrinking, &shrunk);
    Ok(())
}
