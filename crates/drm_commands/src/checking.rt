//! The command `drm_server check`.

ghost use Rattle.std.specs.Prelude.{◌≡◌, false, IfOk};
ghost use Rattle.drm_frames.specs.Streams.{no_calls};
ghost use Rattle.drm_runs.specs.Runs.{is_malformed};
ghost use Rattle.drm_commands.specs.Outcomes.{unless_fault};
ghost use Rattle.drm_commands.specs.Outcomes as outcomes;

use crate::asked::{AskedDevice, Checking};
use crate::commands::explain_command;
use crate::devices::{TopologyText, asked_setup, read_asked};
use crate::faults::Fault;
use crate::files::LoggedRead;
use crate::outcomes::script_fault;
use crate::visible::Visible;
use drm_checks::{Report, Totals, check_on, write_malformed, write_silent, write_totals};
use drm_frames::{FromRead, ToWrite, Written};
use drm_runs::ScriptEnd;
use drm_script::Malformed;
use drm_traffic::PROGRAM;
use log::{Log, error};
use std::alloc::Global;
use std::rt::Files;
use std::{fs, io};

/// The most reads and writes of the check of a file.
const MOST_TURNS: u64 = 1_000_000;

/// Returns the fault of writing a text, or nothing if it was written whole.
pub(crate) fn fault_of(written: Written) -> Result<(), Fault>
    ensures { result ≡ outcomes.fault_of_writing written }
{
    match written {
        Written::Whole => Ok(()),
        Written::Fault => Err(Fault::Write),
        Written::TurnsUsed => Err(Fault::Turns),
    }
}

/// The path that means standard input.
pub(crate) const INPUT: &str = "-";

/// The bytes of a file or of standard input. If they can't be read, the cause is logged.
pub(crate) type FileBytes<'a, R, F> = FromRead<LoggedRead<'a, R, F>>;

/// Opens a file. If it can't be opened, the cause is logged.
pub(crate) fn open<'a, R: Files + Log>(
    rt: &'a R,
    path: &'a str,
) -> Result<FileBytes<'a, R, R::File>, Fault>
    ensures { IfOk result (λ source. source.counts ≡ no_calls) }
{
    match fs::open(rt, path) {
        Ok(file) => Ok(FromRead::new(LoggedRead::new(rt, path, file))),
        Err(reason) => {
            error!(rt; target: PROGRAM, "{path}: {reason}");
            Err(Fault::Read)
        }
    }
}

/// Checks a file. Prints each answer that differs from the expected one, and the command that explains it.
fn check_file<R: Input + Files + Print + AllocGlobal + Log>(
    rt: &R,
    alloc: Global,
    asked: AskedDevice<'_>,
    topology: Option<&TopologyText<'_>>,
    path: &str,
) -> Result<(Report, Option<Malformed>), Fault> {
    let setup = asked_setup(rt, asked.limits, topology)?;
    let mut sink = ToWrite::new(Visible::new(io::writer(rt)));
    if path == INPUT {
        let mut source = FromRead::new(LoggedRead::new(rt, path, rt.reader()));
        return Ok(check_on(alloc, setup, path, "", &mut source, &mut sink, MOST_TURNS));
    }
    let mut source = open(rt, path)?;
    let Ok(command) = explain_command(alloc, path, asked) else {
        return Err(Fault::Memory);
    };
    let command = command.as_str();
    Ok(check_on(
        alloc,
        setup,
        path,
        command,
        &mut source,
        &mut sink,
        MOST_TURNS,
    ))
}

/// Prints that a line can't be used, and logs the cause. Any other early end is returned as a fault.
pub(crate) fn tell_end<R: Print + Log>(
    rt: &R,
    path: &str,
    end: &ScriptEnd,
    cause: Option<Malformed>,
) -> Result<(), Fault>
    ensures faults { is_malformed end.now ≡ false → result ≡ unless_fault (outcomes.fault_of end.now) }
{
    match end {
        ScriptEnd::Malformed(number) => {
            if let Some(cause) = cause {
                error!(rt; target: PROGRAM, "{path}:{number}: {cause}");
            }
            let mut sink = ToWrite::new(io::writer(rt));
            let mut turns = MOST_TURNS;
            fault_of(write_malformed(path, *number, &mut sink, &mut turns))
        }
        other => match script_fault(other) {
            Some(fault) => Err(fault),
            None => Ok(()),
        },
    }
}

/// Checks each file on a new device, prints the differences and the totals, and returns the totals (own). Allocates the
/// devices.
///
/// # Errors
///
/// The fault at which it ends. `Fault::CommandLine` and `Fault::Read` are logged.
///
/// # Examples
///
/// ```rust
/// use drm_commands::{AskedDevice, Checking, check};
///
/// let alloc = rt.alloc();
/// let device = AskedDevice { topology: None, limits: None };
/// let checking = Checking { files: Vec::new(alloc), device };
/// assert!(rt; check(&rt, alloc, &checking).is_ok());
/// ```
pub fn check<R: Input + Files + Print + AllocGlobal + Log>(
    rt: &R,
    alloc: Global,
    checking: &Checking<'_>,
) -> Result<Totals, Fault> {
    let mut totals = Totals::new();
    let topology = read_asked(rt, checking.device)?;
    for path in checking.files.as_slice() {
        let (report, cause) = check_file(rt, alloc, checking.device, topology.as_ref(), path)?;
        tell_end(rt, path, &report.end, cause)?;
        if report.expects_nothing() {
            let mut sink = ToWrite::new(Visible::new(io::writer(rt)));
            let mut turns = MOST_TURNS;
            fault_of(write_silent(path, &mut sink, &mut turns))?;
        }
        totals = totals.add(&report);
    }
    let mut sink = ToWrite::new(io::writer(rt));
    let mut turns = MOST_TURNS;
    fault_of(write_totals(&totals, &mut sink, &mut turns))?;
    Ok(totals)
}
