//! The command `drm_server run`.

ghost use Rattle.std.specs.Prelude.{◌≡◌};
ghost use Rattle.drm_frames.specs.Streams.{no_calls};

use crate::asked::Running;
use crate::checking::{INPUT, open};
use crate::devices::{asked_setup, read_asked};
use crate::faults::Fault;
use crate::journal::{FilesRead, create_asked, write_noted};
use drm_frames::{FromRead, Source, ToWrite};
use drm_runs::{ScriptEnd, run_on};
use drm_traffic::PROGRAM;
use log::{Log, error};
use std::alloc::Global;
use std::io;
use std::rt::Files;

/// The most reads and writes of a run.
const MOST_TURNS: u64 = 1_000_000;

/// Runs the script of a source on the described device, after the file of its journal was created, and writes the journal. If a line
/// can't be used, the cause is logged, and the steps before it are written.
fn run_source<R: Print + Files + AllocGlobal + Log, S: Source>(
    rt: &R,
    alloc: Global,
    running: Running<'_>,
    source: &mut S,
) -> Result<ScriptEnd, Fault>
    requires { (S.trace source.old).counts ≡ no_calls }
{
    let topology = read_asked(rt, running.device)?;
    let topology = topology.as_ref();
    let setup = asked_setup(rt, running.device.limits, topology)?;
    let read = FilesRead {
        topology: running.device.topology,
        script: running.path,
    };
    let journal = create_asked(rt, running.journal, read)?;
    let mut sink = ToWrite::new(io::writer(rt));
    let ran = run_on(alloc, setup, source, &mut sink, MOST_TURNS);
    if let (ScriptEnd::Malformed(number), Some(cause)) = (ran.end, ran.cause) {
        error!(rt; target: PROGRAM, "line {number}: {cause}");
    }
    let events = match ran.interpreter.device() {
        Some(device) => device.journal(),
        None => &[],
    };
    let limits = ran.interpreter.limits();
    write_noted(rt, alloc, journal, topology, limits, events)?;
    Ok(ran.end)
}

/// Runs the script of a file or of standard input, prints its answers, and returns how it ended (own). If a line can't be used, the
/// cause is logged. Allocates the device.
///
/// # Errors
///
/// A fault before the script, or of its journal. `Fault::CommandLine`, `Fault::Read` and `Fault::Write` are logged.
///
/// # Examples
///
/// ```rust
/// use drm_commands::{AskedDevice, Running, run};
///
/// let alloc = rt.alloc();
/// let device = AskedDevice { topology: None, limits: None };
/// let running = Running { path: Some("/dev/null"), device, journal: None };
/// assert!(rt; run(&rt, alloc, running).is_ok());
/// ```
pub fn run<R: Input + Print + Files + AllocGlobal + Log>(
    rt: &R,
    alloc: Global,
    running: Running<'_>,
) -> Result<ScriptEnd, Fault> {
    match running.path {
        None | Some(INPUT) => run_source(rt, alloc, running, &mut FromRead::new(rt.reader())),
        Some(path) => run_source(rt, alloc, running, &mut open(rt, path)?),
    }
}
