//! The files that are written while a device is served.

ghost use Rattle.std.specs.Prelude.{◌≡◌, true};
ghost use Rattle.drm_table.specs.Limits.{are_in_range};

use crate::command_line::Serving;
use crate::growing_journal::{GrowingJournal, Growth};
use crate::serving::Writers;
use crate::tracing::Trace;
use drm_commands::{
    Fault, FilesRead, JournalFile, TopologyText, asked_device, complete_journal, create_asked,
    create_trace,
};
use drm_connections::Outlet;
use drm_device::{Device, Limits};
use drm_traffic::{PROGRAM, Palette, Watch};
use log::{Log, error, warn};
use std::alloc::Global;
use std::env::FillError;
use std::os::fd::AsRawFd;
use std::rt::{Env, Files};

/// The variable that turns colour off, if it is not empty.
const NO_COLOR: &str = "NO_COLOR";

/// The word of a command line for standard error in place of a file.
const STANDARD: &str = "-";

/// Where a trace is written.
#[derive(Drop)]
pub(crate) enum TraceTarget<'a, F: Drop> {
    StandardError,
    File(JournalFile<'a, F>),
}

/// The files that are written while a device is served.
#[derive(Drop)]
pub(crate) struct ServedFiles<'a, F: Drop> {
    pub(crate) journal: Option<JournalFile<'a, F>>,
    pub(crate) trace: Option<TraceTarget<'a, F>>,
}

/// Creates the files of the journal and of the trace, if there are to be any.
pub(crate) fn create_files<'a, R: Files + Log>(
    rt: &R,
    serving: &Serving<'a>,
) -> Result<ServedFiles<'a, R::File>, Fault> {
    let read = FilesRead {
        topology: serving.device.topology,
        script: None,
    };
    let mut files = ServedFiles {
        journal: create_asked(rt, serving.journal, read)?,
        trace: None,
    };
    if let Some(path) = serving.trace {
        files.trace = Some(if path == STANDARD {
            TraceTarget::StandardError
        } else {
            TraceTarget::File(create_trace(rt, path, read.topology, serving.journal)?)
        });
    }
    Ok(files)
}

/// Returns the colours for a file: none but on a terminal, and only if the environment allows them.
fn palette_for<R: Env>(rt: &R, outlet: Outlet) -> Palette {
    if !outlet.is_terminal() {
        return Palette::Plain;
    }
    let mut first = [0];
    match rt.var(NO_COLOR, &mut first) {
        Ok(0) | Err(FillError::NotPresent) => Palette::Red,
        _ => Palette::Plain,
    }
}

/// Begins the journal of a device of this topology and these limits.
fn begin_journal<R: Files + Log>(
    rt: &R,
    alloc: Global,
    topology: Option<&TopologyText<'_>>,
    limits: Limits,
    file: &JournalFile<'_, R::File>,
) -> Result<GrowingJournal, Fault>
where
    R::File: AsRawFd,
    requires { are_in_range limits ≡ true }
{
    let descriptor = file.file().as_raw_fd();
    let device = asked_device(rt, alloc, topology, limits)?;
    GrowingJournal::begin(alloc, Outlet { descriptor }, limits, device)
}

/// Begins the trace of a device of this topology and these limits.
fn begin_trace<R: Files + Log + Env>(
    rt: &R,
    alloc: Global,
    topology: Option<&TopologyText<'_>>,
    limits: Limits,
    target: &TraceTarget<'_, R::File>,
) -> Result<Trace, Fault>
where
    R::File: AsRawFd,
    requires { are_in_range limits ≡ true }
{
    let outlet = match target {
        TraceTarget::StandardError => Outlet::STANDARD_ERROR,
        TraceTarget::File(file) => Outlet {
            descriptor: file.file().as_raw_fd(),
        },
    };
    let device = asked_device(rt, alloc, topology, limits)?;
    Trace::begin(alloc, outlet, palette_for(rt, outlet), device)
}

/// Returns what is written into these files while a device of this topology and these limits is served.
pub(crate) fn writers_of<R: Files + AllocGlobal + Log + Env>(
    rt: &R,
    alloc: Global,
    topology: Option<&TopologyText<'_>>,
    limits: Limits,
    files: &ServedFiles<'_, R::File>,
) -> Result<Writers, Fault>
where
    R::File: AsRawFd,
    requires { are_in_range limits ≡ true }
{
    let mut writers = Writers {
        watch: None,
        journal: None,
        trace: None,
    };
    if let Some(file) = &files.journal {
        writers.journal = Some(begin_journal(rt, alloc, topology, limits, file)?);
    }
    if let Some(target) = &files.trace {
        writers.trace = Some(begin_trace(rt, alloc, topology, limits, target)?);
    }
    if writers.journal.is_some() || writers.trace.is_some() {
        let Ok(watch) = Watch::new(alloc, limits.journal as usize) else {
            return Err(Fault::Memory);
        };
        writers.watch = Some(watch);
    }
    Ok(writers)
}

/// Writes what is missing in the journal of a device that was served, and compares its file with the journal.
pub(crate) fn finish_journal<R: Files + AllocGlobal + Log>(
    rt: &R,
    alloc: Global,
    journal: Option<JournalFile<'_, R::File>>,
    topology: Option<&TopologyText<'_>>,
    limits: Limits,
    device: &Device,
    growth: Option<Growth>,
) -> Result<(), Fault>
    requires { are_in_range limits ≡ true }
{
    let Some(journal) = journal else {
        return Ok(());
    };
    let written = match growth {
        None => 0,
        Some(Growth::Written(written)) => written,
        Some(Growth::Untaken) => {
            let path = journal.path();
            error!(rt; target: PROGRAM, "{path}: the last lines of the journal were not read");
            return Err(Fault::Write);
        }
    };
    complete_journal(
        rt,
        alloc,
        journal,
        topology,
        limits,
        device.journal(),
        written,
    )
}

/// Logs the number of calls that have no line in the trace, if standard error takes it.
pub(crate) fn warn_of_left_out<R: Log, F: Drop>(
    rt: &R,
    target: Option<&TraceTarget<'_, F>>,
    left_out: Option<u64>,
) {
    match (target, left_out) {
        (Some(target), Some(count)) if count > 0 && Outlet::STANDARD_ERROR.has_room() => {
            let name = match target {
                TraceTarget::StandardError => "standard error",
                TraceTarget::File(file) => file.path(),
            };
            warn!(rt; target: PROGRAM, "{name}: {count} calls have no line in the trace");
        }
        _ => {}
    }
}
