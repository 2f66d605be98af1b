//! The files that a command writes while or after it makes steps.

ghost use Rattle.std.specs.Prelude.{◌≡◌, true};
ghost use Rattle.drm_table.specs.Limits.{are_in_range};

use crate::devices::{TopologyText, asked_device};
use crate::faults::Fault;
use crate::files::{read_whole, write_fault};
use drm_checks::{Journal, first_difference, journal_of};
use drm_device::{Device, Limits};
use drm_table::Event;
use drm_traffic::PROGRAM;
use log::{Log, error, warn};
use std::alloc::Global;
use std::fs;
use std::io::Write;
use std::os::unix::fs::MetadataExt;
use std::rt::Files;

/// Returns the identity of the file at a path, also through symbolic links.
fn id_of<R: Files>(rt: &R, path: &str) -> Option<(u64, u64)> {
    let metadata = fs::metadata(rt, path).ok()?;
    Some((metadata.dev(), metadata.ino()))
}

/// Returns whether both paths name the same file.
fn is_same_file<R: Files>(rt: &R, path: &str, other: &str) -> bool {
    let id = id_of(rt, path);
    id.is_some() && id == id_of(rt, other)
}

/// The open file of a journal (own).
///
/// # Examples
///
/// ```rust
/// use drm_commands::{FilesRead, create_asked};
///
/// let read = FilesRead { topology: None, script: None };
/// let Ok(journal) = create_asked(&rt, Some("/dev/null"), read) else { return };
/// assert!(rt; journal.is_some());
/// ```
#[derive(Drop)]
pub struct JournalFile<'a, F: Drop> {
    path: &'a str,
    file: F,
}

impl<'a, F: Drop> JournalFile<'a, F> {
    /// Returns the path.
    pub fn path(&self) -> &'a str {
        self.path
    }

    /// Returns the open file.
    pub fn file(&self) -> &F {
        &self.file
    }
}

/// The files that a journal must not replace (own).
#[derive(Clone, Copy, Debug)]
pub struct FilesRead<'a> {
    /// The file of the topology.
    pub topology: Option<&'a str>,
    /// The file of the script.
    pub script: Option<&'a str>,
}

/// Refuses a file to be written that is another file of the same command. `written` and `kind` name them.
fn refuse_same<R: Files + Log>(
    rt: &R,
    path: &str,
    written: &str,
    other: Option<&str>,
    kind: &str,
) -> Result<(), Fault> {
    match other {
        Some(other) if is_same_file(rt, path, other) => {
            error!(rt; target: PROGRAM, "{path}: the {written} would replace the {kind}: choose another file");
            Err(Fault::CommandLine)
        }
        _ => Ok(()),
    }
}

/// Creates a file or empties it.
fn create_file<'a, R: Files + Log>(
    rt: &R,
    path: &'a str,
) -> Result<JournalFile<'a, R::File>, Fault> {
    match fs::create(rt, path) {
        Ok(file) => Ok(JournalFile { path, file }),
        Err(reason) => Err(write_fault(rt, path, &reason)),
    }
}

/// Creates the file of a trace or empties it (own). The topology's file and the journal's are refused.
///
/// # Errors
///
/// - `Fault::CommandLine` if it would replace one of these.
/// - `Fault::Write` if it can't be created.
///
/// Both are logged.
pub fn create_trace<'a, R: Files + Log>(
    rt: &R,
    path: &'a str,
    topology: Option<&str>,
    journal: Option<&str>,
) -> Result<JournalFile<'a, R::File>, Fault> {
    refuse_same(rt, path, "trace", topology, "topology")?;
    refuse_same(rt, path, "trace", journal, "journal")?;
    create_file(rt, path)
}

/// Creates the file of a journal or empties it, if there is to be one (own). It is opened only here, before the first step.
///
/// # Errors
///
/// - `Fault::CommandLine` if it would replace a file that is read.
/// - `Fault::Write` if it can't be created.
///
/// Both are logged.
pub fn create_asked<'a, R: Files + Log>(
    rt: &R,
    path: Option<&'a str>,
    read: FilesRead<'_>,
) -> Result<Option<JournalFile<'a, R::File>>, Fault> {
    let Some(path) = path else {
        return Ok(None);
    };
    refuse_same(rt, path, "journal", read.topology, "topology")?;
    refuse_same(rt, path, "journal", read.script, "script")?;
    Ok(Some(create_file(rt, path)?))
}

/// Writes the events of a journal to its file, with the answers of an empty device of the same topology and limits. The
/// file has this many bytes of the script already.
fn write_journal<R: Log, F: Write + Drop>(
    rt: &R,
    alloc: Global,
    journal: JournalFile<'_, F>,
    limits: Limits,
    events: &[Event],
    replayed: Device,
    written: usize,
) -> Result<Journal, Fault> {
    let JournalFile { path, file } = journal;
    let Ok(script) = journal_of(alloc, events, limits, replayed) else {
        return Err(Fault::Memory);
    };
    let mut file = file;
    let rest = script.text.as_slice().get(written..).unwrap_or(&[]);
    if let Err(reason) = file.write_all(rest) {
        return Err(write_fault(rt, path, &reason));
    }
    if !script.is_whole {
        warn!(rt; target: PROGRAM, "{path}: more clients were open at once than a script has labels: the last steps are comments");
    }
    Ok(script)
}

/// Compares the file at a path with the text of a journal, unless it is a pipe or a device. The line of a difference is
/// logged.
fn compare<R: Files + AllocGlobal + Log>(
    rt: &R,
    alloc: Global,
    path: &str,
    text: &[u8],
) -> Result<(), Fault> {
    match fs::metadata(rt, path) {
        Ok(metadata) if !metadata.is_file() => return Ok(()),
        _ => {}
    }
    let found = read_whole(rt, alloc, path)?;
    match first_difference(found.as_slice(), text) {
        None => Ok(()),
        Some(line) => {
            error!(rt; target: PROGRAM, "{path}: line {line}: it differs from the journal of the device");
            Err(Fault::Write)
        }
    }
}

/// Writes the events of a journal to its file, if there is one (own). The answers are those of an empty device of the
/// same topology and limits. Allocates that device and the text.
///
/// # Errors
///
/// - `Fault::Write`, which is logged, if the file can't be written.
/// - `Fault::Memory` if memory is refused.
/// - The faults of `asked_device`.
pub fn write_noted<R: Files + AllocGlobal + Log>(
    rt: &R,
    alloc: Global,
    journal: Option<JournalFile<'_, R::File>>,
    topology: Option<&TopologyText<'_>>,
    limits: Limits,
    events: &[Event],
) -> Result<(), Fault>
    requires { are_in_range limits ≡ true }
{
    let Some(journal) = journal else {
        return Ok(());
    };
    let replayed = asked_device(rt, alloc, topology, limits)?;
    write_journal(rt, alloc, journal, limits, events, replayed, 0)?;
    Ok(())
}

/// Writes the events of a journal to its file as [`write_noted`] does, if the file has this many bytes of the script
/// already (own). Then it compares the file with the whole script, unless it is a pipe or a device.
///
/// # Errors
///
/// Those of [`write_noted`], and:
///
/// - `Fault::Write` if the file differs. The first line that does is logged.
/// - `Fault::Read`, which is logged, if the file can't be read.
pub fn complete_journal<R: Files + AllocGlobal + Log>(
    rt: &R,
    alloc: Global,
    journal: JournalFile<'_, R::File>,
    topology: Option<&TopologyText<'_>>,
    limits: Limits,
    events: &[Event],
    written: usize,
) -> Result<(), Fault>
    requires { are_in_range limits ≡ true }
{
    let path = journal.path;
    let replayed = asked_device(rt, alloc, topology, limits)?;
    let script = write_journal(rt, alloc, journal, limits, events, replayed, written)?;
    compare(rt, alloc, path, script.text.as_slice())
}
