//! The device that the command line describes.

ghost use Rattle.std.specs.Prelude.{◌≡◌, true, IfOk};
ghost use Rattle.drm_table.specs.Limits.{are_in_range};

use crate::asked::AskedDevice;
use crate::faults::Fault;
use crate::files::read_whole;
use crate::limits::limits_of;
use arrayvec::ArrayString;
use drm_device::{Device, Limits, Topology};
use drm_runs::{Setup, read_topology, test_topology};
use drm_traffic::PROGRAM;
use log::{Log, error};
use std::alloc::Global;
use std::rt::Files;

/// The most bytes of a line that are logged.
const LINE: usize = 64;

/// Returns the first bytes of the line with this number, from 1, with `?` in place of a byte that is not printable.
fn shown_line(text: &[u8], number: u64) -> ArrayString<LINE> {
    let mut shown = ArrayString::new();
    let mut line = 1_u64;
    for byte in text {
        if *byte == b'\n' {
            line = line.saturating_add(1);
        } else if line == number {
            let is_printable = byte.is_ascii_graphic() || *byte == b' ';
            let sign = if is_printable { char::from(*byte) } else { '?' };
            let _ = shown.try_push(sign);
        }
    }
    shown
}

/// Returns the limits that the command line sets, or the program's (own). Does not allocate.
///
/// # Errors
///
/// `Fault::CommandLine`, which is logged, if they are not eight numbers in their ranges.
///
/// # Examples
///
/// ```rust
/// use drm_commands::{Fault, asked_limits};
/// use drm_device::Limits;
///
/// assert!(rt; asked_limits(&rt, None) == Ok(Limits::PROGRAM));
/// assert!(rt; asked_limits(&rt, Some("1 2 3")) == Err(Fault::CommandLine));
/// ```
pub fn asked_limits<R: Log>(rt: &R, numbers: Option<&str>) -> Result<Limits, Fault>
    ensures { IfOk result (λ limits. are_in_range limits ≡ true) }
{
    let Some(numbers) = numbers else {
        return Ok(Limits::PROGRAM);
    };
    let Some(limits) = limits_of(numbers) else {
        error!(rt; target: PROGRAM, "--limits {numbers}: eight numbers are required: clients 1 to 1024; handles, names, tokens and objects 1 to 65535 each; framebuffers and lessees 1 to 64 each; journal 2 to 100000");
        return Err(Fault::CommandLine);
    };
    Ok(limits)
}

/// The text of a topology's file (own). It is read once, so that it can be a pipe.
///
/// # Examples
///
/// ```rust
/// use drm_commands::{AskedDevice, read_asked};
///
/// let device = AskedDevice { topology: None, limits: None };
/// let Ok(text) = read_asked(&rt, device) else { return };
/// assert!(rt; text.is_none());
/// ```
#[derive(Drop)]
pub struct TopologyText<'a> {
    pub(crate) path: &'a str,
    text: Vec<u8>,
}

/// Reads the file of the topology, if there is one (own). Limits that can't be used are refused before. Allocates the
/// text.
///
/// # Errors
///
/// - `Fault::CommandLine` for the limits.
/// - `Fault::Read` if the file can't be read.
///
/// Both are logged.
pub fn read_asked<'a, R: Files + AllocGlobal + Log>(
    rt: &R,
    asked: AskedDevice<'a>,
) -> Result<Option<TopologyText<'a>>, Fault> {
    asked_limits(rt, asked.limits)?;
    match asked.topology {
        Some(path) => {
            let text = read_whole(rt, rt.alloc(), path)?;
            Ok(Some(TopologyText { path, text }))
        }
        None => Ok(None),
    }
}

/// Returns the topology of a file, or the test topology. If a line can't be used, the cause is logged.
pub(crate) fn asked_topology<R: Log>(
    rt: &R,
    file: Option<&TopologyText<'_>>,
) -> Result<Topology, Fault> {
    let Some(file) = file else {
        return Ok(test_topology());
    };
    match read_topology(file.text.as_slice()) {
        Ok(topology) => Ok(topology),
        Err(line) => {
            let path = file.path;
            let shown = shown_line(file.text.as_slice(), line.number);
            if shown.is_empty() {
                error!(rt; target: PROGRAM, "{path}:{}: {}", line.number, line.cause);
            } else {
                error!(rt; target: PROGRAM, "{path}:{}: `{shown}`: {}", line.number, line.cause);
            }
            Err(Fault::ScriptLine(line.number))
        }
    }
}

/// Returns the setup of a script's device.
pub(crate) fn asked_setup<R: Log>(
    rt: &R,
    limits: Option<&str>,
    file: Option<&TopologyText<'_>>,
) -> Result<Setup, Fault> {
    let limits = asked_limits(rt, limits)?;
    let topology = asked_topology(rt, file)?;
    Ok(Setup::new(topology, limits))
}

/// Returns an empty device with these limits, and the topology of a file, or the test topology (own).
///
/// # Errors
///
/// - `Fault::ScriptLine`, which is logged, if a line of the topology can't be used.
/// - `Fault::Memory` if memory is refused.
pub fn asked_device<R: Log>(
    rt: &R,
    alloc: Global,
    file: Option<&TopologyText<'_>>,
    limits: Limits,
) -> Result<Device, Fault>
    requires { are_in_range limits ≡ true }
{
    let topology = asked_topology(rt, file)?;
    Setup::new(topology, limits)
        .make(alloc)
        .ok_or(Fault::Memory)
}
