//! The command `drm_server update`.

use crate::asked::{AskedDevice, Checking};
use crate::devices::{TopologyText, asked_setup, read_asked};
use crate::faults::Fault;
use crate::files::{read_whole, replace_text, write_fault};
use drm_checks::{UpdateFault, update_script};
use drm_traffic::PROGRAM;
use log::{Log, error};
use std::alloc::Global;
use std::rt::Files;

/// Updates a file. If a line of it can't be used, or the new text can't be written whole, the file is unchanged.
fn update_file<R: Files + AllocGlobal + Log>(
    rt: &R,
    alloc: Global,
    asked: AskedDevice<'_>,
    topology: Option<&TopologyText<'_>>,
    path: &str,
) -> Result<(), Fault> {
    let setup = asked_setup(rt, asked.limits, topology)?;
    let text = read_whole(rt, alloc, path)?;
    let updated = match update_script(alloc, setup, text.as_slice()) {
        Ok(updated) => updated,
        Err(UpdateFault::NoMemory) => return Err(Fault::Memory),
        Err(UpdateFault::Malformed(number, cause)) => {
            error!(rt; target: PROGRAM, "{path}:{number}: {cause}");
            return Err(Fault::ScriptLine(number));
        }
    };
    if updated.as_slice() == text.as_slice() {
        return Ok(());
    }
    match replace_text(rt, alloc, path, updated.as_slice()) {
        Ok(()) => Ok(()),
        Err(reason) => Err(write_fault(rt, path, &reason)),
    }
}

/// Updates each file, up to the first that can't be updated (own). Allocates the devices and the texts.
///
/// # Errors
///
/// The fault of the file that can't be updated. All but `Fault::Memory` are logged. That file and the later ones are unchanged.
pub fn update<R: Files + AllocGlobal + Log>(
    rt: &R,
    alloc: Global,
    checking: &Checking<'_>,
) -> Result<(), Fault> {
    let topology = read_asked(rt, checking.device)?;
    for path in checking.files.as_slice() {
        update_file(rt, alloc, checking.device, topology.as_ref(), path)?;
    }
    Ok(())
}
