//! A journal that grows while its device is served.

use drm_checks::JournalWriter;
use drm_commands::Fault;
use drm_connections::{Outlet, Put};
use drm_device::Device;
use drm_table::Limits;
use drm_traffic::{Batch, Watch};
use std::alloc::{AllocError, Global};
use std::sync::Wait;

/// What a journal's thread has written.
#[derive(Clone, Copy)]
pub(crate) enum Growth {
    /// This many bytes. After a failed write or without memory nothing more.
    Written(usize),
    /// Not all, since the reader took nothing for a second after the last step.
    Untaken,
}

/// The journal that a thread writes, and its file.
#[derive(Drop)]
pub(crate) struct GrowingJournal {
    outlet: Outlet,
    writer: JournalWriter,
    /// The lines that are not written yet.
    text: Vec<u8>,
    batch: Batch,
}

impl GrowingJournal {
    /// Begins the journal of a device with these limits. `device` is an empty one of the same topology and limits.
    pub(crate) fn begin(
        alloc: Global,
        outlet: Outlet,
        limits: Limits,
        device: Device,
    ) -> Result<GrowingJournal, Fault> {
        let mut text = Vec::new(alloc);
        let Ok(writer) = JournalWriter::begin(alloc, limits, device, &mut text) else {
            return Err(Fault::Memory);
        };
        let Ok(batch) = Batch::new(alloc) else {
            return Err(Fault::Memory);
        };
        Ok(GrowingJournal {
            outlet,
            writer,
            text,
            batch,
        })
    }

    /// Makes the lines of the steps in the batch. Returns their number.
    fn make_lines(&mut self) -> Result<usize, AllocError> {
        self.text.clear();
        for step in self.batch.steps.iter() {
            self.writer.write(&mut self.text, &step.event)?;
        }
        Ok(self.batch.steps.len())
    }
}

/// Writes the lines of all steps, each when it is made, until no more follow.
pub(crate) fn grow<R: Wait>(rt: &R, watch: &Watch, journal: GrowingJournal) -> Growth {
    let mut journal = journal;
    let mut written: usize = 0;
    let mut steps: usize = 0;
    for _ in rt.forever() {
        match journal.outlet.put(rt, watch, &journal.text) {
            Put::Whole => written = written.saturating_add(journal.text.len()),
            Put::Failed(taken) => return Growth::Written(written.saturating_add(taken)),
            Put::Untaken(_) => return Growth::Untaken,
        }
        if !watch.take(rt, steps, false, &mut journal.batch) {
            break;
        }
        match journal.make_lines() {
            Ok(more) => steps = steps.saturating_add(more),
            Err(AllocError) => return Growth::Written(written),
        }
    }
    Growth::Written(written)
}
