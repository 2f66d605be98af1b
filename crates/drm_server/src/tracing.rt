//! The trace of a device that is served.

use drm_commands::Fault;
use drm_connections::{Outlet, Put, count_lines};
use drm_device::Device;
use drm_traffic::{Batch, Palette, Tracer, Watch};
use libc::net::poll;
use std::alloc::{AllocError, Global};
use std::io::Write;
use std::sync::Wait;

/// How long the thread waits after a batch while the device is served, in milliseconds. So calls that follow each other fast
/// do not wake it, and it takes little of the processors from them.
const PAUSE: i32 = 10;

/// The trace that a thread writes, and its file.
#[derive(Drop)]
pub(crate) struct Trace {
    outlet: Outlet,
    tracer: Tracer,
    /// The lines that are not written yet.
    text: Vec<u8>,
    batch: Batch,
    /// The place of the batch's first step in the history.
    place: usize,
    /// The number of calls without a line.
    left_out: u64,
    /// Whether nothing more is written.
    has_stopped: bool,
}

impl Trace {
    /// Begins a trace. `device` is an empty one of the topology and limits of the device that is served.
    pub(crate) fn begin(
        alloc: Global,
        outlet: Outlet,
        palette: Palette,
        device: Device,
    ) -> Result<Trace, Fault> {
        let Ok(batch) = Batch::new(alloc) else {
            return Err(Fault::Memory);
        };
        Ok(Trace {
            outlet,
            tracer: Tracer::new(device, palette),
            text: Vec::new(alloc),
            batch,
            place: 0,
            left_out: 0,
            has_stopped: false,
        })
    }

    /// Makes the lines of the batch's faults from this one on, of those after at most this many steps. Returns the number of
    /// faults that have a line then.
    fn put_faults(&mut self, from: usize, steps: u64) -> Result<usize, AllocError> {
        let mut put = from;
        for at in from..self.batch.faults.len() {
            let Some(fault) = self.batch.faults.get(at) else {
                return Ok(put);
            };
            if fault.after > steps {
                return Ok(put);
            }
            self.tracer.put_fault(&mut self.text, fault)?;
            put = put.saturating_add(1);
        }
        Ok(put)
    }

    /// Makes the lines of the calls in the batch: those of steps, and those of faults between them.
    fn make_lines(&mut self) -> Result<(), AllocError> {
        self.text.clear();
        let mut faults: usize = 0;
        for at in 0..self.batch.steps.len() {
            faults = self.put_faults(faults, self.place.saturating_add(at) as u64)?;
            if let Some(call) = self.batch.steps.get(at) {
                self.tracer.put_step(&mut self.text, call)?;
            }
        }
        self.put_faults(faults, u64::MAX)?;
        if self.batch.left_out > 0 {
            self.tracer
                .put_left_out(&mut self.text, self.batch.left_out)?;
        }
        Ok(())
    }

    /// Writes the lines of a batch with this many steps and faults, or counts them once nothing more is written.
    fn put_batch<R: Wait>(&mut self, rt: &R, watch: &Watch, calls: u64) {
        if self.has_stopped || self.make_lines().is_err() {
            self.has_stopped = true;
            self.left_out = self.left_out.saturating_add(calls);
            return;
        }
        let written = match self.outlet.put(rt, watch, &self.text) {
            Put::Whole => return,
            Put::Failed(written) => written,
            Put::Untaken(written) => written,
        };
        let rest = self.text.get(written..).unwrap_or(&[]);
        self.left_out = self.left_out.saturating_add(count_lines(rest));
        self.has_stopped = true;
    }

    /// Writes how many calls have no line, if the file takes it.
    fn put_left_out(&mut self) {
        self.text.clear();
        let count = self.left_out;
        let made = write!(&mut self.text, "# {count} calls have no line\n");
        if made.is_ok() && self.outlet.has_room() {
            let _ = libc::write(self.outlet.descriptor, &self.text);
        }
    }
}

/// Writes a line for each call, when it is answered, until no more follow. Returns the number of calls without a line.
pub(crate) fn write_trace<R: Wait>(rt: &R, watch: &Watch, trace: Trace) -> u64 {
    let mut trace = trace;
    for _ in rt.forever() {
        if !watch.take(rt, trace.place, true, &mut trace.batch) {
            break;
        }
        let steps = trace.batch.steps.len();
        let faults = trace.batch.faults.len();
        trace.left_out = trace.left_out.saturating_add(trace.batch.left_out);
        trace.put_batch(rt, watch, steps.saturating_add(faults) as u64);
        trace.place = trace.place.saturating_add(steps);
        if !watch.has_ended(rt) {
            poll(&mut [], PAUSE);
        }
    }
    if trace.left_out > 0 {
        trace.put_left_out();
    }
    trace.left_out
}
