//! A device made from a journal.

ghost use Rattle.std.specs.Prelude.{◌≡◌, ◌↔◌, [], false, Err, IfOk, IfErr};
ghost use Rattle.drm_table.specs.Limits.{are_in_range};
ghost use Rattle.drm_device.specs.Replay.{IsReplay, StopsAt};

use crate::device::{Device, NewFault};
use drm_modes::Topology;
use drm_table::{Answer, Apart, Event, Limits};
use std::alloc::Global;

/// The reason a replay returns no device.
///
/// # Examples
///
/// ```rust
/// use drm_device::{Limits, NewFault, ReplayFault, Topology, replay};
///
/// let alloc = rt.alloc();
/// let limits = Limits { clients: 0, ..Limits::PROGRAM };
/// let Some(topology) = Topology::new(2, &[1, 2], &[3, 2], &[5, 6]) else { return };
/// let Err(fault) = replay(alloc, topology, limits, &[]) else { return };
/// assert!(rt; fault == ReplayFault::New(NewFault::BadLimits));
/// ```
#[derive(Clone, Copy, PartialEq, Debug)]
pub enum ReplayFault {
    /// There is no device to begin with.
    New(NewFault),
    /// The event of this number, from 1, is the first that was not recorded.
    Stopped { at: usize, apart: Apart },
}

/// The first event that a device did not note: its number, from 1, and why.
#[derive(Clone, Copy)]
struct Unnoted {
    at: usize,
    apart: Apart,
}

/// Returns the device after these events, one after the other, or the first that it did not note.
fn step_each(device: Device, events: &[Event]) -> Result<Device, Unnoted>
    requires { device.journal ≡ [] }
    ensures ok { IfOk result (λ after. after ≡ record device { journal = events.now }) }
    ensures err { IfErr result (λ fault. StopsAt device events.now fault.at fault.apart) }
{
    let mut device = device;
    let mut outcome = Ok(Answer::Done);
    for (place, event) in events.iter().enumerate() {
        device.step_at(event, &mut outcome);
        if let Err(apart) = &outcome {
            return Err(Unnoted {
                at: place + 1,
                apart: *apart,
            });
        }
    }
    Ok(device)
}

/// Returns a new device that was asked these events one after the other: its journal is the events, and its rows are
/// those that they leave.
///
/// It stops at the first event that the journal has no place for, or that needs a row for which memory is refused.
///
/// # Examples
///
/// ```rust
/// use drm_device::{Limits, Topology, replay};
/// use drm_table::{Event, Opening};
///
/// let alloc = rt.alloc();
/// let Some(topology) = Topology::new(2, &[1, 2], &[3, 2], &[5, 6]) else { return };
/// let events = [Event::Open(Opening::Render)];
/// let Ok(device) = replay(alloc, topology, Limits::PROGRAM, &events) else { return };
/// assert!(rt; device.journal() == events.as_slice());
/// ```
pub fn replay(
    alloc: Global,
    topology: Topology,
    limits: Limits,
    events: &[Event],
) -> Result<Device, ReplayFault>
    ensures replays { IsReplay topology limits events.now result }
    ensures bad_limits { (result ≡ Err (ReplayFault.New NewFault.BadLimits)) ↔ (are_in_range limits ≡ false) }
{
    let device = match Device::new(alloc, topology, limits) {
        Ok(device) => device,
        Err(fault) => return Err(ReplayFault::New(fault)),
    };
    match step_each(device, events) {
        Ok(device) => Ok(device),
        Err(first) => Err(ReplayFault::Stopped {
            at: first.at,
            apart: first.apart,
        }),
    }
}
