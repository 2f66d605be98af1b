//! Trials on a device that one function owns: a function that drops a device takes long to prove.

use drm_device::{Device, PlaneKind, Topology};
use drm_table::Limits;
use std::alloc::Global;
use std::test::Fail;

/// A trial on a device that is lent, with a test's runtime.
pub(crate) trait Trial<R> {
    /// Runs the trial on this device.
    fn run(&self, rt: &R, alloc: Global, device: &mut Device) -> Result<(), Fail>;
}

/// Returns a topology of two CRTCs, with a plane and a connector for each and two encoders. The first CRTC's plane is its primary plane,
/// and the first encoder may drive both CRTCs.
pub(crate) fn test_topology() -> Result<Topology, Fail> {
    let kinds = [PlaneKind::Primary(1), PlaneKind::Overlay];
    Ok(Topology::with_kinds(2, &[1, 2], &kinds, &[3, 2], &[5, 6]).ok_or("no topology")?)
}

/// Returns a new device with that topology within these limits.
pub(crate) fn new_device(alloc: Global, limits: Limits) -> Result<Device, Fail> {
    Ok(Device::new(alloc, test_topology()?, limits)?)
}

/// Runs the trial on a device that was created. If none was, it returns the fault.
pub(crate) fn lend<R, F: Drop, T: Trial<R>>(
    rt: &R,
    alloc: Global,
    made: Result<Device, F>,
    trial: &T,
) -> Result<Option<F>, Fail> {
    match made {
        Ok(mut device) => match trial.run(rt, alloc, &mut device) {
            Ok(()) => Ok(None),
            Err(fail) => Err(fail),
        },
        Err(fault) => Ok(Some(fault)),
    }
}

/// Runs the trial on a new device within these limits.
pub(crate) fn try_on_new<R, T: Trial<R>>(
    rt: &R,
    alloc: Global,
    limits: Limits,
    trial: &T,
) -> Result<(), Fail> {
    let made = Device::new(alloc, test_topology()?, limits);
    match lend(rt, alloc, made, trial)? {
        Some(fault) => Err(fault.into()),
        None => Ok(()),
    }
}
