//! A device on the heap.

ghost use Rattle.std.specs.Prelude.{◌≡◌, IfOk, IfErr};

use drm_device::Device;
use std::alloc::{AllocFailed, Global};
use std::marker::Model;

/// A device on the heap: where it is taken out of a slot and put back, the pointer moves and nothing of the device.
/// Contracts see the device.
pub(crate) struct BoxedDevice {
    pub(crate) device: Box<Device>,
}

// Written out, so that it is proved once: a derived one is proved again in each crate that drops such a value.
impl Drop for BoxedDevice {
    fn drop(self) {
        let BoxedDevice { device } = self;
        drop(device);
    }
}

impl Model for BoxedDevice {
    ghost use Rattle.drm_model.specs.Run.{DeviceValue};

    ghost Value = { DeviceValue };

    ghost view = { λ boxed. boxed.device.value };
}

impl BoxedDevice {
    /// Moves the device to the heap. If memory is refused, it returns the device.
    pub(crate) fn new(alloc: Global, device: Device) -> Result<BoxedDevice, Device>
        ensures ok { IfOk result (λ boxed. boxed ≡ device) }
        ensures err { IfErr result (λ refused. refused ≡ device) }
    {
        match Box::new(alloc, device) {
            Ok(device) => Ok(BoxedDevice { device }),
            Err(AllocFailed { value }) => Err(value),
        }
    }

    /// Returns the pointer, to step the device where it lies.
    pub(crate) fn into_box(self) -> Box<Device>
        ensures { result.value ≡ self }
    {
        let BoxedDevice { device } = self;
        device
    }

    /// Returns the device.
    pub(crate) fn into_device(self) -> Device
        ensures { result ≡ self }
    {
        let BoxedDevice { device } = self;
        Box::into_inner(device)
    }
}
