//! The initial devices of scripts and servers.

ghost use Rattle.std.specs.Prelude.{◌≡◌, true, [], IfSome};
ghost use Rattle.drm_table.specs.Limits as ranges;
ghost use Rattle.drm_runs.specs.Script as script;

use drm_device::{Device, Limits, NewFault, PlaneKind, Topology};
use std::alloc::{AllocError, Global};
use std::marker::Model;

/// The topology of a script's device, and its default limits (own).
///
/// # Examples
///
/// ```rust
/// use drm_device::Limits;
/// use drm_runs::{Setup, test_topology};
///
/// let alloc = rt.alloc();
/// let setup = Setup::new(test_topology(), Limits::PROGRAM);
/// let Some(device) = setup.make(alloc) else { return };
/// assert!(rt; device.journal().is_empty());
/// ```
#[derive(Drop)]
pub struct Setup {
    topology: Topology,
    limits: Limits,
}

impl Model for Setup {
    ghost use Rattle.std.specs.Prelude.{◌≡◌, true};
    ghost use Rattle.drm_table.specs.Limits.{are_in_range};
    ghost use Rattle.drm_runs.specs.Script.{Setting};

    ghost Value = { Setting };

    ghost view = { λ s. record { topology = s.topology; limits = s.limits } };

    ghost invariant = { λ s. are_in_range s.limits ≡ true };
}

/// Copies the setup. Does not allocate and never fails.
impl Clone for Setup {
    ghost use Rattle.std.specs.Prelude.{◌≡◌, ⊤};

    ghost is_clone = { λ setup copy. copy ≡ setup };

    ghost is_infallible = { λ _. ⊤ };

    fn clone(&self) -> Result<Setup, AllocError> {
        Ok(Setup {
            topology: self.topology.clone()?,
            limits: self.limits,
        })
    }
}

impl Setup {
    ghost use Rattle.std.specs.Prelude.{◌≡◌, true, [], IfSome};
    ghost use Rattle.drm_table.specs.Limits.{are_in_range};
    ghost use Rattle.drm_runs.specs.Script.{limited_to, usual};

    /// Returns the setup of a device with this topology and these default limits. Does not allocate.
    pub fn new(topology: Topology, limits: Limits) -> Setup
        requires in_range { are_in_range limits ≡ true }
        ensures { result ≡ record { topology = topology; limits = limits } }
    {
        Setup { topology, limits }
    }

    /// Returns the setup with the test topology and the program's limits. Does not allocate.
    pub fn usual() -> Setup
        ensures { result ≡ usual }
    {
        Setup::new(test_topology(), Limits::PROGRAM)
    }

    /// Returns the default limits.
    pub(crate) fn limits(&self) -> Limits
        ensures limits { result ≡ self.now.limits }
        ensures in_range { are_in_range result ≡ true }
    {
        self.limits
    }

    /// Returns the same topology with these limits.
    pub(crate) fn limited_to(self, limits: Limits) -> Setup
        requires in_range { are_in_range limits ≡ true }
        ensures { result ≡ limited_to self limits }
    {
        Setup {
            topology: self.topology,
            limits,
        }
    }

    /// Returns an empty device, or `None` if memory is refused.
    pub fn make(self, alloc: Global) -> Option<Device>
        ensures { IfSome result (λ device. device ≡ record { topology = self.topology; limits = self.limits; journal = [] }) }
    {
        match Device::new(alloc, self.topology, self.limits) {
            Ok(device) => Some(device),
            Err(NewFault::NoMemory) => None,
            Err(NewFault::BadLimits) => unreachable!(),
        }
    }
}

/// Returns the default topology (own): two CRTCs, two planes, two encoders and two connectors. The first plane is the
/// primary plane of the first CRTC. Does not allocate.
pub fn test_topology() -> Topology
    ensures { result ≡ script.test_topology }
{
    let kinds = [PlaneKind::Primary(1), PlaneKind::Overlay];
    match Topology::with_kinds(2, &[1, 2], &kinds, &[3, 2], &[5, 6]) {
        Some(topology) => topology,
        None => unreachable!(),
    }
}

/// Returns an empty device of the test topology, or `None` if memory is refused.
pub fn make_device(alloc: Global, limits: Limits) -> Option<Device>
    requires { ranges.are_in_range limits ≡ true }
    ensures { IfSome result (λ device. device ≡ record { topology = script.test_topology; limits = limits; journal = [] }) }
{
    Setup::new(test_topology(), limits).make(alloc)
}
