//! The reasons a lease was not created.

use drm_table::Rule;

/// The reason a lease was not created. The state is unchanged.
///
/// # Examples
///
/// ```rust
/// use drm_leases::{LeaseFault, Leases};
/// use drm_masters::Masters;
/// use drm_modes::{Modes, Topology};
/// use drm_table::Rule;
///
/// let alloc = rt.alloc();
/// let Some(topology) = Topology::new(2, &[1, 2], &[3, 2], &[5, 6]) else { return };
/// let modes = Modes::new(alloc, topology, 4);
/// let mut masters = Masters::new(alloc, 4, 4);
/// let Ok(_first) = masters.on_open(1, 1) else { return };
/// let shape = Leases::new(alloc, 8).create(&mut masters, &modes, 1, true, &[1], 2);
/// assert!(rt; shape == Err(LeaseFault::Denied(Rule::LeaseShape)));
/// ```
#[derive(Clone, Copy, PartialEq, Debug)]
pub enum LeaseFault {
    /// A rule denies it.
    Denied(Rule),
    /// Memory for the lease was refused.
    NoMemory,
}
