//! The reasons a framebuffer was not created.

/// The reason a framebuffer was not created. The state is unchanged.
///
/// # Examples
///
/// ```rust
/// use drm_gem::ObjectKey;
/// use drm_modes::{AddFbFault, Modes, Shape, Topology};
///
/// let alloc = rt.alloc();
/// let Some(topology) = Topology::new(2, &[1, 2], &[3, 2], &[5, 6]) else { return };
/// let mut modes = Modes::new(alloc, topology, 1);
/// let shape = Shape { width: 640, height: 480, pitch: 2560, bpp: 32 };
/// let Ok(_first) = modes.addfb(1, shape, ObjectKey::from_number(7)) else { return };
/// let second = modes.addfb(1, shape, ObjectKey::from_number(7));
/// assert!(rt; second == Err(AddFbFault::Full));
/// ```
#[derive(Clone, Copy, PartialEq, Debug)]
pub enum AddFbFault {
    /// No id is free.
    Full,
    /// Memory was refused.
    NoMemory,
}
