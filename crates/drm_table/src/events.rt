//! The events of a device.

use crate::calls::Call;
use std::alloc::AllocError;

/// The way in which a client is opened.
///
/// # Examples
///
/// ```rust
/// use drm_table::Opening;
///
/// let opening = Opening::Primary { root: true, universal: true };
/// assert!(rt; opening != Opening::Render);
/// ```
#[derive(Clone, Copy, PartialEq, Debug)]
pub enum Opening {
    /// A primary node, by root (CAP_SYS_ADMIN) or not, with universal planes on or off (drm-uapi). Both as parts of an
    /// opening are own.
    Primary {
        root: bool,
        universal: bool,
    },
    /// A render node (drm-uapi), with universal planes on.
    Render,
    /// A client of a lessee, opened by the lease's token, as a primary node (drm-uapi, leases). A token in place of a
    /// file descriptor is own.
    Lease {
        token: u32,
        root: bool,
        universal: bool,
    },
}

/// The event of a step.
///
/// # Examples
///
/// ```rust
/// use drm_table::{Call, Event};
///
/// let event = Event::Ask(1, Call::GetMagic);
/// assert!(rt; event != Event::Close(1));
/// ```
#[derive(PartialEq, Debug, Drop)]
pub enum Event {
    /// A client is opened.
    Open(Opening),
    /// The client with this number sends a call.
    Ask(u32, Call),
    /// The client with this number is closed, or its connection broke.
    Close(u32),
}

/// Copies the event. Does not allocate and never fails.
impl Clone for Event {
    ghost use Rattle.std.specs.Prelude.{◌≡◌, ⊤};

    ghost is_clone = { λ event copy. copy ≡ event };

    ghost is_infallible = { λ _. ⊤ };

    fn clone(&self) -> Result<Event, AllocError> {
        match self {
            Event::Open(opening) => Ok(Event::Open(*opening)),
            Event::Ask(client, call) => Ok(Event::Ask(*client, call.clone()?)),
            Event::Close(client) => Ok(Event::Close(*client)),
        }
    }
}
