//! The fields of an object.

use crate::keys::ObjectKey;

/// An object, with the number of its references.
///
/// # Examples
///
/// ```rust
/// use drm_gem::Objects;
///
/// let alloc = rt.alloc();
/// let mut objects = Objects::new(alloc, 1);
/// let Ok(key) = objects.create(3, 4096) else { return };
/// let Some(object) = objects.get(key) else { return };
/// assert!(rt; object.step_number == 3 && object.size == 4096 && object.holds == 1);
/// ```
#[derive(Clone, Copy, PartialEq, Debug)]
pub struct Object {
    /// The object's key while it exists.
    pub key: ObjectKey,
    /// The number of the step that created it (own). No other existing object has the same number.
    pub step_number: u32,
    /// Its size in bytes.
    pub size: u64,
    /// Its stamp, which represents the contents (own).
    pub stamp: u64,
    /// The number of handles that name it.
    pub holds: u32,
    /// The number of tokens and framebuffers that refer to it.
    pub refs: u32,
}

/// An object that was freed because nothing refers to it. The owner of its memory would free that now. A device's
/// buffers have no memory, so its calls ignore this value.
///
/// # Examples
///
/// ```rust
/// use drm_gem::{Dead, Objects};
///
/// let alloc = rt.alloc();
/// let mut objects = Objects::new(alloc, 1);
/// let Ok(key) = objects.create(3, 4096) else { return };
/// let gone = Dead { birth: 3, size: 4096 };
/// assert!(rt; objects.unhold(key) == Some(gone));
/// ```
#[derive(Clone, Copy, PartialEq, Debug)]
pub struct Dead {
    /// The number of the step that created it.
    pub birth: u32,
    /// Its size in bytes.
    pub size: u64,
}
