//! The errnos that a client sees, by Linux's numbers (drm-uapi).

/// The thing does not exist.
pub(crate) const ENOENT: u32 = 2;

/// Memory was refused.
pub(crate) const ENOMEM: u32 = 12;

/// The caller may not do this.
pub(crate) const EACCES: u32 = 13;

/// The thing is in use.
pub(crate) const EBUSY: u32 = 16;

/// The request is invalid.
pub(crate) const EINVAL: u32 = 22;

/// There is no room.
pub(crate) const ENOSPC: u32 = 28;
