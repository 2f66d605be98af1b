//! The reasons nothing was added.

/// The reason a client was not opened or a handle was not assigned. The state is unchanged.
///
/// # Examples
///
/// ```rust
/// use drm_files::{FileFault, Files};
///
/// let alloc = rt.alloc();
/// let mut files = Files::new(alloc, 0, 100);
/// assert!(rt; files.open(1, false, false, true) == Err(FileFault::Full));
/// ```
#[derive(Clone, Copy, PartialEq, Debug)]
pub enum FileFault {
    /// The limit of clients is reached, or the client has every handle.
    Full,
    /// Memory was refused.
    NoMemory,
}
