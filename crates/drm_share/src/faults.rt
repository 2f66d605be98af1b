//! The reasons nothing was shared.

/// The reason no name or token was allocated. The state is unchanged.
///
/// # Examples
///
/// ```rust
/// use drm_gem::ObjectKey;
/// use drm_share::{Names, ShareFault};
///
/// let alloc = rt.alloc();
/// let mut names = Names::new(alloc, 1);
/// let Ok(_name) = names.give(ObjectKey::from_number(4)) else { return };
/// if names.name_of(ObjectKey::from_number(5)).is_none() {
///     assert!(rt; names.give(ObjectKey::from_number(5)) == Err(ShareFault::Full));
/// }
/// ```
#[derive(Clone, Copy, PartialEq, Debug)]
pub enum ShareFault {
    /// No number is free.
    Full,
    /// Memory was refused.
    NoMemory,
}
