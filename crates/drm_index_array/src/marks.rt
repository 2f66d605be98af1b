//! The marks.

/// One of the three marks that an entry can have. The caller chooses the meaning of each.
///
/// # Examples
///
/// ```rust
/// use drm_index_array::{IndexArray, Mark};
///
/// let alloc = rt.alloc();
/// let mut array: IndexArray<u8> = IndexArray::new(alloc);
/// let Ok(()) = array.insert(5, 1) else { return };
/// assert!(rt; array.set_mark(5, Mark::M1) && !array.marked(5, Mark::M2));
/// ```
#[derive(Debug, Clone, Copy, PartialEq)]
pub enum Mark {
    /// The first mark.
    M0,
    /// The second mark.
    M1,
    /// The third mark.
    M2,
}
