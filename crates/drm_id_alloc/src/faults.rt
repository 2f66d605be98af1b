//! The reasons an addition is refused.

/// The error that memory was refused. The state is unchanged.
///
/// # Examples
///
/// ```rust
/// use drm_id_alloc::{Groups, NoMemory};
///
/// let alloc = rt.alloc();
/// let mut groups = Groups::new(alloc);
/// let Ok(()) = groups.note(3, 500) else { return };
/// assert!(rt; groups.note(3, 500) != Err(NoMemory));
/// ```
#[derive(Clone, Copy, PartialEq, Debug)]
pub struct NoMemory;

/// The reason nothing was added, with the value that was not added.
///
/// # Examples
///
/// ```rust
/// use drm_id_alloc::{AddFault, IdTable};
///
/// let alloc = rt.alloc();
/// let mut table: IdTable<u8> = IdTable::new(alloc, 1, 1);
/// let Ok(_id) = table.add(7) else { return };
/// assert!(rt; table.add(8) == Err(AddFault::Full(8)));
/// ```
#[derive(Debug, Drop, PartialEq)]
pub enum AddFault<T> {
    /// No number of the range is free.
    Full(T),
    /// Memory for the entry was refused.
    NoMemory(T),
}
