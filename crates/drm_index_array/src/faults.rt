//! The reasons an insertion is refused.

ghost use Rattle.std.specs.Prelude.{◌≡◌};

/// The reason an insertion left the array unchanged, with the value that was not stored.
///
/// # Examples
///
/// ```rust
/// use drm_index_array::{IndexArray, InsertFault};
///
/// let alloc = rt.alloc();
/// let mut array: IndexArray<u8> = IndexArray::new(alloc);
/// let Ok(()) = array.insert(300, 7) else { return };
/// assert!(rt; array.insert(300, 8) == Err(InsertFault::Taken(8)));
/// ```
#[derive(Debug, Drop, PartialEq)]
pub enum InsertFault<T> {
    /// The index has an entry already.
    Taken(T),
    /// Memory for the entry was refused.
    NoMemory(T),
}

impl<T> InsertFault<T> {
    ghost use Rattle.drm_index_array.specs.InsertFault.{value_of};

    /// Returns the value that was not stored.
    pub fn into_value(self) -> T
        ensures { result ≡ value_of self }
    {
        match self {
            InsertFault::Taken(value) | InsertFault::NoMemory(value) => value,
        }
    }
}
