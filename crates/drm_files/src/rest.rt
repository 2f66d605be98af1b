//! The handles of a closed client, to be released.

ghost use Rattle.std.specs.Prelude.{◌≡◌, slice_get, drop, IfNone};
ghost use Rattle.drm_files.specs.Records.{pairs_of};

use crate::files::Held;
use crate::lists::entry_from;
use drm_gem::ObjectKey;
use drm_id_alloc::IdTable;
use std::marker::Model;

/// The handles that a closed client had, each with its object. Contracts see the list of these pairs, in the order of
/// the handles.
///
/// # Examples
///
/// ```rust
/// use drm_files::Files;
/// use drm_gem::ObjectKey;
///
/// let alloc = rt.alloc();
/// let mut files = Files::new(alloc, 4, 100);
/// let Ok(()) = files.open(1, false, false, true) else { return };
/// let object = ObjectKey::from_number(7);
/// let Ok(handle) = files.add_handle(1, object, None) else { return };
/// let mut rest = files.close(1);
/// assert!(rt; rest.take_next() == Some((handle, object)));
/// assert!(rt; rest.take_next().is_none());
/// ```
pub struct FileRest {
    handles: IdTable<Held>,
    // The handles from this number on are left. Without a number none is left.
    next: Option<u32>,
}

// Written out, so that it is proved once: a derived one is proved again in each crate that drops such a value.
impl Drop for FileRest {
    fn drop(self) {
        let FileRest { handles, next: _ } = self;
        drop(handles);
    }
}

impl Model for FileRest {
    ghost use Rattle.std.specs.Prelude.{ℕ, List};
    ghost use Rattle.drm_files.specs.Records.{pairs_from};

    ghost Value = { List (ℕ × ℕ) };

    ghost view = { λ rest. pairs_from rest.handles rest.next };
}

impl FileRest {
    /// Creates the rest of a client with these handles.
    pub(crate) fn new(handles: IdTable<Held>) -> FileRest
        ensures { result ≡ pairs_of handles }
    {
        FileRest {
            handles,
            next: Some(0),
        }
    }

    /// Removes the first handle and returns it with its object, or returns `None` if none is left. Does not allocate.
    pub fn take_next(&mut self) -> Option<(u32, ObjectKey)>
        ensures first { result ≡ slice_get self.old 0 }
        ensures rest { self.new ≡ drop 1 self.old }
        ensures none { IfNone result (self.new ≡ self.old) }
    {
        let from = self.next?;
        let (handle, held) = entry_from(&self.handles, from)?;
        let object = held.object;
        self.next = handle.checked_add(1);
        Some((handle, object))
    }
}
