//! Lists of ids of bounded length.

ghost use Rattle.std.specs.Prelude.{◌≡◌, ◌<◌, ◌≤◌, ◌∷◌, ◌++◌, [], length, map, ⊤};
ghost use Rattle.drm_table.specs.Fields.{ids_in};
ghost use Rattle.drm_table.specs.declared.fields.Field.TheVariants as numbers;

use crate::fields::{Field, Fields};
use arrayvec::ArrayVec;
use std::alloc::AllocError;
use std::marker::Model;

/// A list of at most 64 ids or handles that a call returns. Contracts see the list of ids.
///
/// # Examples
///
/// ```rust
/// use drm_table::ShownList;
///
/// let list = ShownList::new();
/// assert!(rt; list.ids().is_empty());
/// ```
#[derive(PartialEq, Debug, Drop)]
pub struct ShownList {
    ids: ArrayVec<u32, 64>,
}

impl Model for ShownList {
    ghost use Rattle.std.specs.Prelude.{List, ℕ};

    ghost Value = { List ℕ };

    ghost view = { λ list. list.ids.items };

    ghost inverse = { λ ids. record { ids = record { items = ids } } };
}

impl ShownList {
    /// Creates an empty list.
    pub fn new() -> ShownList
        ensures { result ≡ [] }
    {
        ShownList {
            ids: ArrayVec::new(),
        }
    }

    /// Appends an id. The list must have fewer than 64 ids.
    pub fn push(&mut self, id: u32)
        requires { length self.old < 64 }
        ensures { self.new ≡ self.old ++ id ∷ [] }
    {
        self.ids.push(id);
    }

    /// Returns the ids in order, 64 at most.
    pub fn ids(&self) -> &[u32]
        ensures ids { result.now ≡ self.now }
        ensures within { length self.now ≤ 64 }
    {
        self.ids.as_slice()
    }
}

/// A list of at most 32 ids that a call names. Contracts see the list of ids.
///
/// # Examples
///
/// ```rust
/// use drm_table::{Call, IdList};
///
/// let mut ids = IdList::new();
/// ids.push(2);
/// let call = Call::CreateLease { ids };
/// assert!(rt; call.number() == 0xC6);
/// ```
#[derive(PartialEq, Debug, Drop)]
pub struct IdList {
    named: ArrayVec<u32, 32>,
}

impl Model for IdList {
    ghost use Rattle.std.specs.Prelude.{List, ℕ};

    ghost Value = { List ℕ };

    ghost view = { λ list. list.named.items };

    ghost inverse = { λ ids. record { named = record { items = ids } } };
}

/// Copies the list. Does not allocate and never fails.
impl Clone for IdList {
    ghost is_clone = { λ list copy. copy ≡ list };

    ghost is_infallible = { λ _. ⊤ };

    fn clone(&self) -> Result<IdList, AllocError> {
        match ArrayVec::try_from(self.ids()) {
            Ok(named) => Ok(IdList { named }),
            Err(_) => unreachable!(),
        }
    }
}

impl IdList {
    /// Creates an empty list.
    pub fn new() -> IdList
        ensures { result ≡ [] }
    {
        IdList {
            named: ArrayVec::new(),
        }
    }

    /// Appends an id. The list must have fewer than 32 ids.
    pub fn push(&mut self, id: u32)
        requires { length self.old < 32 }
        ensures { self.new ≡ self.old ++ id ∷ [] }
    {
        self.named.push(id);
    }

    /// Returns the ids in order, 32 at most.
    pub fn ids(&self) -> &[u32]
        ensures ids { result.now ≡ self.now }
        ensures within { length self.now ≤ 32 }
    {
        self.named.as_slice()
    }

    /// Writes the ids as fields to an empty list.
    pub(crate) fn put_fields(&self, fields: &mut Fields<32>)
        requires empty { fields.old ≡ [] }
        ensures { fields.new ≡ map numbers.U32 self.now }
    {
        for id in self.ids() {
            fields.push(Field::U32(*id));
        }
    }

    /// Returns the ids of these fields, or `None` if a field is wider than an id.
    pub(crate) fn of_fields(fields: &[Field]) -> Option<IdList>
        requires { length fields.now ≤ 32 }
        ensures { result ≡ ids_in fields.now }
    {
        let mut ids = ArrayVec::new();
        for field in fields {
            match field {
                Field::U32(id) => ids.push(*id),
                Field::U64(_) => return None,
            }
        }
        Some(IdList { named: ids })
    }
}
