//! The global names of objects.

ghost use Rattle.std.specs.Prelude.{◌≡◌, ◌≤◌, ◌↔◌, Some, None, find, slice_get, OnErr, IfOk, IfErr, IsTrue, option_map};
ghost use Rattle.drm_share.specs.Names.{AreNames, empty_names, is_name, name_of, free_name, nth_row, with_name, without_name_of};
ghost use Rattle.drm_share.specs.ShareFault.{IsFull};

use crate::faults::ShareFault;
use crate::rows::SharedName;
use drm_gem::ObjectKey;
use drm_id_alloc::{AddFault, IdTable};
use drm_index_array::IndexArray;
use std::alloc::Global;
use std::marker::Model;

/// The number of an audit's rows of names (own).
const NAME_KIND: u32 = 4;

/// The global names of objects (drm-gem(7), flink), each a number from 1 on. An object has one name at most. Contracts
/// see a flat list, in the order of the names.
///
/// # Examples
///
/// ```rust
/// use drm_gem::ObjectKey;
/// use drm_share::Names;
///
/// let alloc = rt.alloc();
/// let mut names = Names::new(alloc, 100);
/// let object = ObjectKey::from_number(4);
/// let Ok(name) = names.give(object) else { return };
/// assert!(rt; name == 1 && names.lookup(name) == Some(object));
/// ```
pub struct Names {
    objects: IdTable<ObjectKey>,
    // The names, by the numbers of their objects' keys.
    names: IndexArray<u32>,
}

// Written out, so that it is proved once: a derived one is proved again in each crate that drops such a value.
impl Drop for Names {
    fn drop(self) {
        let Names { objects, names } = self;
        drop(objects);
        drop(names);
    }
}

impl Model for Names {
    ghost use Rattle.drm_share.specs.Names.{NameList};
    ghost use Rattle.drm_share.specs.Tables.{name_list, HasNames};

    ghost Value = { NameList };

    ghost view = { λ names. name_list names.objects };

    ghost invariant = { λ names. HasNames names.objects names.names.items };
}

impl Names {
    /// Creates a table without names. It can allocate the names from 1 to `last`. Does not allocate memory.
    pub fn new(alloc: Global, last: u32) -> Names
        requires { 1 ≤ last }
        ensures { result ≡ empty_names last }
    {
        Names {
            objects: IdTable::new(alloc, 1, last),
            names: IndexArray::new(alloc),
        }
    }

    /// Returns the name of an object, if it has one. Does not allocate.
    pub fn name_of(&self, object: ObjectKey) -> Option<u32>
        ensures name { result ≡ name_of self.now object }
        ensures names { AreNames self.now }
    {
        self.names.get(object.number()).copied()
    }

    /// Allocates the lowest free name for an object that has none (drm-gem(7), flink; so does the kernel's IDR), and
    /// returns it.
    ///
    /// # Errors
    ///
    /// `Full` if no name is free, `NoMemory` if memory is refused. The names are then unchanged.
    pub fn give(&mut self, object: ObjectKey) -> Result<u32, ShareFault>
        requires unnamed { name_of self.old object ≡ None }
        ensures given { IfOk result (λ name. free_name self.old ≡ Some name) }
        ensures low { IfOk result (λ name. 1 ≤ name) }
        ensures high { IfOk result (λ name. name ≤ self.old.last) }
        ensures ok { IfOk result (λ name. self.new ≡ with_name self.old name object) }
        ensures err { OnErr result (self.new ≡ self.old) }
        ensures full { IfErr result (λ fault. IsFull fault ↔ (free_name self.old ≡ None)) }
    {
        let name = match self.objects.add(object) {
            Ok(name) => name,
            Err(AddFault::Full(_)) => return Err(ShareFault::Full),
            Err(AddFault::NoMemory(_)) => return Err(ShareFault::NoMemory),
        };
        if let Err(_fault) = self.names.insert(object.number(), name) {
            let _returned = self.objects.remove(name);
            return Err(ShareFault::NoMemory);
        }
        Ok(name)
    }

    /// Returns whether no name is free. Does not allocate.
    pub fn is_full(&self) -> bool
        ensures { IsTrue result ↔ (free_name self.now ≡ None) }
    {
        self.objects.is_full()
    }

    /// Returns the object that has a name, if there is one (drm-gem(7), opening by name). Does not allocate.
    pub fn lookup(&self, name: u32) -> Option<ObjectKey>
        ensures object { result ≡ option_map (λ row. row.object) (find (is_name name) self.now.names) }
        ensures names { AreNames self.now }
    {
        self.objects.get(name).copied()
    }

    /// Removes the name of an object, if it has one. Does not allocate.
    pub fn forget(&mut self, object: ObjectKey)
        ensures { self.new ≡ without_name_of self.old object }
    {
        if let Some(name) = self.names.remove(object.number()) {
            let _object = self.objects.remove(name);
        }
    }

    /// Returns the row at a position, from 0, of the rows of an audit's kind (own). Names are kind 4, in rising order.
    /// No other kind has rows here. Does not allocate.
    pub fn nth(&self, kind: u32, i: usize) -> Option<SharedName>
        ensures { result ≡ nth_row self.now kind i }
    {
        if kind != NAME_KIND {
            return None;
        }
        self.nth_name(i)
    }

    /// Returns the name at a position of the list of names, from 0, with its object. Does not allocate.
    pub fn nth_name(&self, position: usize) -> Option<SharedName>
        ensures row { result ≡ slice_get self.now.names position }
        ensures names { AreNames self.now }
    {
        let name = self.objects.nth(position)?;
        let object = *self.objects.get(name)?;
        Some(SharedName { name, object })
    }
}
