//! The table.

ghost use Rattle.std.specs.Prelude.{◌≡◌, ◌≤◌, ◌↔◌, ℕ, IsTrue, OnOk, OnErr, OnSome, IfSome, IfNone, IfOk, IfErr, Some, None, option_copied, false};
ghost use Rattle.std.specs.List.{slice_get};
ghost use Rattle.std.specs.FinMap as map;
ghost use Rattle.drm_index_array.specs.Least.{least};
ghost use Rattle.drm_id_alloc.specs.AddFault.{value_of, IsFull};

use crate::faults::AddFault;
use drm_index_array::IndexArray;
use std::alloc::Global;
use std::marker::Model;

/// A table whose numbers are allocated from a range, with both its ends (as Linux's IDR). Contracts see the map from
/// numbers to values, the range, and the number that [`IdTable::add_cyclic`] returned last.
///
/// # Examples
///
/// ```rust
/// use drm_id_alloc::IdTable;
///
/// let alloc = rt.alloc();
/// let mut table: IdTable<u8> = IdTable::new(alloc, 1, 2);
/// let Ok(id) = table.add(7) else { return };
/// ```
#[derive(Drop)]
pub struct IdTable<T> {
    entries: IndexArray<T>,
    first: u32,
    last: u32,
    last_given: Option<u32>,
    // Each number of the range below it has an entry. The search for the lowest free number starts here.
    start: u32,
}

impl<T> Model for IdTable<T> {
    ghost use Rattle.drm_id_alloc.specs.Table.{Table, table_code, IsSearchable};

    ghost Value = { Table T };

    ghost coded = { table_code T.code };

    ghost view = { λ t. record {
      slots = t.entries.items;
      first = t.first;
      last = t.last;
      last_given = t.last_given;
    } };

    ghost invariant = { λ t. IsSearchable (t.entries.items) t.first t.last t.last_given t.start };
}

impl<T: Drop> IdTable<T> {
    ghost use Rattle.drm_id_alloc.specs.Table.{empty_table, least_free, next_cyclic, is_free, with_entry, without_entry};

    /// Creates an empty table. It keeps the allocator for later entries. Does not allocate.
    pub fn new(alloc: Global, first: u32, last: u32) -> Self
        requires { first ≤ last }
        ensures { result ≡ empty_table first last }
    {
        IdTable {
            entries: IndexArray::new(alloc),
            first,
            last,
            last_given: None,
            start: first,
        }
    }

    /// Adds the value at the lowest free number, and returns the number.
    ///
    /// # Errors
    ///
    /// If no number is free or memory is refused, the table is unchanged, and the error has the value.
    pub fn add(&mut self, value: T) -> Result<u32, AddFault<T>>
        ensures given { IfOk result (λ id. least_free self.old ≡ Some id) }
        ensures fresh { IfOk result (λ id. map.get self.old.slots id ≡ None) }
        ensures low { IfOk result (λ id. self.old.first ≤ id) }
        ensures high { IfOk result (λ id. id ≤ self.old.last) }
        ensures ok { IfOk result (λ id. self.new ≡ with_entry self.old id value) }
        ensures err { OnErr result (self.new ≡ self.old) }
        ensures returned { IfErr result (λ fault. value_of fault ≡ value) }

        // It is refused as full exactly if no number is free.
        ensures full { IfErr result (λ fault. IsFull fault ↔ (least_free self.old ≡ None)) }
    {
        let Some(id) = self.lowest_free() else {
            return Err(AddFault::Full(value));
        };
        self.put(id, value)?;
        self.start = id.saturating_add(1);
        Ok(id)
    }

    /// Adds the value at the next number in rotation, and returns the number. It is the lowest free one above the last
    /// one that this call returned. If there is none, it is the lowest free one.
    ///
    /// # Errors
    ///
    /// If no number is free or memory is refused, the table is unchanged, and the error has the value.
    ///
    /// # Examples
    ///
    /// ```rust
    /// use drm_id_alloc::{AddFault, IdTable};
    ///
    /// let alloc = rt.alloc();
    /// let mut table: IdTable<u8> = IdTable::new(alloc, 1, 2);
    /// let Ok(id) = table.add(7) else { return };
    /// let Ok(other) = table.add_cyclic(8) else { return };
    /// assert!(rt; other == 2 || other == 1);
    /// assert!(rt; table.add(9) == Err(AddFault::Full(9)));
    /// ```
    pub fn add_cyclic(&mut self, value: T) -> Result<u32, AddFault<T>>
        ensures given { IfOk result (λ id. next_cyclic self.old ≡ Some id) }
        ensures fresh { IfOk result (λ id. map.get self.old.slots id ≡ None) }
        ensures low { IfOk result (λ id. self.old.first ≤ id) }
        ensures high { IfOk result (λ id. id ≤ self.old.last) }
        ensures ok { IfOk result (λ id. self.new ≡ record (with_entry self.old id value) { last_given = Some id }) }
        ensures err { OnErr result (self.new ≡ self.old) }
        ensures returned { IfErr result (λ fault. value_of fault ≡ value) }

        // It is refused as full exactly if no number is free.
        ensures full { IfErr result (λ fault. IsFull fault ↔ (next_cyclic self.old ≡ None)) }
    {
        let Some(id) = self.next_in_turn() else {
            return Err(AddFault::Full(value));
        };
        self.put(id, value)?;
        self.last_given = Some(id);
        Ok(id)
    }

    /// Returns the lowest free number.
    fn lowest_free(&self) -> Option<u32>
        ensures least { result ≡ least_free self.now }
        ensures fresh { IfSome result (λ id. map.get self.now.slots id ≡ None) }
        ensures low { IfSome result (λ id. self.now.first ≤ id) }
        ensures high { IfSome result (λ id. id ≤ self.now.last) }
    {
        self.free_from(self.start)
    }

    /// Returns the lowest free number not below `from`.
    fn free_from(&self, from: u32) -> Option<u32>
        ensures least { result ≡ least (is_free self.now) from self.now.last }
        ensures fresh { IfSome result (λ id. map.get self.now.slots id ≡ None) }
        ensures low { IfSome result (λ id. from ≤ id) }
        ensures high { IfSome result (λ id. id ≤ self.now.last) }
    {
        if from <= self.last && self.entries.get(from).is_none() {
            return Some(from);
        }
        let Some(id) = self.entries.next_vacant(from) else {
            return None;
        };
        if id > self.last {
            return None;
        }
        Some(id)
    }

    /// Returns the number that [`IdTable::add_cyclic`] returns next, or `None` if no number is free.
    pub fn next_in_turn(&self) -> Option<u32>
        ensures next { result ≡ next_cyclic self.now }
        ensures fresh { IfSome result (λ id. map.get self.now.slots id ≡ None) }
        ensures low { IfSome result (λ id. self.now.first ≤ id) }
        ensures high { IfSome result (λ id. id ≤ self.now.last) }
    {
        let Some(given) = self.last_given else {
            return self.free_from(self.first);
        };
        if given >= self.last {
            return self.free_from(self.first);
        }
        let above = self.free_from(given + 1);
        if above.is_some() {
            return above;
        }
        self.free_from(self.first)
    }

    fn put(&mut self, id: u32, value: T) -> Result<(), AddFault<T>>
        requires fresh { map.get self.old.slots id ≡ None }
        requires low { self.old.first ≤ id }
        requires high { id ≤ self.old.last }
        ensures ok { OnOk result (self.new ≡ with_entry self.old id value) }
        ensures err { OnErr result (self.new ≡ self.old) }
        ensures returned { IfErr result (λ fault. value_of fault ≡ value) }
        ensures no_memory { IfErr result (λ fault. ¬ (IsFull fault)) }
    {
        if let Err(fault) = self.entries.insert(id, value) {
            return Err(AddFault::NoMemory(fault.into_value()));
        }
        Ok(())
    }

    /// Returns the value at the number, if there is one.
    pub fn get(&self, id: u32) -> Option<&T>
        ensures value { option_copied result ≡ map.get self.now.slots id }
        ensures low { OnSome result (self.now.first ≤ id) }
        ensures high { OnSome result (id ≤ self.now.last) }
    {
        self.entries.get(id)
    }

    /// Replaces the value of a number, and returns the old one.
    ///
    /// # Errors
    ///
    /// If the number has no value, the table is unchanged, and the error is the new value.
    pub fn replace(&mut self, id: u32, value: T) -> Result<T, T>
        ensures had { IfOk result (λ old. map.get self.old.slots id ≡ Some old) }
        ensures ok { OnOk result (self.new ≡ with_entry self.old id value) }
        ensures absent { OnErr result (map.get self.old.slots id ≡ None) }
        ensures returned { IfErr result (λ v. v ≡ value) }
        ensures err { OnErr result (self.new ≡ self.old) }
    {
        let Some(slot) = self.entries.get_mut(id) else {
            return Err(value);
        };
        Ok(std::mem::replace(slot, value))
    }

    /// Removes the value of a number, which is then free, and returns the value. If the number has no value, the table
    /// is unchanged. The last number that was returned stays the last. Does not allocate.
    pub fn remove(&mut self, id: u32) -> Option<T>
        ensures value { result ≡ map.get self.old.slots id }
        ensures after { self.new ≡ without_entry self.old id }
        ensures absent { IfNone result (self.new ≡ self.old) }
    {
        let value = self.entries.remove(id)?;
        if id < self.start {
            self.start = id;
        }
        Some(value)
    }

    /// Returns the lowest number not below `from` that is in use.
    pub fn next(&self, from: u32) -> Option<u32>
        ensures least { result ≡ least (map.contains_key self.now.slots) from u32.MAX }
        ensures none_above { IfNone result ((k : ℕ) → from ≤ k → map.contains_key self.now.slots k ≡ false) }
        ensures bound { (k : ℕ) → IsTrue (map.contains_key self.now.slots k) → k ≤ u32.MAX }
        ensures low { (k : ℕ) → IsTrue (map.contains_key self.now.slots k) → self.now.first ≤ k }
        ensures high { (k : ℕ) → IsTrue (map.contains_key self.now.slots k) → k ≤ self.now.last }
    {
        self.entries.next(from)
    }

    /// Returns the number at a position among those in use, from 0, in rising order. The cost does not depend on the
    /// position.
    pub fn nth(&self, position: usize) -> Option<u32>
        ensures nth { result ≡ slice_get (map.keys self.now.slots) position }
        ensures present { IfSome result (λ id. IsTrue (map.contains_key self.now.slots id)) }
        ensures past { IfNone result (map.len self.now.slots ≤ position) }
        ensures bound { (k : ℕ) → IsTrue (map.contains_key self.now.slots k) → k ≤ u32.MAX }
        ensures low { (k : ℕ) → IsTrue (map.contains_key self.now.slots k) → self.now.first ≤ k }
        ensures high { (k : ℕ) → IsTrue (map.contains_key self.now.slots k) → k ≤ self.now.last }
    {
        self.entries.nth(position)
    }

    /// Returns the number of numbers in use.
    pub fn len(&self) -> usize
        ensures len { result ≡ map.len self.now.slots }
        ensures bound { (k : ℕ) → IsTrue (map.contains_key self.now.slots k) → k ≤ u32.MAX }
    {
        self.entries.len()
    }

    /// Returns whether no number is free.
    pub fn is_full(&self) -> bool
        ensures { IsTrue result ↔ (least_free self.now ≡ None) }
    {
        // Each number in use is in the range, so the table is full if it has one for each number of the range.
        self.len() > (self.last - self.first) as usize
    }

    /// Returns the last number that [`IdTable::add_cyclic`] returned, or `None` before the first.
    pub fn last_given(&self) -> Option<u32>
        ensures last_given { result ≡ self.now.last_given }
        ensures low { IfSome result (λ id. self.now.first ≤ id) }
        ensures high { IfSome result (λ id. id ≤ self.now.last) }
    {
        self.last_given
    }
}
