//! The array.

ghost use Rattle.std.specs.Prelude.{◌≡◌, ◌≤◌, ◌↔◌, ℕ, IsTrue, IsSome, OnOk, OnErr, IfOk, IfErr, IfSome, IfNone, option_copied, not, false};
ghost use Rattle.std.specs.Option.{option_copied_mut};
ghost use Rattle.std.specs.List.{slice_get};
ghost use Rattle.std.specs.Bool.{OnTrue, OnFalse};
ghost use Rattle.std.specs.FinMap as map;
ghost use Rattle.std.specs.FinSet as set;
ghost use Rattle.drm_index_array.specs.Least.{least};
ghost use Rattle.drm_index_array.specs.InsertFault.{value_of, IsTaken};

use crate::faults::InsertFault;
use crate::growth::{insert_below, remove_below};
use crate::marks::Mark;
use crate::spares::Spares;
use crate::tree::Node;
use crate::words::Sought;
use std::alloc::Global;
use std::marker::Model;

/// A finite map from `u32`, whose entries have three marks each (as Linux's XArray). Contracts see the map and, for
/// each mark, the set of the indices whose entry has it.
///
/// # Examples
///
/// ```rust
/// use drm_index_array::IndexArray;
///
/// let alloc = rt.alloc();
/// let mut array: IndexArray<u8> = IndexArray::new(alloc);
/// let Ok(()) = array.insert(300, 7) else { return };
/// ```
#[derive(Drop)]
pub struct IndexArray<T> {
    alloc: Global,
    // None before the first entry.
    root: Option<Box<Node<T>>>,
    count: usize,
    spares: Spares<T>,
}

impl<T> Model for IndexArray<T> {
    ghost use Rattle.drm_index_array.specs.Indexed.{Indexed, indexed_code};

    ghost Value = { Indexed T };

    ghost coded = { indexed_code T.code };

    ghost use Rattle.drm_index_array.specs.Marked.{array_of};
    ghost use Rattle.drm_index_array.specs.Root.{items_of, IsArray};

    ghost view = { λ a. array_of (items_of a.root) };

    ghost invariant = { λ a. IsArray a.root a.count };
}

impl<T: Drop> IndexArray<T> {
    ghost use Rattle.std.specs.Borrow.{sem};
    ghost use Rattle.drm_index_array.specs.Indexed.{empty_array, marked_with, with_item, without_item, with_mark, without_mark, written_mark};
    ghost use Rattle.drm_index_array.specs.Lends.{lends_get};
    ghost use Rattle.drm_index_array.specs.declared.marks.Mark.{Mark};

    /// Creates an empty array. It keeps the allocator for later entries. Does not allocate.
    pub fn new(alloc: Global) -> Self
        ensures { result ≡ empty_array }
    {
        IndexArray {
            alloc,
            root: None,
            count: 0,
            spares: Spares::none(),
        }
    }

    /// Returns the number of entries.
    pub fn len(&self) -> usize
        ensures len { result ≡ map.len self.now.items }
        ensures bound { (k : ℕ) → IsTrue (map.contains_key self.now.items k) → k ≤ u32.MAX }
    {
        self.count
    }

    /// Adds an entry with no mark.
    ///
    /// # Errors
    ///
    /// If the index has an entry or memory is refused, the array is unchanged, and the error has the value.
    pub fn insert(&mut self, index: u32, value: T) -> Result<(), InsertFault<T>>
        ensures ok { OnOk result (self.new ≡ with_item self.old index value) }
        ensures unmarked { OnOk result ((mark : Mark) → set.contains (marked_with self.new mark) index ≡ false) }
        ensures err { OnErr result (self.new ≡ self.old) }
        ensures returned { IfErr result (λ fault. value_of fault ≡ value) }

        // It is refused as taken exactly if the index has an entry.
        ensures absent { OnOk result (map.get self.old.items index ≡ None) }
        ensures taken { IfErr result (λ fault. IsTaken fault ↔ IsSome (map.get self.old.items index)) }
    {
        let root = &mut self.root;
        if let Err(fault) = insert_below(root, self.alloc, &mut self.spares, index as u64, value) {
            return Err(fault);
        }
        self.count += 1;
        Ok(())
    }

    /// Returns the value at the index, if there is one.
    pub fn get(&self, index: u32) -> Option<&T>
        ensures value { option_copied result ≡ map.get self.now.items index }
        ensures bound { (k : ℕ) → IsTrue (map.contains_key self.now.items k) → k ≤ u32.MAX }
    {
        let Some(root) = &self.root else {
            return None;
        };
        let Some(entry) = root.find(index as u64) else {
            return None;
        };
        Some(&entry.value)
    }

    /// Returns the value at the index for writing, if there is one. The entry keeps its marks.
    pub fn get_mut(&mut self, index: u32) -> Option<&mut T>
        ensures* writes_back { sem 𝓛 (lends_get T.row self.entry index result) }
        ensures value { option_copied_mut result ≡ map.get self.old.items index }
    {
        match &mut self.root {
            Some(root) => root.get_mut(index as u64),
            None => None,
        }
    }

    /// Removes the entry with its marks, and returns its value. If there is none, the array is unchanged. Does not
    /// allocate.
    pub fn remove(&mut self, index: u32) -> Option<T>
        ensures value { result ≡ map.get self.old.items index }
        ensures after { self.new ≡ without_item self.old index }
        ensures absent { IfNone result (self.new ≡ self.old) }
    {
        let Some(value) = remove_below(&mut self.root, &mut self.spares, index as u64) else {
            return None;
        };
        self.count -= 1;
        Some(value)
    }

    /// Sets the mark of the entry at the index, and returns whether there is one.
    pub fn set_mark(&mut self, index: u32, mark: Mark) -> bool
        ensures result { IsTrue result ↔ IsSome (map.get self.old.items index) }
        ensures present { OnTrue result (self.new ≡ with_mark self.old index mark) }
        ensures absent { OnFalse result (self.new ≡ self.old) }
    {
        self.write_mark(index, mark, true)
    }

    /// Clears the mark of the entry at the index, and returns whether there is one.
    pub fn clear_mark(&mut self, index: u32, mark: Mark) -> bool
        ensures result { IsTrue result ↔ IsSome (map.get self.old.items index) }
        ensures present { OnTrue result (self.new ≡ without_mark self.old index mark) }
        ensures absent { OnFalse result (self.new ≡ self.old) }
    {
        self.write_mark(index, mark, false)
    }

    fn write_mark(&mut self, index: u32, mark: Mark, on: bool) -> bool
        ensures result { IsTrue result ↔ IsSome (map.get self.old.items index) }
        ensures present { OnTrue result (self.new ≡ written_mark self.old index mark on) }
        ensures absent { OnFalse result (self.new ≡ self.old) }
    {
        let Some(root) = &mut self.root else {
            return false;
        };
        if root.find(index as u64).is_none() {
            return false;
        }
        root.write_mark(index as u64, mark, on);
        true
    }

    /// Returns whether the index has an entry with the mark.
    pub fn marked(&self, index: u32, mark: Mark) -> bool
        ensures marked { result ≡ set.contains (marked_with self.now mark) index }
        ensures present { (k : ℕ) → IsTrue (set.contains (marked_with self.now mark) k) → IsTrue (map.contains_key self.now.items k) }
    {
        let Some(root) = &self.root else {
            return false;
        };
        let Some(entry) = root.find(index as u64) else {
            return false;
        };
        entry.has(mark)
    }

    /// Returns the lowest index not below `from` that has an entry.
    pub fn next(&self, from: u32) -> Option<u32>
        ensures least { result ≡ least (map.contains_key self.now.items) from u32.MAX }
        ensures none_above { IfNone result ((k : ℕ) → from ≤ k → map.contains_key self.now.items k ≡ false) }
        ensures bound { (k : ℕ) → IsTrue (map.contains_key self.now.items k) → k ≤ u32.MAX }
    {
        let Some(root) = &self.root else {
            return None;
        };
        let Some(found) = root.first(Sought::Taken, from as u64) else {
            return None;
        };
        Some(found as u32)
    }

    /// Returns the index at a position among those that have an entry, from 0, in rising order. The cost does not
    /// depend on the position.
    pub fn nth(&self, position: usize) -> Option<u32>
        ensures nth { result ≡ slice_get (map.keys self.now.items) position }
        ensures present { IfSome result (λ index. IsTrue (map.contains_key self.now.items index)) }
        ensures past { IfNone result (map.len self.now.items ≤ position) }
        ensures bound { (k : ℕ) → IsTrue (map.contains_key self.now.items k) → k ≤ u32.MAX }
    {
        let Some(root) = &self.root else {
            return None;
        };
        let Some(found) = root.nth(position) else {
            return None;
        };
        Some(found as u32)
    }

    /// Returns the lowest index not below `from` whose entry has the mark.
    pub fn next_marked(&self, from: u32, mark: Mark) -> Option<u32>
        ensures least { result ≡ least (set.contains (marked_with self.now mark)) from u32.MAX }
        ensures none_above { IfNone result ((k : ℕ) → from ≤ k → set.contains (marked_with self.now mark) k ≡ false) }
        ensures present { (k : ℕ) → IsTrue (set.contains (marked_with self.now mark) k) → IsTrue (map.contains_key self.now.items k) }
    {
        let Some(root) = &self.root else {
            return None;
        };
        let Some(found) = root.first(Sought::Marked(mark), from as u64) else {
            return None;
        };
        Some(found as u32)
    }

    /// Returns the lowest index not below `from` that has no entry.
    ///
    /// # Examples
    ///
    /// ```rust
    /// use drm_index_array::IndexArray;
    ///
    /// let alloc = rt.alloc();
    /// let mut array: IndexArray<u8> = IndexArray::new(alloc);
    /// let Ok(()) = array.insert(40, 1) else { return };
    /// assert!(rt; array.next_vacant(40) == Some(41));
    /// ```
    pub fn next_vacant(&self, from: u32) -> Option<u32>
        ensures { result ≡ least (λ i. not (map.contains_key self.now.items i)) from u32.MAX }
    {
        let Some(root) = &self.root else {
            return Some(from);
        };
        let vacant = root.next_vacant(from as u64);
        if vacant > u32::MAX as u64 {
            return None;
        }
        Some(vacant as u32)
    }
}
