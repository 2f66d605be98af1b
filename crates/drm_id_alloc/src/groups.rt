//! Numbers by groups.

ghost use Rattle.std.specs.Prelude.{◌≡◌, ◌≤◌, ℕ, false, length, slice_get, OnOk, OnErr, IfNone};
ghost use Rattle.std.specs.FinMap as map;
ghost use Rattle.drm_index_array.specs.Indexed.{without_item};
ghost use Rattle.drm_index_array.specs.Least.{least};
ghost use Rattle.drm_id_alloc.specs.Groups.{IsAdded, IsTaken, has, numbers_of};

use crate::faults::NoMemory;
use crate::numbers::Numbers;
use drm_index_array::IndexArray;
use std::alloc::Global;
use std::marker::Model;

/// The numbers of each group. Those of one group are found without the others. Groups and numbers are any numbers of 32
/// bits. Contracts see a map from each group to its numbers.
///
/// A group costs its place in an array of the groups. That is some 50 bytes if their numbers are close, and up to six
/// nodes of 64 places if they are not. One number of a group costs no more than that. From the second on, the group has
/// an array. A group without numbers costs nothing.
///
/// # Examples
///
/// ```rust
/// use drm_id_alloc::Groups;
///
/// let alloc = rt.alloc();
/// let mut groups = Groups::new(alloc);
/// let Ok(()) = groups.note(3, 500) else { return };
/// ```
#[derive(Drop)]
pub struct Groups {
    alloc: Global,
    groups: IndexArray<Numbers>,
}

impl Model for Groups {
    ghost use Rattle.drm_id_alloc.specs.Groups.{GroupMap, group_code};

    ghost Value = { GroupMap };

    ghost coded = { group_code };

    ghost view = { λ a. a.groups.items };
}

impl Groups {
    /// Creates a table in which no group has a number. Does not allocate.
    pub fn new(alloc: Global) -> Groups
        ensures { (g n : ℕ) → has result g n ≡ false }
    {
        Groups {
            alloc,
            groups: IndexArray::new(alloc),
        }
    }

    /// Adds a number to a group. If the group has it already, nothing changes.
    ///
    /// # Errors
    ///
    /// If memory is refused, nothing changes.
    pub fn note(&mut self, group: u32, number: u32) -> Result<(), NoMemory>
        ensures ok { OnOk result (IsAdded (has self.old) group number (has self.new)) }
        ensures err { OnErr result (self.new ≡ self.old) }
    {
        if let Some(numbers) = self.groups.get_mut(group) {
            return numbers.note(self.alloc, number);
        }
        if let Err(_fault) = self.groups.insert(group, Numbers::one(number)) {
            return Err(NoMemory);
        }
        Ok(())
    }

    /// Removes a number from a group, if the group has it. Does not allocate.
    pub fn forget(&mut self, group: u32, number: u32)
        ensures { IsTaken (has self.old) group number (has self.new) }
    {
        let Some(numbers) = self.groups.get_mut(group) else {
            return;
        };
        numbers.forget(self.alloc, number);
        let left = numbers.len();
        if left == 0 {
            take_out(&mut self.groups, group);
        }
    }

    /// Returns the lowest number of a group that is not below `from`.
    pub fn next(&self, group: u32, from: u32) -> Option<u32>
        ensures least { result ≡ least (has self.now group) from u32.MAX }
        ensures none_above { IfNone result ((n : ℕ) → from ≤ n → has self.now group n ≡ false) }
    {
        self.groups.get(group)?.next(from)
    }

    /// Returns the number at a position among those of a group, from 0, in rising order. The cost does not depend on
    /// the position.
    pub fn nth(&self, group: u32, position: usize) -> Option<u32>
        ensures { result ≡ slice_get (numbers_of self.now group) position }
    {
        self.groups.get(group)?.nth(position)
    }

    /// Returns the number of numbers in a group.
    pub fn len(&self, group: u32) -> usize
        ensures { result ≡ length (numbers_of self.now group) }
    {
        match self.groups.get(group) {
            Some(numbers) => numbers.len(),
            None => 0,
        }
    }

    /// Returns whether a group has a number.
    pub fn has(&self, group: u32, number: u32) -> bool
        ensures { result ≡ has self.now group number }
    {
        match self.groups.get(group) {
            Some(numbers) => numbers.has(number),
            None => false,
        }
    }
}

/// Removes a group.
fn take_out(groups: &mut IndexArray<Numbers>, group: u32)
    ensures { groups.new ≡ without_item groups.old group }
{
    let _numbers = groups.remove(group);
}
