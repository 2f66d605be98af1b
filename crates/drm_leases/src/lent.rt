//! The mode objects that masters have lent.

ghost use Rattle.std.specs.Prelude.{◌≡◌, ℕ, ◌==◌, ◌&&◌, ◌||◌, false, not, OnOk, OnErr};
ghost use Rattle.drm_leases.specs.Masks.{has_object, mask_at};

use crate::masks;
use drm_index_array::IndexArray;
use drm_masters::NoMemory;
use std::alloc::Global;

/// For each lessor a mask of what it has lent, by its step number. A master without an entry has lent nothing.
#[derive(Drop)]
pub struct Lent {
    pub(crate) masks: IndexArray<u64>,
}

impl Lent {
    /// Creates a table in which nothing is lent. Does not allocate.
    pub fn new(alloc: Global) -> Lent
        ensures { (m x : ℕ) → has_object (mask_at result.masks.items m) x ≡ false }
    {
        Lent {
            masks: IndexArray::new(alloc),
        }
    }

    /// Returns the mask of what a master has lent.
    pub fn mask(&self, lessor: u32) -> u64
        ensures { result ≡ mask_at self.now.masks.items lessor }
    {
        match self.masks.get(lessor) {
            Some(mask) => *mask,
            None => 0,
        }
    }

    /// Adds mode objects to those that a master has lent. If memory is refused, nothing changes.
    pub fn lend(&mut self, lessor: u32, objects: u64) -> Result<(), NoMemory>
        ensures ok { OnOk result ((m x : ℕ) → has_object (mask_at self.new.masks.items m) x ≡ (has_object (mask_at self.old.masks.items m) x || ((lessor == m) && has_object objects x))) }
        ensures err { OnErr result (self.new ≡ self.old) }
    {
        if let Some(mask) = self.masks.get_mut(lessor) {
            *mask = masks::union(*mask, objects);
            return Ok(());
        }
        if let Err(_fault) = self.masks.insert(lessor, objects) {
            return Err(NoMemory);
        }
        Ok(())
    }

    /// Removes mode objects from those that a master has lent. Does not allocate.
    pub fn give_back(&mut self, lessor: u32, objects: u64)
        ensures { (m x : ℕ) → has_object (mask_at self.new.masks.items m) x ≡ (has_object (mask_at self.old.masks.items m) x && not ((lessor == m) && has_object objects x)) }
    {
        let left = masks::without(self.mask(lessor), objects);
        if left == 0 {
            let _mask = self.masks.remove(lessor);
            return;
        }
        let Some(mask) = self.masks.get_mut(lessor) else {
            return;
        };
        *mask = left;
    }
}
