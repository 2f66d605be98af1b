//! The mode objects that lessees control and lessors have lent, a mask for each.

ghost use Rattle.std.specs.Prelude.{◌≡◌, ℕ, ◌<◌, ◌==◌, [], not, length, filter, slice_get, OnOk, OnErr, true, false};
ghost use Rattle.std.specs.List.{AllByRecursion};
ghost use Rattle.drm_index_array.specs.Rows.{placed};
ghost use Rattle.drm_index_array.specs.Orders.{InOrder};
ghost use Rattle.drm_leases.specs.Leases as sets;
ghost use Rattle.drm_leases.specs.Masks.{has_object, grants_in, lendings_in, is_lent, IsFull, lease, lease_before};

use crate::lent::Lent;
use crate::masks;
use crate::rows::{Lease, LeaseRecord};
use drm_index_array::IndexArray;
use drm_masters::{MasterKey, NoMemory};
use drm_table::ShownList;
use std::alloc::Global;
use std::marker::Model;

/// The leases, by the step numbers and by the keys of their lessees, and what each lessor has lent by them. A lease has
/// a mode object at least, and no lessor lends a mode object twice. Contracts see a flat list, in the order of the
/// lessees.
#[derive(Drop)]
pub struct Granted {
    leases: IndexArray<LeaseRecord>,
    // the step numbers of the lessees, by their keys
    lessees: IndexArray<u32>,
    lent: Lent,
}

impl Model for Granted {
    ghost use Rattle.drm_leases.specs.Masks.{LeaseRows};

    ghost Value = { LeaseRows };

    ghost use Rattle.drm_leases.specs.Records.{rows_of, IsGranted};

    ghost view = { rows_of };

    ghost invariant = { IsGranted };
}

impl Granted {
    /// Creates a table without leases. Does not allocate.
    pub fn new(alloc: Global) -> Granted
        ensures { result ≡ record { rows = [] } }
    {
        Granted {
            leases: IndexArray::new(alloc),
            lessees: IndexArray::new(alloc),
            lent: Lent::new(alloc),
        }
    }

    /// States the facts that always hold for leases. Calling it does nothing.
    pub fn laws(&self)
        ensures rise { InOrder (λ x y. x.lessee < y.lessee) self.now.rows }
        ensures full { AllByRecursion IsFull self.now.rows }
    {
        let _ = &self.leases;
    }

    /// Returns the number of leases.
    pub fn len(&self) -> usize
        ensures { result ≡ length self.now.rows }
    {
        self.leases.len()
    }

    /// Returns the lease at a position, from 0, in the order of the lessees' step numbers.
    pub fn nth(&self, position: usize) -> Option<Lease>
        ensures { result ≡ slice_get self.now.rows position }
    {
        let lessee = self.leases.nth(position)?;
        let kept = *self.leases.get(lessee)?;
        Some(lease_of(lessee, kept))
    }

    /// Returns the lessee whose lease has the key. Does not allocate.
    pub fn lessee(&self, key: MasterKey) -> Option<u32>
        ensures { result ≡ sets.lessee_at (lendings_in self.now.rows) key }
    {
        self.lessees.get(key.number()).copied()
    }

    /// Returns the key of a lessee that has a lease. Does not allocate.
    pub fn key(&self, lessee: u32) -> Option<MasterKey>
        ensures { result ≡ sets.key_at (lendings_in self.now.rows) lessee }
    {
        Some(self.leases.get(lessee)?.key)
    }

    /// Returns a mask of the mode objects in the lease of a lessee. It is 0 if the lessee has no lease.
    pub fn objects(&self, lessee: u32) -> u64
        ensures { (x : ℕ) → has_object result x ≡ sets.is_granted (grants_in self.now.rows) lessee x }
    {
        match self.leases.get(lessee) {
            Some(kept) => kept.objects,
            None => 0,
        }
    }

    /// Returns the mode objects in the lease of a lessee, in rising order.
    pub fn objects_of(&self, lessee: u32) -> ShownList
        ensures { result ≡ sets.granted_objects (grants_in self.now.rows) lessee }
    {
        match self.leases.get(lessee) {
            Some(kept) => masks::objects_of(kept.objects),
            None => ShownList::new(),
        }
    }

    /// Returns a mask of what the lessor has lent.
    pub fn lent_by(&self, lessor: u32) -> u64
        ensures { (x : ℕ) → has_object result x ≡ is_lent self.now.rows lessor x }
    {
        self.lent.mask(lessor)
    }

    /// Adds the lease of a lessee that has none, under a key that no lease has. If memory is refused, nothing changes.
    pub fn add(
        &mut self,
        lessee: u32,
        lessor: u32,
        key: MasterKey,
        objects: u64,
    ) -> Result<(), NoMemory>
        requires some { IsFull (lease lessee lessor key objects) }
        requires unlent { (x : ℕ) → has_object objects x ≡ true → is_lent self.old.rows lessor x ≡ false }
        ensures ok { OnOk result (self.new.rows ≡ placed lease_before (lease lessee lessor key objects) self.old.rows) }
        ensures err { OnErr result (self.new ≡ self.old) }
    {
        if let Err(NoMemory) = self.lent.lend(lessor, objects) {
            return Err(NoMemory);
        }
        if let Err(_fault) = self.lessees.insert(key.number(), lessee) {
            self.lent.give_back(lessor, objects);
            return Err(NoMemory);
        }
        let record = LeaseRecord {
            lessor,
            key,
            objects,
        };
        if let Err(_fault) = self.leases.insert(lessee, record) {
            let _lessee = self.lessees.remove(key.number());
            self.lent.give_back(lessor, objects);
            return Err(NoMemory);
        }
        Ok(())
    }

    /// Removes the lease of a lessee. Its lessor has the mode objects back.
    pub fn remove(&mut self, lessee: u32)
        ensures { self.new.rows ≡ filter (λ x. not (x.lessee == lessee)) self.old.rows }
    {
        let Some(kept) = self.leases.remove(lessee) else {
            return;
        };
        let _lessee = self.lessees.remove(kept.key.number());
        self.lent.give_back(kept.lessor, kept.objects);
    }
}

fn lease_of(lessee: u32, kept: LeaseRecord) -> Lease
    ensures { result ≡ lease lessee kept.lessor kept.key kept.objects }
{
    Lease {
        lessee,
        lessor: kept.lessor,
        key: kept.key,
        objects: kept.objects,
    }
}
