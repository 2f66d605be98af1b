//! The masters that exist.

ghost use Rattle.std.specs.Prelude.{◌≡◌, ◌+◌, ◌<◌, ◌≤◌, ◌++◌, ◌∷◌, ℕ, [], None, Some, true, false, not, find, filter, map as list_map, length, slice_get, OnOk, OnErr, IfOk, IfNone, if◌then◌else◌};
ghost use Rattle.std.specs.List.{list_any, AllByRecursion};
ghost use Rattle.std.specs.Option.{is_some, option_map_or};
ghost use Rattle.std.specs.FinMap as map;
ghost use Rattle.drm_index_array.specs.Indexed.{with_item};
ghost use Rattle.drm_index_array.specs.Least.{least};
ghost use Rattle.drm_index_array.specs.Rows.{placed};
ghost use Rattle.drm_id_alloc.specs.Groups.{has};
ghost use Rattle.drm_masters.specs.Masters as sets;
ghost use Rattle.drm_masters.specs.Calls as calls;
ghost use Rattle.drm_masters.specs.Ids.{IsNamed, IsUnnamed, id_at};
ghost use Rattle.drm_masters.specs.Tables.{IsListed, IsUnlisted};

use crate::ids::{OwnerIds, put_new};
use crate::rows::{Master, MasterKey};
use crate::searches::owner_of;
use drm_id_alloc::{Groups, NoMemory};
use drm_index_array::IndexArray;
use slab::Slab;
use std::alloc::Global;
use std::marker::Model;

/// The masters that exist, under keys that are reused. Contracts see a flat list, in the order of step numbers.
#[derive(Drop)]
pub struct MasterTable {
    // the keys, by the step numbers of their masters
    keys: IndexArray<u32>,
    kept: Slab<Master>,
    // the step numbers of lessees, by those of their lessors
    lessees: Groups,
    // and by their owners and ids
    ids: OwnerIds,
}

impl Model for MasterTable {
    ghost use Rattle.drm_masters.specs.Tables.{MasterRows};

    ghost Value = { MasterRows };

    ghost use Rattle.drm_masters.specs.Records.{rows_of, IsTable};

    ghost view = { rows_of };

    ghost invariant = { IsTable };
}

impl MasterTable {
    /// Creates a table without masters. Does not allocate.
    pub fn new(alloc: Global) -> MasterTable
        ensures { result ≡ record { items = [] } }
    {
        MasterTable {
            keys: IndexArray::new(alloc),
            kept: Slab::new(alloc),
            lessees: Groups::new(alloc),
            ids: OwnerIds::new(alloc),
        }
    }

    /// Returns the number of masters.
    pub fn len(&self) -> usize
        ensures { result ≡ length self.now.items }
    {
        self.keys.len()
    }

    /// Returns the master with a step number, if it exists.
    pub fn at(&self, step_number: u32) -> Option<Master>
        ensures { result ≡ sets.master_at self.now.items step_number }
    {
        let key = *self.keys.get(step_number)?;
        let master = self.kept.get(key as usize)?;
        Some(*master)
    }

    /// Returns the master with a key, if it exists.
    pub fn of_key(&self, key: MasterKey) -> Option<Master>
        ensures { result ≡ find (sets.is_key key) self.now.items }
    {
        let master = self.kept.get(key.number() as usize)?;
        Some(*master)
    }

    /// Returns the master at a position, from 0.
    pub fn nth(&self, position: usize) -> Option<Master>
        ensures { result ≡ slice_get self.now.items position }
    {
        let step_number = self.keys.nth(position)?;
        self.at(step_number)
    }

    /// Adds a master under its own key, and returns that key. A lessee has an id that no other of its owner has. If
    /// memory is refused, nothing changes.
    pub fn insert(&mut self, master: Master) -> Result<MasterKey, NoMemory>
        requires absent { is_some (sets.master_at self.old.items master.step_number) ≡ false }
        requires older { AllByRecursion (sets.HasOlderLessor self.old.items) self.old.items }
        requires there { sets.HasOlderLessor self.old.items master }
        requires other_id { (l : ℕ) → master.lessor ≡ Some l → list_any (sets.is_lessee_of self.old.items (sets.owner_of self.old.items l) master.lessee_id) self.old.items ≡ false }
        ensures ok { IfOk result (λ key. self.new.items ≡ placed sets.master_before (calls.keyed_as key master) self.old.items) }
        ensures free { IfOk result (λ key. find (sets.is_key key) self.old.items ≡ None) }
        ensures err { OnErr result (self.new ≡ self.old) }
    {
        let step_number = master.step_number;
        let lessor = master.lessor;
        let id = master.lessee_id;
        let owner = owner_to_be(self, lessor, step_number);
        // A slab returns low keys, but its contract does not say so. Keys of 32 bits are exhausted long after the
        // memory.
        let number = self.kept.vacant_key();
        if number > u32::MAX as usize {
            return Err(NoMemory);
        }
        if let Err(_fault) = self.kept.reserve(1) {
            return Err(NoMemory);
        }
        if let Err(NoMemory) = name(&mut self.ids, owner, lessor, id, step_number) {
            return Err(NoMemory);
        }
        if let Err(NoMemory) = list(&mut self.lessees, lessor, step_number) {
            unname(&mut self.ids, owner, lessor, id);
            return Err(NoMemory);
        }
        if let Err(NoMemory) = put_new(&mut self.keys, step_number, number as u32) {
            unlist(&mut self.lessees, lessor, step_number);
            unname(&mut self.ids, owner, lessor, id);
            return Err(NoMemory);
        }
        let key = MasterKey::from_number(number as u32);
        let _number = self.kept.insert_reserved(Master { key, ..master });
        Ok(key)
    }

    /// Sets whether the master with a step number is kept, if it exists.
    pub fn set_kept(&mut self, step_number: u32, kept: bool)
        ensures { self.new.items ≡ list_map (λ x. if sets.is_step_number step_number x then calls.kept_as kept x else x) self.old.items }
    {
        let Some(key) = self.keys.get(step_number) else {
            return;
        };
        let key = *key;
        let Some(master) = self.kept.get_mut(key as usize) else {
            unreachable!()
        };
        *master = Master { kept, ..*master };
    }

    /// Removes the master with a step number, if it exists. It must not be a lessor. Its key may be reused.
    pub fn remove(&mut self, step_number: u32)
        requires older { AllByRecursion (sets.HasOlderLessor self.old.items) self.old.items }
        requires no_lessee { list_any (λ x. sets.is_option step_number x.lessor) self.old.items ≡ false }
        ensures { self.new.items ≡ filter (λ x. not (sets.is_step_number step_number x)) self.old.items }
    {
        let owner = owner_of(self, step_number);
        let Some(key) = self.keys.remove(step_number) else {
            return;
        };
        let Some(master) = self.kept.try_remove(key as usize) else {
            unreachable!()
        };
        unlist(&mut self.lessees, master.lessor, step_number);
        unname(&mut self.ids, owner, master.lessor, master.lessee_id);
    }

    /// Returns the lessee with this id under the owner. Looks at no other.
    pub fn lessee(&self, owner: u32, id: u32) -> Option<Master>
        ensures { result ≡ find (sets.is_lessee_of self.now.items owner id) self.now.items }
    {
        let step_number = self.ids.at(owner, id)?;
        self.at(step_number)
    }

    /// Returns the lowest id up to the last that no lessee has under the owner.
    pub fn free_id(&self, owner: u32, last: u32) -> Option<u32>
        ensures { result ≡ least (λ id. not (list_any (sets.is_lessee_of self.now.items owner id) self.now.items)) 1 last }
    {
        self.ids.free(owner, last)
    }

    /// Returns whether a master names it as its lessor. It looks at no other.
    pub fn has_lessee(&self, lessor: u32) -> bool
        ensures { result ≡ list_any (λ x. sets.is_option lessor x.lessor) self.now.items }
    {
        self.lessees.next(lessor, 0).is_some()
    }

    /// Returns the direct lessee of a master at a position, from 0, in the order of step numbers.
    pub fn nth_lessee(&self, lessor: u32, position: usize) -> Option<u32>
        ensures { result ≡ slice_get (sets.lessees_of self.now.items lessor) position }
    {
        self.lessees.nth(lessor, position)
    }
}

/// Returns the owner of a master to be created: that of its lessor, or else itself.
fn owner_to_be(masters: &MasterTable, lessor: Option<u32>, step_number: u32) -> u32
    requires older { AllByRecursion (sets.HasOlderLessor masters.now.items) masters.now.items }
    ensures { result ≡ option_map_or (sets.owner_of masters.now.items) lessor step_number }
{
    match lessor {
        Some(lessor) => owner_of(masters, lessor),
        None => step_number,
    }
}

/// Adds a lessee to the table of ids under its owner. If memory is refused, nothing changes.
fn name(
    ids: &mut OwnerIds,
    owner: u32,
    lessor: Option<u32>,
    id: u32,
    step_number: u32,
) -> Result<(), NoMemory>
    requires { (l : ℕ) → lessor ≡ Some l → id_at ids.old owner id ≡ None }
    ensures ok { OnOk result (IsNamed (id_at ids.old) owner lessor id step_number (id_at ids.new)) }
    ensures err { OnErr result (ids.new ≡ ids.old) }
{
    let Some(_lessor) = lessor else {
        return Ok(());
    };
    ids.note(owner, id, step_number)
}

/// Removes a lessee from the table of ids.
fn unname(ids: &mut OwnerIds, owner: u32, lessor: Option<u32>, id: u32)
    ensures { IsUnnamed (id_at ids.old) owner lessor id (id_at ids.new) }
{
    if let Some(_lessor) = lessor {
        ids.forget(owner, id);
    }
}

/// Lists a master with its lessor's lessees, if it has one. If memory is refused, nothing changes.
fn list(lessees: &mut Groups, lessor: Option<u32>, step_number: u32) -> Result<(), NoMemory>
    ensures ok { OnOk result (IsListed (has lessees.old) lessor step_number (has lessees.new)) }
    ensures err { OnErr result (lessees.new ≡ lessees.old) }
{
    let Some(lessor) = lessor else {
        return Ok(());
    };
    lessees.note(lessor, step_number)
}

/// Removes a master from its lessor's lessees.
fn unlist(lessees: &mut Groups, lessor: Option<u32>, step_number: u32)
    ensures { IsUnlisted (has lessees.old) lessor step_number (has lessees.new) }
{
    if let Some(lessor) = lessor {
        lessees.forget(lessor, step_number);
    }
}
