//! The lessees of each owner, by their ids.

ghost use Rattle.std.specs.Prelude.{◌≡◌, ◌≤◌, ℕ, true, None, Some, not, OnOk, OnErr};
ghost use Rattle.std.specs.Option.{is_some};
ghost use Rattle.std.specs.FinMap as map;
ghost use Rattle.drm_index_array.specs.Indexed.{with_item, without_item};
ghost use Rattle.drm_index_array.specs.Least.{least};
ghost use Rattle.drm_masters.specs.Ids.{IsSet, id_at};

use drm_id_alloc::NoMemory;
use drm_index_array::{IndexArray, InsertFault};
use std::alloc::Global;
use std::marker::Model;

/// The step numbers of lessees, by their owners and ids. Those of one owner are found without the others. An owner
/// without lessees needs no memory. Contracts see a map from each owner to its table of ids.
#[derive(Drop)]
pub struct OwnerIds {
    alloc: Global,
    owners: IndexArray<IndexArray<u32>>,
}

impl Model for OwnerIds {
    ghost use Rattle.drm_masters.specs.Ids.{IdMap, id_code};

    ghost Value = { IdMap };

    ghost coded = { id_code };

    ghost view = { λ a. a.owners.items };
}

impl OwnerIds {
    /// Creates an empty table. Does not allocate.
    pub fn new(alloc: Global) -> OwnerIds
        ensures { (o i : ℕ) → id_at result o i ≡ None }
    {
        OwnerIds {
            alloc,
            owners: IndexArray::new(alloc),
        }
    }

    /// Returns the lessee with an id, if there is one.
    pub fn at(&self, owner: u32, id: u32) -> Option<u32>
        ensures { result ≡ id_at self.now owner id }
    {
        let ids = self.owners.get(owner)?;
        let step_number = ids.get(id)?;
        Some(*step_number)
    }

    /// Returns the lowest id from 1 to the last that no lessee of the owner has.
    pub fn free(&self, owner: u32, last: u32) -> Option<u32>
        ensures { result ≡ least (λ id. not (is_some (id_at self.now owner id))) 1 last }
    {
        let Some(ids) = self.owners.get(owner) else {
            return first_id(last);
        };
        let id = ids.next_vacant(1)?;
        if id > last {
            return None;
        }
        Some(id)
    }

    /// Adds a lessee under an id that no lessee of its owner has. If memory is refused, nothing changes.
    pub fn note(&mut self, owner: u32, id: u32, step_number: u32) -> Result<(), NoMemory>
        requires { id_at self.old owner id ≡ None }
        ensures ok { OnOk result (IsSet (id_at self.old) owner id (Some step_number) (id_at self.new)) }
        ensures err { OnErr result (self.new ≡ self.old) }
    {
        if let Some(ids) = self.owners.get_mut(owner) {
            return put_new(ids, id, step_number);
        }
        let mut ids = IndexArray::new(self.alloc);
        if let Err(_fault) = ids.insert(id, step_number) {
            return Err(NoMemory);
        }
        if let Err(_fault) = self.owners.insert(owner, ids) {
            return Err(NoMemory);
        }
        Ok(())
    }

    /// Removes an id of an owner, if a lessee has it. Does not allocate.
    pub fn forget(&mut self, owner: u32, id: u32)
        ensures { IsSet (id_at self.old) owner id None (id_at self.new) }
    {
        let Some(ids) = self.owners.get_mut(owner) else {
            return;
        };
        let _step_number = ids.remove(id);
        let left = ids.len();
        if left == 0 {
            take_out(&mut self.owners, owner);
        }
    }
}

/// Returns the first id, unless the last is before it.
fn first_id(last: u32) -> Option<u32>
    ensures { result ≡ least (λ id. true) 1 last }
{
    if last == 0 {
        return None;
    }
    Some(1)
}

/// Removes the table of an owner's ids.
fn take_out(owners: &mut IndexArray<IndexArray<u32>>, owner: u32)
    ensures { owners.new ≡ without_item owners.old owner }
{
    let _ids = owners.remove(owner);
}

/// Adds a number at an index without one. If memory is refused, nothing changes.
pub fn put_new(numbers: &mut IndexArray<u32>, index: u32, number: u32) -> Result<(), NoMemory>
    requires vacant { map.get numbers.old.items index ≡ None }
    ensures ok { OnOk result (numbers.new ≡ with_item numbers.old index number) }
    ensures err { OnErr result (numbers.new ≡ numbers.old) }
    ensures fits { index ≤ u32.MAX }
{
    match numbers.insert(index, number) {
        Ok(()) => Ok(()),
        Err(InsertFault::NoMemory(_)) => Err(NoMemory),
        Err(InsertFault::Taken(_)) => unreachable!(),
    }
}
