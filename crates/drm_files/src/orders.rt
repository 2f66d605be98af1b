//! The handles of each object in the order of their exports (own; drm-mm, PRIME).

ghost use Rattle.std.specs.Prelude.{◌≡◌, ◌==◌, ℕ, None, Some, is_some, OnOk, OnErr, option_map, slice_get, true};
ghost use Rattle.std.specs.FinMap as map;
ghost use Rattle.std.specs.Ordering.{nat_cmp};
ghost use Rattle.drm_files.specs.declared.files.Held.{Held};
ghost use Rattle.drm_files.specs.declared.orders.Neighbours.{Neighbours};
ghost use Rattle.drm_files.specs.Primes.{prime_at};
ghost use Rattle.drm_files.specs.ExportOrders.{AreInOrder, AreJoined, AreKept, HasNext, HasPrevious, IsNext, choose, is_after, next_of, previous_of, with_handle};

use crate::files::Held;
use crate::primes::{Prime, is_before, prime_at};
use drm_gem::ObjectKey;
use drm_id_alloc::IdTable;
use drm_index_array::IndexArray;
use std::alloc::{AllocError, Global};

// The neighbours of a handle among those of its object that have an export order. Of an object: its first and its last.
#[derive(Clone, Copy)]
pub(crate) struct Neighbours {
    pub(crate) next: Option<u32>,
    pub(crate) previous: Option<u32>,
}

// A new place has no neighbours.
const ALONE: Neighbours = Neighbours {
    next: None,
    previous: None,
};

// The handles of each object that have an export order, in that order. A handle has room for its neighbours before it has an
// export order, and its object has room for the first and the last. So giving an export order does not allocate. The room of a
// closed handle stays until the client closes, and the next handle with that number takes it over. A new handle is the lowest
// free number, so this is room for the most handles that the client had at once.
#[derive(Drop)]
pub(crate) struct ExportOrders {
    // by handle; only those of handles that have an export order count
    links: Vec<Neighbours>,
    // by object; the room of an object stays until the client closes
    ends: IndexArray<Neighbours>,
}

impl ExportOrders {
    pub(crate) fn new(alloc: Global) -> Self
        ensures { (slots : map.FinMap nat_cmp Held) → slots ≡ map.empty → AreInOrder slots result }
    {
        ExportOrders {
            links: Vec::new(alloc),
            ends: IndexArray::new(alloc),
        }
    }

    // Makes room for a new handle of an object.
    pub(crate) fn make_room(&mut self, object: ObjectKey, handle: u32) -> Result<(), AllocError>
        ensures ok { OnOk result ((slots : map.FinMap nat_cmp Held) → AreInOrder slots self.old → map.get slots handle ≡ None → AreInOrder (with_handle slots object handle None) self.new) }
        ensures err { OnErr result ((slots : map.FinMap nat_cmp Held) → AreInOrder slots self.old → AreInOrder slots self.new) }
    {
        let number = object.number();
        if self.ends.get(number).is_none() {
            if let Err(_fault) = self.ends.insert(number, ALONE) {
                return Err(AllocError);
            }
        }
        make_place(&mut self.links, handle)
    }

    // The first of an object's handles.
    pub(crate) fn first(&self, object: ObjectKey) -> Option<u32>
        ensures { result ≡ next_of self.now object None }
    {
        self.next(object.number(), None)
    }

    // Places a handle that receives an export order. The table's entry has none yet.
    pub(crate) fn place(&mut self, table: &IdTable<Held>, object: ObjectKey, prime: Prime)
        requires in_order { AreInOrder table.now.slots self.old }
        requires unplaced { map.get table.now.slots prime.handle ≡ Some (record { object = object; export_order = None }) }
        ensures { AreInOrder (with_handle table.now.slots object prime.handle (Some prime.export_order)) self.new }
    {
        let number = object.number();
        let previous = self.last_before(table, object, prime);
        let next = self.next(number, previous);
        self.join(number, previous, Some(prime.handle));
        self.join(number, Some(prime.handle), next);
    }

    // Takes a dropped handle out of the order. Its room stays.
    pub(crate) fn forget(&mut self, object: ObjectKey, handle: u32, was_placed: bool)
        ensures { (slots : map.FinMap nat_cmp Held) (x : Held) → AreInOrder slots self.old → map.get slots handle ≡ Some x → x.object ≡ object → is_some x.export_order ≡ was_placed → AreInOrder (map.remove slots handle) self.new }
    {
        let number = object.number();
        if was_placed {
            let previous = self.previous(number, Some(handle));
            let next = self.next(number, Some(handle));
            self.join(number, previous, next);
        }
    }

    // The last of an object's handles that is before a new one. It starts at the last, so that a handle whose export order is
    // the greatest has its place at once.
    fn last_before(&self, table: &IdTable<Held>, object: ObjectKey, prime: Prime) -> Option<u32>
        requires in_order { AreInOrder table.now.slots self.now }
        ensures { IsNext is_after (prime_at table.now.slots object) (Some prime) result }
    {
        let number = object.number();
        let mut at = self.previous(number, None);
        while let Some(handle) = at {
            let Some(other) = prime_at(table, handle, object) else {
                unreachable!();
            };
            if is_before(other, prime) {
                return at;
            }
            at = self.previous(number, at);
        }
        None
    }

    // What follows a handle, or the first.
    fn next(&self, object: u32, at: Option<u32>) -> Option<u32>
        ensures { result ≡ next_of self.now object at }
    {
        match at {
            Some(handle) => self.links.get(handle as usize)?.next,
            None => self.ends.get(object)?.next,
        }
    }

    // What is before a handle, or the last.
    fn previous(&self, object: u32, at: Option<u32>) -> Option<u32>
        ensures { result ≡ previous_of self.now object at }
    {
        match at {
            Some(handle) => self.links.get(handle as usize)?.previous,
            None => self.ends.get(object)?.previous,
        }
    }

    // Makes two handles of an object neighbours, or one of them its first or its last.
    fn join(&mut self, object: u32, left: Option<u32>, right: Option<u32>)
        ensures { AreJoined self.old object left right self.new }
    {
        self.set_next(object, left, right);
        self.set_previous(object, right, left);
    }

    fn set_next(&mut self, object: u32, at: Option<u32>, next: Option<u32>)
        ensures { HasNext self.old object at next self.new }
    {
        match at {
            Some(handle) => write_next(&mut self.links, handle, next),
            None => write_first(&mut self.ends, object, next),
        }
    }

    fn set_previous(&mut self, object: u32, at: Option<u32>, previous: Option<u32>)
        ensures { HasPrevious self.old object at previous self.new }
    {
        match at {
            Some(handle) => write_previous(&mut self.links, handle, previous),
            None => write_last(&mut self.ends, object, previous),
        }
    }
}

// Makes a place for a handle, unless there is one. The places that are there stay as they are.
fn make_place(links: &mut Vec<Neighbours>, handle: u32) -> Result<(), AllocError>
    ensures kept { AreKept links.old.items links.new.items }
    ensures ok { OnOk result (is_some (slice_get links.new.items handle) ≡ true) }
{
    while links.len() <= handle as usize {
        if let Err(_fault) = links.push(ALONE) {
            return Err(AllocError);
        }
    }
    Ok(())
}

fn write_next(links: &mut Vec<Neighbours>, handle: u32, next: Option<u32>)
    ensures { (k : ℕ) → slice_get links.new.items k ≡ choose (k == handle) (option_map (λ (x : Neighbours). record x { next = next }) (slice_get links.old.items k)) (slice_get links.old.items k) }
{
    if let Some(neighbours) = links.get_mut(handle as usize) {
        neighbours.next = next;
    }
}

fn write_previous(links: &mut Vec<Neighbours>, handle: u32, previous: Option<u32>)
    ensures { (k : ℕ) → slice_get links.new.items k ≡ choose (k == handle) (option_map (λ (x : Neighbours). record x { previous = previous }) (slice_get links.old.items k)) (slice_get links.old.items k) }
{
    if let Some(neighbours) = links.get_mut(handle as usize) {
        neighbours.previous = previous;
    }
}

fn write_first(ends: &mut IndexArray<Neighbours>, object: u32, first: Option<u32>)
    ensures { (k : ℕ) → map.get ends.new.items k ≡ choose (k == object) (option_map (λ (x : Neighbours). record x { next = first }) (map.get ends.old.items k)) (map.get ends.old.items k) }
{
    if let Some(neighbours) = ends.get_mut(object) {
        neighbours.next = first;
    }
}

fn write_last(ends: &mut IndexArray<Neighbours>, object: u32, last: Option<u32>)
    ensures { (k : ℕ) → map.get ends.new.items k ≡ choose (k == object) (option_map (λ (x : Neighbours). record x { previous = last }) (map.get ends.old.items k)) (map.get ends.old.items k) }
{
    if let Some(neighbours) = ends.get_mut(object) {
        neighbours.previous = last;
    }
}
