//! PRIME handles: those that received an export order by an export or an import (drm-mm, PRIME; the order is own).

ghost use Rattle.std.specs.Prelude.{◌≡◌, true, is_some, find};
ghost use Rattle.drm_files.specs.Files.{AreFiles, is_open_client, is_handle, prime_handle, with_export_order};
ghost use Rattle.drm_files.specs.Primes.{prime_at, prime_of, is_before};

use crate::files::{Files, Held};
use drm_gem::ObjectKey;
use drm_id_alloc::IdTable;

// A handle that has an export order.
#[derive(Clone, Copy)]
pub(crate) struct Prime {
    pub(crate) export_order: u32,
    pub(crate) handle: u32,
}

impl Files {
    /// Returns the handle of an open client for an object that has the lowest export order, at a tie the lowest handle
    /// (drm-mm, PRIME). Does not allocate.
    ///
    /// A further import of the object returns this handle. Returns `None` if no handle of the client for the object has
    /// an export order. Looks at no other handle.
    pub fn prime_handle(&self, client: u32, object: ObjectKey) -> Option<u32>
        requires open_client { is_open_client self.now client ≡ true }
        ensures handle { result ≡ prime_handle self.now client object }
        ensures lists { AreFiles self.now }
    {
        let Some(record) = self.clients.get(client) else {
            unreachable!();
        };
        record.orders.first(object)
    }

    /// Sets the export order of a handle of an open client (drm-mm, PRIME). Does not allocate.
    ///
    /// If the handle has one already, nothing changes. Looks at the client's handles for the object whose export order
    /// is greater, and at no other.
    pub fn set_prime(&mut self, client: u32, handle: u32, export_order: u32)
        requires open_client { is_open_client self.old client ≡ true }
        requires held { is_some (find (is_handle client handle) self.old.holds) ≡ true }
        ensures { self.new ≡ with_export_order self.old client handle export_order }
    {
        let Some(record) = self.clients.get_mut(client) else {
            unreachable!();
        };
        let Some(held) = record.handles.get(handle) else {
            unreachable!();
        };
        if held.export_order.is_some() {
            return;
        }
        let object = held.object;
        record.give_order(handle, object, export_order);
    }
}

// The handle and its export order, if it is for the object and has one.
pub(crate) fn prime_at(table: &IdTable<Held>, handle: u32, object: ObjectKey) -> Option<Prime>
    ensures { result ≡ prime_at table.now.slots object handle }
{
    let held = table.get(handle)?;
    prime_of(handle, *held, object)
}

// The handle and its export order, if it is for the object and has one.
fn prime_of(handle: u32, held: Held, object: ObjectKey) -> Option<Prime>
    ensures { result ≡ prime_of object (handle, held) }
{
    if held.object != object {
        return None;
    }
    let export_order = held.export_order?;
    Some(Prime {
        export_order,
        handle,
    })
}

// Returns whether a handle received its export order first, or is the lower of two that have the same one.
pub(crate) fn is_before(other: Prime, one: Prime) -> bool
    ensures { result ≡ is_before other one }
{
    other.export_order < one.export_order
        || (other.export_order == one.export_order && other.handle < one.handle)
}
