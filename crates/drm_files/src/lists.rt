//! Lists of the clients and of their handles.

ghost use Rattle.std.specs.Prelude.{◌≡◌, ◌==◌, ◌≤◌, ◌+◌, ◌++◌, ◌&&◌, ℕ, List, [], IsTrue, true, false, filter, find, nat_le, nat_lt, take, slice_get, IfOk, IfErr, IfNone, IfSome, Some};
ghost use Rattle.std.specs.FinMap as map;
ghost use Rattle.drm_index_array.specs.Keys.{keys_from};
ghost use Rattle.drm_index_array.specs.Least.{least};
ghost use Rattle.drm_files.specs.Files.{hold, is_open_client, handles_of, nth_row, handle_before, comes_after, InOrder};
ghost use Rattle.drm_files.specs.Records.{rows_in};
ghost use Rattle.drm_files.specs.declared.rows.FileHandle.{FileHandle};

use crate::files::{FileRecord, Files, Held};
use crate::rows::{FileClient, FileHandle, FileRow};
use drm_id_alloc::IdTable;
use drm_table::ShownList;

/// The numbers of an audit's rows of clients and of handles (own).
const CLIENT_KIND: u32 = 1;

const HOLD_KIND: u32 = 6;

impl Files {
    /// Returns the handles of an open client from a number on, in rising order, 64 at most (own). Does not allocate.
    pub fn handles_of(&self, client: u32, from: u32) -> ShownList
        requires open_client { is_open_client self.now client ≡ true }
        ensures { result ≡ take 64 (filter (λ h. nat_le from h) (handles_of self.now client)) }
    {
        let Some(record) = self.clients.get(client) else {
            unreachable!();
        };
        shown_handles(&record.handles, from)
    }

    /// Returns the client at a position of the list of clients, from 0. Does not allocate.
    pub fn nth_client(&self, position: usize) -> Option<FileClient>
        ensures { result ≡ slice_get self.now.clients position }
    {
        let client = self.clients.nth(position)?;
        let record = self.clients.get(client)?;
        Some(FileClient {
            client,
            flags: record.flags,
        })
    }

    /// Returns the row at a position, from 0, of the rows of an audit's kind (own). Does not allocate.
    ///
    /// Clients are kind 1, in the order of their numbers. Handles are kind 6, in the order of clients and then of
    /// handles. No other kind has rows here.
    pub fn nth(&self, kind: u32, i: usize) -> Option<FileRow>
        ensures { result ≡ nth_row self.now kind i }
    {
        match kind {
            CLIENT_KIND => Some(FileRow::Client(self.nth_client(i)?)),
            HOLD_KIND => Some(FileRow::Hold(self.nth_handle(i)?)),
            _ => None,
        }
    }

    /// Returns the handle at a position of the list of handles, from 0. It skips whole clients. Does not allocate.
    pub fn nth_handle(&self, position: usize) -> Option<FileHandle>
        ensures { result ≡ slice_get self.now.holds position }
    {
        self.nth_handle_from(0, position)
    }

    /// Returns the first handle after this one, in the order of clients and then of handles. It looks in the client's
    /// own table first, and then in those of the next clients. Does not allocate.
    ///
    /// # Examples
    ///
    /// ```rust
    /// use drm_files::Files;
    /// use drm_gem::ObjectKey;
    ///
    /// let alloc = rt.alloc();
    /// let mut files = Files::new(alloc, 4, 100);
    /// let Ok(()) = files.open(1, false, false, true) else { return };
    /// let Ok(()) = files.open(2, false, false, true) else { return };
    /// let object = ObjectKey::from_number(7);
    /// let Ok(first) = files.add_handle(1, object, None) else { return };
    /// let Ok(second) = files.add_handle(2, object, None) else { return };
    /// assert!(rt; matches!(files.handle_after(1, first), Some(row) if row.client == 2));
    /// assert!(rt; files.handle_after(2, second).is_none());
    /// ```
    pub fn handle_after(&self, client: u32, handle: u32) -> Option<FileHandle>
        ensures { result ≡ find (comes_after client handle) self.now.holds }
    {
        if let Some(hold) = self.next_of_client(client, handle) {
            return Some(hold);
        }
        let above = client.checked_add(1)?;
        self.nth_handle_from(above, 0)
    }

    // The first handle of a client after this one.
    fn next_of_client(&self, client: u32, handle: u32) -> Option<FileHandle>
        ensures rise { InOrder handle_before self.now.holds }
        ensures fit { filter (λ row. nat_le (u32.MAX + 1) row.client) self.now.holds ≡ [] }
        ensures next { result ≡ find (λ row. (row.client == client) && nat_lt handle row.handle) self.now.holds }
    {
        let record = self.clients.get(client)?;
        let above = handle.checked_add(1)?;
        first_held(client, &record.handles, above)
    }

    // The handle at a position of the list of the handles of the clients from a number on.
    fn nth_handle_from(&self, from: u32, position: usize) -> Option<FileHandle>
        ensures { result ≡ slice_get (filter (λ row. nat_le from row.client) self.now.holds) position }
    {
        let mut left = position;
        let mut at = from;
        for _turn in 0..self.clients.len() {
            let client = self.clients.next(at)?;
            let Some(record) = self.clients.get(client) else {
                unreachable!();
            };
            match nth_held(client, &record.handles, left) {
                Ok(hold) => return Some(hold),
                Err(behind) => left = behind,
            }
            at = client.checked_add(1)?;
        }
        None
    }
}

// The handles of a table from a number on, rising, 64 at most.
fn shown_handles(table: &IdTable<Held>, from: u32) -> ShownList
    ensures { result ≡ take 64 (keys_from table.now.slots from) }
{
    let mut list = ShownList::new();
    let mut at = from;
    for _turn in 0..64u32 {
        let Some(handle) = handle_from(table, at) else {
            return list;
        };
        list.push(handle);
        let Some(above) = handle.checked_add(1) else {
            return list;
        };
        at = above;
    }
    list
}

// The lowest handle of a table from a number on. The number itself is tried first: handles are given from the lowest on,
// so in a list the next handle mostly is the next number.
fn handle_from(table: &IdTable<Held>, from: u32) -> Option<u32>
    ensures least { result ≡ least (map.contains_key table.now.slots) from u32.MAX }
    ensures none_above { IfNone result ((k : ℕ) → from ≤ k → map.contains_key table.now.slots k ≡ false) }
    ensures bound { (k : ℕ) → IsTrue (map.contains_key table.now.slots k) → k ≤ u32.MAX }
{
    let _handles = table.len();
    if table.get(from).is_some() {
        return Some(from);
    }
    table.next(from)
}

// The lowest handle of a table from a number on, and what it holds. The number itself is tried first here, too.
pub(crate) fn entry_from(table: &IdTable<Held>, from: u32) -> Option<(u32, &Held)>
    ensures least { IfSome result (λ entry. least (map.contains_key table.now.slots) from u32.MAX ≡ Some entry.0) }
    ensures held { IfSome result (λ entry. map.get table.now.slots entry.0 ≡ Some entry.1.now) }
    ensures none_above { IfNone result ((k : ℕ) → from ≤ k → map.contains_key table.now.slots k ≡ false) }
    ensures bound { (k : ℕ) → IsTrue (map.contains_key table.now.slots k) → k ≤ u32.MAX }
{
    let _handles = table.len();
    if let Some(held) = table.get(from) {
        return Some((from, held));
    }
    let handle = table.next(from)?;
    let Some(held) = table.get(handle) else {
        unreachable!();
    };
    Some((handle, held))
}

// The row of a client's handle.
fn hold_of(client: u32, handle: u32, held: &Held) -> FileHandle
    ensures { result ≡ hold client handle held.now.object held.now.export_order }
{
    FileHandle {
        client,
        handle,
        object: held.object,
        export_order: held.export_order,
    }
}

// The first handle of one client from a number on.
fn first_held(client: u32, table: &IdTable<Held>, from: u32) -> Option<FileHandle>
    ensures { result ≡ find (λ row. nat_le from row.handle) (rows_in client (map.entries table.now.slots)) }
{
    let (handle, held) = entry_from(table, from)?;
    Some(hold_of(client, handle, held))
}

// The handle at a position among those of one client, or how far after the last of them the position is.
fn nth_held(client: u32, table: &IdTable<Held>, position: usize) -> Result<FileHandle, usize>
    ensures ok { IfOk result (λ hold. (rest : List FileHandle) → slice_get (rows_in client (map.entries table.now.slots) ++ rest) position ≡ Some hold) }
    ensures err { IfErr result (λ behind. (rest : List FileHandle) → slice_get (rows_in client (map.entries table.now.slots) ++ rest) position ≡ slice_get rest behind) }
{
    let Some(handle) = table.nth(position) else {
        return Err(position - table.len());
    };
    let Some(held) = table.get(handle) else {
        unreachable!();
    };
    Ok(hold_of(client, handle, held))
}
