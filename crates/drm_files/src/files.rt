//! The open clients and their handles.

ghost use Rattle.std.specs.Prelude.{◌≡◌, ◌≤◌, ◌<◌, ◌↔◌, true, false, nat_le, length, find, is_some, OnOk, OnErr, IfOk, IfErr, IfNone, Some, None, option_map};
ghost use Rattle.drm_files.specs.Files.{AreFiles, empty_files, is_client, is_handle, is_open_client, free_handle, with_client, without_client, left_by, with_handle_row, without_handle_row, with_authenticated, with_capability, with_universal, new_flags, hold};
ghost use Rattle.drm_files.specs.FileFault.{IsFull};
ghost use Rattle.std.specs.FinMap.{get};
ghost use Rattle.drm_id_alloc.specs.Table.{with_entry};
ghost use Rattle.drm_files.specs.ExportOrders.{AreInOrder};

use crate::faults::FileFault;
use crate::orders::ExportOrders;
use crate::primes::Prime;
use crate::rest::FileRest;
use crate::rows::{ClientCapability, FileFlags};
use drm_gem::ObjectKey;
use drm_id_alloc::{AddFault, IdTable};
use drm_index_array::IndexArray;
use std::alloc::Global;
use std::marker::Model;

// The object of a handle, and its export order.
#[derive(Clone, Copy)]
pub(crate) struct Held {
    pub(crate) object: ObjectKey,
    pub(crate) export_order: Option<u32>,
}

// An open client.
#[derive(Drop)]
pub(crate) struct FileRecord {
    pub(crate) flags: FileFlags,
    pub(crate) handles: IdTable<Held>,
    pub(crate) orders: ExportOrders,
}

impl FileRecord {
    // Sets the export order of a handle that has none. Does not allocate.
    pub(crate) fn give_order(&mut self, handle: u32, object: ObjectKey, export_order: u32)
        requires in_order { AreInOrder self.old.handles.slots self.old.orders }
        requires unplaced { get self.old.handles.slots handle ≡ Some (record { object = object; export_order = None }) }
        ensures handles { self.new.handles ≡ with_entry self.old.handles handle (record { object = object; export_order = Some export_order }) }
        ensures in_order { AreInOrder self.new.handles.slots self.new.orders }
        ensures flags { self.new.flags ≡ self.old.flags }
    {
        let prime = Prime {
            export_order,
            handle,
        };
        self.orders.place(&self.handles, object, prime);
        let placed = Held {
            object,
            export_order: Some(export_order),
        };
        let Ok(_unplaced) = self.handles.replace(handle, placed) else {
            unreachable!();
        };
    }
}

/// The open clients with their flags, and the handles of each. Contracts see flat lists: the clients in the order of
/// their numbers, and the handles in the order of clients and then of handles.
///
/// # Examples
///
/// ```rust
/// use drm_files::Files;
///
/// let alloc = rt.alloc();
/// let mut files = Files::new(alloc, 4, 100);
/// let Ok(()) = files.open(1, false, false, true) else { return };
/// ```
pub struct Files {
    alloc: Global,
    pub(crate) clients: IndexArray<FileRecord>,
    open_limit: u32,
    last_handle: u32,
}

// Written out, so that it is proved once: a derived one is proved again in each crate that drops such a value.
impl Drop for Files {
    fn drop(self) {
        let Files {
            alloc: _,
            clients,
            open_limit: _,
            last_handle: _,
        } = self;
        drop(clients);
    }
}

impl Model for Files {
    ghost use Rattle.drm_files.specs.Files.{FileLists};
    ghost use Rattle.drm_files.specs.Records.{lists_of, AreRecords};

    ghost Value = { FileLists };

    ghost view = { λ files. lists_of files.open_limit files.last_handle files.clients.items };

    ghost invariant = { λ files. AreRecords files.open_limit files.last_handle files.clients.items };
}

impl Files {
    /// Creates a table without clients. At most `clients` may be open at once, and each may have the handles from 1 to
    /// `handles`. Does not allocate.
    pub fn new(alloc: Global, clients: u32, handles: u32) -> Files
        requires { 1 ≤ handles }
        ensures { result ≡ empty_files clients handles }
    {
        Files {
            alloc,
            clients: IndexArray::new(alloc),
            open_limit: clients,
            last_handle: handles,
        }
    }

    /// Opens a client that is not open, without handles, with universal planes on or off (drm-uapi). A root client is
    /// authenticated from the start.
    ///
    /// # Errors
    ///
    /// `Full` if the limit of clients is reached (own), `NoMemory` if memory is refused. The state is then unchanged.
    pub fn open(
        &mut self,
        client: u32,
        render: bool,
        root: bool,
        universal: bool,
    ) -> Result<(), FileFault>
        requires absent { is_open_client self.old client ≡ false }
        ensures ok { OnOk result (self.new ≡ with_client self.old client (new_flags render root universal)) }
        ensures err { OnErr result (self.new ≡ self.old) }
        ensures room { OnOk result (length self.old.clients < self.old.limit) }
        ensures full { IfErr result (λ fault. IsFull fault ↔ (self.old.limit ≤ length self.old.clients)) }
    {
        if self.clients.len() >= self.open_limit as usize {
            return Err(FileFault::Full);
        }
        let record = FileRecord {
            flags: FileFlags {
                render,
                root,
                authenticated: root,
                universal,
            },
            handles: IdTable::new(self.alloc, 1, self.last_handle),
            orders: ExportOrders::new(self.alloc),
        };
        if let Err(_fault) = self.clients.insert(client, record) {
            return Err(FileFault::NoMemory);
        }
        Ok(())
    }

    /// Closes an open client, and returns its handles with their objects, which the caller must release. Does not
    /// allocate.
    pub fn close(&mut self, client: u32) -> FileRest
        requires open_client { is_open_client self.old client ≡ true }
        ensures rest { result ≡ left_by self.old client }
        ensures closed { self.new ≡ without_client self.old client }
    {
        let Some(record) = self.clients.remove(client) else {
            unreachable!();
        };
        let FileRecord { handles, .. } = record;
        FileRest::new(handles)
    }

    /// Returns the number of open clients.
    pub fn len(&self) -> usize
        ensures { result ≡ length self.now.clients }
    {
        self.clients.len()
    }

    /// Returns whether the limit of clients is reached.
    pub fn is_full(&self) -> bool
        ensures full { result ≡ nat_le self.now.limit (length self.now.clients) }
        ensures lists { AreFiles self.now }
    {
        self.clients.len() >= self.open_limit as usize
    }

    /// Returns whether an open client has a free handle.
    pub fn has_room(&self, client: u32) -> bool
        requires open_client { is_open_client self.now client ≡ true }
        ensures { result ≡ is_some (free_handle self.now client) }
    {
        let Some(record) = self.clients.get(client) else {
            unreachable!();
        };
        !record.handles.is_full()
    }

    /// Assigns the lowest free handle of an open client to an object (drm-gem(7)), and returns it.
    ///
    /// # Errors
    ///
    /// `Full` if the client has every handle (own), `NoMemory` if memory is refused. The state is then unchanged.
    pub fn add_handle(
        &mut self,
        client: u32,
        object: ObjectKey,
        export_order: Option<u32>,
    ) -> Result<u32, FileFault>
        requires open_client { is_open_client self.old client ≡ true }
        ensures given { IfOk result (λ handle. free_handle self.old client ≡ Some handle) }
        ensures ok { IfOk result (λ handle. self.new ≡ with_handle_row self.old (hold client handle object export_order)) }
        ensures err { OnErr result (self.new ≡ self.old) }
        ensures full { IfErr result (λ fault. IsFull fault ↔ (free_handle self.old client ≡ None)) }
    {
        let Some(record) = self.clients.get_mut(client) else {
            unreachable!();
        };
        let unplaced = Held {
            object,
            export_order: None,
        };
        let handle = match record.handles.add(unplaced) {
            Ok(handle) => handle,
            Err(AddFault::Full(_)) => return Err(FileFault::Full),
            Err(AddFault::NoMemory(_)) => return Err(FileFault::NoMemory),
        };
        if let Err(_fault) = record.orders.make_room(object, handle) {
            let _held = record.handles.remove(handle);
            return Err(FileFault::NoMemory);
        }
        if let Some(export_order) = export_order {
            record.give_order(handle, object, export_order);
        }
        Ok(handle)
    }

    /// Returns the object of a handle of an open client, if the client has that handle. Does not allocate.
    pub fn object_of(&self, client: u32, handle: u32) -> Option<ObjectKey>
        requires open_client { is_open_client self.now client ≡ true }
        ensures object { result ≡ option_map (λ row. row.object) (find (is_handle client handle) self.now.holds) }
        ensures lists { AreFiles self.now }
    {
        let record = self.clients.get(client)?;
        let held = record.handles.get(handle)?;
        Some(held.object)
    }

    /// Removes a handle of an open client, if the client has it, and returns its object. Does not allocate.
    pub fn drop_handle(&mut self, client: u32, handle: u32) -> Option<ObjectKey>
        requires open_client { is_open_client self.old client ≡ true }
        ensures object { result ≡ option_map (λ row. row.object) (find (is_handle client handle) self.old.holds) }
        ensures dropped { self.new ≡ without_handle_row self.old client handle }
        ensures none { IfNone result (self.new ≡ self.old) }
    {
        let Some(record) = self.clients.get_mut(client) else {
            unreachable!();
        };
        let held = record.handles.remove(handle)?;
        let object = held.object;
        record
            .orders
            .forget(object, handle, held.export_order.is_some());
        Some(object)
    }

    /// Returns the flags of a client, if it is open.
    pub fn flags_of(&self, client: u32) -> Option<FileFlags>
        ensures flags { result ≡ option_map (λ row. row.flags) (find (is_client client) self.now.clients) }
        ensures lists { AreFiles self.now }
    {
        let record = self.clients.get(client)?;
        Some(record.flags)
    }

    /// Sets an open client as authenticated (drm-uapi). Does not allocate.
    pub fn set_authenticated(&mut self, client: u32)
        requires open_client { is_open_client self.old client ≡ true }
        ensures { self.new ≡ with_authenticated self.old client }
    {
        let Some(record) = self.clients.get_mut(client) else {
            unreachable!();
        };
        record.flags.authenticated = true;
    }

    /// Turns universal planes of an open client on or off (drm-uapi, client capabilities). Does not allocate.
    pub fn set_universal(&mut self, client: u32, on: bool)
        requires open_client { is_open_client self.old client ≡ true }
        ensures { self.new ≡ with_universal self.old client on }
    {
        self.set_capability(client, ClientCapability::UniversalPlanes, on);
    }

    /// Turns a capability of an open client on or off (drm-uapi, client capabilities). Does not allocate.
    pub fn set_capability(&mut self, client: u32, capability: ClientCapability, on: bool)
        requires open_client { is_open_client self.old client ≡ true }
        ensures { self.new ≡ with_capability self.old client capability on }
    {
        let Some(record) = self.clients.get_mut(client) else {
            unreachable!();
        };
        record.flags = record.flags.with_capability(capability, on);
    }
}
