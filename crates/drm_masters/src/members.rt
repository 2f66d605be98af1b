//! The clients that belong to masters.

ghost use Rattle.std.specs.Prelude.{◌≡◌, ◌==◌, ◌++◌, ◌∷◌, ℕ, [], None, not, false, true, filter, map, length, slice_get, OnOk, OnErr, IfSome, if◌then◌else◌};
ghost use Rattle.std.specs.List.{list_any};
ghost use Rattle.std.specs.Option.{is_some, option_map_or};
ghost use Rattle.std.specs.FinMap as fin;
ghost use Rattle.drm_masters.specs.Masters as sets;
ghost use Rattle.drm_index_array.specs.Indexed.{with_item};
ghost use Rattle.drm_index_array.specs.Rows.{placed};
ghost use Rattle.drm_id_alloc.specs.Groups.{IsAdded, has};
ghost use Rattle.drm_masters.specs.Tables.{member_row};

use crate::rows::{Magic, Member};
use drm_id_alloc::{Groups, NoMemory};
use drm_index_array::{IndexArray, InsertFault};
use std::alloc::Global;
use std::marker::Model;

/// The data of a client under its number.
#[derive(Clone, Copy)]
pub(crate) struct Membership {
    pub(crate) once_master: bool,
    pub(crate) is_master: bool,
    pub(crate) master: u32,
    pub(crate) magic: Option<Magic>,
}

/// The clients that belong to masters, by their numbers. Contracts see a flat list, in the order of their numbers.
#[derive(Drop)]
pub struct Members {
    clients: IndexArray<Membership>,
    // the clients by their masters
    named: Groups,
}

impl Model for Members {
    ghost use Rattle.drm_masters.specs.Tables.{MemberRows};

    ghost Value = { MemberRows };

    ghost use Rattle.drm_masters.specs.Members.{rows_of, AreNamed};

    ghost view = { rows_of };

    ghost invariant = { AreNamed };
}

impl Members {
    /// Creates a table without clients. Does not allocate.
    pub fn new(alloc: Global) -> Members
        ensures { result ≡ record { items = [] } }
    {
        Members {
            clients: IndexArray::new(alloc),
            named: Groups::new(alloc),
        }
    }

    /// Returns the number of clients.
    pub fn len(&self) -> usize
        ensures { result ≡ length self.now.items }
    {
        self.clients.len()
    }

    /// Returns a client's relation to its master, if it belongs to one.
    pub fn get(&self, client: u32) -> Option<Member>
        ensures { result ≡ sets.member_of self.now.items client }
    {
        let membership = self.clients.get(client)?;
        Some(row_of(client, *membership))
    }

    /// Returns the client at a position, from 0.
    pub fn nth(&self, position: usize) -> Option<Member>
        ensures { result ≡ slice_get self.now.items position }
    {
        let client = self.clients.nth(position)?;
        self.get(client)
    }

    /// Returns whether a client names the master. Looks at no other master.
    pub fn is_named(&self, master: u32) -> bool
        ensures { result ≡ list_any (λ x. x.master == master) self.now.items }
    {
        self.named.next(master, 0).is_some()
    }

    /// Adds a client that is not there. If memory is refused, nothing changes.
    pub fn add(&mut self, member: Member) -> Result<(), NoMemory>
        requires new_client { is_some (sets.member_of self.old.items member.client) ≡ false }
        ensures ok { OnOk result (self.new.items ≡ placed sets.member_before member self.old.items) }
        ensures err { OnErr result (self.new ≡ self.old) }
    {
        let client = member.client;
        let master = member.master;
        if let Err(NoMemory) = note(&mut self.named, master, client) {
            return Err(NoMemory);
        }
        if let Err(NoMemory) = insert(&mut self.clients, client, kept_of(member)) {
            self.named.forget(master, client);
            return Err(NoMemory);
        }
        Ok(())
    }

    /// Replaces the row of a client, if it has one. It keeps its master.
    pub fn set(&mut self, member: Member)
        requires stays { IfSome (sets.member_of self.old.items member.client) (λ x. x.master ≡ member.master) }
        ensures { self.new.items ≡ map (λ x. if sets.is_client member.client x then member else x) self.old.items }
    {
        let Some(kept) = self.clients.get_mut(member.client) else {
            return;
        };
        *kept = kept_of(member);
    }

    /// Replaces the row of a client by one of another master. If memory is refused, nothing changes.
    pub fn remake(&mut self, member: Member) -> Result<(), NoMemory>
        requires moves { option_map_or (λ x. not (x.master == member.master)) (sets.member_of self.old.items member.client) false ≡ true }
        ensures rows { OnOk result (self.new.items ≡ map (λ x. if sets.is_client member.client x then member else x) self.old.items) }
        ensures err { OnErr result (self.new ≡ self.old) }
    {
        let client = member.client;
        let master = member.master;
        let Some(old) = self.get(client) else {
            unreachable!()
        };
        if let Err(NoMemory) = note(&mut self.named, master, client) {
            return Err(NoMemory);
        }
        self.named.forget(old.master, client);
        put(&mut self.clients, client, kept_of(member));
        Ok(())
    }

    /// Removes a client, if it has a row.
    pub fn remove(&mut self, client: u32)
        ensures { self.new.items ≡ filter (λ x. not (sets.is_client client x)) self.old.items }
    {
        let Some(kept) = self.clients.remove(client) else {
            return;
        };
        self.named.forget(kept.master, client);
    }
}

/// Adds a client to those of a master. If memory is refused, nothing changes.
fn note(named: &mut Groups, master: u32, client: u32) -> Result<(), NoMemory>
    ensures ok { OnOk result (IsAdded (has named.old) master client (has named.new)) }
    ensures err { OnErr result (named.new ≡ named.old) }
{
    named.note(master, client)
}

/// Adds the data of a client that has none. If memory is refused, nothing changes.
fn insert(
    clients: &mut IndexArray<Membership>,
    client: u32,
    kept: Membership,
) -> Result<(), NoMemory>
    requires absent { fin.get clients.old.items client ≡ None }
    ensures ok { OnOk result (clients.new ≡ with_item clients.old client kept) }
    ensures err { OnErr result (clients.new ≡ clients.old) }
{
    match clients.insert(client, kept) {
        Ok(()) => Ok(()),
        Err(InsertFault::NoMemory(_)) => Err(NoMemory),
        Err(InsertFault::Taken(_)) => unreachable!(),
    }
}

/// Replaces the data of a client that has some.
fn put(clients: &mut IndexArray<Membership>, client: u32, kept: Membership)
    requires open_client { is_some (fin.get clients.old.items client) ≡ true }
    ensures { clients.new ≡ with_item clients.old client kept }
{
    let Some(slot) = clients.get_mut(client) else {
        unreachable!()
    };
    *slot = kept;
}

fn row_of(client: u32, kept: Membership) -> Member
    ensures { result ≡ member_row (client, kept) }
{
    Member {
        client,
        once_master: kept.once_master,
        is_master: kept.is_master,
        master: kept.master,
        magic: kept.magic,
    }
}

fn kept_of(member: Member) -> Membership
    ensures { member_row (member.client, result) ≡ member }
{
    Membership {
        once_master: member.once_master,
        is_master: member.is_master,
        master: member.master,
        magic: member.magic,
    }
}
