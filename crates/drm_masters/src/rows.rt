//! The rows of clients and of masters.

ghost use Rattle.std.specs.Prelude.{◌≡◌};

use std::marker::Model;

/// The key of a master of [`Masters`](crate::Masters) while it exists. Another master may have the key afterwards.
/// Contracts see a number.
///
/// # Examples
///
/// ```rust
/// use drm_masters::Masters;
///
/// let alloc = rt.alloc();
/// let mut masters = Masters::new(alloc, 4, 4);
/// let Ok(_first) = masters.on_open(1, 1) else { return };
/// let Some(key) = masters.master_of(1) else { return };
/// assert!(rt; matches!(masters.master(1), Some(row) if row.key == key));
/// ```
#[derive(Clone, Copy, PartialEq, Debug)]
pub struct MasterKey {
    number: u32,
}

impl Model for MasterKey {
    ghost use Rattle.std.specs.Prelude.{ℕ};

    ghost Value = { ℕ };

    ghost view = { λ key. key.number };

    ghost inverse = { λ number. record { number = number } };
}

impl MasterKey {
    pub(crate) fn from_number(number: u32) -> MasterKey
        ensures { result ≡ number }
    {
        MasterKey { number }
    }

    /// Returns the key as a number, which another table can use as an index. Does not allocate.
    pub fn number(self) -> u32
        ensures { result ≡ self }
    {
        self.number
    }
}

/// A client's number under its master (drm(7)).
///
/// # Examples
///
/// ```rust
/// use drm_masters::{Magic, Masters};
///
/// let alloc = rt.alloc();
/// let mut masters = Masters::new(alloc, 4, 4);
/// let Ok(_first) = masters.on_open(1, 1) else { return };
/// if masters.member(1).is_some() {
///     assert!(rt; masters.magic(1) == Ok(1));
/// }
/// let magic = Some(Magic { number: 1, spent: false });
/// assert!(rt; matches!(masters.member(1), Some(row) if row.magic == magic));
/// ```
#[derive(Clone, Copy, PartialEq, Debug)]
pub struct Magic {
    /// The number, from 1.
    pub number: u32,
    /// Whether it was used. It then stays reserved until its client closes or gets a new master.
    pub spent: bool,
}

/// An open client's relation to its master. A render client has none, and is not listed.
#[derive(Clone, Copy, PartialEq, Debug)]
pub struct Member {
    /// The client's number.
    pub client: u32,
    /// Whether its opening or SET_MASTER ever made it a master.
    pub once_master: bool,
    /// Whether its master is its own.
    pub is_master: bool,
    /// Its master, by the number of the step that created it.
    pub master: u32,
    /// Its number under that master, if it requested one.
    pub magic: Option<Magic>,
}

/// A row of an audit from [`Masters`](crate::Masters) (own).
///
/// # Examples
///
/// ```rust
/// use drm_masters::{MasterRow, Masters, Member};
///
/// let alloc = rt.alloc();
/// let mut masters = Masters::new(alloc, 4, 4);
/// let Ok(_first) = masters.on_open(1, 1) else { return };
/// let member = Member { client: 1, once_master: true, is_master: true, master: 1, magic: None };
/// assert!(rt; matches!(masters.nth(1, 0), Some(MasterRow::Client(row)) if row == member));
/// ```
#[derive(Clone, Copy, PartialEq, Debug)]
pub enum MasterRow {
    /// A row of kind 1, of a client that belongs to a master.
    Client(Member),
    /// A row of kind 2.
    Master(Master),
}

/// A master (drm(7)).
///
/// # Examples
///
/// ```rust
/// use drm_masters::{Master, Masters};
///
/// let alloc = rt.alloc();
/// let mut masters = Masters::new(alloc, 4, 4);
/// let Ok(_first) = masters.on_open(1, 1) else { return };
/// let Some(key) = masters.master_of(1) else { return };
/// let master = Master { key, step_number: 1, lessor: None, lessee_id: 0, kept: false };
/// assert!(rt; masters.nth_master(0) == Some(master));
/// ```
#[derive(Clone, Copy, PartialEq, Debug)]
pub struct Master {
    /// The key of the master.
    pub key: MasterKey,
    /// The number of the step that created it.
    pub step_number: u32,
    /// The lessor of a lessee, by the number of the step that created that one.
    pub lessor: Option<u32>,
    /// The id of a lessee among all of its owner, from 1. Any other master has 0.
    pub lessee_id: u32,
    /// Whether it stays until its release: a lessee that no client has redeemed, or the own master of a client that
    /// closed.
    pub kept: bool,
}
