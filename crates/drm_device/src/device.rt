//! The device.

ghost use Rattle.std.specs.Prelude.{◌≡◌, ◌+◌, ◌^◌, ◌<◌, ◌≤◌, ◌↔◌, false, true, not, [], length, Err, IfOk, OnOk, OnErr};
ghost use Rattle.drm_table.specs.Limits.{are_in_range};
ghost use Rattle.drm_table.specs.declared.apart.Apart.TheVariants.{NoMemory};
ghost use Rattle.drm_table.specs.Results.{FitsOneFrame};
ghost use Rattle.drm_model.specs.Audit.{audit_page, audit_rows, rising_rows};
ghost use Rattle.drm_model.specs.Run.{Step, FoundRoom, no_room, journaled_in, rows_of, start_of};

use crate::audits::page_of;
use crate::events::advance_at;
use crate::journal::Journal;
use crate::shortage::Shortage;
use drm_files::Files;
use drm_gem::Objects;
use drm_leases::Leases;
use drm_masters::Masters;
use drm_modes::{Modes, Topology};
use drm_share::{Names, Tokens};
use drm_state::{Memory, State};
use drm_table::{Answer, Apart, AuditKind, AuditPage, Event, Limits, are_in_range};
use std::alloc::{AllocError, Global};
use std::marker::Model;

/// A state machine over openings, requests and closings. Contracts see its topology, its limits and its journal, and as
/// its rows those that the journal leaves of empty ones.
///
/// # Examples
///
/// ```rust
/// use drm_device::{Device, Limits, Topology};
/// use drm_table::{Answer, Call, Event, Opening};
///
/// let alloc = rt.alloc();
/// let Some(topology) = Topology::new(2, &[1, 2], &[3, 2], &[5, 6]) else { return };
/// let Ok(mut device) = Device::new(alloc, topology, Limits::PROGRAM) else { return };
/// let opening = Opening::Primary { root: false, universal: true };
/// assert!(rt; device.step(Event::Open(opening)) == Ok(Answer::Opened { client: 1 }));
/// assert!(rt; device.step(Event::Ask(1, Call::SetMaster)) == Ok(Answer::Done));
/// ```
pub struct Device {
    limits: Limits,
    journal: Journal,
    state: State,
}

// Written out, so that it is proved once: a derived one is proved again in each crate that drops such a value.
impl Drop for Device {
    fn drop(self) {
        let Device {
            limits: _,
            journal,
            state,
        } = self;
        drop(journal);
        drop(state);
    }
}

impl Model for Device {
    ghost use Rattle.drm_model.specs.Run.{DeviceValue};

    ghost Value = { DeviceValue };

    ghost use Rattle.drm_device.specs.Device.{value_of, IsDevice};

    ghost view = { value_of };

    ghost invariant = { IsDevice };
}

/// The reason a device was not created.
///
/// # Examples
///
/// ```rust
/// use drm_device::{Device, Limits, NewFault, Topology};
///
/// let alloc = rt.alloc();
/// let Some(topology) = Topology::new(2, &[1, 2], &[3, 2], &[5, 6]) else { return };
/// let limits = Limits { clients: 0, ..Limits::PROGRAM };
/// let Err(fault) = Device::new(alloc, topology, limits) else { return };
/// assert!(rt; fault == NewFault::BadLimits);
/// ```
#[derive(Clone, Copy, PartialEq, Debug)]
pub enum NewFault {
    /// A limit is out of its range.
    BadLimits,
    /// Memory for the journal was refused.
    NoMemory,
}

impl Device {
    /// Returns a device that no client has opened yet. The whole journal is reserved. Without memory, or where a limit
    /// is out of its range, there is no device.
    pub fn new(alloc: Global, topology: Topology, limits: Limits) -> Result<Device, NewFault>
        ensures ok { IfOk result (λ device. device ≡ record { topology = topology; limits = limits; journal = [] }) }
        ensures bad_limits { (result ≡ Err NewFault.BadLimits) ↔ (are_in_range limits ≡ false) }
    {
        if !are_in_range(limits) {
            return Err(NewFault::BadLimits);
        }
        let Ok(journal) = Journal::with_capacity(alloc, limits.journal as usize) else {
            return Err(NewFault::NoMemory);
        };
        let modes = Modes::new(alloc, topology, limits.framebuffers);
        modes.laws();
        let leases = Leases::new(alloc, limits.tokens);
        leases.laws();
        Ok(Device {
            limits,
            journal,
            state: State {
                files: Files::new(alloc, limits.clients, limits.handles),
                masters: Masters::new(alloc, limits.clients, limits.lessees),
                leases,
                objects: Objects::new(alloc, limits.objects),
                names: Names::new(alloc, limits.names),
                tokens: Tokens::new(alloc, limits.tokens),
                modes,
            },
        })
    }

    /// Answers one event. A denial is an answer: it names the first rule that fails, and is recorded. A fault, for a
    /// full journal (own) or refused memory, leaves the device unchanged and isn't recorded. The lists of an answer
    /// have at most 251 ids together, which one frame takes.
    pub fn step(&mut self, event: Event) -> Result<Answer, Apart>
        ensures step { Step (rows_of self.old) event result (rows_of self.new) }
        ensures few { FitsOneFrame result }
        ensures ok { OnOk result (self.new ≡ journaled_in self.old event) }
        ensures err { OnErr result (self.new ≡ self.old) }
        ensures in_range { are_in_range self.new.limits ≡ true }
        ensures found_room { FoundRoom (start_of self.new) self.new.journal }
        ensures within { length self.new.journal ≤ self.new.limits.journal }
        ensures bounded { self.new.limits.journal ≤ 100000 }
    {
        let mut outcome = Ok(Answer::Done);
        self.step_at(&event, &mut outcome);
        outcome
    }

    /// Answers one event as [`step`](Device::step) does, and writes what resulted from it to a place of the caller's,
    /// so that an answer is moved less.
    pub fn step_at(&mut self, event: &Event, outcome: &mut Result<Answer, Apart>)
        ensures step { Step (rows_of self.old) event.now outcome.new (rows_of self.new) }
        ensures few { FitsOneFrame outcome.new }
        ensures ok { OnOk outcome.new (self.new ≡ journaled_in self.old event.now) }
        ensures err { OnErr outcome.new (self.new ≡ self.old) }
        ensures in_range { are_in_range self.new.limits ≡ true }
        ensures found_room { FoundRoom (start_of self.new) self.new.journal }
        ensures within { length self.new.journal ≤ self.new.limits.journal }
        ensures bounded { self.new.limits.journal ≤ 100000 }
    {
        self.step_with(Memory::Ample, event, outcome);
    }

    /// Answers one event, with memory for its rows or without.
    fn step_with(&mut self, memory: Memory, event: &Event, outcome: &mut Result<Answer, Apart>)
        ensures step { Step (rows_of self.old) event.now outcome.new (rows_of self.new) }
        ensures few { FitsOneFrame outcome.new }
        ensures ok { OnOk outcome.new (self.new ≡ journaled_in self.old event.now) }
        ensures err { OnErr outcome.new (self.new ≡ self.old) }
        ensures in_range { are_in_range self.new.limits ≡ true }
        ensures found_room { FoundRoom (start_of self.new) self.new.journal }
        ensures within { length self.new.journal ≤ self.new.limits.journal }
        ensures bounded { self.new.limits.journal ≤ 100000 }
    {
        if !self.has_room(event) {
            Apart::JournalFull.replace(outcome);
            return;
        }
        let step_number = self.journal.len() as u32 + 1;
        let places = self.places_for(event);
        self.journal.provide(places);
        // The event is recorded before the call is carried out. The processor fetches the journal's memory meanwhile.
        self.journal.record(event);
        if let Err(AllocError) = advance_at(&mut self.state, step_number, memory, event, outcome) {
            self.journal.take_back();
            Apart::NoMemory.replace(outcome);
        }
    }

    /// Returns for how many events the journal's memory is provided with this one: 10,000 for each open client and the new
    /// one if it opens, and none otherwise. An opening may take the time that a request may not.
    fn places_for(&self, event: &Event) -> usize {
        match event {
            Event::Open(_) => 10_000_usize.saturating_mul(self.state.files.len().saturating_add(1)),
            _ => 0,
        }
    }

    /// Answers one event as [`step_at`](Device::step_at) does, and refuses memory to an event of a shortage, so that a
    /// program can be tested where memory is short (own).
    ///
    /// Each event that adds a row, and needs memory for it, lowers the number of the shortage by one. Memory is refused
    /// to the event with which it becomes 0: it is answered with the fault for refused memory, and nothing changes. Other
    /// events are answered as usual, and all events where the shortage is over or there is none.
    ///
    /// # Examples
    ///
    /// ```rust
    /// use drm_device::{Device, Limits, Shortage, Topology};
    /// use drm_table::{Answer, Apart, Call, Event, Opening};
    ///
    /// let alloc = rt.alloc();
    /// let Some(topology) = Topology::new(2, &[1, 2], &[3, 2], &[5, 6]) else { return };
    /// let Ok(mut device) = Device::new(alloc, topology, Limits::PROGRAM) else { return };
    /// let opening = Opening::Primary { root: false, universal: true };
    /// assert!(rt; device.step(Event::Open(opening)) == Ok(Answer::Opened { client: 1 }));
    /// let shortage = Shortage::new(1);
    /// let mut outcome = Ok(Answer::Done);
    /// device.step_short_at(&Event::Ask(1, Call::Version), Some(&shortage), &mut outcome);
    /// assert!(rt; outcome.is_ok());
    /// device.step_short_at(&Event::Ask(1, Call::BufCreate { size: 4096 }), Some(&shortage), &mut outcome);
    /// assert!(rt; outcome == Err(Apart::NoMemory));
    /// device.step_short_at(&Event::Ask(1, Call::BufCreate { size: 4096 }), Some(&shortage), &mut outcome);
    /// assert!(rt; outcome == Ok(Answer::Buffer { handle: 1, size: 4096 }));
    /// ```
    pub fn step_short_at(
        &mut self,
        event: &Event,
        shortage: Option<&Shortage>,
        outcome: &mut Result<Answer, Apart>,
    )
        ensures step { Step (rows_of self.old) event.now outcome.new (rows_of self.new) }
        ensures few { FitsOneFrame outcome.new }
        ensures ok { OnOk outcome.new (self.new ≡ journaled_in self.old event.now) }
        ensures err { OnErr outcome.new (self.new ≡ self.old) }
        ensures in_range { are_in_range self.new.limits ≡ true }
        ensures found_room { FoundRoom (start_of self.new) self.new.journal }
        ensures within { length self.new.journal ≤ self.new.limits.journal }
        ensures bounded { self.new.limits.journal ≤ 100000 }
    {
        match shortage {
            Some(shortage) if shortage.left() > 0 => {
                self.step_in_shortage(event, shortage, outcome);
            }
            _ => self.step_at(event, outcome),
        }
    }

    /// Answers an event with memory refused. If it needed memory, it is answered again with memory, unless the shortage
    /// ends with it.
    fn step_in_shortage(
        &mut self,
        event: &Event,
        shortage: &Shortage,
        outcome: &mut Result<Answer, Apart>,
    )
        ensures step { Step (rows_of self.old) event.now outcome.new (rows_of self.new) }
        ensures few { FitsOneFrame outcome.new }
        ensures ok { OnOk outcome.new (self.new ≡ journaled_in self.old event.now) }
        ensures err { OnErr outcome.new (self.new ≡ self.old) }
        ensures in_range { are_in_range self.new.limits ≡ true }
        ensures found_room { FoundRoom (start_of self.new) self.new.journal }
        ensures within { length self.new.journal ≤ self.new.limits.journal }
        ensures bounded { self.new.limits.journal ≤ 100000 }
    {
        self.step_with(Memory::Refused, event, outcome);
        if is_refused(outcome) && !shortage.ends_here() {
            self.step_with(Memory::Ample, event, outcome);
        }
    }

    /// Returns whether the journal has a place for the event next to those kept for closings.
    fn has_room(&self, event: &Event) -> bool
        ensures { result ≡ not (no_room (rows_of self.now) event.now) }
    {
        let left = self.limits.journal as usize - self.journal.len();
        let clients = self.state.files.len();
        match event {
            Event::Open(_) => left >= clients + 2,
            Event::Ask(_, _) => left >= clients + 1,
            Event::Close(client) => {
                self.state.files.flags_of(*client).is_some() || left >= clients + 1
            }
        }
    }

    /// Returns the events that were carried out or denied, the oldest first.
    pub fn journal(&self) -> &[Event]
        ensures events { result.now ≡ self.now.journal }
        ensures found_room { FoundRoom (start_of self.now) self.now.journal }
        ensures within { length self.now.journal ≤ self.now.limits.journal }
        ensures bounded { self.now.limits.journal ≤ 100000 }
    {
        self.journal.events()
    }

    /// Returns up to 16 rows of a kind, after the first `from`, in the order of their numbers (own). Does not allocate.
    pub fn audit(&self, kind: AuditKind, from: u32) -> AuditPage
        ensures page { result ≡ audit_page (rows_of self.now) kind from }
        ensures few { length (rising_rows (audit_rows (rows_of self.now) kind)) < 2 ^ 31 }
    {
        page_of(&self.state, self.journal.len() as u32, kind, from)
    }

    /// Returns the number of steps for which the journal has room, without the room that is reserved for the closings
    /// of the open clients.
    pub fn journal_left(&self) -> u32
        ensures left { result + length self.now.journal + length (rows_of self.now).clients ≡ self.now.limits.journal }
    {
        self.limits.journal - self.journal.len() as u32 - self.state.files.len() as u32
    }
}

/// Returns whether memory was refused.
fn is_refused(outcome: &Result<Answer, Apart>) -> bool
    ensures { result ≡ true → outcome.now ≡ Err NoMemory }
{
    matches!(outcome, Err(Apart::NoMemory))
}
