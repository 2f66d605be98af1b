//! What a reader takes at once.

ghost use Rattle.std.specs.Prelude.{◌≡◌, ◌<◌, ◌++◌, ◌∷◌, [], false, vec_len};
ghost use Rattle.std.specs.Vec.{vec_capacity};

use drm_sessions::Class;
use drm_table::{Apart, Event};
use std::alloc::{AllocError, Global};
use std::time::Duration;

/// The most faults that wait to be shown.
pub(crate) const MOST_FAULTS: usize = 1_024;

/// The most steps that a reader takes at once.
pub(crate) const BATCH: usize = 256;

/// Returns the same event.
pub(crate) fn copy_of(event: &Event) -> Event
    ensures { result ≡ event.now }
{
    match event.clone() {
        Ok(copy) => copy,
        Err(_) => unreachable!(),
    }
}

/// A call of a connection, which is answered.
#[derive(Drop)]
pub struct WatchedCall {
    /// The time from the start of the watch to the answer.
    pub since: Duration,
    /// The class of the connection's listener.
    pub class: Class,
    /// What was asked.
    pub event: Event,
}

impl WatchedCall {
    /// Returns the same call. Does not allocate.
    pub fn copy(&self) -> WatchedCall
        ensures { result ≡ self.now }
    {
        WatchedCall {
            since: self.since,
            class: self.class,
            event: copy_of(&self.event),
        }
    }
}

/// A call that was answered by a fault. The history has no entry of it.
#[derive(Drop)]
pub struct WatchedFault {
    /// The call.
    pub call: WatchedCall,
    /// Its answer.
    pub fault: Apart,
    /// The number of steps of the history before it: those up to the last one of its connection.
    pub after: u64,
}

/// What a reader takes at once.
#[derive(Drop)]
pub struct Batch {
    /// Steps of the history, in its order, without a gap.
    pub steps: Vec<WatchedCall>,
    /// Faults before, between and right after these steps, in the order of their reports.
    pub faults: Vec<WatchedFault>,
    /// The number of further faults for which there was no room.
    pub left_out: u64,
}

impl Batch {
    /// Creates an empty batch, with room for all that is taken at once.
    pub fn new(alloc: Global) -> Result<Batch, AllocError> {
        let steps = Vec::with_capacity(alloc, BATCH)?;
        let faults = Vec::with_capacity(alloc, MOST_FAULTS)?;
        Ok(Batch {
            steps,
            faults,
            left_out: 0,
        })
    }

    /// Returns whether there is nothing in it.
    pub(crate) fn is_empty(&self) -> bool {
        self.steps.is_empty() && self.faults.is_empty() && self.left_out == 0
    }

    /// Returns whether there is no room for a fault.
    pub(crate) fn has_all_faults(&self) -> bool
        ensures { result ≡ false → vec_len self.now.faults < vec_capacity self.now.faults }
    {
        self.faults.len() == self.faults.capacity()
    }

    pub(crate) fn clear(&mut self)
        ensures steps { self.new.steps.items ≡ [] }
        ensures faults { self.new.faults.items ≡ [] }
        ensures left_out { self.new.left_out ≡ 0 }
    {
        self.steps.clear();
        self.faults.clear();
        self.left_out = 0;
    }
}
