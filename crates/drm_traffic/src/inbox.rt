//! The calls that no reader took yet.

ghost use Rattle.std.specs.Prelude.{◌≡◌, ◌+◌, ◌++◌, ◌∷◌, [], List};
ghost use Rattle.drm_traffic.specs.Reports.{HasMoved, IsAddedOrCounted};

use crate::batch::{Batch, MOST_FAULTS, WatchedFault};
use crate::step_queues::{StepQueue, add_queue, empty_queues};
use std::alloc::{AllocError, Global};
use std::collections::VecDeque;
use std::mem;

/// The calls that no reader took yet, but for the steps in the queues of the connections.
#[derive(Drop)]
pub(crate) struct Inbox {
    /// Full queues, in any order.
    pub(crate) full: Vec<StepQueue>,
    /// Empty queues that replace full ones. There are enough for all steps of a journal.
    pub(crate) spare: Vec<StepQueue>,
    /// Faults in the order of their reports.
    faults: VecDeque<WatchedFault>,
    left_out: u64,
    pub(crate) has_ended: bool,
}

impl Inbox {
    /// Creates an empty inbox, with this many queues for full ones.
    pub(crate) fn new(alloc: Global, most_full: usize) -> Result<Inbox, AllocError> {
        Ok(Inbox {
            full: Vec::with_capacity(alloc, most_full)?,
            spare: empty_queues(alloc, most_full)?,
            faults: VecDeque::with_capacity(alloc, MOST_FAULTS)?,
            left_out: 0,
            has_ended: false,
        })
    }

    /// Moves a full queue here, and puts an empty one in its place.
    pub(crate) fn take_queue(&mut self, queue: &mut StepQueue) {
        if let Some(empty) = self.spare.pop() {
            add_queue(&mut self.full, mem::replace(queue, empty));
        }
    }

    /// Adds a fault, or counts it if there is no room.
    pub(crate) fn add_fault(&mut self, fault: WatchedFault)
        ensures { IsAddedOrCounted self.old.faults.items self.old.left_out fault self.new.faults.items self.new.left_out }
    {
        if self.faults.len() < self.faults.capacity() {
            self.faults.push_back_reserved(fault);
        } else {
            self.left_out = self.left_out.saturating_add(1);
        }
    }

    /// Returns whether there is a fault, and the first one is after at most this many steps.
    fn is_due(&self, steps: u64) -> bool {
        match self.faults.front() {
            Some(fault) => fault.after <= steps,
            None => false,
        }
    }

    /// Moves the faults after at most this many steps to a batch, in the order of their reports, and their count if none is
    /// left. If a fault waits for an earlier one, no step of its connection overtakes it: the earlier fault was reported
    /// before that step was made.
    pub(crate) fn move_faults(&mut self, steps: u64, batch: &mut Batch)
        requires uncounted { batch.old.left_out ≡ 0 }
        ensures moved { HasMoved self.old.faults.items batch.old.faults.items self.new.faults.items batch.new.faults.items }
        ensures counted { batch.new.left_out + self.new.left_out ≡ self.old.left_out }
        ensures all { self.new.faults.items ≡ [] → self.new.left_out ≡ 0 }
        ensures steps { batch.new.steps ≡ batch.old.steps }
    {
        for _ in 0..self.faults.len() {
            if !self.is_due(steps) || batch.has_all_faults() {
                return;
            }
            if let Some(fault) = self.faults.pop_front() {
                batch.faults.push_reserved(fault);
            }
        }
        batch.left_out = mem::replace(&mut self.left_out, 0);
    }
}
