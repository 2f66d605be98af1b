//! The steps by their places in the history.

ghost use Rattle.std.specs.Prelude.{◌≡◌, IfSome, Some};
ghost use Rattle.std.specs.List.{slice_get};
ghost use Rattle.drm_traffic.specs.Reports.{HasCopied};

use crate::batch::{BATCH, WatchedCall};
use crate::step_queues::{Placed, StepQueue};
use std::alloc::{AllocError, Global};

/// The steps that some reader took from the queues and from the inbox, for all readers.
#[derive(Drop)]
pub(crate) struct Reorder {
    /// The steps by their places in the history. Threads report them in any order.
    pub(crate) steps: Vec<Option<WatchedCall>>,
    /// Those of the inbox that have no place here yet.
    pub(crate) taken: Vec<StepQueue>,
    /// Those of a queue that have no place here yet.
    pub(crate) unloaded: StepQueue,
}

/// Puts a step in its place.
fn put(steps: &mut Vec<Option<WatchedCall>>, step: Placed) {
    let place = step.place as usize;
    for _ in steps.len()..place.saturating_add(1) {
        if steps.len() < steps.capacity() {
            steps.push_reserved(None);
        }
    }
    if let Some(room) = steps.get_mut(place) {
        *room = Some(step.call);
    }
}

/// Puts all steps of a queue in their places.
pub(crate) fn put_all(steps: &mut Vec<Option<WatchedCall>>, queue: &mut StepQueue) {
    for _ in 0..queue.steps.len() {
        if let Some(step) = queue.steps.pop() {
            put(steps, step);
        }
    }
}

/// Writes to each place once, so that the system provides the memory now and not while clients are served.
fn provide(steps: &mut Vec<Option<WatchedCall>>) {
    for _ in steps.len()..steps.capacity() {
        if steps.len() < steps.capacity() {
            steps.push_reserved(None);
        }
    }
    steps.clear();
}

impl Reorder {
    /// Creates an empty reorder for this many steps, of which this many queues can be full.
    pub(crate) fn new(
        alloc: Global,
        most_steps: usize,
        most_full: usize,
    ) -> Result<Reorder, AllocError> {
        let mut steps = Vec::with_capacity(alloc, most_steps)?;
        provide(&mut steps);
        Ok(Reorder {
            steps,
            taken: Vec::with_capacity(alloc, most_full)?,
            unloaded: StepQueue::new(alloc)?,
        })
    }

    fn step_at(&self, place: usize) -> Option<&WatchedCall>
        ensures { IfSome result (λ step. slice_get self.now.steps.items place ≡ Some (Some step.now)) }
    {
        match self.steps.get(place) {
            Some(Some(step)) => Some(step),
            _ => None,
        }
    }

    /// Returns whether there is a step at this place.
    pub(crate) fn has(&self, place: usize) -> bool {
        self.step_at(place).is_some()
    }

    /// Copies the steps from this place on to a batch that has room for them.
    pub(crate) fn copy_steps(&self, place: usize, steps: &mut Vec<WatchedCall>)
        ensures { HasCopied self.now.steps.items place steps.old.items steps.new.items }
    {
        for at in place..place.saturating_add(BATCH) {
            let Some(step) = self.step_at(at) else {
                return;
            };
            if steps.len() == steps.capacity() {
                return;
            }
            steps.push_reserved(step.copy());
        }
    }
}
