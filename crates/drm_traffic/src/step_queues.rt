//! Queues of steps.

use crate::batch::WatchedCall;
use drm_sessions::Class;
use drm_table::Event;
use std::alloc::{AllocError, Global};
use std::sync::Mutex;
use std::sync::atomic::{AtomicU64, Ordering};
use std::time::Duration;

/// The most steps in a queue.
pub(crate) const QUEUE_ROOM: usize = 512;

/// A step, with the place of its entry in the history.
#[derive(Drop)]
pub(crate) struct Placed {
    pub(crate) place: u64,
    pub(crate) call: WatchedCall,
}

/// Steps of the connections that share a queue, in any order.
#[derive(Drop)]
pub(crate) struct StepQueue {
    pub(crate) steps: Vec<Placed>,
}

impl StepQueue {
    /// Creates an empty queue.
    pub(crate) fn new(alloc: Global) -> Result<StepQueue, AllocError> {
        Ok(StepQueue {
            steps: Vec::with_capacity(alloc, QUEUE_ROOM)?,
        })
    }

    /// Writes to each place once, so that the system provides the memory now and not while a step is added.
    fn provide(&mut self) {
        for _ in self.steps.len()..self.steps.capacity() {
            self.add(Placed {
                place: 0,
                call: WatchedCall {
                    since: Duration::ZERO,
                    class: Class::Card,
                    event: Event::Close(0),
                },
            });
        }
        self.steps.clear();
    }

    pub(crate) fn is_full(&self) -> bool {
        self.steps.len() == self.steps.capacity()
    }

    /// Adds a step, if there is room.
    pub(crate) fn add(&mut self, step: Placed) {
        if self.steps.len() < self.steps.capacity() {
            self.steps.push_reserved(step);
        }
    }
}

/// Creates this many queues.
pub(crate) fn empty_queues(alloc: Global, count: usize) -> Result<Vec<StepQueue>, AllocError> {
    let mut queues = Vec::with_capacity(alloc, count)?;
    for _ in 0..count {
        let mut queue = StepQueue::new(alloc)?;
        queue.provide();
        queues.push(queue)?;
    }
    Ok(queues)
}

/// The queue of some connections.
#[derive(Drop)]
pub(crate) struct LockedQueue {
    pub(crate) queue: Mutex<StepQueue>,
    /// The number of reports of these connections so far.
    reports: AtomicU64,
    /// Keeps the queues of other connections out of the cache lines of this one.
    _apart: [u64; 10],
}

impl LockedQueue {
    fn new(alloc: Global) -> Result<LockedQueue, AllocError> {
        Ok(LockedQueue {
            queue: Mutex::new(StepQueue::new(alloc)?),
            reports: AtomicU64::new(0),
            _apart: [0; 10],
        })
    }

    /// Returns the number of reports so far.
    pub(crate) fn reports(&self) -> u64 {
        self.reports.load(Ordering::SeqCst)
    }

    /// Counts a report.
    pub(crate) fn count(&self) {
        self.reports.fetch_add(1, Ordering::SeqCst);
    }
}

/// Creates this many queues, each with its lock.
pub(crate) fn locked_queues(alloc: Global, count: usize) -> Result<Vec<LockedQueue>, AllocError> {
    let mut queues = Vec::with_capacity(alloc, count)?;
    for _ in 0..count {
        queues.push(LockedQueue::new(alloc)?)?;
    }
    Ok(queues)
}

/// Appends a queue to a list, if there is room.
pub(crate) fn add_queue(queues: &mut Vec<StepQueue>, queue: StepQueue) {
    if queues.len() < queues.capacity() {
        queues.push_reserved(queue);
    }
}
