//! The calls of all connections, for threads that show or write them in the order of the history.

use crate::batch::{Batch, WatchedCall, WatchedFault, copy_of};
use crate::inbox::Inbox;
use crate::reorder::{Reorder, put_all};
use crate::step_queues::{LockedQueue, Placed, QUEUE_ROOM, add_queue, locked_queues};
use drm_table::Event;
use libc::CLOCK_MONOTONIC;
use libc::types::timespec;
use std::alloc::{AllocError, Global};
use std::mem;
use std::sync::atomic::{AtomicBool, AtomicU64, Ordering};
use std::sync::{Condvar, Mutex, Wait};
use std::time::Duration;

/// The number of queues. Connections that are open at once mostly use different ones.
const QUEUES: usize = 64;

/// Returns the time since the system was started.
fn now() -> Duration {
    let mut time = timespec {
        tv_sec: 0,
        tv_nsec: 0,
    };
    if libc::clock_gettime(CLOCK_MONOTONIC, &mut time) != 0 {
        return Duration::ZERO;
    }
    let seconds = Duration::from_secs(time.tv_sec.unsigned_abs());
    seconds.saturating_add(Duration::from_nanos(time.tv_nsec.unsigned_abs()))
}

/// What a reader saw when it took the steps.
#[derive(Clone, Copy)]
struct Seen {
    /// The number of reports before it took them: it has all of these.
    reports: u64,
    has_ended: bool,
}

/// The calls of all connections. A thread that reports a step locks the queue of its connection, and the inbox of all only
/// if the queue is full or a reader waits. There is room for each step of the journal, so that no step is left out. There is
/// also room for some faults. Those beyond are counted.
#[derive(Drop)]
pub struct Watch {
    start: Duration,
    /// The last steps of the connections. A queue is locked before the inbox.
    queues: Vec<LockedQueue>,
    inbox: Mutex<Inbox>,
    /// The number of faults that were reported so far.
    faults: AtomicU64,
    /// Whether some reader waits for more.
    is_awaited: AtomicBool,
    more: Condvar,
    /// Locked before the queues, and by readers only.
    reorder: Mutex<Reorder>,
}

impl Watch {
    /// Creates a watch for a device whose journal has room for this number of steps. Allocates room for each of them
    /// twice, and the queues of the connections.
    pub fn new(alloc: Global, most_steps: usize) -> Result<Watch, AllocError> {
        let most_full = (most_steps / QUEUE_ROOM).saturating_add(1);
        Ok(Watch {
            start: now(),
            queues: locked_queues(alloc, QUEUES)?,
            inbox: Mutex::new(Inbox::new(alloc, most_full)?),
            faults: AtomicU64::new(0),
            is_awaited: AtomicBool::new(false),
            more: Condvar::new(),
            reorder: Mutex::new(Reorder::new(alloc, most_steps, most_full)?),
        })
    }

    /// Reports a step of a connection, with the place of its entry in the history, from 0. `connection` is a number of the
    /// connection, such as its descriptor.
    pub fn report_step<R: Wait>(&self, rt: &R, connection: usize, place: u64, call: &WatchedCall) {
        if let Some(shared) = self.queues.get(connection % QUEUES) {
            self.add_step(rt, shared, place, call);
            shared.count();
            self.announce(rt);
        }
    }

    /// Reports a call of a connection that was answered by a fault.
    pub fn report_fault<R: Wait>(&self, rt: &R, fault: WatchedFault) {
        self.inbox.lock(rt).add_fault(fault);
        self.faults.fetch_add(1, Ordering::SeqCst);
        self.announce(rt);
    }

    /// Returns the number of reports so far.
    fn reports(&self) -> u64 {
        let mut reports = self.faults.load(Ordering::SeqCst);
        for shared in self.queues.iter() {
            reports = reports.wrapping_add(shared.reports());
        }
        reports
    }

    /// Wakes the readers if some reader waits. No reader misses a report, which is counted before: it sets the flag before it
    /// looks for reports, and waits under the inbox's lock.
    fn announce<R: Wait>(&self, rt: &R) {
        if self.is_awaited.load(Ordering::SeqCst) {
            let inbox = self.inbox.lock(rt);
            self.is_awaited.store(false, Ordering::SeqCst);
            drop(inbox);
            self.more.notify_all();
        }
    }

    /// Replaces a call by one of the same connection that was just answered, at the time since the start of the watch. Does not
    /// allocate.
    pub fn note(&self, call: &mut WatchedCall, event: &Event) {
        call.since = now().saturating_sub(self.start);
        call.event = copy_of(event);
    }

    /// Adds a step to the queue of its connection. A full queue is moved to the inbox before.
    fn add_step<R: Wait>(&self, rt: &R, shared: &LockedQueue, place: u64, call: &WatchedCall) {
        let mut queue = shared.queue.lock(rt);
        if queue.is_full() {
            self.inbox.lock(rt).take_queue(&mut queue);
        }
        queue.add(Placed {
            place,
            call: call.copy(),
        });
    }

    /// Returns whether a reader that has seen this many reports has to wait, and notes that it does.
    fn awaits(&self, inbox: &Inbox, seen: u64) -> bool {
        self.is_awaited.store(true, Ordering::SeqCst);
        !inbox.has_ended && self.reports() == seen
    }

    /// Announces that no more calls follow.
    pub fn end<R: Wait>(&self, rt: &R) {
        self.inbox.lock(rt).has_ended = true;
        self.more.notify_all();
    }

    /// Returns whether no more calls follow.
    pub fn has_ended<R: Wait>(&self, rt: &R) -> bool {
        self.inbox.lock(rt).has_ended
    }

    /// Puts the steps of all queues on the reorder. A queue without steps keeps its memory, so that few connections use little.
    fn unload_queues<R: Wait>(&self, rt: &R, reorder: &mut Reorder) {
        for shared in self.queues.iter() {
            let mut queue = shared.queue.lock(rt);
            if queue.steps.is_empty() {
                continue;
            }
            mem::swap(&mut *queue, &mut reorder.unloaded);
            drop(queue);
            put_all(&mut reorder.steps, &mut reorder.unloaded);
        }
    }

    /// Puts the steps of the inbox on the reorder.
    fn unload_inbox<R: Wait>(&self, rt: &R, reorder: &mut Reorder) {
        mem::swap(&mut self.inbox.lock(rt).full, &mut reorder.taken);
        for _ in 0..reorder.taken.len() {
            if let Some(mut queue) = reorder.taken.pop() {
                put_all(&mut reorder.steps, &mut queue);
                add_queue(&mut self.inbox.lock(rt).spare, queue);
            }
        }
    }

    /// Returns what was reported so far.
    fn seen<R: Wait>(&self, rt: &R) -> Seen {
        let inbox = self.inbox.lock(rt);
        Seen {
            reports: self.reports(),
            has_ended: inbox.has_ended,
        }
    }

    /// Clears a batch and fills it. If the step at this place is not on the reorder, it takes all steps that were reported. The
    /// reports are counted before, so that none of them is missed.
    fn fill<R: Wait>(&self, rt: &R, place: usize, takes_faults: bool, batch: &mut Batch) -> Seen {
        batch.clear();
        let mut locked = self.reorder.lock(rt);
        let reorder = &mut *locked;
        let seen = self.seen(rt);
        if !reorder.has(place) {
            self.unload_queues(rt, reorder);
            self.unload_inbox(rt, reorder);
        }
        reorder.copy_steps(place, &mut batch.steps);
        if takes_faults {
            let steps = place.saturating_add(batch.steps.len());
            self.inbox.lock(rt).move_faults(steps as u64, batch);
        }
        seen
    }

    /// Waits until there is a step at this place, a fault if faults are taken, or the end, and fills the batch. Returns
    /// whether there is something in it: at the end there is nothing.
    pub fn take<R: Wait>(
        &self,
        rt: &R,
        place: usize,
        takes_faults: bool,
        batch: &mut Batch,
    ) -> bool {
        for _ in rt.forever() {
            let seen = self.fill(rt, place, takes_faults, batch);
            if seen.has_ended || !batch.is_empty() {
                break;
            }
            let inbox = self.inbox.lock(rt);
            drop(
                self.more
                    .wait_while(rt, inbox, |inbox| self.awaits(inbox, seen.reports)),
            );
        }
        !batch.is_empty()
    }
}
