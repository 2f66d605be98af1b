//! The reports of a session to the watch of all connections, and what a plan does to its answers.

use crate::notes::{Note, Notes};
use crate::open_connections::OpenConnections;
use crate::outlet::wait_for;
use drm_device::Shortage;
use drm_sessions::{Class, Witness};
use drm_table::{Answer, Apart, Event};
use drm_traffic::{Due, Plan, Watch, WatchedCall, WatchedFault};
use libc::net::{SHUT_RDWR, shutdown};
use std::cell::{Cell, RefCell};
use std::mem;
use std::os::fd::RawFd;
use std::sync::Wait;
use std::time::Duration;

/// What is left to report of a call.
#[derive(Clone, Copy)]
enum Unreported {
    Nothing,
    /// A step, with the place of its entry in the history.
    Step(u64),
    Fault(Apart),
}

/// The last call of a connection. It stays in one place until it is reported, so that it is moved less.
#[derive(Drop)]
struct Last {
    call: WatchedCall,
    unreported: Unreported,
}

/// Reports the calls of a connection of this class to the watch of all connections, if there is one. If there is a plan,
/// it counts them too: an answer may be delayed, or the connection closed. The first fault of all connections that the
/// journal is full is logged.
///
/// A call is kept before its answer is written, and reported by [`flush`](Reporting::flush) afterwards. So no answer waits
/// for the report.
#[derive(Drop)]
pub struct Reporting<'a, R: Wait> {
    rt: &'a R,
    notes: &'a Notes,
    watch: Option<&'a Watch>,
    plan: Option<&'a Plan>,
    socket: RawFd,
    /// The place after that of the connection's last step.
    next: Cell<u64>,
    last: RefCell<Last>,
}

impl<'a, R: Wait> Reporting<'a, R> {
    /// Creates what reports the calls of a connection. The socket is the connection's.
    pub fn new(
        rt: &'a R,
        open: &'a OpenConnections,
        class: Class,
        socket: RawFd,
    ) -> Reporting<'a, R> {
        Reporting {
            rt,
            notes: open.notes(),
            watch: open.watch(),
            plan: open.plan(),
            socket,
            next: Cell::new(0),
            last: RefCell::new(Last {
                call: WatchedCall {
                    since: Duration::ZERO,
                    class,
                    event: Event::Close(0),
                },
                unreported: Unreported::Nothing,
            }),
        }
    }

    /// Returns these reports if there is a watch.
    pub(crate) fn if_watched(&'a self) -> Option<&'a Reporting<'a, R>> {
        match self.watch {
            Some(_) => Some(self),
            None => None,
        }
    }

    /// Counts a call in the plan, if there is one, and returns what is done to its answer.
    fn due(&self, event: &Event) -> Due {
        match self.plan {
            Some(plan) => plan.due(self.rt, event),
            None => Due::NOTHING,
        }
    }

    /// Returns what is to be reported of a call that was just answered.
    fn unreported(&self, place: Option<u64>, outcome: &Result<Answer, Apart>) -> Unreported {
        match (place, outcome) {
            (Some(place), _) => {
                self.next.set(place.saturating_add(1));
                Unreported::Step(place)
            }
            (None, Err(fault)) => Unreported::Fault(*fault),
            (None, Ok(_)) => Unreported::Nothing,
        }
    }

    /// Keeps a call that was just answered, to report it later. One that was kept before is reported now.
    fn keep(
        &self,
        watch: &Watch,
        event: &Event,
        place: Option<u64>,
        outcome: &Result<Answer, Apart>,
    ) {
        self.flush();
        if let Ok(mut last) = self.last.try_borrow_mut() {
            watch.note(&mut last.call, event);
            last.unreported = self.unreported(place, outcome);
        }
    }

    /// Reports the call that was kept, if there is one.
    pub fn flush(&self) {
        if let Some(watch) = self.watch {
            self.report_to(watch);
        }
    }

    fn report_to(&self, watch: &Watch) {
        let Ok(mut last) = self.last.try_borrow_mut() else {
            return;
        };
        let connection = self.socket.unsigned_abs() as usize;
        match mem::replace(&mut last.unreported, Unreported::Nothing) {
            Unreported::Nothing => {}
            Unreported::Step(place) => {
                watch.report_step(self.rt, connection, place, &last.call);
            }
            Unreported::Fault(fault) => {
                let call = last.call.copy();
                let after = self.next.get();
                watch.report_fault(self.rt, WatchedFault { call, fault, after });
            }
        }
    }

    /// Waits until an answer is due, or the connection is closed.
    fn wait_for(&self, millis: u16) {
        wait_for(self.socket, 0, i32::from(millis));
    }

    /// Delays an answer, or closes the connection. The call is reported before.
    fn carry_out(&self, due: Due) {
        self.flush();
        if let Some(millis) = due.millis {
            self.wait_for(millis);
        }
        if due.breaks {
            shutdown(self.socket, SHUT_RDWR);
        }
    }
}

impl<R: Wait> Witness for &Reporting<'_, R> {
    fn shortage(&self, event: &Event) -> Option<&Shortage> {
        match self.plan {
            Some(plan) => plan.shortage(event),
            None => None,
        }
    }

    fn tell(&self, event: &Event, place: Option<u64>, outcome: &Result<Answer, Apart>) {
        let due = self.due(event);
        if let Err(Apart::JournalFull) = outcome {
            self.notes.add_once(self.rt, Note::JournalFull);
        }
        if let Some(watch) = self.watch {
            self.keep(watch, event, place, outcome);
        }
        if due.millis.is_some() || due.breaks {
            self.carry_out(due);
        }
    }
}
