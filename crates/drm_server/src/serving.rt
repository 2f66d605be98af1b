//! A device that is served on three sockets.

ghost use Rattle.std.specs.Prelude.{◌≡◌};
ghost use Rattle.drm_server.specs.Serving.{fault_of_serving};

use crate::command_line::{Accepts, Serving};
use crate::controlling::control;
use crate::ending::end_with_input;
use crate::growing_journal::{GrowingJournal, Growth, grow};
use crate::sockets::SocketFiles;
use crate::tracing::{Trace, write_trace};
use drm_commands::Fault;
use drm_connections::{Counts, MOST_AT_ONCE, OpenConnections};
use drm_device::Device;
use drm_listeners::{Listeners, ServeFault, Unserved, serve_keeping, serve_until_ended};
use drm_traffic::{PROGRAM, Plan, Watch};
use log::{Log, error, info};
use std::alloc::Global;
use std::net::Net;
use std::os::unix::net::{UnixListener, UnixStream};
use std::rt::Files;
use std::sync::Wait;
use std::thread;
use std::thread::{JoinHandle, Scope, Threads};

/// The most connections on each socket at once.
const AT_ONCE: Counts = Counts {
    cards: MOST_AT_ONCE as u8,
    renders: MOST_AT_ONCE as u8,
    roots: MOST_AT_ONCE as u8,
};

/// Returns the fault of the program if not all connections were served.
pub(crate) fn fault_of(fault: ServeFault) -> Fault
    ensures { result ≡ fault_of_serving fault }
{
    match fault {
        ServeFault::Accept(class) => Fault::Accept(class),
        ServeFault::NoThread => Fault::Thread,
        ServeFault::NoMemory => Fault::Memory,
        ServeFault::TurnOut => Fault::Turn,
    }
}

/// Logs the paths of the sockets, and the number of connections that the server accepts on each.
fn log_sockets<R: Log>(rt: &R, serving: &Serving<'_>) {
    let paths = serving.paths;
    let (counts, how) = match serving.accepts {
        Accepts::AnyNumber => (AT_ONCE, "at once"),
        Accepts::Counted(counts) => (counts, "in all"),
    };
    for (name, path, count) in [
        ("card", paths.card, counts.cards),
        ("render", paths.render, counts.renders),
        ("root", paths.root, counts.roots),
    ] {
        info!(rt; target: PROGRAM, "{name}: {path} accepts {count} {how}");
    }
    if let Some(path) = serving.control {
        info!(rt; target: PROGRAM, "control: {path}");
    }
}

/// A device, and the sockets on which it is served.
#[derive(Drop)]
struct Task {
    device: Device,
    listeners: Listeners,
    accepts: Accepts,
}

/// Returns the reason a task was not begun, with its device.
fn unbegun(fault: ServeFault, task: Task) -> Unserved {
    Unserved {
        fault,
        device: task.device,
    }
}

/// Serves the connections until all have ended, or until they are asked to end.
fn serve_all_of<R: Log + Wait + Threads + Sync>(
    rt: &R,
    alloc: Global,
    task: Task,
    open: &OpenConnections,
) -> Result<Device, Unserved> {
    let Task {
        device,
        listeners,
        accepts,
    } = task;
    match accepts {
        Accepts::Counted(counts) => {
            let (device, _sessions) = serve_keeping(rt, alloc, device, listeners, counts, open)?;
            Ok(device)
        }
        Accepts::AnyNumber => Ok(serve_until_ended(rt, alloc, device, listeners, open)?.device),
    }
}

/// Creates a pair of connected sockets.
fn make_pair<R: Net + Log>(rt: &R) -> Result<(UnixStream, UnixStream), ServeFault> {
    match UnixStream::pair(rt) {
        Ok(pair) => Ok(pair),
        Err(reason) => {
            error!(rt; target: PROGRAM, "a pair of sockets could not be created: {reason}");
            Err(ServeFault::NoThread)
        }
    }
}

/// The connections that are open at once. If the server ends with its input, the end of a pair that is dropped once all have ended,
/// and the other end.
type Room = (OpenConnections, Option<(UnixStream, UnixStream)>);

/// Creates room for the connections that are open at once.
fn make_room<R: Net + Log>(
    rt: &R,
    alloc: Global,
    accepts: Accepts,
    ends_with_input: bool,
) -> Result<Room, ServeFault> {
    let (ended, ends) = if ends_with_input {
        // the other end of the first pair is closed, and so this one has ended
        let (ended, _) = make_pair(rt)?;
        (Some(ended), Some(make_pair(rt)?))
    } else {
        (None, None)
    };
    let open = match accepts {
        Accepts::Counted(counts) => OpenConnections::new(alloc, counts, ended),
        Accepts::AnyNumber => OpenConnections::until_ended(alloc),
    };
    match open {
        Ok(open) => Ok((open, ends)),
        Err(_) => Err(ServeFault::NoMemory),
    }
}

/// Serves the connections in a thread of the scope, and drops `serving` once all have ended.
///
/// If no thread can be started, all connections are asked to end. Serving them here then makes no step, and returns the
/// device.
fn start_serving<'s, E: 's, R: Log + Wait + Threads + Sync>(
    scope: &Scope<'s, E>,
    rt: &'s R,
    alloc: Global,
    task: Task,
    open: &'s OpenConnections,
    serving: UnixStream,
) -> Result<JoinHandle<Result<Device, Unserved>>, Unserved> {
    let server = scope.spawn(move || {
        let device = serve_all_of(rt, alloc, task, open);
        drop(serving);
        device
    });
    match server {
        Ok(server) => Ok(server),
        Err(refused) => {
            open.end(rt);
            let device = match (refused.value)() {
                Ok(device) => device,
                Err(unserved) => unserved.device,
            };
            let fault = ServeFault::NoThread;
            Err(Unserved { fault, device })
        }
    }
}

/// Serves the connections until all have ended. If there are ends, they are served in a thread of the scope, and it waits here for the
/// end of standard input, too.
fn serve_open<'s, E: 's, R: Input + Log + Wait + Threads + Sync>(
    scope: &Scope<'s, E>,
    rt: &'s R,
    alloc: Global,
    task: Task,
    open: &'s OpenConnections,
    ends: Option<(UnixStream, UnixStream)>,
) -> Result<Device, Unserved> {
    let Some((serving, served)) = ends else {
        return serve_all_of(rt, alloc, task, open);
    };
    let server = start_serving(scope, rt, alloc, task, open, serving)?;
    end_with_input(rt, &served, open);
    server.join(rt)
}

/// What is written while a device is served, and the watch from which it is taken, if anything is.
#[derive(Drop)]
pub(crate) struct Writers {
    pub(crate) watch: Option<Watch>,
    pub(crate) journal: Option<GrowingJournal>,
    pub(crate) trace: Option<Trace>,
}

/// What was written while a device was served.
#[derive(Clone, Copy)]
pub(crate) struct WrittenLines {
    /// The lines of the journal, if its thread was started.
    pub(crate) journal: Option<Growth>,
    /// The number of calls without a line in the trace, if its thread was started.
    pub(crate) left_out: Option<u64>,
}

impl WrittenLines {
    /// What was written if no thread was started.
    const NONE: WrittenLines = WrittenLines {
        journal: None,
        left_out: None,
    };
}

/// What threads do while a device is served.
#[derive(Drop)]
struct Jobs {
    journal: Option<GrowingJournal>,
    trace: Option<Trace>,
    /// The listener of control.
    control: Option<UnixListener>,
}

/// The threads of the jobs: those that could be started.
#[derive(Drop)]
struct JobThreads {
    journal: Option<JoinHandle<Growth>>,
    trace: Option<JoinHandle<u64>>,
    control: Option<JoinHandle<()>>,
    /// Whether each job has one.
    are_all: bool,
}

/// Starts the thread that writes the journal.
fn start_journal<'s, E: 's, R: Wait + Threads + Sync>(
    scope: &Scope<'s, E>,
    rt: &'s R,
    watch: &'s Watch,
    journal: GrowingJournal,
) -> Option<JoinHandle<Growth>> {
    let thread = scope.spawn(move || grow(rt, watch, journal));
    match thread {
        Ok(thread) => Some(thread),
        Err(_) => None,
    }
}

/// Starts the thread that writes the trace.
fn start_trace<'s, E: 's, R: Wait + Threads + Sync>(
    scope: &Scope<'s, E>,
    rt: &'s R,
    watch: &'s Watch,
    trace: Trace,
) -> Option<JoinHandle<u64>> {
    let thread = scope.spawn(move || write_trace(rt, watch, trace));
    match thread {
        Ok(thread) => Some(thread),
        Err(_) => None,
    }
}

/// Starts the thread that answers control lines.
fn start_control<'s, E: 's, R: Wait + Threads + Sync>(
    scope: &Scope<'s, E>,
    rt: &'s R,
    open: &'s OpenConnections,
    listener: UnixListener,
) -> Option<JoinHandle<()>> {
    let thread = scope.spawn(move || control(rt, open, listener));
    match thread {
        Ok(thread) => Some(thread),
        Err(_) => None,
    }
}

/// Starts a thread for each job.
fn start_jobs<'s, E: 's, R: Wait + Threads + Sync>(
    scope: &Scope<'s, E>,
    rt: &'s R,
    open: &'s OpenConnections,
    jobs: Jobs,
) -> JobThreads {
    let mut threads = JobThreads {
        journal: None,
        trace: None,
        control: None,
        are_all: true,
    };
    if let (Some(watch), Some(journal)) = (open.watch(), jobs.journal) {
        threads.journal = start_journal(scope, rt, watch, journal);
        threads.are_all &= threads.journal.is_some();
    }
    if let (Some(watch), Some(trace)) = (open.watch(), jobs.trace) {
        threads.trace = start_trace(scope, rt, watch, trace);
        threads.are_all &= threads.trace.is_some();
    }
    if let Some(listener) = jobs.control {
        threads.control = start_control(scope, rt, open, listener);
        threads.are_all &= threads.control.is_some();
    }
    threads
}

/// Waits for a thread, if it was started, and returns its result.
fn joined<T: Drop, R: Threads>(rt: &R, thread: Option<JoinHandle<T>>) -> Option<T> {
    match thread {
        Some(thread) => Some(thread.join(rt)),
        None => None,
    }
}

/// A device that was served, the fault if not all connections were, and what was written.
#[derive(Drop)]
pub(crate) struct Ended {
    pub(crate) device: Device,
    pub(crate) fault: Option<ServeFault>,
    pub(crate) written: WrittenLines,
}

impl Ended {
    /// Returns a device after any end of its server.
    fn new(served: Result<Device, Unserved>, written: WrittenLines) -> Ended {
        let (device, fault) = match served {
            Ok(device) => (device, None),
            Err(Unserved { fault, device }) => (device, Some(fault)),
        };
        Ended {
            device,
            fault,
            written,
        }
    }
}

/// Serves the connections, next to the threads of the scope that write or answer control lines. If one of these can't
/// be started, nothing is served.
fn serve_next_to_jobs<'s, E: 's, R: Input + Log + Wait + Threads + Sync>(
    scope: &Scope<'s, E>,
    rt: &'s R,
    alloc: Global,
    task: Task,
    open: &'s OpenConnections,
    ends: Option<(UnixStream, UnixStream)>,
    jobs: Jobs,
) -> Ended {
    let is_controlled = jobs.control.is_some();
    let threads = start_jobs(scope, rt, open, jobs);
    let served = if threads.are_all {
        serve_open(scope, rt, alloc, task, open, ends)
    } else {
        Err(unbegun(ServeFault::NoThread, task))
    };
    if let Some(watch) = open.watch() {
        watch.end(rt);
    }
    if is_controlled {
        open.end(rt);
    }
    joined(rt, threads.control);
    let written = WrittenLines {
        journal: joined(rt, threads.journal),
        left_out: joined(rt, threads.trace),
    };
    Ended::new(served, written)
}

/// The rules of a server, and the listener of control, if there is one.
#[derive(Drop)]
struct Planned {
    plan: Option<Plan>,
    control: Option<UnixListener>,
}

/// Returns the open connections with what sees each of their calls.
fn observed(open: OpenConnections, plan: Option<Plan>, watch: Option<Watch>) -> OpenConnections {
    let open = match plan {
        Some(plan) => open.planned_by(plan),
        None => open,
    };
    match watch {
        Some(watch) => open.watched_by(watch),
        None => open,
    }
}

/// Serves the connections in the room for them.
fn serve_in_room<R: Input + Log + Wait + Threads + Sync>(
    rt: &R,
    alloc: Global,
    task: Task,
    room: Room,
    writers: Writers,
    rules: Planned,
) -> Ended {
    let (open, ends) = room;
    let Writers {
        watch,
        journal,
        trace,
    } = writers;
    let Planned { plan, control } = rules;
    let open = &observed(open, plan, watch);
    let jobs = Jobs {
        journal,
        trace,
        control,
    };
    thread::scope(thread::scope_env(), rt, move |scope| {
        serve_next_to_jobs(scope, rt, alloc, task, open, ends, jobs)
    })
}

/// Serves a device on three sockets, whose files are removed at the end. The plan has the faults on purpose, if there
/// is one.
pub(crate) fn serve_device<R: Input + Files + Net + Log + Wait + Threads + Sync>(
    rt: &R,
    alloc: Global,
    device: Device,
    serving: &Serving<'_>,
    writers: Writers,
    plan: Option<Plan>,
) -> Result<Ended, Fault> {
    let mut files = SocketFiles::new(rt);
    let listeners = files.bind_all(serving.paths)?;
    let control = files.bind_control(serving.control)?;
    if serving.is_verbose {
        log_sockets(rt, serving);
    }
    let accepts = serving.accepts;
    let task = Task {
        device,
        listeners,
        accepts,
    };
    match make_room(rt, alloc, accepts, serving.ends_with_input) {
        Ok(room) => Ok(serve_in_room(rt, alloc, task, room, writers, Planned { plan, control })),
        Err(fault) => Ok(Ended::new(Err(unbegun(fault, task)), WrittenLines::NONE)),
    }
}
