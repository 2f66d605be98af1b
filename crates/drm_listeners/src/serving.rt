//! Serving the connections of three listeners.

ghost use Rattle.std.specs.Prelude.{◌≡◌, ◌≢◌, ◌+◌, ◌-◌, ◌≤◌, ◌∷◌, ◌++◌, [], Err, All, IfErr, IfOk, length, vec_len};
ghost use Rattle.std.specs.Vec.{vec_capacity};
ghost use Rattle.drm_turns.specs.History.{AllDiffer, StartsWith};
ghost use Rattle.drm_turns.specs.Participants.{Same};
ghost use Rattle.drm_sessions.specs.Serving.{all_steps};
ghost use Rattle.drm_sessions.specs.declared.class.Class.TheVariants.{Card, Render, Root};
ghost use Rattle.drm_listeners.specs.declared.serve_faults.ServeFault.TheVariants.{NoMemory, TurnOut};
ghost use Rattle.drm_listeners.specs.Connections.{IsSessionOf};
ghost use Rattle.drm_listeners.specs.Listeners.{AreChildren, AreRooms, HasGathered};
ghost use Rattle.drm_listeners.specs.Serving.{AreSessionsOf, Continues, HaveSat, IsHistoryOf, card_sessions, connections, render_sessions, root_sessions};

use crate::accepting::Account;
use crate::class_listeners::{ClassListener, Listeners};
use crate::listener::Until;
use crate::listeners::{ByClass, Job, ServedListeners, serve_listeners};
use crate::serve_faults::ServeFault;
use crate::server::Server;
use drm_connections::{Counts, OpenConnections};
use drm_device::Device;
use drm_sessions::Session;
use drm_turns::{Seat, SharedDevice};
use log::Log;
use std::alloc::Global;
use std::os::unix::net::UnixListener;
use std::sync::Wait;
use std::thread::Threads;

// Moves sessions after others, for which there is room.
fn put_behind(sessions: &mut Vec<Session>, more: Vec<Session>)
    requires reserved { vec_len sessions.old + vec_len more ≤ vec_capacity sessions.old }
    ensures items { sessions.new.items ≡ sessions.old.items ++ more.items }
    ensures capacity { vec_capacity sessions.old ≤ vec_capacity sessions.new }
{
    let mut more = more;
    match sessions.append(&mut more) {
        Ok(()) => {}
        Err(_) => unreachable!(),
    }
}

// Takes in the participants of the listeners.
fn take_in(shared: &SharedDevice, participant: &mut Seat, participants: ByClass<Seat>)
    requires own { participant.old.table ≡ shared.now }
    requires cards { participants.card.table ≡ shared.now }
    requires renders { participants.render.table ≡ shared.now }
    requires roots { participants.root.table ≡ shared.now }
    requires children { AreChildren participant.old participants }
    ensures same { Same participant.old participant.new × StartsWith participant.new.seen participant.old.seen }
    ensures seen { StartsWith participant.new.seen participants.card.seen × StartsWith participant.new.seen participants.render.seen
        × StartsWith participant.new.seen participants.root.seen }
    ensures merged { participant.new.merged ≡ ((participant.old.merged ++ participants.card.number ∷ participants.card.merged)
        ++ participants.render.number ∷ participants.render.merged) ++ participants.root.number ∷ participants.root.merged }
    ensures differ { AllDiffer participant.new.merged }
    ensures outstanding { participant.new.outstanding ≡ participant.old.outstanding - 3 }
    ensures journaled { participant.new.journaled ≡ participant.old.journaled + (participants.card.journaled + (participants.render.journaled + participants.root.journaled)) }
{
    let ByClass { card, render, root } = participants;
    shared.join(participant, card);
    shared.join(participant, render);
    shared.join(participant, root);
}

// An empty list with room for this many sessions.
fn reserve(alloc: Global, count: usize) -> Result<Vec<Session>, ServeFault>
    ensures empty { IfOk result (λ sessions. sessions.items ≡ []) }
    ensures room { IfOk result (λ sessions. count ≤ vec_capacity sessions) }
    ensures fault { IfErr result (λ fault. fault ≡ NoMemory) }
{
    match Vec::with_capacity(alloc, count) {
        Ok(sessions) => Ok(sessions),
        Err(_) => Err(ServeFault::NoMemory),
    }
}

/// Serves the listeners through participants that are split off and merged again. Each accepts connections for as long as
/// `untils` says, and `rooms` has room for the sessions that it keeps.
pub(crate) fn serve_shared<R: Wait + Threads + Log + Sync>(
    rt: &R,
    shared: &SharedDevice,
    open: &OpenConnections,
    participant: &mut Seat,
    listeners: Listeners,
    untils: ByClass<Until>,
    rooms: ByClass<Vec<Session>>,
) -> Result<ByClass<Account>, ServeFault>
    requires own { participant.old.table ≡ shared.now }
    requires merged { participant.old.merged ≡ [] }
    requires rooms { AreRooms untils rooms }
    ensures gathered { HasGathered untils participant.old participant.new result }
    ensures same { Same participant.old participant.new × StartsWith participant.new.seen participant.old.seen }
    ensures outstanding { participant.new.outstanding ≡ participant.old.outstanding }
{
    let jobs = ByClass {
        card: Job {
            participant: shared.split(participant),
            listener: listeners.card.until(untils.card),
            sessions: rooms.card,
        },
        render: Job {
            participant: shared.split(participant),
            listener: listeners.render.until(untils.render),
            sessions: rooms.render,
        },
        root: Job {
            participant: shared.split(participant),
            listener: listeners.root.until(untils.root),
            sessions: rooms.root,
        },
    };
    let server = Server {
        device: shared,
        open,
    };
    let ServedListeners {
        participants,
        accounts,
    } = serve_listeners(rt, &server, jobs);
    take_in(shared, participant, participants);
    accounts
}

// Serves the listeners, each with this many connections. Room for all sessions, and for those of each listener, is
// reserved before. If memory for it is refused, no participant was split off, so no thread was started.
fn serve_counted<R: Wait + Threads + Log + Sync>(
    rt: &R,
    alloc: Global,
    shared: &SharedDevice,
    open: &OpenConnections,
    participant: &mut Seat,
    listeners: Listeners,
    counts: Counts,
) -> Result<Vec<Session>, ServeFault>
    requires own { participant.old.table ≡ shared.now }
    requires merged { participant.old.merged ≡ [] }
    ensures sessions { IfOk result (λ sessions. AreSessionsOf counts sessions.items) }
    ensures participants { IfOk result (λ sessions. HaveSat counts participant.new sessions.items) }
    ensures same { Same participant.old participant.new × StartsWith participant.new.seen participant.old.seen }
    ensures outstanding { participant.new.outstanding ≡ participant.old.outstanding }
    ensures journaled { IfOk result (λ sessions. participant.new.journaled ≡ participant.old.journaled + all_steps sessions.items) }
    ensures turn { result ≢ Err TurnOut }
    ensures memory { IfErr result (λ fault. fault ≡ NoMemory → participant.new ≡ participant.old) }
{
    let Counts {
        cards,
        renders,
        roots,
    } = counts;
    let count = usize::from(cards) + usize::from(renders) + usize::from(roots);
    let mut sessions = reserve(alloc, count)?;
    let rooms = ByClass {
        card: reserve(alloc, usize::from(cards))?,
        render: reserve(alloc, usize::from(renders))?,
        root: reserve(alloc, usize::from(roots))?,
    };
    let untils = ByClass {
        card: Until::Counted(cards),
        render: Until::Counted(renders),
        root: Until::Counted(roots),
    };
    let ByClass { card, render, root } = serve_shared(
        rt,
        shared,
        open,
        participant,
        listeners,
        untils,
        rooms,
    )?;
    put_behind(&mut sessions, card.sessions);
    put_behind(&mut sessions, render.sessions);
    put_behind(&mut sessions, root.sessions);
    Ok(sessions)
}

/// The reason that not all connections were served, with the device that served the others (own).
#[derive(Drop)]
pub struct Unserved {
    /// The reason.
    pub fault: ServeFault,
    /// The device.
    pub device: Device,
}

/// Serves connections as [`serve_all`] does, until they ended or `open` is asked to end, and returns the device on a fault
/// too (own). It may wait.
///
/// The connections are in `open` for as long as they are served, which needs room for all of them. If `open` is asked
/// to end, each connection ends as if its client had ended it. Those that did not arrive yet count as accepted: each is
/// one whose client had ended before its first frame, so that it made no step. Such an end is not logged.
///
/// # Errors
///
/// [`Unserved`] has the fault, and the device with the events of one legal history. That history begins with what the device had
/// recorded before, and ends with the last step before all threads ended. `NoMemory` leaves the device unchanged.
pub fn serve_keeping<R: Wait + Threads + Log + Sync>(
    rt: &R,
    alloc: Global,
    device: Device,
    listeners: Listeners,
    counts: Counts,
    open: &OpenConnections,
) -> Result<(Device, Vec<Session>), Unserved>
    ensures count { IfOk result (λ served. vec_len served.1 ≡ connections counts) }
    ensures cards { IfOk result (λ served. All (IsSessionOf Card) (card_sessions counts served.1.items)) }
    ensures renders { IfOk result (λ served. All (IsSessionOf Render) (render_sessions counts served.1.items)) }
    ensures roots { IfOk result (λ served. All (IsSessionOf Root) (root_sessions counts served.1.items)) }
    ensures history { IfOk result (λ served. IsHistoryOf counts device served.0 served.1.items) }
    ensures journaled { IfOk result (λ served. length served.0.journal ≡ length device.journal + all_steps served.1.items) }
    ensures turn { IfErr result (λ unserved. unserved.fault ≢ TurnOut) }
    ensures kept { IfErr result (λ unserved. Continues device unserved.device) }
    ensures memory { IfErr result (λ unserved. unserved.fault ≡ NoMemory → unserved.device ≡ device) }
{
    let _journal = device.journal();
    let (shared, mut participant) = match SharedDevice::new(alloc, device) {
        Ok(made) => made,
        Err((device, _)) => {
            return Err(Unserved {
                fault: ServeFault::NoMemory,
                device,
            });
        }
    };
    let served = serve_counted(
        rt,
        alloc,
        &shared,
        open,
        &mut participant,
        listeners,
        counts,
    );
    let Ok(device) = shared.close(participant) else {
        unreachable!()
    };
    match served {
        Ok(sessions) => Ok((device, sessions)),
        Err(fault) => Err(Unserved { fault, device }),
    }
}

/// Accepts this many connections on the three listeners and serves each in its own thread, on one device that they
/// share (own). Returns when all have ended, for which it may wait.
///
/// Returns the device and the sessions: first those of `card`, then those of `render`, then those of `root`, each
/// listener's in the order in which they were accepted. A session makes at most 1,000,000 reads and writes, and its
/// connection is closed as it ends. However a session ends, the others continue.
///
/// The device has the events of one legal history, which begins with what it had recorded before. Each session's steps
/// are there as the entries of its participant, whose number no other session's has, and nothing else was recorded.
///
/// A listener is closed once it has accepted its last connection, or couldn't accept one, while sessions continue.
/// Later connection attempts fail. A listener for no connection is closed at once. If the system has no descriptors or
/// memory for a connection, or its client has exited, the listener retries while a connection is open. After that it
/// retries for five seconds before it reports a fault.
///
/// On a fault the function waits for the threads that were started, and then drops the device. [`serve_keeping`]
/// returns it. `NoThread` means that a thread can't be started, for whatever cause. `NoMemory` is only returned before
/// the first connection is accepted. Room for the sessions of all listeners is reserved before the first thread is
/// started, so nothing that was served is lost for lack of memory.
///
/// A session that does not end with `Ended` is logged as it ends, with its listener and its client. If a connection
/// can't be accepted, the system's reason is logged at the first try and at the last. A connection that waits after a
/// listener's last one is logged too.
pub fn serve_all<R: Wait + Threads + Log + Sync>(
    rt: &R,
    alloc: Global,
    device: Device,
    card: UnixListener,
    render: UnixListener,
    root: UnixListener,
    counts: Counts,
) -> Result<(Device, Vec<Session>), ServeFault>
    ensures count { IfOk result (λ served. vec_len served.1 ≡ connections counts) }
    ensures cards { IfOk result (λ served. All (IsSessionOf Card) (card_sessions counts served.1.items)) }
    ensures renders { IfOk result (λ served. All (IsSessionOf Render) (render_sessions counts served.1.items)) }
    ensures roots { IfOk result (λ served. All (IsSessionOf Root) (root_sessions counts served.1.items)) }
    ensures history { IfOk result (λ served. IsHistoryOf counts device served.0 served.1.items) }
    ensures journaled { IfOk result (λ served. length served.0.journal ≡ length device.journal + all_steps served.1.items) }
    ensures turn { result ≢ Err TurnOut }
{
    let open = OpenConnections::new(alloc, counts, None).map_err(|_| ServeFault::NoMemory)?;
    let listeners = Listeners {
        card: ClassListener::new(card),
        render: ClassListener::new(render),
        root: ClassListener::new(root),
    };
    match serve_keeping(rt, alloc, device, listeners, counts, &open) {
        Ok(served) => Ok(served),
        Err(unserved) => Err(unserved.fault),
    }
}
