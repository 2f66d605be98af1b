//! Three listeners at once, each in its own thread.

ghost use Rattle.std.specs.Prelude.{◌≡◌, Err, IfErr, IfOk};
ghost use Rattle.drm_turns.specs.Participants.{ParticipantView};
ghost use Rattle.drm_sessions.specs.declared.class.Class.TheVariants.{Card, Render, Root};
ghost use Rattle.drm_listeners.specs.Connections.{IsFresh};
ghost use Rattle.drm_listeners.specs.Accepting.{IsAccounted, IsRoomFor, Serves};
ghost use Rattle.drm_listeners.specs.Listeners.{AreAccounted, AreReady, AreServed, AreServing, participants_of, terms_of, untils_in};

use crate::accepting::{Account, ServedListener, serve_listener};
use crate::listener::{Listener, Terms, Until};
use crate::serve_faults::ServeFault;
use crate::server::Serving;
use drm_sessions::Session;
use drm_turns::Seat;
use libc::net::{SHUT_RDWR, shutdown};
use log::Log;
use std::os::fd::{AsRawFd, RawFd};
use std::snapshot::Snapshot;
use std::sync::Wait;
use std::thread;
use std::thread::{JoinHandle, Promise, PromisedHandle, Scope, Threads};

/// One for each class of listener (own).
#[derive(Drop)]
pub struct ByClass<T> {
    /// That of `card`.
    pub card: T,
    /// That of `render`.
    pub render: T,
    /// That of `root`.
    pub root: T,
}

/// A listener, the participant that serves it, and the list for the sessions that are kept.
#[derive(Drop)]
pub(crate) struct Job {
    pub(crate) participant: Seat,
    pub(crate) listener: Listener,
    pub(crate) sessions: Vec<Session>,
}

/// The participants of the listeners, each of which took in each that was split off it, and the account of each listener,
/// or the first fault.
#[derive(Drop)]
pub(crate) struct ServedListeners {
    pub(crate) participants: ByClass<Seat>,
    pub(crate) accounts: Result<ByClass<Account>, ServeFault>,
}

/// The job of a thread: it serves a listener with these terms through the participant.
#[derive(Drop)]
struct ListenerServed {
    terms: Terms,
    participant: Snapshot<Seat>,
}

impl Promise<ServedListener> for ListenerServed {
    ghost kept_by = { λ promise served. Serves promise.terms promise.participant.value served };
}

/// A thread that serves a listener.
type ListenerThread = PromisedHandle<ServedListener, ListenerServed>;

// Ends a listener that got no thread. One that counts is shut. Otherwise all are asked to end.
fn stop_accepting<R: Wait, D: Serving>(rt: &R, server: &D, until: Until, socket: RawFd) {
    match until {
        Until::Counted(_) => {
            shutdown(socket, SHUT_RDWR);
        }
        Until::Asked => server.open().end(rt),
    }
}

// Starts the thread that serves a listener. If none can be started, the listener is ended. Then serving it here accepts no
// client, and returns the participant.
fn start_listener<'s, E: 's, R: Wait + Threads + Log + Sync, D: Serving + Sync>(
    scope: &Scope<'s, E>,
    rt: &'s R,
    server: &'s D,
    job: Job,
) -> Result<ListenerThread, ServedListener>
    requires fresh { IsFresh (D.table server.now) job.participant }
    requires unused { job.listener.accepted ≡ 0 }
    requires room { IsRoomFor job.listener.terms.until job.sessions }
    ensures terms { IfOk result (λ thread. thread.promise.terms ≡ job.listener.terms) }
    ensures participant { IfOk result (λ thread. thread.promise.participant.value ≡ job.participant) }
    ensures failed { IfErr result (λ served. Serves job.listener.terms job.participant served) }
{
    let Job {
        participant,
        listener,
        sessions,
    } = job;
    let terms = listener.terms;
    let socket = listener.socket.as_raw_fd();
    let promise = ListenerServed {
        terms,
        participant: Snapshot::of(&participant),
    };
    let started = scope.spawn_with(
        promise,
        move || -> ServedListener
            requires fresh { IsFresh (D.table server.now) participant }
            requires unused { listener.accepted ≡ 0 }
            requires room { IsRoomFor listener.terms.until sessions }
            ensures { Serves listener.terms participant result }
        { serve_listener(rt, server, participant, listener, sessions) },
    );
    match started {
        Ok(thread) => Ok(thread),
        Err(refused) => {
            stop_accepting(rt, server, terms.until, socket);
            let ServedListener { participant, .. } = (refused.value)();
            Err(ServedListener {
                participant,
                account: Err(ServeFault::NoThread),
            })
        }
    }
}

// Waits for the thread of a listener, if there is one.
fn join_listener<R: Threads>(
    rt: &R,
    started: Result<ListenerThread, ServedListener>,
) -> ServedListener
    ensures { (terms : Terms) (participant : ParticipantView)
        → IfOk started (λ thread. (thread.promise.terms ≡ terms) × (thread.promise.participant.value ≡ participant))
        → IfErr started (λ served. Serves terms participant served) → Serves terms participant result }
{
    match started {
        Ok(thread) => thread.join(rt),
        Err(served) => served,
    }
}

// Returns the accounts of the listeners, or the first fault.
fn all_accounts(
    card: Result<Account, ServeFault>,
    render: Result<Account, ServeFault>,
    root: Result<Account, ServeFault>,
) -> Result<ByClass<Account>, ServeFault>
    ensures { (untils : ByClass Until) (owns : ByClass ParticipantView) → IsAccounted (terms_of Card untils.card) owns.card card
        → IsAccounted (terms_of Render untils.render) owns.render render → IsAccounted (terms_of Root untils.root) owns.root root
        → AreAccounted untils owns result }
{
    match card {
        Ok(card) => match render {
            Ok(render) => match root {
                Ok(root) => Ok(ByClass { card, render, root }),
                Err(fault) => Err(fault),
            },
            Err(fault) => Err(fault),
        },
        Err(fault) => Err(fault),
    }
}

// Returns the participants of the listeners, and their accounts, or the first fault.
fn all_served(served: ByClass<ServedListener>) -> ServedListeners
    ensures { (untils : ByClass Until) (participants : ByClass ParticipantView) → AreServing untils participants served
        → AreServed untils participants result }
{
    let ByClass { card, render, root } = served;
    ServedListeners {
        participants: ByClass {
            card: card.participant,
            render: render.participant,
            root: root.participant,
        },
        accounts: all_accounts(card.account, render.account, root.account),
    }
}

// Logs what is recorded, until the end.
fn log_notes<R: Wait + Log, D: Serving>(rt: &R, server: &D) {
    server.open().notes().log_all(rt);
}

// Starts the thread that logs.
fn start_logging<'s, E: 's, R: Wait + Threads + Log + Sync, D: Serving + Sync>(
    scope: &Scope<'s, E>,
    rt: &'s R,
    server: &'s D,
) -> Option<JoinHandle<()>> {
    let logging = scope.spawn(move || log_notes(rt, server));
    match logging {
        Ok(logging) => Some(logging),
        Err(_) => None,
    }
}

// Serves the listeners in threads of the scope.
fn serve_in_scope<'s, E: 's, R: Wait + Threads + Log + Sync, D: Serving + Sync>(
    scope: &Scope<'s, E>,
    rt: &'s R,
    server: &'s D,
    jobs: ByClass<Job>,
) -> ServedListeners
    requires { AreReady (D.table server.now) jobs }
    ensures { AreServed (untils_in jobs) (participants_of jobs) result }
{
    let card = start_listener(scope, rt, server, jobs.card);
    let render = start_listener(scope, rt, server, jobs.render);
    let root = start_listener(scope, rt, server, jobs.root);
    all_served(ByClass {
        card: join_listener(rt, card),
        render: join_listener(rt, render),
        root: join_listener(rt, root),
    })
}

// Serves the listeners in threads of the scope, and logs in another. If none can be started for that, nothing is served.
fn serve_logged<'s, E: 's, R: Wait + Threads + Log + Sync, D: Serving + Sync>(
    scope: &Scope<'s, E>,
    rt: &'s R,
    server: &'s D,
    jobs: ByClass<Job>,
) -> ServedListeners
    requires { AreReady (D.table server.now) jobs }
    ensures { AreServed (untils_in jobs) (participants_of jobs) result }
{
    server.open().notes().begin(rt);
    let Some(logging) = start_logging(scope, rt, server) else {
        let ByClass { card, render, root } = jobs;
        return ServedListeners {
            participants: ByClass {
                card: card.participant,
                render: render.participant,
                root: root.participant,
            },
            accounts: Err(ServeFault::NoThread),
        };
    };
    let served = serve_in_scope(scope, rt, server, jobs);
    server.open().notes().end(rt);
    logging.join(rt);
    served
}

/// Serves the connections of three listeners, until all listeners and sessions have ended. It may wait.
///
/// On a fault the threads that were started are waited for, and the participant of each listener is returned.
pub(crate) fn serve_listeners<R: Wait + Threads + Log + Sync, D: Serving + Sync>(
    rt: &R,
    server: &D,
    jobs: ByClass<Job>,
) -> ServedListeners
    requires { AreReady (D.table server.now) jobs }
    ensures { AreServed (untils_in jobs) (participants_of jobs) result }
{
    thread::scope(
        thread::scope_env(),
        rt,
        move |scope| -> ServedListeners
            requires { AreReady (D.table server.now) jobs }
            ensures { AreServed (untils_in jobs) (participants_of jobs) result }
        { serve_logged(scope, rt, server, jobs) },
    )
}
