//! A listener that accepts connections, each served in its own thread.

ghost use Rattle.std.specs.Prelude.{◌≡◌, ◌+◌, ◌^◌, ◌≤◌, ◌<◌, ℕ, [], true, IfOk, IfErr, length};
ghost use Rattle.arrayvec.specs.ArrayVec.{array_vec_len};
ghost use Rattle.drm_turns.specs.Participants.{Same, Unchanged};
ghost use Rattle.drm_listeners.specs.Connections.{IsFaultOf, IsFresh};
ghost use Rattle.drm_listeners.specs.Accepting.{AreCounted, ArePromised, ClosesAs, HasRoom, HasServedFor, HasThreads, IsBelow, IsPlain, IsPromised, IsRoomFor, KeepsOne, Serves, all_of};

use crate::connection::{Connection, ConnectionThread, start_connection};
use crate::listener::{Arrival, Listener, Outcomes, Terms, Until, Visitors};
use crate::serve_faults::ServeFault;
use crate::server::Serving;
use arrayvec::ArrayVec;
use drm_connections::{MOST, MOST_AT_ONCE, Note, OpenConnections, Role};
use drm_sessions::{Served, Session};
use drm_turns::Seat;
use log::Log;
use std::os::fd::AsRawFd;
use std::os::unix::net::UnixStream;
use std::sync::Wait;
use std::thread;
use std::thread::{Scope, Threads};

/// The thread of a connection, and the connection's place among the open ones.
#[derive(Drop)]
struct Worker {
    thread: ConnectionThread,
    place: usize,
}

/// The threads of a listener. They are on the stack of the listener's own thread, and so need no memory.
type Workers = ArrayVec<Option<Worker>, MOST>;

/// The connections of a listener: those that are served, what became of each so far, and the sessions that are kept.
#[derive(Drop)]
struct Pool {
    workers: Workers,
    outcomes: Outcomes,
    sessions: Vec<Session>,
}

// Keeps a session that has ended, or drops it.
fn keep(until: Until, sessions: &mut Vec<Session>, session: Session)
    requires { HasRoom until 1 sessions.old }
    ensures kept { KeepsOne until sessions.old.items session sessions.new.items }
    ensures room { (more : ℕ) → HasRoom until (more + 1) sessions.old → HasRoom until more sessions.new }
{
    match until {
        Until::Counted(_) => sessions.push_reserved(session),
        Until::Asked => {}
    }
}

// Waits for the thread of a connection, takes in its participant, and keeps its session or drops it.
fn join_worker<R: Wait + Threads, D: Serving>(
    rt: &R,
    server: &D,
    own: &mut Seat,
    terms: Terms,
    worker: Worker,
    sessions: &mut Vec<Session>,
)
    requires own { own.old.table ≡ D.table server.now }
    requires promised { IsPromised terms.class own.old worker.thread.promise }
    requires outstanding { 1 ≤ own.old.outstanding }
    requires room { HasRoom terms.until 1 sessions.old }
    ensures same { Same own.old own.new }
    ensures parent { own.new.parent ≡ own.old.parent }
    ensures served { (outcomes : Outcomes) → HasServedFor terms outcomes sessions.old.items own.old → HasServedFor terms outcomes sessions.new.items own.new }
    ensures outstanding { own.new.outstanding + 1 ≡ own.old.outstanding }
    ensures merged { length own.new.merged ≡ length own.old.merged + 1 }
    ensures room { (more : ℕ) → HasRoom terms.until (more + 1) sessions.old → HasRoom terms.until more sessions.new }
{
    let Served {
        session,
        participant,
    } = worker.thread.join(rt);
    server.device().join(own, participant);
    keep(terms.until, sessions, session);
}

// Waits for the threads of sessions that have ended, in the order of their connections.
fn join_ended<R: Wait + Threads, D: Serving>(
    rt: &R,
    server: &D,
    own: &mut Seat,
    terms: Terms,
    pool: &mut Pool,
)
    requires own { own.old.table ≡ D.table server.now }
    requires served { HasServedFor terms pool.old.outcomes pool.old.sessions.items own.old }
    requires promised { ArePromised (λ worker. worker.thread.promise) terms.class own.old pool.old.workers.items }
    requires outstanding { array_vec_len pool.old.workers ≤ own.old.outstanding }
    requires room { HasRoom terms.until (array_vec_len pool.old.workers) pool.old.sessions }
    ensures same { Same own.old own.new }
    ensures parent { own.new.parent ≡ own.old.parent }
    ensures served { HasServedFor terms pool.new.outcomes pool.new.sessions.items own.new }
    ensures promised { ArePromised (λ worker. worker.thread.promise) terms.class own.new pool.new.workers.items }
    ensures outstanding { own.new.outstanding + array_vec_len pool.old.workers ≡ own.old.outstanding + array_vec_len pool.new.workers }
    ensures merged { length own.new.merged + array_vec_len pool.new.workers ≡ length own.old.merged + array_vec_len pool.old.workers }
    ensures room { HasRoom terms.until (array_vec_len pool.new.workers) pool.new.sessions }
    ensures outcomes { pool.new.outcomes ≡ pool.old.outcomes }
{
    let mut index = 0;
    'workers: while index < pool.workers.len() {
        let Some(worker) = &pool.workers[index] else {
            unreachable!()
        };
        if server.open().free_left(rt, worker.place) {
            let Some(worker) = pool.workers.remove(index) else {
                unreachable!()
            };
            join_worker(rt, server, own, terms, worker, &mut pool.sessions);
        } else {
            index += 1;
        }
    }
}

// Waits for all threads, in the order of their connections. Returns the sessions that are kept.
fn join_all<R: Wait + Threads, D: Serving>(
    rt: &R,
    server: &D,
    own: &mut Seat,
    terms: Terms,
    pool: Pool,
) -> Vec<Session>
    requires own { own.old.table ≡ D.table server.now }
    requires served { HasServedFor terms pool.outcomes pool.sessions.items own.old }
    requires promised { ArePromised (λ worker. worker.thread.promise) terms.class own.old pool.workers.items }
    requires outstanding { array_vec_len pool.workers ≤ own.old.outstanding }
    requires room { HasRoom terms.until (array_vec_len pool.workers) pool.sessions }
    ensures same { Same own.old own.new }
    ensures parent { own.new.parent ≡ own.old.parent }
    ensures served { HasServedFor terms pool.outcomes result.items own.new }
    ensures outstanding { own.new.outstanding + array_vec_len pool.workers ≡ own.old.outstanding }
    ensures merged { length own.new.merged ≡ length own.old.merged + array_vec_len pool.workers }
{
    let Pool {
        workers,
        outcomes: _outcomes,
        sessions,
    } = pool;
    let mut sessions = sessions;
    for started in workers {
        let Some(worker) = started else {
            unreachable!()
        };
        join_worker(rt, server, own, terms, worker, &mut sessions);
    }
    sessions
}

// Logs once that no thread could be started for a connection. If a listener that counts gets none, that is its fault.
fn note_threadless<R: Wait>(rt: &R, open: &OpenConnections, terms: Terms) {
    if let Until::Asked = terms.until {
        open.notes().add_once(rt, Note::Threadless(terms.class));
    }
}

// Serves a connection in a thread of the scope. If none can be started, the connection is closed, and its session is dropped.
fn start_worker<'s, E: 's, R: Wait + Threads + Log + Sync, D: Serving + Sync>(
    scope: &Scope<'s, E>,
    rt: &'s R,
    server: &'s D,
    own: &mut Seat,
    terms: Terms,
    stream: UnixStream,
    pool: &mut Pool,
)
    requires own { own.old.table ≡ D.table server.now }
    requires served { HasServedFor terms pool.old.outcomes pool.old.sessions.items own.old }
    requires promised { ArePromised (λ worker. worker.thread.promise) terms.class own.old pool.old.workers.items }
    requires free { array_vec_len pool.old.workers < 255 }
    requires few { all_of pool.old.outcomes + 1 < 2 ^ 64 }
    requires counted { AreCounted pool.old.outcomes (array_vec_len pool.old.workers) own.old }
    ensures same { Same own.old own.new }
    ensures parent { own.new.parent ≡ own.old.parent }
    ensures served { HasServedFor terms pool.new.outcomes pool.new.sessions.items own.new }
    ensures promised { ArePromised (λ worker. worker.thread.promise) terms.class own.new pool.new.workers.items }
    ensures outstanding { own.new.outstanding + array_vec_len pool.old.workers ≡ own.old.outstanding + array_vec_len pool.new.workers }
    ensures one_more { all_of pool.new.outcomes ≡ all_of pool.old.outcomes + 1 }
    ensures counted { AreCounted pool.new.outcomes (array_vec_len pool.new.workers) own.new }
    ensures crowded { pool.new.outcomes.crowded ≡ pool.old.outcomes.crowded }
    ensures threads { pool.new.outcomes.served + array_vec_len pool.old.workers ≡ pool.old.outcomes.served + array_vec_len pool.new.workers }
    ensures sessions { pool.new.sessions ≡ pool.old.sessions }
{
    let class = terms.class;
    let open = server.open();
    let place = open.reserve(rt);
    let participant = server.device().split(own);
    let connection = Connection {
        class,
        stream,
        place,
    };
    match start_connection(scope, rt, server, participant, connection) {
        Ok(thread) => {
            pool.workers.push(Some(Worker { thread, place }));
            pool.outcomes.served += 1;
        }
        Err(served) => {
            note_threadless(rt, open, terms);
            open.free_left(rt, place);
            let Served {
                session: _session,
                participant,
            } = served;
            server.device().join(own, participant);
            pool.outcomes.threadless += 1;
        }
    }
}

// Waits for the threads of sessions that have ended, unless the sessions are kept in the order of their connections. If
// as many connections are served as may be at once, it first waits for those that were closed at the other end.
fn make_room<R: Wait + Threads, D: Serving>(
    rt: &R,
    server: &D,
    own: &mut Seat,
    terms: Terms,
    pool: &mut Pool,
)
    requires own { own.old.table ≡ D.table server.now }
    requires served { HasServedFor terms pool.old.outcomes pool.old.sessions.items own.old }
    requires promised { ArePromised (λ worker. worker.thread.promise) terms.class own.old pool.old.workers.items }
    requires outstanding { array_vec_len pool.old.workers ≤ own.old.outstanding }
    requires room { IsRoomFor terms.until pool.old.sessions }
    ensures same { Same own.old own.new }
    ensures parent { own.new.parent ≡ own.old.parent }
    ensures served { HasServedFor terms pool.new.outcomes pool.new.sessions.items own.new }
    ensures promised { ArePromised (λ worker. worker.thread.promise) terms.class own.new pool.new.workers.items }
    ensures outstanding { own.new.outstanding + array_vec_len pool.old.workers ≡ own.old.outstanding + array_vec_len pool.new.workers }
    ensures merged { length own.new.merged + array_vec_len pool.new.workers ≡ length own.old.merged + array_vec_len pool.old.workers }
    ensures room { IsRoomFor terms.until pool.new.sessions }
    ensures outcomes { pool.new.outcomes ≡ pool.old.outcomes }
{
    if let Until::Asked = terms.until {
        if pool.workers.len() == MOST_AT_ONCE {
            server.open().wait_for_leaving(rt);
        }
        join_ended(rt, server, own, terms, pool);
    }
}

// Serves a connection in a thread of the scope, or closes it if as many are served as may be at once.
fn admit<'s, E: 's, R: Wait + Threads + Log + Sync, D: Serving + Sync>(
    scope: &Scope<'s, E>,
    rt: &'s R,
    server: &'s D,
    own: &mut Seat,
    terms: Terms,
    stream: UnixStream,
    pool: &mut Pool,
)
    requires own { own.old.table ≡ D.table server.now }
    requires served { HasServedFor terms pool.old.outcomes pool.old.sessions.items own.old }
    requires promised { ArePromised (λ worker. worker.thread.promise) terms.class own.old pool.old.workers.items }
    requires outstanding { array_vec_len pool.old.workers ≤ own.old.outstanding }
    requires few { all_of pool.old.outcomes + 1 < 2 ^ 64 }
    requires below { IsBelow terms.until (all_of pool.old.outcomes) }
    requires counted { AreCounted pool.old.outcomes (array_vec_len pool.old.workers) own.old }
    requires plain { IsPlain terms.until pool.old.outcomes }
    requires room { IsRoomFor terms.until pool.old.sessions }
    ensures same { Same own.old own.new }
    ensures parent { own.new.parent ≡ own.old.parent }
    ensures served { HasServedFor terms pool.new.outcomes pool.new.sessions.items own.new }
    ensures promised { ArePromised (λ worker. worker.thread.promise) terms.class own.new pool.new.workers.items }
    ensures outstanding { own.new.outstanding + array_vec_len pool.old.workers ≡ own.old.outstanding + array_vec_len pool.new.workers }
    ensures one_more { all_of pool.new.outcomes ≡ all_of pool.old.outcomes + 1 }
    ensures counted { AreCounted pool.new.outcomes (array_vec_len pool.new.workers) own.new }
    ensures plain { IsPlain terms.until pool.new.outcomes }
    ensures room { IsRoomFor terms.until pool.new.sessions }
{
    make_room(rt, server, own, terms, pool);
    if pool.workers.len() < terms.until.most_at_once() {
        start_worker(scope, rt, server, own, terms, stream, pool);
    } else {
        server
            .open()
            .notes()
            .add_once(rt, Note::Crowded(terms.class));
        pool.outcomes.crowded += 1;
    }
}

/// Why a listener was closed, other than by a fault.
#[derive(Drop)]
pub(crate) enum Closing {
    /// It has accepted all connections that it counts.
    Last,
    /// It was asked to end, and accepted these connections before.
    Asked(Visitors),
}

/// The connections that are served as a listener is closed, and why it is.
#[derive(Drop)]
struct Closed {
    pool: Pool,
    closing: Result<Closing, ServeFault>,
}

// Accepts connections until the end of the listener, which is then closed.
fn accept_connections<'s, E: 's, R: Wait + Threads + Log + Sync, D: Serving + Sync>(
    scope: &Scope<'s, E>,
    rt: &'s R,
    server: &'s D,
    own: &mut Seat,
    listener: Listener,
    sessions: Vec<Session>,
) -> Closed
    requires fresh { IsFresh (D.table server.now) own.old }
    requires unused { listener.accepted ≡ 0 }
    requires room { IsRoomFor listener.terms.until sessions }
    ensures same { Same own.old own.new }
    ensures parent { own.new.parent ≡ own.old.parent }
    ensures served { HasServedFor listener.terms result.pool.outcomes result.pool.sessions.items own.new }
    ensures promised { ArePromised (λ worker. worker.thread.promise) listener.terms.class own.new result.pool.workers.items }
    ensures outstanding { own.new.outstanding ≡ own.old.outstanding + array_vec_len result.pool.workers }
    ensures room { HasRoom listener.terms.until (array_vec_len result.pool.workers) result.pool.sessions }
    ensures threads { IfOk result.closing (λ closing. HasThreads listener.terms.until result.pool.outcomes) }
    ensures closing { IfOk result.closing (λ closing. ClosesAs listener.terms.until (array_vec_len result.pool.workers) own.new closing) }
    ensures fault { IfErr result.closing (IsFaultOf listener.terms.class) }
{
    let mut listener = listener;
    let terms = listener.terms;
    let open = server.open();
    let place = open.reserve(rt);
    let _guard = open.attend(rt, place, listener.socket.as_raw_fd(), Role::Listener);
    let mut pool = Pool {
        workers: Workers::new(),
        outcomes: Outcomes::NONE,
        sessions,
    };
    for _ in rt.forever() {
        let closing = match listener.accept(rt, open) {
            Ok(Arrival::Connection(stream)) => {
                admit(scope, rt, server, own, terms, stream, &mut pool);
                if terms.until.goes_on(pool.outcomes) {
                    continue;
                }
                let closing = Err(ServeFault::NoThread);
                return Closed { pool, closing };
            }
            Ok(Arrival::Last) => Ok(Closing::Last),
            Ok(Arrival::End(asked)) => {
                Ok(Closing::Asked(listener.visitors(pool.outcomes, asked)))
            }
            Err(reason) => {
                let note = Note::Closed(terms.class, reason.raw_os_error());
                open.notes().add(rt, note);
                Err(ServeFault::Accept(terms.class))
            }
        };
        return Closed { pool, closing };
    }
    unreachable!()
}

/// The sessions that a listener kept, and why it was closed.
#[derive(Drop)]
pub(crate) struct Account {
    pub(crate) sessions: Vec<Session>,
    pub(crate) closing: Closing,
}

/// The participant of a listener, which took in each that was split off it, and the listener's account, or its fault.
#[derive(Drop)]
pub(crate) struct ServedListener {
    pub(crate) participant: Seat,
    pub(crate) account: Result<Account, ServeFault>,
}

// Serves the connections in threads of the scope.
fn serve_in_scope<'s, E: 's, R: Wait + Threads + Log + Sync, D: Serving + Sync>(
    scope: &Scope<'s, E>,
    rt: &'s R,
    server: &'s D,
    participant: Seat,
    listener: Listener,
    sessions: Vec<Session>,
) -> ServedListener
    requires fresh { IsFresh (D.table server.now) participant }
    requires unused { listener.accepted ≡ 0 }
    requires room { IsRoomFor listener.terms.until sessions }
    ensures { Serves listener.terms participant result }
{
    let terms = listener.terms;
    let mut participant = participant;
    let Closed { pool, closing } = accept_connections(
        scope,
        rt,
        server,
        &mut participant,
        listener,
        sessions,
    );
    let sessions = join_all(rt, server, &mut participant, terms, pool);
    match closing {
        Ok(closing) => ServedListener {
            participant,
            account: Ok(Account { sessions, closing }),
        },
        Err(fault) => ServedListener {
            participant,
            account: Err(fault),
        },
    }
}

/// Accepts connections on a listener and serves each in its own thread, until the listener's end and that of all sessions. It may wait.
///
/// A listener that counts returns the sessions in the order of their connections. If no thread can be started for one of them, the
/// listener fails. Another listener serves 64 connections at once. A connection beyond them is closed, and so is one for which no
/// thread can be started. On a fault the listener is closed, sessions go on, and no session is returned.
pub(crate) fn serve_listener<R: Wait + Threads + Log + Sync, D: Serving + Sync>(
    rt: &R,
    server: &D,
    participant: Seat,
    listener: Listener,
    sessions: Vec<Session>,
) -> ServedListener
    requires fresh { IsFresh (D.table server.now) participant }
    requires unused { listener.accepted ≡ 0 }
    requires room { IsRoomFor listener.terms.until sessions }
    ensures { Serves listener.terms participant result }
{
    thread::scope(
        thread::scope_env(),
        rt,
        move |scope| -> ServedListener
            requires fresh { IsFresh (D.table server.now) participant }
            requires unused { listener.accepted ≡ 0 }
            requires room { IsRoomFor listener.terms.until sessions }
            ensures { Serves listener.terms participant result }
        { serve_in_scope(scope, rt, server, participant, listener, sessions) },
    )
}
