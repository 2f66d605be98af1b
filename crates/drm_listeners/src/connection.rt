//! A connection, which is served in its own thread.

ghost use Rattle.std.specs.Prelude.{◌≡◌, [], IfOk, IfErr};
ghost use Rattle.drm_turns.specs.Participants.{Same, Unchanged};
ghost use Rattle.drm_frames.specs.Streams.{no_calls};
ghost use Rattle.drm_sessions.specs.Serving.{Costs};
ghost use Rattle.drm_sessions.specs.Shared.{ServesShared};
ghost use Rattle.drm_listeners.specs.Connections.{IsFresh, IsServedBy, IsSessionBy, connection_turns};

use crate::server::Serving;
use drm_connections::{Answers, Note, Reporting, Requests, Role};
use drm_frames::{FromRead, Sink, Source, ToWrite};
use drm_sessions::{Class, NoGate, Served, Witness, serve_witnessed};
use drm_turns::{Seat, Sharing};
use libc::net::{SHUT_RDWR, shutdown};
use log::Log;
use std::os::fd::AsRawFd;
use std::os::unix::net::UnixStream;
use std::snapshot::Snapshot;
use std::sync::Wait;
use std::thread::{Promise, PromisedHandle, Scope, Threads};

/// The most reads and writes of a connection's session.
const MOST_TURNS: u64 = 1_000_000;

/// A connection of a listener of this class, and the place that is reserved for it among the open ones.
#[derive(Drop)]
pub(crate) struct Connection {
    pub(crate) class: Class,
    pub(crate) stream: UnixStream,
    pub(crate) place: usize,
}

/// The job of a thread: it serves a connection of this class through the participant, and returns the participant.
#[derive(Drop)]
pub(crate) struct ConnectionServed {
    class: Class,
    participant: Snapshot<Seat>,
}

impl Promise<Served> for ConnectionServed {
    ghost kept_by = { λ promise served. IsServedBy promise.class promise.participant.value served };
}

/// A thread that serves a connection.
pub(crate) type ConnectionThread = PromisedHandle<Served, ConnectionServed>;

// Serves a connection over its two sides, which no client had asked before. The witness receives its calls.
fn serve_sides<R: Wait, D: Sharing, W: Witness + Drop, S: Source, K: Sink>(
    rt: &R,
    shared: &D,
    participant: Seat,
    witness: W,
    class: Class,
    source: &mut S,
    sink: &mut K,
) -> Served
    requires own { participant.table ≡ D.table shared.now }
    requires unread { (S.trace source.old).counts ≡ no_calls }
    requires unwritten { (K.trace sink.old).counts ≡ no_calls }
    ensures serves { ServesShared class participant result.participant
        (S.trace source.old) (S.trace source.new) (K.trace sink.old) (K.trace sink.new)
        result.session }
    ensures costs { Costs (S.trace source.old) (S.trace source.new)
        (K.trace sink.old) (K.trace sink.new) connection_turns result.session.end }
{
    serve_witnessed(
        rt,
        shared.device(),
        participant,
        witness,
        &mut NoGate,
        class,
        source,
        sink,
        MOST_TURNS,
    )
}

// Serves a connection, which is closed as the session ends. No client waits for it any more afterwards.
fn serve_stream<R: Wait, D: Serving>(
    rt: &R,
    server: &D,
    participant: Seat,
    connection: Connection,
) -> Served
    requires { IsFresh (D.table server.now) participant }
    ensures session { IsSessionBy connection.class result.participant result.session }
    ensures same { Same participant result.participant }
    ensures merged { result.participant.merged ≡ [] }
    ensures unchanged { Unchanged participant result.participant }
{
    let Connection {
        class,
        stream,
        place,
    } = connection;
    let open = server.open();
    let guard = open.attend(rt, place, stream.as_raw_fd(), Role::Connection);
    let mut source = FromRead::new(Requests::new(open.alloc(), &stream, &guard));
    let reporting = Reporting::new(rt, open, class, stream.as_raw_fd());
    let mut sink = ToWrite::new(Answers::new(&stream, &reporting));
    let served = serve_sides(
        rt,
        server,
        participant,
        &reporting,
        class,
        &mut source,
        &mut sink,
    );
    reporting.flush();
    // a connection that is closed with bytes to read would be reset
    let _ = source.into_inner().settle();
    served
}

// Serves a connection. A session that doesn't end plainly is logged once its connection is closed, unless all were
// asked to end.
fn serve_connection<R: Wait + Log, D: Serving>(
    rt: &R,
    server: &D,
    participant: Seat,
    connection: Connection,
) -> Served
    requires { IsFresh (D.table server.now) participant }
    ensures { IsServedBy connection.class participant result }
{
    let class = connection.class;
    let served = serve_stream(rt, server, participant, connection);
    if let Some(note) = Note::of_session(class, &served.session) {
        if !server.open().has_ended(rt) {
            server.open().notes().add(rt, note);
        }
    }
    served
}

/// Starts a thread that serves a connection. If none can be started, the connection is ended: then this serves what it still carried,
/// since only a session returns the participant.
pub(crate) fn start_connection<'s, E: 's, R: Wait + Threads + Log + Sync, D: Serving + Sync>(
    scope: &Scope<'s, E>,
    rt: &'s R,
    server: &'s D,
    participant: Seat,
    connection: Connection,
) -> Result<ConnectionThread, Served>
    requires { IsFresh (D.table server.now) participant }
    ensures class { IfOk result (λ thread. thread.promise.class ≡ connection.class) }
    ensures participant { IfOk result (λ thread. thread.promise.participant.value ≡ participant) }
    ensures ended { IfErr result (λ served. IsServedBy connection.class participant served) }
{
    let socket = connection.stream.as_raw_fd();
    let promise = ConnectionServed {
        class: connection.class,
        participant: Snapshot::of(&participant),
    };
    match scope.spawn_with(
        promise,
        move || serve_connection(rt, server, participant, connection),
    ) {
        Ok(thread) => Ok(thread),
        Err(refused) => {
            shutdown(socket, SHUT_RDWR);
            Err((refused.value)())
        }
    }
}
