//! Accepting connections, also if the system can't for a while.

use crate::notes::Note;
use crate::open_connections::{Asked, OpenConnections};
use crate::outlet::wait_for;
use drm_sessions::Class;
use libc::net::{POLLHUP, POLLIN, poll};
use libc::{ECONNABORTED, EINVAL, EMFILE, ENOMEM};
use std::io;
use std::io::ErrorKind;
use std::os::fd::AsRawFd;
use std::os::unix::net::{UnixListener, UnixStream};
use std::sync::Wait;

/// Linux's numbers of two errors: the system has no free descriptor, and there is no memory for the socket.
const ENFILE: i32 = 23;

const ENOBUFS: i32 = 105;

/// How long a listener waits if the system can't accept, in milliseconds.
const PAUSE: i32 = 100;

/// How many pauses a listener makes in a row while no connection is open, before it stops: five seconds in all.
const MOST_PAUSES: u32 = 50;

// The errors that may pass: the system has no descriptor or memory left, or the client left before it was accepted.
const PASSING: [i32; 5] = [EMFILE, ENFILE, ENOBUFS, ENOMEM, ECONNABORTED];

fn may_pass(reason: &io::Error) -> bool {
    match reason.raw_os_error() {
        Some(number) => PASSING.contains(&number),
        None => false,
    }
}

// Waits until a client connects or the listener is shut: until then it needs no descriptor. Accepts the connection. A listener that is
// shut accepts none of the connections that wait, which are closed with it.
fn accept_waiting(socket: &UnixListener) -> io::Result<UnixStream> {
    if wait_for(socket.as_raw_fd(), POLLIN, -1) & POLLHUP != 0 {
        return Err(io::Error::from_raw_os_error(EINVAL));
    }
    let (stream, _) = socket.accept()?;
    Ok(stream)
}

// Accepts a connection. During shutdown it returns a connection that is already closed.
fn accept_or_end<R: Wait>(
    rt: &R,
    open: &OpenConnections,
    socket: &UnixListener,
) -> io::Result<UnixStream> {
    match accept_waiting(socket) {
        Ok(stream) => Ok(stream),
        Err(reason) => match open.ended(rt) {
            Some(ended) => ended.try_clone(),
            None => Err(reason),
        },
    }
}

/// Accepts the next connection.
///
/// If the system is out of descriptors or memory, this logs the reason and retries ten times a second: while a connection is open, and
/// then for five seconds. Clients that connect meanwhile wait. During shutdown it returns a connection that is already closed.
pub fn accept_next<R: Wait>(
    rt: &R,
    open: &OpenConnections,
    socket: &UnixListener,
    class: Class,
) -> io::Result<UnixStream> {
    let mut is_logged = false;
    let mut pauses: u32 = 0;
    for _ in rt.forever() {
        match accept_or_end(rt, open, socket) {
            Err(reason) if may_pass(&reason) => {
                if !is_logged {
                    let note = Note::Retried(class, reason.raw_os_error());
                    open.notes().add(rt, note);
                    is_logged = true;
                }
                if pauses == MOST_PAUSES {
                    return Err(reason);
                }
                poll(&mut [], PAUSE);
                pauses = if open.is_serving(rt) {
                    0
                } else {
                    pauses.saturating_add(1)
                };
            }
            accepted => return accepted,
        }
    }
    accept_or_end(rt, open, socket)
}

/// Accepts the next connection of a listener that serves until shutdown. Returns `Err` during shutdown.
///
/// If the system is out of descriptors or memory, this logs the reason and retries ten times a second. Clients that connect meanwhile wait.
pub fn accept_unless_asked<R: Wait>(
    rt: &R,
    open: &OpenConnections,
    socket: &UnixListener,
    class: Class,
) -> io::Result<Result<UnixStream, Asked>> {
    let mut is_logged = false;
    for _ in rt.forever() {
        let accepted = accept_waiting(socket);
        if let Some(asked) = open.asked(rt) {
            return Ok(Err(asked));
        }
        match accepted {
            Ok(stream) => return Ok(Ok(stream)),
            Err(reason) if may_pass(&reason) => {
                if !is_logged {
                    open.notes()
                        .add(rt, Note::Retried(class, reason.raw_os_error()));
                    is_logged = true;
                }
                poll(&mut [], PAUSE);
            }
            Err(reason) => return Err(reason),
        }
    }
    Err(io::Error::from(ErrorKind::Other))
}

/// Logs that a connection waits after the last one that a listener accepts: it is refused when the listener is closed. The system itself
/// refuses later ones, which are not logged.
pub fn note_beyond<R: Wait>(rt: &R, open: &OpenConnections, socket: &UnixListener, class: Class) {
    // a listener that is shut has further events
    if wait_for(socket.as_raw_fd(), POLLIN, 0) == POLLIN {
        open.notes().add(rt, Note::Refused(class));
    }
}
