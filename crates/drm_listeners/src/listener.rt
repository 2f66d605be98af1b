//! A listener, and how long it accepts connections.

ghost use Rattle.std.specs.Prelude.{◌≡◌, ◌≤◌, true, IfOk};
ghost use Rattle.drm_listeners.specs.UntilEnded.{AreAll};
ghost use Rattle.drm_listeners.specs.Accepting.{Arrives, HasThreads, IsMost, IsWithin, all_of};

use drm_connections::{
    Asked, MOST_AT_ONCE, OpenConnections, accept_next, accept_unless_asked, note_beyond,
};
use drm_sessions::Class;
use std::io;
use std::io::ErrorKind;
use std::os::unix::net::{UnixListener, UnixStream};
use std::sync::Wait;

/// How long a listener accepts connections, and what becomes of a session that has ended.
#[derive(Clone, Copy)]
pub(crate) enum Until {
    /// Until it has accepted this many. Their sessions are kept.
    Counted(u8),
    /// Until it is asked to end. Their sessions are dropped.
    Asked,
}

impl Until {
    /// Returns the most connections that are served at once.
    pub(crate) fn most_at_once(self) -> usize
        ensures bound { result ≤ 255 }
        ensures most { IsMost self result }
    {
        match self {
            Until::Counted(count) => usize::from(count),
            Until::Asked => MOST_AT_ONCE,
        }
    }

    /// Returns whether a listener with these connections accepts more: one that counts needs a thread for each.
    pub(crate) fn goes_on(self, outcomes: Outcomes) -> bool
        ensures { result ≡ true → HasThreads self outcomes }
    {
        match self {
            Until::Counted(_) => outcomes.threadless == 0,
            Until::Asked => true,
        }
    }
}

/// The class of a listener's clients, and how long it accepts them.
#[derive(Clone, Copy)]
pub(crate) struct Terms {
    pub(crate) class: Class,
    pub(crate) until: Until,
}

/// A listener that counts the connections that it accepts.
#[derive(Drop)]
pub(crate) struct Listener {
    pub(crate) socket: UnixListener,
    pub(crate) terms: Terms,
    accepted: u64,
}

/// What a listener waited for.
#[derive(Drop)]
pub(crate) enum Arrival {
    Connection(UnixStream),
    /// All connections that it accepts were accepted.
    Last,
    /// It is asked to end.
    End(Asked),
}

/// What became of the connections that a listener has accepted so far.
#[derive(Clone, Copy)]
pub(crate) struct Outcomes {
    pub(crate) served: u64,
    pub(crate) crowded: u64,
    pub(crate) threadless: u64,
}

impl Outcomes {
    /// Those of a listener that has accepted no connection.
    pub(crate) const NONE: Outcomes = Outcomes {
        served: 0,
        crowded: 0,
        threadless: 0,
    };
}

/// The connections that a listener accepted until it was asked to end (own).
///
/// Only such a listener creates it: `accepted` is the sum of the other three.
#[derive(Drop)]
pub struct Visitors {
    /// The number of connections that were accepted.
    pub accepted: u64,
    /// The number that were served in a thread.
    pub served: u64,
    /// The number that were closed because 64 were open.
    pub crowded: u64,
    /// The number that were closed because no thread could be started. Each had a session, of what it had sent before.
    pub threadless: u64,
    _asked: Asked,
}

impl Listener {
    /// Creates the listener of a bound socket.
    pub(crate) fn new(socket: UnixListener, terms: Terms) -> Listener
        ensures terms { result.terms ≡ terms }
        ensures accepted { result.accepted ≡ 0 }
    {
        Listener {
            socket,
            terms,
            accepted: 0,
        }
    }

    /// Waits for a connection and counts it, or for the listener's end.
    ///
    /// # Errors
    ///
    /// The system's reason that no connection can be accepted.
    pub(crate) fn accept<R: Wait>(&mut self, rt: &R, open: &OpenConnections) -> io::Result<Arrival>
        requires { IsWithin self.old.terms.until self.old.accepted }
        ensures terms { self.new.terms ≡ self.old.terms }
        ensures arrives { IfOk result (λ arrival. Arrives self.old.terms.until self.old.accepted self.new.accepted arrival) }
    {
        let Some(accepted) = self.accepted.checked_add(1) else {
            return Err(io::Error::from(ErrorKind::Other));
        };
        let Terms { class, until } = self.terms;
        let stream = match until {
            Until::Counted(count) => {
                if self.accepted == u64::from(count) {
                    note_beyond(rt, open, &self.socket, class);
                    return Ok(Arrival::Last);
                }
                accept_next(rt, open, &self.socket, class)?
            }
            Until::Asked => match accept_unless_asked(rt, open, &self.socket, class)? {
                Ok(stream) => stream,
                Err(asked) => return Ok(Arrival::End(asked)),
            },
        };
        self.accepted = accepted;
        Ok(Arrival::Connection(stream))
    }

    /// Returns the account of the connections that the listener accepted until it was asked to end.
    pub(crate) fn visitors(&self, outcomes: Outcomes, asked: Asked) -> Visitors
        requires { self.now.accepted ≡ all_of outcomes }
        ensures all { AreAll result }
        ensures served { result.served ≡ outcomes.served }
        ensures threadless { result.threadless ≡ outcomes.threadless }
    {
        Visitors {
            accepted: self.accepted,
            served: outcomes.served,
            crowded: outcomes.crowded,
            threadless: outcomes.threadless,
            _asked: asked,
        }
    }
}
