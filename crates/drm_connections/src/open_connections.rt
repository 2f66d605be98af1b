//! The connections that are open, as the threads that serve them see them together.
//!
//! Nothing here is in a contract: no clause says when a connection ends, or that a thread waits for another.

ghost use Rattle.std.specs.Prelude.{◌≡◌, ◌≢◌, ◌↔◌, ◌≤◌, ◌<◌, true, false, length, slice_get, slice_set, Some};
ghost use Rattle.drm_connections.specs.declared.open_connections.Place.TheVariants as place_is;
ghost use Rattle.drm_connections.specs.Places.{IsFirstFree, NoneFreeBefore};

use crate::counts::{Counts, MOST_AT_ONCE};
use crate::notes::Notes;
use crate::outlet::wait_for;
use drm_traffic::{Plan, Watch};
use libc::net::{POLLHUP, SHUT_RDWR, poll, shutdown};
use libc::types::pollfd;
use std::alloc::{AllocError, Global};
use std::os::fd::RawFd;
use std::os::unix::net::UnixStream;
use std::sync::atomic::{AtomicUsize, Ordering};
use std::sync::{Condvar, Mutex, Wait};

/// How many listeners there are.
const LISTENERS: usize = 3;

/// How many places there are for control: its listener, and a connection.
const CONTROLS: usize = 2;

/// The most connections that are few. With 4 processors, more than two for each keep all of them busy.
const FEW: usize = 8;

/// In place of a descriptor, where nothing is asked.
const NOTHING: RawFd = -1;

/// What a socket on which a thread waits is.
#[derive(Clone, Copy, PartialEq)]
pub enum Role {
    /// A listener, or a connection of control.
    Listener,
    /// A connection that has not sent its first frame.
    Connection,
    /// A connection whose first frame was let through, so that its client may be open.
    Admitted,
}

/// A socket on which a thread waits.
#[derive(Clone, Copy)]
struct Attending {
    socket: RawFd,
    role: Role,
}

impl Attending {
    /// Returns whether it is a connection that was closed at the other end, as a process that exits closes all of its
    /// own.
    fn is_closed(&self) -> bool {
        self.role != Role::Listener && wait_for(self.socket, 0, 0) & POLLHUP != 0
    }

    /// Returns whether its client may be open still, though the connection was closed at the other end.
    fn has_gone(&self) -> bool {
        self.role == Role::Admitted && self.is_closed()
    }
}

/// Returns the question to poll(2) whether a socket was closed at the other end, which is reported without an event. It passes
/// over a negative descriptor.
fn asking_of(socket: RawFd) -> pollfd {
    pollfd {
        fd: socket,
        events: 0,
        revents: 0,
    }
}

/// Returns whether poll(2) reported that a socket was closed at the other end.
fn is_hung_up(asked: &pollfd) -> bool {
    asked.revents & POLLHUP != 0
}

/// What a place is used for.
#[derive(Clone, Copy)]
enum Place {
    /// Nothing.
    Free,
    /// A thread that does not wait on a socket yet.
    Reserved,
    /// A thread that waits on a socket.
    Taken(Attending),
    /// A thread that waits no more.
    Left,
}

impl Place {
    /// Returns the socket on which a thread waits here.
    fn attending(&self) -> Option<Attending> {
        match self {
            Place::Taken(attending) => Some(*attending),
            Place::Free | Place::Reserved | Place::Left => None,
        }
    }

    /// Returns the question to poll(2) whether a connection whose client may be open was closed at the other end.
    fn asked(&self) -> pollfd {
        match self.attending() {
            Some(attending) if attending.role == Role::Admitted => asking_of(attending.socket),
            _ => asking_of(NOTHING),
        }
    }

    fn has_left(&self) -> bool
        ensures { (result ≡ true) ↔ (self.now ≡ place_is.Left) }
    {
        match self {
            Place::Left => true,
            Place::Free | Place::Reserved | Place::Taken(_) => false,
        }
    }
}

/// All sockets on which threads wait, each at its own place.
#[derive(Drop)]
struct Places {
    has_ended: bool,
    places: Vec<Place>,
    /// The question to poll(2) for each place, so that one call answers all.
    asked: Vec<pollfd>,
    /// No place before this one is free.
    free_from: usize,
    ghost none_free: { NoneFreeBefore places.items free_from },
}

impl Places {
    /// Returns whether there is a connection that no client is at the other end of, and whose client may be open still.
    fn has_gone(&mut self) -> bool {
        match poll(&mut self.asked, 0) {
            0 => false,
            // the system refuses more places than the process may have descriptors
            -1 => self.has_gone_by_place(),
            _ => self.asked.iter().any(|asked| is_hung_up(asked)),
        }
    }

    /// Returns the same by a call for each connection.
    fn has_gone_by_place(&self) -> bool {
        for place in self.places.iter() {
            if let Some(attending) = place.attending() {
                if attending.has_gone() {
                    return true;
                }
            }
        }
        false
    }

    /// Returns whether there is a connection that was closed at the other end and is still served.
    fn is_leaving(&self) -> bool {
        for place in self.places.iter() {
            if let Some(attending) = place.attending() {
                if attending.is_closed() {
                    return true;
                }
            }
        }
        false
    }

    /// Returns whether a connection is served.
    fn is_serving(&self) -> bool {
        for place in self.places.iter() {
            if let Some(attending) = place.attending() {
                if attending.role != Role::Listener {
                    return true;
                }
            }
        }
        false
    }

    /// Ends what looks at each socket.
    fn shut_all(&self) {
        for place in self.places.iter() {
            if let Some(attending) = place.attending() {
                shutdown(attending.socket, SHUT_RDWR);
            }
        }
    }

    /// Returns the first place that is free, or the one after the last.
    fn first_free(&self) -> usize
        ensures { IsFirstFree self.now.places.items result }
    {
        for place in self.free_from..self.places.len() {
            if let Some(Place::Free) = self.places.get(place) {
                return place;
            }
        }
        self.places.len()
    }

    /// Reserves a place and returns it. If there is no room, it returns one that does not exist. Does not allocate.
    fn reserve(&mut self) -> usize
        ensures first { IsFirstFree self.old.places.items result }
        ensures reserved { result < length self.old.places.items → self.new.places.items ≡ slice_set self.old.places.items result place_is.Reserved }
    {
        let place = self.first_free();
        if place < self.places.len() {
            self.put(place, Place::Reserved);
        } else if place < self.places.capacity() && self.asked.len() < self.asked.capacity() {
            self.places.push_reserved(Place::Reserved);
            self.asked.push_reserved(asking_of(NOTHING));
        }
        self.free_from = place;
        place
    }

    fn put(&mut self, place: usize, used: Place)
        requires { used ≢ place_is.Free }
        ensures set { self.new.places.items ≡ slice_set self.old.places.items place used }
        ensures from { self.new.free_from ≡ self.old.free_from }
    {
        if let Some(slot) = self.places.get_mut(place) {
            *slot = used;
        }
        if let Some(slot) = self.asked.get_mut(place) {
            *slot = used.asked();
        }
    }

    /// Frees a place that its thread has left, and returns whether it has.
    fn free_left(&mut self, place: usize) -> bool
        ensures when { (result ≡ true) ↔ (slice_get self.old.places.items place ≡ Some place_is.Left) }
        ensures freed { result ≡ true → self.new.places.items ≡ slice_set self.old.places.items place place_is.Free }
        ensures kept { result ≡ false → self.new.places.items ≡ self.old.places.items }
    {
        match self.places.get_mut(place) {
            Some(slot) if slot.has_left() => {
                *slot = Place::Free;
                self.free_from = self.free_from.min(place);
                true
            }
            _ => false,
        }
    }
}

/// That all connections were asked to end. Only this crate creates it.
#[derive(Drop)]
pub struct Asked {
    _private: (),
}

/// The connections that threads serve at once, and their listeners.
///
/// An opening waits until each client is closed whose connection was already closed at the other end. So after you have
/// waited for a process to exit, a client that you open finds nothing of that process.
///
/// All connections can be asked to end. Then each connection is ended as if its client had ended it, and so is each
/// later one.
#[derive(Drop)]
pub struct OpenConnections {
    alloc: Global,
    places: Mutex<Places>,
    left: Condvar,
    /// The number of connections that threads attend to.
    attended: AtomicUsize,
    ended: Option<UnixStream>,
    notes: Notes,
    watch: Option<Watch>,
    plan: Option<Plan>,
}

impl OpenConnections {
    /// Creates a table without open connections. There is room for this many, for their listeners and
    /// for control.
    ///
    /// During shutdown a connection that was closed at the other end takes the place of those that did not arrive yet.
    /// If there is none, their threads are not woken.
    pub fn new(
        alloc: Global,
        counts: Counts,
        ended: Option<UnixStream>,
    ) -> Result<OpenConnections, AllocError> {
        let connections = usize::from(counts.cards)
            + usize::from(counts.renders)
            + usize::from(counts.roots);
        OpenConnections::with_room(alloc, connections, ended)
    }

    /// Creates a table without open connections. There is room for [`MOST_AT_ONCE`] connections of each listener, for
    /// the listeners and for control.
    pub fn until_ended(alloc: Global) -> Result<OpenConnections, AllocError> {
        OpenConnections::with_room(alloc, LISTENERS * MOST_AT_ONCE, None)
    }

    fn with_room(
        alloc: Global,
        connections: usize,
        ended: Option<UnixStream>,
    ) -> Result<OpenConnections, AllocError>
        requires { connections ≤ 1000 }
    {
        let room = connections + LISTENERS + CONTROLS;
        let places = Vec::with_capacity(alloc, room)?;
        let asked = Vec::with_capacity(alloc, room)?;
        let notes = Notes::new(alloc)?;
        Ok(OpenConnections {
            alloc,
            places: Mutex::new(Places {
                has_ended: false,
                places,
                asked,
                free_from: 0,
            }),
            left: Condvar::new(),
            attended: AtomicUsize::new(0),
            ended,
            notes,
            watch: None,
            plan: None,
        })
    }

    /// Returns the same table, whose connections report their calls to this watch.
    pub fn watched_by(self, watch: Watch) -> OpenConnections {
        let mut open = self;
        open.watch = Some(watch);
        open
    }

    /// Returns the same table, whose connections are subject to the rules of this plan.
    pub fn planned_by(self, plan: Plan) -> OpenConnections {
        let mut open = self;
        open.plan = Some(plan);
        open
    }

    /// Asks all connections to end. A thread that still waits for one gets one that has ended.
    pub fn end<R: Wait>(&self, rt: &R) {
        let mut places = self.places.lock(rt);
        places.has_ended = true;
        places.shut_all();
    }

    /// Returns whether they were asked to end.
    pub fn has_ended<R: Wait>(&self, rt: &R) -> bool {
        self.places.lock(rt).has_ended
    }

    /// Returns that they were asked to end, if they were.
    pub(crate) fn asked<R: Wait>(&self, rt: &R) -> Option<Asked> {
        if self.has_ended(rt) {
            Some(Asked { _private: () })
        } else {
            None
        }
    }

    /// Returns a connection that has ended, once they were asked to end.
    pub fn ended<R: Wait>(&self, rt: &R) -> Option<&UnixStream> {
        if self.has_ended(rt) {
            self.ended.as_ref()
        } else {
            None
        }
    }

    /// Returns whether a connection is served.
    pub fn is_serving<R: Wait>(&self, rt: &R) -> bool {
        self.places.lock(rt).is_serving()
    }

    /// Returns what is to be logged of the connections.
    pub fn notes(&self) -> &Notes {
        &self.notes
    }

    /// Returns what the connections report their calls to, if there is such a watch.
    pub fn watch(&self) -> Option<&Watch> {
        self.watch.as_ref()
    }

    /// Returns the rules to which the connections are subject, if there is such a plan.
    pub fn plan(&self) -> Option<&Plan> {
        self.plan.as_ref()
    }

    /// Returns the allocator that the connections were assigned.
    pub fn alloc(&self) -> Global {
        self.alloc
    }

    /// Reserves a place for a socket on which a thread will wait.
    pub fn reserve<R: Wait>(&self, rt: &R) -> usize {
        // there is room; without it a connection would be served, and not be ended
        self.places.lock(rt).reserve()
    }

    /// Frees a place whose guard was let go, and returns whether it was.
    pub fn free_left<R: Wait>(&self, rt: &R, place: usize) -> bool {
        self.places.lock(rt).free_left(place)
    }

    /// Waits until no connection is served that was closed at the other end.
    pub fn wait_for_leaving<R: Wait>(&self, rt: &R) {
        let places = self.places.lock(rt);
        drop(
            self.left
                .wait_while(rt, places, |places| places.is_leaving()),
        );
    }

    /// Adds a socket at a reserved place, until the guard is let go. The socket has to be open for as long. If all
    /// were asked to end, it is ended.
    pub fn attend<'a, R: Wait>(
        &'a self,
        rt: &'a R,
        place: usize,
        socket: RawFd,
        role: Role,
    ) -> ConnectionGuard<'a, R> {
        let mut places = self.places.lock(rt);
        if places.has_ended {
            shutdown(socket, SHUT_RDWR);
        }
        places.put(place, Place::Taken(Attending { socket, role }));
        drop(places);
        if role == Role::Connection {
            self.attended.fetch_add(1, Ordering::Relaxed);
        }
        ConnectionGuard {
            rt,
            open: self,
            place,
            socket,
            role,
        }
    }
}

/// The place of a socket on which a thread waits. The place is left when this is dropped, which has to be before the socket is
/// closed.
pub struct ConnectionGuard<'a, R: Wait> {
    rt: &'a R,
    open: &'a OpenConnections,
    place: usize,
    socket: RawFd,
    /// What the socket was when the thread began to wait.
    role: Role,
}

impl<R: Wait> ConnectionGuard<'_, R> {
    /// Returns whether more than [`FEW`] connections are open.
    pub(crate) fn is_crowded(&self) -> bool {
        self.open.attended.load(Ordering::Relaxed) > FEW
    }

    /// Waits until each client is closed whose connection has no client at the other end, and counts this connection's
    /// own as open.
    pub fn admit(&self) {
        let admitted = Attending {
            socket: self.socket,
            role: Role::Admitted,
        };
        let gathered = self.open.places.lock(self.rt);
        let mut places = self
            .open
            .left
            .wait_while(self.rt, gathered, |places| places.has_gone());
        places.put(self.place, Place::Taken(admitted));
    }
}

impl<R: Wait> Drop for ConnectionGuard<'_, R> {
    fn drop(self) {
        let Self {
            rt,
            open,
            place,
            socket: _socket,
            role,
        } = self;
        if role == Role::Connection {
            open.attended.fetch_sub(1, Ordering::Relaxed);
        }
        open.places.lock(rt).put(place, Place::Left);
        open.left.notify_all();
    }
}
