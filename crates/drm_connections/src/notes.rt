//! What is logged of listeners and of sessions, by its own thread.
//!
//! Nothing here is in a contract: no clause says what is logged.

use crate::counts::MOST_AT_ONCE;
use crate::outlet::{Outlet, Queue};
use drm_sessions::{Class, Session, SessionEnd};
use drm_traffic::{PROGRAM, class_word};
use log::{Log, error, warn};
use std::alloc::{AllocError, Global};
use std::io::ErrorKind;
use std::sync::{Condvar, Mutex, Wait};
use std::{io, mem};

/// The most notes that wait to be logged.
const MOST: usize = 64;

/// The number of notes that are added only once: two of each listener, and the journal's.
const MOST_ONCE: usize = 7;

/// A line to be logged.
#[derive(Clone, Copy, Debug, PartialEq)]
pub enum Note {
    /// A connection could not be accepted, by the error of this number, and the listener retries.
    Retried(Class, Option<i32>),
    /// A connection could not be accepted, by the error of this number, and the listener is closed.
    Closed(Class, Option<i32>),
    /// A connection after the last one of a listener.
    Refused(Class),
    /// A connection beyond those that a listener has open at once.
    Crowded(Class),
    /// A connection for which no thread could be started.
    Threadless(Class),
    /// An answer was that the journal is full.
    JournalFull,
    /// A session with this client that did not end normally. A session without a client has client 0.
    Session(Class, u32, SessionEnd),
    /// The number of notes for which there was no room.
    LeftOut(u64),
}

fn reason_of(number: Option<i32>) -> io::Error {
    match number {
        Some(number) => io::Error::from_raw_os_error(number),
        None => io::Error::from(ErrorKind::Other),
    }
}

impl Note {
    /// Returns the note of a session, unless its input ended between frames.
    pub fn of_session(class: Class, session: &Session) -> Option<Note> {
        match session.end {
            SessionEnd::Ended => None,
            end => Some(Note::Session(class, session.client, end)),
        }
    }

    /// Logs the note.
    fn log<R: Log>(self, rt: &R) {
        match self {
            Note::Retried(class, number) => {
                error!(rt; target: PROGRAM, "{}: {}; trying again", class_word(class), reason_of(number));
            }
            Note::Closed(class, number) => {
                error!(rt; target: PROGRAM, "{}: {}", class_word(class), reason_of(number));
            }
            Note::Refused(class) => {
                warn!(rt; target: PROGRAM, "{}: a connection was refused: all that the command line allows were accepted", class_word(class));
            }
            Note::Crowded(class) => {
                warn!(rt; target: PROGRAM, "{}: a connection was refused: {MOST_AT_ONCE} are open", class_word(class));
            }
            Note::Threadless(class) => {
                error!(rt; target: PROGRAM, "{}: a connection was refused: no thread could be started", class_word(class));
            }
            Note::JournalFull => {
                error!(rt; target: PROGRAM, "the journal is full: requests are answered with fault 50 (the last number of --limits is the most steps)");
            }
            Note::Session(class, 0, end) =>
                warn!(rt; target: PROGRAM, "{}, no client: {end}", class_word(class)),
            Note::Session(class, client, end) => {
                warn!(rt; target: PROGRAM, "{}, client {client}: {end}", class_word(class));
            }
            Note::LeftOut(count) => {
                warn!(rt; target: PROGRAM, "{count} log lines were left out: standard error did not accept them");
            }
        }
    }
}

/// The notes that wait.
#[derive(Drop)]
struct Waiting {
    notes: Vec<Note>,
    /// Those that were added and are not added again.
    said: Vec<Note>,
    left_out: u64,
    has_ended: bool,
}

impl Waiting {
    /// Returns whether there is nothing to do.
    fn is_idle(&self) -> bool {
        self.notes.is_empty() && self.left_out == 0 && !self.has_ended
    }

    fn add(&mut self, note: Note) {
        if self.notes.len() < self.notes.capacity() {
            self.notes.push_reserved(note);
        } else {
            self.left_out = self.left_out.saturating_add(1);
        }
    }

    fn add_once(&mut self, note: Note) {
        if self.said.iter().any(|said| *said == note) {
            return;
        }
        if self.said.len() < self.said.capacity() {
            self.said.push_reserved(note);
        }
        self.add(note);
    }

    fn take(&mut self) -> Option<Note> {
        if !self.notes.is_empty() {
            return Some(self.notes.remove(0));
        }
        match mem::replace(&mut self.left_out, 0) {
            0 => None,
            count => Some(Note::LeftOut(count)),
        }
    }
}

/// Notes that its own thread logs, so that no other thread waits for standard error.
#[derive(Drop)]
pub struct Notes {
    waiting: Mutex<Waiting>,
    more: Condvar,
}

impl Queue for Notes {
    fn has_ended<R: Wait>(&self, rt: &R) -> bool {
        self.waiting.lock(rt).has_ended
    }
}

impl Notes {
    /// Creates the place of notes, without a note. There is room for all notes that may wait.
    pub fn new(alloc: Global) -> Result<Notes, AllocError> {
        let notes = Vec::with_capacity(alloc, MOST)?;
        let said = Vec::with_capacity(alloc, MOST_ONCE)?;
        Ok(Notes {
            waiting: Mutex::new(Waiting {
                notes,
                said,
                left_out: 0,
                has_ended: false,
            }),
            more: Condvar::new(),
        })
    }

    /// Adds a note, or counts it if there is no room. It does not wait for standard error.
    pub fn add<R: Wait>(&self, rt: &R, note: Note) {
        self.waiting.lock(rt).add(note);
        self.more.notify_one();
    }

    /// Adds a note as [`Notes::add`] does, unless it was added so before.
    pub fn add_once<R: Wait>(&self, rt: &R, note: Note) {
        self.waiting.lock(rt).add_once(note);
        self.more.notify_one();
    }

    /// Announces notes, before the thread that logs them is started.
    pub fn begin<R: Wait>(&self, rt: &R) {
        self.waiting.lock(rt).has_ended = false;
    }

    /// Announces to the thread that logs that no more notes follow.
    pub fn end<R: Wait>(&self, rt: &R) {
        self.waiting.lock(rt).has_ended = true;
        self.more.notify_one();
    }

    /// Takes the first note, and waits for one. There is none at the end.
    fn take<R: Wait>(&self, rt: &R) -> Option<Note> {
        let locked = self.waiting.lock(rt);
        let mut waiting = self
            .more
            .wait_while(rt, locked, |waiting| waiting.is_idle());
        waiting.take()
    }

    /// Logs notes until the end. If standard error takes no line, it stops a second after the end.
    pub fn log_all<R: Wait + Log>(&self, rt: &R) {
        for _ in rt.forever() {
            let Some(note) = self.take(rt) else {
                return;
            };
            if !Outlet::STANDARD_ERROR.wait_for_room(rt, self) {
                return;
            }
            note.log(rt);
        }
    }
}
