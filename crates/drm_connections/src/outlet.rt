//! Descriptors that are waited for, and files to which a thread writes lines for a reader that may take none.

use drm_traffic::Watch;
use libc::net::{POLLOUT, poll};
use libc::types::pollfd;
use std::os::fd::RawFd;
use std::sync::Wait;

/// How long a reader is waited for before the thread looks whether no more follows, in milliseconds.
const PAUSE: i32 = 100;

/// The number of such pauses after the end: one second in all.
const MOST_PAUSES: u32 = 10;

/// The number of failed writes in a row after which nothing more is written.
const MOST_FAILURES: u32 = 10;

/// The most bytes of a write. If a pipe has room, it takes this many at once.
const MOST_BYTES: usize = 4_096;

/// Waits for one of these events of a descriptor, or its end, and returns what poll(2) reports of it. Returns 0 after this many
/// milliseconds. A negative number of them has no end.
pub fn wait_for(descriptor: RawFd, events: i16, millis: i32) -> i16 {
    let mut asked = [pollfd {
        fd: descriptor,
        events,
        revents: 0,
    }];
    poll(&mut asked, millis);
    asked[0].revents
}

/// What a thread writes until no more follows.
pub trait Queue {
    /// Returns whether no more follows.
    fn has_ended<R: Wait>(&self, rt: &R) -> bool;
}

impl Queue for Watch {
    fn has_ended<R: Wait>(&self, rt: &R) -> bool {
        Watch::has_ended(self, rt)
    }
}

/// The front of a text that is written at once: as many whole lines as fit, or a part of a longer line.
fn front_of(text: &[u8]) -> &[u8] {
    let Some(front) = text.get(..MOST_BYTES) else {
        return text;
    };
    match front.iter().rposition(|byte| *byte == b'\n') {
        Some(last) => front.get(..last.saturating_add(1)).unwrap_or(front),
        None => front,
    }
}

/// Returns the number of lines that end in a text.
pub fn count_lines(text: &[u8]) -> u64 {
    let mut lines: u64 = 0;
    for byte in text.iter() {
        if *byte == b'\n' {
            lines = lines.saturating_add(1);
        }
    }
    lines
}

/// An open file that a thread writes lines to. Its owner keeps it open.
#[derive(Clone, Copy)]
pub struct Outlet {
    /// Its descriptor.
    pub descriptor: RawFd,
}

/// What became of a text.
#[derive(Clone, Copy)]
pub enum Put {
    /// It is written.
    Whole,
    /// The file takes no bytes. This many were written.
    Failed(usize),
    /// The reader took nothing for a second after the end. This many bytes were written.
    Untaken(usize),
}

impl Outlet {
    /// Standard error.
    pub const STANDARD_ERROR: Outlet = Outlet { descriptor: 2 };

    /// Returns whether the file takes bytes now.
    pub fn has_room(self) -> bool {
        wait_for(self.descriptor, POLLOUT, 0) != 0
    }

    /// Returns whether it is a terminal.
    pub fn is_terminal(self) -> bool {
        libc::isatty(self.descriptor) == 1
    }

    /// Waits until the file takes bytes, or fails. Once no more follows, it waits a second at most, and then returns `false`.
    pub fn wait_for_room<R: Wait, Q: Queue>(self, rt: &R, queue: &Q) -> bool {
        let mut pauses: u32 = 0;
        for _ in rt.forever() {
            if wait_for(self.descriptor, POLLOUT, PAUSE) != 0 {
                return true;
            }
            if pauses == MOST_PAUSES {
                return false;
            }
            if queue.has_ended(rt) {
                pauses = pauses.saturating_add(1);
            }
        }
        false
    }

    /// Writes a text of whole lines, several in one write. It waits for the reader as long as more may follow, and
    /// then for as long as the reader takes bytes each second.
    pub fn put<R: Wait, Q: Queue>(self, rt: &R, queue: &Q, text: &[u8]) -> Put {
        let mut written: usize = 0;
        let mut failures: u32 = 0;
        for _ in rt.forever() {
            let rest = text.get(written..).unwrap_or(&[]);
            if rest.is_empty() {
                return Put::Whole;
            }
            if failures == MOST_FAILURES {
                return Put::Failed(written);
            }
            if !self.wait_for_room(rt, queue) {
                return Put::Untaken(written);
            }
            let taken = libc::write(self.descriptor, front_of(rest));
            if taken > 0 {
                written = written.saturating_add(taken as usize);
                failures = 0;
            } else {
                failures = failures.saturating_add(1);
            }
        }
        Put::Whole
    }
}
