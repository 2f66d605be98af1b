//! The control of a server's plan, while it serves.

use drm_connections::{OpenConnections, Role, wait_for};
use drm_traffic::{MOST_BYTES, Plan, RuleFault, put_fault};
use libc::net::{POLLHUP, POLLIN, SHUT_RDWR, poll, shutdown};
use std::alloc::AllocError;
use std::io::{Read, Write};
use std::os::fd::AsRawFd;
use std::os::unix::net::{UnixListener, UnixStream};
use std::sync::Wait;

/// How many bytes of control lines are read at once.
const PIECE: usize = 256;

/// How long the thread waits if the system can't accept a connection, in milliseconds.
const PAUSE: i32 = 100;

/// The control lines of a connection, and their answers.
#[derive(Drop)]
struct Lines<'a> {
    plan: &'a Plan,
    /// The bytes of the line that has not ended.
    line: Vec<u8>,
    /// The answers that are not written yet.
    answers: Vec<u8>,
}

impl Lines<'_> {
    /// Takes the bytes of a piece, and answers the lines that they end. Returns whether more are taken: not after a line that is too
    /// long.
    fn take_all<R: Wait>(&mut self, rt: &R, piece: &[u8]) -> Result<bool, AllocError> {
        for byte in piece {
            if *byte == b'\n' {
                self.plan.answer(rt, &self.line, &mut self.answers)?;
                self.line.clear();
            } else if self.line.len() >= MOST_BYTES {
                put_fault(&mut self.answers, &RuleFault::too_long())?;
                return Ok(false);
            } else {
                self.line.push(*byte)?;
            }
        }
        Ok(true)
    }

    /// Reads a piece of a connection, and answers its lines. Returns whether more is read.
    fn exchange<R: Wait>(&mut self, rt: &R, stream: &UnixStream) -> bool {
        let mut stream = stream;
        let mut piece = [0; PIECE];
        let Ok(count) = stream.read(&mut piece) else {
            return false;
        };
        let read = piece.get(..count).unwrap_or(&[]);
        let Ok(goes_on) = self.take_all(rt, read) else {
            return false;
        };
        if count == 0 || stream.write_all(&self.answers).is_err() {
            return false;
        }
        self.answers.clear();
        goes_on
    }
}

/// Reads what a client has sent, so that the connection ends for it as if nothing more had come.
fn drain<R: Wait>(rt: &R, stream: &UnixStream) {
    let mut stream = stream;
    let mut piece = [0; PIECE];
    for _ in rt.forever() {
        match stream.read(&mut piece) {
            Ok(count) if count > 0 => {}
            _ => return,
        }
    }
}

/// Answers the control lines of a connection until it ends, or all connections were asked to end.
fn answer<R: Wait>(rt: &R, open: &OpenConnections, plan: &Plan, place: usize, stream: UnixStream) {
    let _attendance = open.attend(rt, place, stream.as_raw_fd(), Role::Listener);
    let Ok(line) = Vec::with_capacity(open.alloc(), MOST_BYTES) else {
        return;
    };
    let answers = Vec::new(open.alloc());
    let mut lines = Lines {
        plan,
        line,
        answers,
    };
    for _ in rt.forever() {
        if !lines.exchange(rt, &stream) {
            break;
        }
    }
    shutdown(stream.as_raw_fd(), SHUT_RDWR);
    drain(rt, &stream);
}

/// Waits for the next connection, or until the listener is shut.
fn accept(listener: &UnixListener) -> Option<UnixStream> {
    if wait_for(listener.as_raw_fd(), POLLIN, -1) & POLLHUP != 0 {
        return None;
    }
    match listener.accept() {
        Ok((stream, _)) => Some(stream),
        Err(_) => None,
    }
}

/// Answers the control lines of one connection after the other, until all connections are asked to end.
pub(crate) fn control<R: Wait>(rt: &R, open: &OpenConnections, listener: UnixListener) {
    let Some(plan) = open.plan() else {
        return;
    };
    let place = open.reserve(rt);
    let _attendance = open.attend(rt, place, listener.as_raw_fd(), Role::Listener);
    let next = open.reserve(rt);
    for _ in rt.forever() {
        let accepted = accept(&listener);
        if open.has_ended(rt) {
            return;
        }
        match accepted {
            Some(stream) => answer(rt, open, plan, next, stream),
            None => {
                poll(&mut [], PAUSE);
            }
        }
    }
}
