//! A server that ends at the end of its standard input.

use drm_connections::OpenConnections;
use libc::net::{POLLIN, poll};
use libc::types::pollfd;
use std::io::Read;
use std::os::fd::{AsRawFd, RawFd};
use std::os::unix::net::UnixStream;
use std::sync::Wait;

/// The descriptor of standard input.
const INPUT: RawFd = 0;

/// The most bytes of standard input in one read.
const READ: usize = 256;

/// Reads standard input, and returns whether it has ended.
fn has_ended<R: Input>(rt: &R) -> bool {
    let mut bytes = [0; READ];
    match rt.reader().read(&mut bytes) {
        Ok(0) | Err(_) => true,
        Ok(_) => false,
    }
}

/// Waits until standard input ends, and then asks all connections to end. It also returns if the other end of `served`
/// is closed.
pub(crate) fn end_with_input<R: Input + Wait>(rt: &R, served: &UnixStream, open: &OpenConnections) {
    let events = POLLIN;
    let revents = 0;
    for _ in rt.forever() {
        let fd = served.as_raw_fd();
        let mut asked = [
            pollfd {
                fd,
                events,
                revents,
            },
            pollfd {
                fd: INPUT,
                events,
                revents,
            },
        ];
        poll(&mut asked, -1);
        let [served, input] = asked;
        if served.revents != 0 {
            return;
        }
        if input.revents != 0 && has_ended(rt) {
            open.end(rt);
            return;
        }
    }
}
