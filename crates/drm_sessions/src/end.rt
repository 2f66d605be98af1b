//! How a session ended.

use drm_table::{Apart, Rule};
use std::fmt;
use std::fmt::{Display, Formatter};

/// Why a session ended (own).
///
/// # Examples
///
/// ```rust
/// use drm_device::{Device, Limits, Topology};
/// use drm_frames::{FromRead, ToWrite};
/// use drm_sessions::{Class, NoGate, Session, SessionEnd, serve_alone};
///
/// let alloc = rt.alloc();
/// let Some(topology) = Topology::new(2, &[1, 2], &[3, 2], &[5, 6]) else { return };
/// let Ok(mut device) = Device::new(alloc, topology, Limits::PROGRAM) else { return };
/// let hello = [14, 0, 0, 0, 0, 1, 1, 0, 0, 0, 0, 0, 0, 0, 0, 0, 0, 0];
/// let mut source = FromRead::new(&hello[..4]);
/// let mut sink = ToWrite::new(Vec::new(alloc));
/// let session = serve_alone(&mut device, &mut NoGate, Class::Card, &mut source, &mut sink, 1000);
/// let Session { end, steps, .. } = session;
/// assert!(rt; end == SessionEnd::Truncated && steps == 0);
/// ```
#[derive(Clone, Copy, Debug, PartialEq)]
pub enum SessionEnd {
    /// The input ended between frames.
    Ended,
    /// The input ended inside a frame, which was not carried out.
    Truncated,
    /// The client sent a length that no frame has.
    TooLong,
    /// The first frame is no hello, or one that the class doesn't allow.
    BadHello,
    /// The opening was denied by this rule.
    OpenRefused(Rule),
    /// The source failed, or was interrupted for the 1,000th time in a row.
    ReadFault,
    /// The sink failed, took no byte, or was interrupted for the 1,000th time in a row.
    WriteFault,
    /// A byte was to be taken or put, and no turn was left for it.
    TurnsUsed,
    /// The opening was answered by a fault, or the closing found the ticket counter exhausted.
    Apart(Apart),
}

/// In words, for who runs a server (own).
impl Display for SessionEnd {
    fn fmt<W: fmt::Write>(&self, f: &mut Formatter<W>) -> fmt::Result {
        match self {
            SessionEnd::Ended => f.write_str("the input ended between frames"),
            SessionEnd::Truncated => f.write_str("the input ended inside a frame"),
            SessionEnd::TooLong => f.write_str("a frame's length is out of range"),
            SessionEnd::BadHello => {
                f.write_str("the first frame is not a hello that this listener allows")
            }
            SessionEnd::OpenRefused(rule) => {
                let (number, name) = (rule.number(), rule.name());
                write!(f, "the opening was denied: {number} {name}")
            }
            SessionEnd::ReadFault => f.write_str("the connection could not be read"),
            SessionEnd::WriteFault => f.write_str("the connection could not be written"),
            SessionEnd::TurnsUsed => f.write_str("all reads and writes were used up"),
            SessionEnd::Apart(apart) => {
                let (number, name) = (apart.number(), apart.name());
                write!(
                    f,
                    "the opening or the closing ended in a fault: {number} {name}"
                )
            }
        }
    }
}

/// A session that has ended.
#[derive(Clone, Copy, Debug, PartialEq)]
pub struct Session {
    /// Why it ended.
    pub end: SessionEnd,
    /// The client that it opened, or 0.
    pub client: u32,
    /// How many of its events the device recorded. A denial is recorded; a fault isn't.
    pub steps: u64,
}
