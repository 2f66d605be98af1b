//! Why not all connections were served.

use drm_sessions::Class;
use drm_traffic::class_word;
use thiserror::Error;

/// Why not all connections were served (own).
#[derive(Clone, Copy, Debug, PartialEq, Error)]
pub enum ServeFault {
    /// A connection on the listener of this class could not be accepted.
    #[error("a connection on the {} socket could not be accepted", class_word(*.0))]
    Accept(Class),
    /// A thread could not be started, for whatever cause.
    #[error("a thread could not be started")]
    NoThread,
    /// No memory for the threads or for their sessions.
    #[error("memory was refused for the connections")]
    NoMemory,
    /// The shared device was not there at the end.
    #[error("the shared device was not returned at the end")]
    TurnOut,
}
