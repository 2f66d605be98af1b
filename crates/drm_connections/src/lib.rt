//! What the threads of a server share: the open connections, how they are accepted and answered, and what is logged of them.
#![tactic(auto)]

mod accepting;
mod answers;
mod counts;
mod notes;
mod open_connections;
mod outlet;
mod peek;
mod read_ahead;
mod reporting;
mod requests;

pub use accepting::{accept_next, accept_unless_asked, note_beyond};
pub use answers::Answers;
pub use counts::{Counts, MOST, MOST_AT_ONCE};
pub use notes::{Note, Notes};
pub use open_connections::{Asked, ConnectionGuard, OpenConnections, Role};
pub use outlet::{Outlet, Put, Queue, count_lines, wait_for};
pub use peek::{Peek, Ready};
pub use reporting::Reporting;
pub use requests::{Lost, Requests};
