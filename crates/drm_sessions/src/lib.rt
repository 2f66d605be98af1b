//! One client's session, from its hello to its closing, over any source, sink and device.
//!
//! An example is the body of a function that has the runtime `rt`. If memory is refused, it returns.
#![tactic(auto)]

mod accepted;
mod access;
mod alone;
mod class;
mod end;
mod inbox;
mod jobs;
mod laws;
mod many;
mod opening;
mod reading;
mod requests;
mod serving;
mod through;
mod witness;
mod writing;

pub use access::{Access, Gate, NoGate};
pub use alone::{Alone, serve_alone, serve_lent};
pub use class::Class;
pub use end::{Session, SessionEnd};
pub use jobs::{Finished, Job};
pub use laws::{bytes_written_follow_from_bytes_read, results_follow_from_the_frames};
pub use many::{ManyFault, serve_many};
pub use serving::serve;
pub use through::{Served, Through, serve_through, serve_witnessed};
pub use witness::{NoWitness, Witness};
