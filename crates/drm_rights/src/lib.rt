//! The rights that a history grants, and the steps that granted them: masters, authentication and leases.
//!
//! The handles of a client, and the chains by which it obtained them, are in `drm_trails`. This crate exports its names
//! too.
//!
//! A history is a slice of steps, the oldest first. Step 1 is the first. A result as of a moment depends only on the
//! steps up to it.
#![tactic(auto)]

mod ledger;
mod notes;

pub use drm_trails::{
    ChainEnd, Effect, Giving, HandleThen, Held, Key, LastPublishing, Link, Marks, Origin,
    Publishing, Source, Step, Trail, handles_of, last_publishing, step_at,
};
pub use ledger::Ledger;
pub use notes::{Authentication, Capability, Lease, Magic, MasterState};
