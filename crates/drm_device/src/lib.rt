//! The device: a state machine over openings, requests and closings.
//!
//! An example is the body of a function that has the runtime `rt`. If memory is refused, it returns.
#![tactic(auto)]

mod audits;
mod calls;
mod capabilities;
mod device;
mod events;
mod families;
mod journal;
mod replays;
mod shortage;

pub use device::{Device, NewFault};
pub use drm_modes::{PlaneKind, Topology};
pub use drm_table::Limits;
pub use replays::{ReplayFault, replay};
pub use shortage::Shortage;
