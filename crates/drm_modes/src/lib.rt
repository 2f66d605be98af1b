//! The mode objects of a display device: the fixed ones, framebuffers, and what CRTCs and planes show (drm-uapi, mode
//! setting).
//!
//! An example is the body of a function that has the runtime `rt`. If memory is refused, it returns.
#![tactic(auto)]

mod faults;
mod kinds;
mod modes;
mod planes;
mod rows;
mod scanouts;
mod topologies;

pub use faults::AddFbFault;
pub use kinds::{Kind, PlaneKind};
pub use modes::Modes;
pub use rows::{Fb, Framebuffer, ModeRow, Shape, Shown};
pub use topologies::Topology;
