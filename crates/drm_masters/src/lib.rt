//! Masters, their clients, and magics, which decide which client may set modes (drm(7), masters; drm-uapi, leases).
//!
//! An example is the body of a function that has the runtime `rt`. If memory is refused, it returns.
#![tactic(auto)]

mod faults;
mod ids;
mod masters;
mod members;
mod rows;
mod searches;
mod sweeps;
mod table;
mod writes;

pub use drm_id_alloc::NoMemory;
pub use faults::{LesseeFault, SetDone, SetFault};
pub use masters::Masters;
pub use rows::{Magic, Master, MasterKey, MasterRow, Member};
