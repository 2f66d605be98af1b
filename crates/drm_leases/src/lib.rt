//! Leases of outputs: which mode objects a lessee controls, and the tokens that open one (drm-uapi, leases; lease
//! tokens are own).
//!
//! An example is the body of a function that has the runtime `rt`. If memory is refused, it returns.
#![tactic(auto)]

mod endings;
mod faults;
mod granted;
mod leases;
mod lent;
mod lists;
mod masks;
mod rows;
mod rules;
mod searches;
mod tokens;
mod views;
mod writes;

pub use faults::LeaseFault;
pub use leases::Leases;
pub use rows::{Grant, Leased};
pub use views::{Controlled, View};
