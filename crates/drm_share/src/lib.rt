//! The sharing of a display device's objects: the global names of flink (drm-gem(7)), and the tokens in place of the
//! file descriptors of PRIME (drm-mm; tokens are own).
//!
//! An example is the body of a function that has the runtime `rt`. If memory is refused, it returns.
#![tactic(auto)]

mod faults;
mod names;
mod rows;
mod tokens;

pub use faults::ShareFault;
pub use names::Names;
pub use rows::{SharedName, SharedToken};
pub use tokens::Tokens;
