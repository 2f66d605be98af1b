//! The objects of a display device: their sizes and stamps, and how many handles, tokens and framebuffers refer to each
//! (drm-mm, drm-gem(7)).
//!
//! An example is the body of a function that has the runtime `rt`. If memory is refused, it returns.
#![tactic(auto)]

mod keys;
mod object;
mod objects;

pub use keys::ObjectKey;
pub use object::{Dead, Object};
pub use objects::{CreateFault, Objects};
