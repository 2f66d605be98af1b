//! The open clients of a device with their flags, and the GEM handles of each (drm-uapi, drm-gem(7)).
//!
//! An example is the body of a function that has the runtime `rt`. If memory is refused, it returns.
#![tactic(auto)]

mod faults;
mod files;
mod lists;
mod orders;
mod primes;
mod rest;
mod rows;

pub use faults::FileFault;
pub use files::Files;
pub use rest::FileRest;
pub use rows::{ClientCapability, FileClient, FileFlags, FileHandle, FileRow};
