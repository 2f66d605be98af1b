//! A table whose numbers are allocated from a range: the lowest free one, or the next one in rotation. And numbers by
//! groups.
//!
//! An example is the body of a function that has the runtime `rt`. If memory is refused, it returns.
#![tactic(auto)]

mod faults;
mod groups;
mod numbers;
mod table;

pub use faults::{AddFault, NoMemory};
pub use groups::Groups;
pub use table::IdTable;
