//! A device that threads share. Each call is one turn, and the calls of all threads are in one legal history.
//!
//! An example is the body of a function that has the runtime `rt`. If memory is refused, it returns.
#![tactic(auto)]

mod boxed;
mod history;
mod laws;
mod seat;
mod shared;
mod turn;

pub use history::{Entry, Stage, View};
pub use laws::{device_is_placed, numbers_differ, tickets_are_counted, tickets_differ};
pub use seat::{Note, Seat};
pub use shared::{NoMemory, SharedDevice, Sharing, TurnOut};
