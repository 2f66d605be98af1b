//! What the device keeps: its parts, how they fit together, and the rows that they represent.
#![tactic(auto)]

mod caller;
mod handles;
mod memory;
mod releases;
mod shapes;
mod state;

pub use caller::{Caller, PrimaryCaller};
pub use handles::{add_handle, new_handle};
pub use memory::Memory;
pub use releases::release;
pub use shapes::{bytes_per_pixel, is_dumb_shape};
pub use state::State;
