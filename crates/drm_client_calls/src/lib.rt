//! How clients come and go, and the calls of their capabilities, buffers, handles, stamps, names and PRIME tokens.
#![tactic(auto)]

mod buffers;
mod capabilities;
mod closings;
mod lists;
mod names;
mod openings;
mod stamps;
mod tokens;

pub use buffers::{Pixels, buf_create, create_dumb, gem_close};
pub use capabilities::set_client_cap;
pub use closings::close;
pub use lists::list_handles;
pub use names::{gem_flink, gem_open};
pub use openings::open;
pub use stamps::{stamp_read, stamp_write};
pub use tokens::{prime_export, prime_import, token_close};
