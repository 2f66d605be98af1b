//! The calls of masters, magics and leases.
#![tactic(auto)]

mod leases;
mod magics;
mod owners;
mod told;

pub use leases::{create_lease, revoke_lease};
pub use magics::{auth_magic, get_magic};
pub use owners::{drop_master, set_master};
pub use told::{get_lease, list_lessees};
