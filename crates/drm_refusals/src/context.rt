//! The values in which facts are looked up.

use drm_modes::Topology;
use drm_rights::Ledger;
use drm_table::Limits;

/// The history up to an answer, with the topology and the limits of the device.
#[derive(Clone, Copy)]
pub(crate) struct Context<'a> {
    pub(crate) ledger: &'a Ledger,
    pub(crate) topology: &'a Topology,
    pub(crate) limits: Limits,
}
