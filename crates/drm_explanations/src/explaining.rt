//! The explanation of a history.

ghost use Rattle.std.specs.Prelude.{◌≡◌, IfOk, All, map, length};
ghost use Rattle.drm_history.specs.MasterState.{owner_in};
ghost use Rattle.drm_rights.specs.Leases.{leases_in};
ghost use Rattle.drm_explanations.specs.Rows as rows;

use crate::clients::client_rows;
use crate::leases::lease_rows;
use crate::names::{Labels, at};
use crate::rows::{At, ClientRow, DeviceRow, Explanation, LeaseRow};
use drm_modes::Topology;
use drm_rights::Ledger;
use std::alloc::{AllocError, Global};

/// Returns the step since which the device has its master, or none.
fn owner_since(ledger: &Ledger) -> Option<At>
    ensures { rows.TellsSince ledger.now result }
{
    at(ledger.steps(), ledger.owner_since())
}

/// Returns the rights that a history grants, and the steps that granted them (own).
///
/// The rows are:
///
/// - the device's master
/// - each client, with the reasons that it is authenticated, a master and current, and the chain of each of its handles
/// - each lease, with the steps that created and ended it
///
/// Labels name clients. If `only` names a client, there are no rows of other clients. Allocates the rows.
///
/// # Errors
///
/// `AllocError` if memory is refused. There is then no explanation.
pub fn explain(
    alloc: Global,
    ledger: &Ledger,
    topology: &Topology,
    labels: &Labels,
    only: Option<u64>,
) -> Result<Explanation, AllocError>
    ensures master { IfOk result (λ told. told.device.master ≡ owner_in ledger.now) }
    ensures since { IfOk result (λ told. rows.TellsSince ledger.now told.device.since) }
    ensures clients { IfOk result (λ told. All (rows.TellsClient topology.now labels.now ledger.now) told.clients.items) }
    ensures openings { IfOk result (λ told. map rows.opening_of_row told.clients.items ≡ rows.openings_in only ledger.now) }
    ensures leases { IfOk result (λ told. All (rows.TellsLease topology.now ledger.now) told.leases.items) }
    ensures leased { IfOk result (λ told. map rows.names_of_row told.leases.items ≡ map rows.names_of (leases_in ledger.now)) }
    ensures steps { IfOk result (λ told. told.steps ≡ length ledger.now) }
{
    Ok(Explanation {
        steps: ledger.steps().len() as u64,
        device: DeviceRow {
            master: ledger.owner(),
            since: owner_since(ledger),
        },
        clients: client_rows(alloc, ledger, topology, labels, only)?,
        leases: lease_rows(alloc, ledger, topology)?,
    })
}

/// Returns whether the client created or redeemed a lease.
fn is_lease_of(row: &LeaseRow, client: u64) -> bool
    ensures { result ≡ rows.is_lease_of client row.now }
{
    row.leased.client == client || row.redeemed_by == Some(client)
}

impl Explanation {
    ghost use Rattle.std.specs.Prelude.{◌≡◌, ◌==◌, find, filter, option_copied};
    ghost use Rattle.drm_explanations.specs.Rows as rows;

    /// Returns the row of a client, or `None` if it was never opened. Does not allocate.
    pub fn client(&self, client: u64) -> Option<&ClientRow>
        ensures { option_copied result ≡ find (λ row. row.client == client) self.now.clients.items }
    {
        self.clients.iter().find(|row| row.client == client)
    }

    /// Returns the lease of a lessee, or `None` if the master is no lessee. Does not allocate.
    pub fn lease(&self, master: u64) -> Option<&LeaseRow>
        ensures { option_copied result ≡ find (λ row. row.master == master) self.now.leases.items }
    {
        self.leases.iter().find(|row| row.master == master)
    }

    /// Removes the rows of other clients, and the leases that the client neither created nor redeemed. Does not
    /// allocate.
    ///
    /// The client's chains may then name removed rows as their fronts, unless `explain` was called for that client
    /// alone.
    pub fn retain_client(&mut self, client: u64)
        ensures clients { self.new.clients.items ≡ filter (λ row. row.client == client) self.old.clients.items }
        ensures leases { self.new.leases.items ≡ filter (rows.is_lease_of client) self.old.leases.items }
        ensures device { self.new.device ≡ self.old.device }
        ensures steps { self.new.steps ≡ self.old.steps }
    {
        self.clients.retain(|row| row.client == client);
        self.leases.retain(|row| is_lease_of(row, client));
    }
}
