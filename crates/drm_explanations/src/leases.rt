//! Rows of leases.

ghost use Rattle.std.specs.Prelude.{◌≡◌, true, IfOk, IfSome, All, None, Some, map, if◌then◌else◌};
ghost use Rattle.std.specs.Option.{option_map};
ghost use Rattle.drm_history.specs.Lessees.{has_ended};
ghost use Rattle.drm_rights.specs.Leases.{ended_at, leases_in};
ghost use Rattle.drm_explanations.specs.Rows as rows;
ghost use Rattle.drm_explanations.specs.Steps.{TellsStep};

use crate::names::at;
use crate::rows::{At, LeaseRow};
use drm_modes::Topology;
use drm_rights::{Lease, Ledger};
use std::alloc::{AllocError, Global};

/// Returns the step that ended a lease, or `None` if it has not ended.
fn ended_row(ledger: &Ledger, master: u64) -> Option<At>
    ensures step { option_map (λ told. told.step) result ≡ ended_at ledger.now master }
    ensures ended { IfSome result (λ _. has_ended ledger.now master ≡ true) }
    ensures tells { IfSome result (TellsStep ledger.now) }
{
    let step = ledger.ended(master)?;
    at(ledger.steps(), step)
}

/// Returns the row of a lease, or `None` if no step created it.
fn row_of(
    alloc: Global,
    ledger: &Ledger,
    topology: &Topology,
    lease: &Lease,
) -> Result<Option<LeaseRow>, AllocError>
    ensures tells { IfOk result (λ row. IfSome row (rows.TellsLease topology.now ledger.now)) }
    ensures names { IfOk result (λ row. option_map rows.names_of_row row ≡ (if rows.is_step ledger.now lease.now.master then Some (rows.names_of lease.now) else None)) }
{
    let Some(leased) = at(ledger.steps(), lease.master) else {
        return Ok(None);
    };
    Ok(Some(LeaseRow {
        master: lease.master,
        lessee_id: lease.id,
        lessor: ledger.lessor_of(lease.master),
        leased,
        token: lease.token,
        mode_objects: ledger.leased(alloc, topology, lease.master)?,
        redeemed_by: ledger.lease_client(lease.master),
        ended: ended_row(ledger, lease.master),
    }))
}

/// Returns a row for each lease in the order of their creation, with those that ended.
pub(crate) fn lease_rows(
    alloc: Global,
    ledger: &Ledger,
    topology: &Topology,
) -> Result<Vec<LeaseRow>, AllocError>
    ensures tells { IfOk result (λ told. All (rows.TellsLease topology.now ledger.now) told.items) }
    ensures names { IfOk result (λ told. map rows.names_of_row told.items ≡ map rows.names_of (leases_in ledger.now)) }
{
    let mut rows = Vec::new(alloc);
    for lease in ledger.leases() {
        if let Some(row) = row_of(alloc, ledger, topology, lease)? {
            rows.push(row)?;
        }
    }
    Ok(rows)
}
