//! Rows of clients.

ghost use Rattle.std.specs.Prelude.{◌≡◌, ◌++◌, All, IfOk, IfSome, filter, map, option_to_list};
ghost use Rattle.std.specs.Option.{option_map};
ghost use Rattle.drm_modes.specs.Topology as fixed;
ghost use Rattle.drm_trails.specs.Steps.{entry_of};
ghost use Rattle.drm_explanations.specs.Rows as rows;

use crate::fronts::Fronts;
use crate::names::{Labels, label_of};
use crate::reasons::{authenticated, closed_at, holds_of, standing_row, universal_row};
use crate::rows::{ClientRow, Node};
use drm_modes::{Kind, Topology};
use drm_rights::{Ledger, Step};
use drm_table::{Answer, Event, Opening};
use std::alloc::{AllocError, Global};

/// Returns all CRTCs and planes in rising order.
fn screens(alloc: Global, topology: &Topology) -> Result<Vec<u32>, AllocError>
    ensures { IfOk result (λ ids. ids.items ≡ fixed.crtc_ids topology.now ++ fixed.plane_ids topology.now) }
{
    let crtcs = topology.ids(Kind::Crtc);
    let planes = topology.ids(Kind::Plane);
    let mut screens = Vec::new(alloc);
    screens.extend_from_slice(crtcs.ids())?;
    screens.extend_from_slice(planes.ids())?;
    Ok(screens)
}

/// Returns whether a client may set a CRTC or a plane. It must be current and control it. With universal planes off,
/// the plane must be an overlay plane.
fn may_set(ledger: &Ledger, topology: &Topology, client: u64, id: u32) -> bool
    ensures { result ≡ rows.may_set topology.now ledger.now client id }
{
    ledger.is_current(client)
        && ledger.controls(topology, client, id)
        && (ledger.has_universal(client) || topology.crtc_of_plane(id).is_none())
}

/// Returns the CRTCs and planes that a client may set, in rising order.
fn settable(
    alloc: Global,
    ledger: &Ledger,
    topology: &Topology,
    client: u64,
) -> Result<Vec<u32>, AllocError>
    ensures { IfOk result (λ ids. ids.items ≡ rows.settable topology.now ledger.now client) }
{
    let mut ids = screens(alloc, topology)?;
    ids.retain(|id| may_set(ledger, topology, client, *id));
    Ok(ids)
}

fn node_of(opening: &Opening) -> (Node, bool)
    ensures { result ≡ rows.node_of opening.now }
{
    match opening {
        Opening::Primary { root, .. } => (Node::Primary, *root),
        Opening::Render => (Node::Render, false),
        Opening::Lease { root, .. } => (Node::Lease, *root),
    }
}

/// Returns the row of a closed client that was opened like this.
fn closed_row(
    alloc: Global,
    labels: &Labels,
    client: u64,
    opening: &Opening,
    closed: Option<u64>,
) -> ClientRow
    ensures opening { rows.opening_of_row result ≡ (client, rows.node_of opening.now) }
    ensures label { result.label ≡ rows.label_of labels.now client }
    ensures closed { result.closed ≡ closed }
    ensures nothing { rows.TellsNothing result }
{
    let (node, root) = node_of(opening);
    ClientRow {
        client,
        label: label_of(labels, client),
        node,
        root,
        closed,
        authenticated: None,
        universal_planes: None,
        standing: None,
        may_set: Vec::new(alloc),
        holds: Vec::new(alloc),
    }
}

/// Returns the row of a client that was opened like this.
fn client_row(
    alloc: Global,
    ledger: &Ledger,
    topology: &Topology,
    labels: &Labels,
    fronts: &mut Fronts,
    client: u64,
    opening: &Opening,
) -> Result<ClientRow, AllocError>
    ensures tells { IfOk result (rows.TellsClient topology.now labels.now ledger.now) }
    ensures opening { IfOk result (λ row. rows.opening_of_row row ≡ (client, rows.node_of opening.now)) }
{
    let closed = closed_at(ledger.steps(), client);
    let row = closed_row(alloc, labels, client, opening, closed);
    if closed.is_some() {
        return Ok(row);
    }
    Ok(ClientRow {
        authenticated: authenticated(ledger, client),
        universal_planes: universal_row(ledger, client),
        standing: standing_row(ledger, client),
        may_set: settable(alloc, ledger, topology, client)?,
        holds: holds_of(alloc, ledger.trail(), fronts, client)?,
        ..row
    })
}

/// Returns the client of an accepted opening, and how it was opened.
fn opened_by(step: &Step) -> Option<(u64, &Opening)>
    ensures { option_map (λ opened. (opened.0, rows.node_of opened.1.now)) result ≡ rows.opening_by (entry_of step.now) }
{
    match (&step.event, &step.answer) {
        (Event::Open(opening), Answer::Opened { client }) => Some((u64::from(*client), opening)),
        _ => None,
    }
}

/// Returns whether a client has a row. If a client is named, only that one has.
fn has_row(only: Option<u64>, client: u64) -> bool
    ensures { result ≡ rows.has_row only client }
{
    match only {
        Some(named) => named == client,
        None => true,
    }
}

/// Returns the row of the client that a step opened, or `None` if it opened none or another client is named.
fn opened_row(
    alloc: Global,
    ledger: &Ledger,
    topology: &Topology,
    labels: &Labels,
    fronts: &mut Fronts,
    only: Option<u64>,
    step: &Step,
) -> Result<Option<ClientRow>, AllocError>
    ensures tells { IfOk result (λ row. IfSome row (rows.TellsClient topology.now labels.now ledger.now)) }
    ensures opening { IfOk result (λ row. option_to_list (option_map rows.opening_of_row row) ≡ filter (λ opened. rows.has_row only opened.0) (option_to_list (rows.opening_by (entry_of step.now)))) }
{
    let Some((client, opening)) = opened_by(step) else {
        return Ok(None);
    };
    if !has_row(only, client) {
        return Ok(None);
    }
    let row = client_row(alloc, ledger, topology, labels, fronts, client, opening)?;
    Ok(Some(row))
}

/// Returns a row for each client that was opened, in the order of their openings. If a client is named, it returns only
/// its row.
pub(crate) fn client_rows(
    alloc: Global,
    ledger: &Ledger,
    topology: &Topology,
    labels: &Labels,
    only: Option<u64>,
) -> Result<Vec<ClientRow>, AllocError>
    ensures tells { IfOk result (λ told. All (rows.TellsClient topology.now labels.now ledger.now) told.items) }
    ensures openings { IfOk result (λ told. map rows.opening_of_row told.items ≡ rows.openings_in only ledger.now) }
{
    let steps = ledger.steps();
    let mut fronts = Fronts::new(alloc, steps.len())?;
    let mut rows = Vec::new(alloc);
    for step in steps {
        match opened_row(alloc, ledger, topology, labels, &mut fronts, only, step)? {
            Some(row) => rows.push(row)?,
            None => {}
        }
    }
    Ok(rows)
}
