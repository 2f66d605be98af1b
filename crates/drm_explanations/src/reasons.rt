//! The reasons for a client's state and handles.

ghost use Rattle.std.specs.Prelude.{◌≡◌, true, IfOk, IfSome};
ghost use Rattle.std.specs.Option.{is_some};
ghost use Rattle.drm_history.specs.Magics.{known};
ghost use Rattle.drm_rights.specs.Ledgers.{capabilities_in, capability_of, master_state_of, standings_in};
ghost use Rattle.drm_history.specs.Closings as closings;
ghost use Rattle.drm_history.specs.Closings.{has_closed};
ghost use Rattle.drm_history.specs.Effects.{effect};
ghost use Rattle.drm_trails.specs.Steps.{entry_of, history_of};
ghost use Rattle.drm_explanations.specs.Rows as rows;

use crate::fronts::Fronts;
use crate::names::at;
use crate::rows::{
    Authenticated, AuthenticatedBy, HandleRow, LinkRow, PublishedBy, PublishedRow, StandingRow,
    UniversalRow,
};
use drm_rights::{Effect, Held, Key, Ledger, Link, Origin, Step, Trail, handles_of};
use std::alloc::{AllocError, Global};

/// Returns whether a step closed a client.
fn closes(step: &Step, client: u64) -> bool
    ensures { result ≡ closings.closes (effect (entry_of step.now)) client }
{
    match step.effect() {
        Effect::Closes { client: closed } => closed == client,
        _ => false,
    }
}

/// Returns the number of the step that closed a client, from 1, or `None` if the client is open. It is the first such
/// step after the opening. Does not allocate.
pub fn closed_at(steps: &[Step], client: u64) -> Option<u64>
    ensures step { result ≡ rows.closed_step (history_of steps.now) client }
    ensures closed { IfSome result (λ number. has_closed (history_of steps.now) client ≡ true) }
{
    let opened = usize::try_from(client).ok()?;
    let later = steps.get(opened..)?;
    for (place, step) in later.iter().enumerate() {
        if closes(step, client) {
            return Some((opened + place) as u64 + 1);
        }
    }
    None
}

/// Returns why a client is authenticated: it opened as root, else it is a master, else AUTH_MAGIC named its magic.
pub(crate) fn authenticated(ledger: &Ledger, client: u64) -> Option<Authenticated>
    ensures tells { IfSome result (rows.TellsAuthenticated ledger.now client) }
    ensures known { is_some result ≡ known ledger.now client }
{
    if !ledger.is_known(client) {
        return None;
    }
    let steps = ledger.steps();
    if ledger.is_root(client) {
        return Some(Authenticated {
            by: AuthenticatedBy::Root,
            since: at(steps, client)?,
            magic: None,
        });
    }
    if ledger.is_master(client) {
        let state = ledger.master_state(client)?;
        return Some(Authenticated {
            by: AuthenticatedBy::Master,
            since: at(steps, state.step)?,
            magic: None,
        });
    }
    let authentication = ledger.authentication(client)?;
    Some(Authenticated {
        by: AuthenticatedBy::AuthMagic,
        since: at(steps, authentication.step)?,
        magic: Some(authentication.magic),
    })
}

/// Returns whether a client has universal planes on, and since which step.
pub(crate) fn universal_row(ledger: &Ledger, client: u64) -> Option<UniversalRow>
    ensures tells { IfSome result (rows.TellsUniversal ledger.now client) }
    ensures noted { is_some result ≡ is_some (capability_of (capabilities_in ledger.now) client) }
{
    let capability = ledger.capability(client)?;
    Some(UniversalRow {
        on: capability.universal,
        since: at(ledger.steps(), capability.step)?,
    })
}

/// Returns the master state of a client, and the step since which it has it.
pub(crate) fn standing_row(ledger: &Ledger, client: u64) -> Option<StandingRow>
    ensures tells { IfSome result (rows.TellsStanding ledger.now client) }
    ensures noted { is_some result ≡ is_some (master_state_of (standings_in ledger.now) client) }
{
    let standing = ledger.master_state(client)?;
    Some(StandingRow {
        is_master: standing.is_master,
        master: standing.master,
        owner: standing.master.map(|master| ledger.owner_of(master)),
        current: ledger.is_current(client),
        since: at(ledger.steps(), standing.step)?,
    })
}

fn published_row(steps: &[Step], origin: Origin) -> Option<PublishedRow> {
    let Origin::Published { key, step } = origin else {
        return None;
    };
    let (by, number) = match key {
        Key::Name(number) => (PublishedBy::Name, number),
        Key::Token(number) => (PublishedBy::Token, number),
        Key::Framebuffer(number) => (PublishedBy::Framebuffer, number),
    };
    Some(PublishedRow {
        by,
        number,
        at: at(steps, step)?,
    })
}

/// Returns the links as rows. The step that created the object is first.
fn chain_rows(alloc: Global, steps: &[Step], links: &[Link]) -> Result<Vec<LinkRow>, AllocError> {
    let mut rows = Vec::new(alloc);
    for link in links.iter().rev() {
        if let Some(given) = at(steps, link.step) {
            rows.push(LinkRow {
                published: published_row(steps, link.origin),
                handle: link.handle,
                given,
            })?;
        }
    }
    Ok(rows)
}

/// Returns the row of a client's handle, and records the links of its chain.
fn hold_row(
    alloc: Global,
    trail: &Trail,
    fronts: &mut Fronts,
    client: u64,
    held: Held,
    object: u64,
) -> Result<HandleRow, AllocError>
    ensures handle { IfOk result (λ row. row.handle ≡ held.handle) }
    ensures object { IfOk result (λ row. row.object ≡ object) }
{
    let Held { handle, step } = held;
    let mut row = HandleRow {
        handle,
        object,
        front: None,
        chain: Vec::new(alloc),
    };
    let count = usize::try_from(step).unwrap_or(usize::MAX);
    let end = trail.chain_end_of(alloc, count, client, handle, fronts.marks())?;
    if let Some(end) = end {
        let links = end.links.as_slice();
        row.front = fronts.front_of(&end);
        row.chain = chain_rows(alloc, trail.steps(), links)?;
        fronts.note(client, handle, links);
    }
    Ok(row)
}

/// Returns a row for each handle of a client, in rising order, with its object and the end of its chain.
pub(crate) fn holds_of(
    alloc: Global,
    trail: &Trail,
    fronts: &mut Fronts,
    client: u64,
) -> Result<Vec<HandleRow>, AllocError>
    ensures { IfOk result (λ told. rows.TellsHolds (history_of trail.now) client told.items) }
{
    let steps = trail.steps();
    let held = handles_of(alloc, steps, client)?;
    let mut rows = Vec::new(alloc);
    for one in &held {
        if let Some(object) = trail.object_assigned(one.step) {
            rows.push(hold_row(alloc, trail, fronts, client, *one, object)?)?;
        }
    }
    Ok(rows)
}
