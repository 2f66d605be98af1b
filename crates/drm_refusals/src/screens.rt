//! Mode objects that a client doesn't see, and those that a CRTC can't drive.

ghost use Rattle.std.specs.Prelude.{◌≡◌, ◌==◌, Bool, true, false, ◌&&◌, ◌||◌, Some, None, All, IfErr, IfNone, IfOk, IfSome, is_some};
ghost use Rattle.std.specs.List.{AllByRecursion, list_all};
ghost use Rattle.drm_table.specs.declared.rules.Rule.TheVariants as rules;
ghost use Rattle.drm_modes.specs.LeaseRules.{is_shown};
ghost use Rattle.drm_modes.specs.Topology.{encoder_of, is_encoder, is_of_kind, is_route};
ghost use Rattle.drm_modes.specs.declared.kinds.Kind.TheVariants.{Connector, Crtc, Plane};
ghost use Rattle.drm_history.specs.Shown.{is_universal_in};
ghost use Rattle.drm_rights.specs.Ledgers.{controls_in};
ghost use Rattle.drm_refusals.specs.Facts as facts;
ghost use Rattle.drm_refusals.specs.Kinds as kinds;
ghost use Rattle.drm_refusals.specs.declared.facts.Fact.{Fact};

use crate::collecting::{only, with};
use crate::context::Context;
use crate::facts::{Fact, ModeObjectFact, RequestFact};
use crate::publications::framebuffer_fact;
use drm_explanations::Subject;
use drm_modes::Kind;
use drm_table::Call;
use std::alloc::{AllocError, Global};

/// Returns that a client's master does not control a mode object, if it doesn't. All clients see encoders.
fn uncontrolled(context: Context<'_>, client: u64, id: u32, kind: Kind) -> Option<ModeObjectFact>
    requires { is_of_kind context.topology.now kind id ≡ true }
    ensures seen { IfNone result ((is_encoder context.entry.topology.now id || controls_in context.entry.topology.now context.entry.ledger.now client id) ≡ true) }
    ensures holds { IfSome result (facts.ModeObjectHolds context.entry.topology.now context.entry.ledger.now) }
{
    if kind == Kind::Encoder || context.ledger.controls(context.topology, client, id) {
        None
    } else {
        Some(ModeObjectFact::NotControlled { client, id, kind })
    }
}

/// Returns that a client with universal planes off does not see a primary or a cursor plane, if it is one.
fn hidden(context: Context<'_>, client: u64, plane: u32) -> Option<ModeObjectFact>
    ensures shown { IfNone result (is_shown context.entry.topology.now (is_universal_in context.entry.ledger.now client) plane ≡ true) }
    ensures holds { IfSome result (facts.ModeObjectHolds context.entry.topology.now context.entry.ledger.now) }
{
    let crtc = context.topology.crtc_of_plane(plane)?;
    if context.ledger.has_universal(client) {
        return None;
    }
    Some(ModeObjectFact::Hidden {
        client,
        plane,
        crtc,
    })
}

/// Returns the kind of a mode object. If there is none with this id, or it is of another kind than the call requires,
/// returns that.
fn kind_of(context: Context<'_>, id: u32, wanted: Option<Kind>) -> Result<Kind, ModeObjectFact>
    ensures kind { IfOk result (λ kind. is_of_kind context.entry.topology.now kind id ≡ true) }
    ensures wanted { IfOk result (λ kind. kinds.is_wanted context.entry.topology.now wanted id ≡ true) }
    ensures holds { IfErr result (facts.ModeObjectHolds context.entry.topology.now context.entry.ledger.now) }
{
    let Some(kind) = context.topology.kind(id) else {
        let count = context.topology.object_count();
        return Err(ModeObjectFact::Nothing { id, count });
    };
    match wanted {
        Some(wanted) if wanted != kind => Err(ModeObjectFact::OfKind { id, kind, wanted }),
        _ => Ok(kind),
    }
}

/// Returns the fact of the lease of a client's master, if that is a lessee.
fn own_lease(context: Context<'_>, client: u64) -> Option<Fact>
    ensures { IfSome result (facts.Holds context.entry.topology.now context.entry.limits context.entry.ledger.now) }
{
    let master = context.ledger.master_of(client)?;
    Some(Fact::Told(Subject::Lease(master)))
}

/// Adds the reason a client doesn't see a mode object of a kind, or of any; nothing if it does.
fn unseen(
    context: Context<'_>,
    found: Vec<Fact>,
    client: u64,
    id: u32,
    wanted: Option<Kind>,
) -> Result<Vec<Fact>, AllocError>
    requires { All (facts.Holds context.topology.now context.limits context.ledger.now) found.items }
    ensures has { IfOk result (λ more. kinds.sees_in context.entry.topology.now context.entry.ledger.now client wanted id ≡ false → kinds.Shows more.items kinds.is_mode_object) }
    ensures kept { IfOk result (λ more. (kind : Fact → Bool) → kinds.Shows found.items kind → kinds.Shows more.items kind) }
    ensures holds { IfOk result (λ more. All (facts.Holds context.entry.topology.now context.entry.limits context.entry.ledger.now) more.items) }
{
    let kind = match kind_of(context, id, wanted) {
        Ok(kind) => kind,
        Err(fact) => return with(context, found, Some(Fact::ModeObject(fact))),
    };
    if let Some(fact) = uncontrolled(context, client, id, kind) {
        let found = with(context, found, Some(Fact::ModeObject(fact)))?;
        return with(context, found, own_lease(context, client));
    }
    match hidden(context, client, id) {
        Some(fact) => {
            let found = with(context, found, Some(Fact::ModeObject(fact)))?;
            with(
                context,
                found,
                Some(Fact::Told(Subject::UniversalPlanes(client))),
            )
        }
        None => Ok(found),
    }
}

/// Returns the reason a client doesn't see one of the mode objects that a call names.
pub(crate) fn no_mode_object(
    alloc: Global,
    context: Context<'_>,
    client: u64,
    call: &Call,
) -> Result<Vec<Fact>, AllocError>
    ensures has { IfOk result (λ found. kinds.Reasons context.entry.topology.now context.entry.ledger.now client rules.NoModeObject call.now found.items) }
    ensures holds { IfOk result (λ found. All (facts.Holds context.entry.topology.now context.entry.limits context.entry.ledger.now) found.items) }
{
    let none = Vec::new(alloc);
    match call {
        Call::GetCrtc { crtc } => unseen(context, none, client, *crtc, Some(Kind::Crtc)),
        Call::GetEncoder { encoder } => unseen(
            context,
            none,
            client,
            *encoder,
            Some(Kind::Encoder),
        ),
        Call::GetConnector { connector } => {
            unseen(context, none, client, *connector, Some(Kind::Connector))
        }
        Call::GetPlane { plane } => unseen(context, none, client, *plane, Some(Kind::Plane)),
        Call::SetCrtc {
            crtc,
            connector,
            ..
        } => unseen_output(context, none, client, *crtc, *connector),
        Call::SetPlane {
            plane,
            crtc,
            framebuffer,
        } => unseen_plane(context, none, client, *plane, *crtc, *framebuffer),
        Call::CreateLease { ids } => unseen_of(context, none, client, ids.ids()),
        _ => Ok(none),
    }
}

/// Adds the reason a client doesn't see a CRTC, or a connector if one is named.
fn unseen_output(
    context: Context<'_>,
    found: Vec<Fact>,
    client: u64,
    crtc: u32,
    connector: u32,
) -> Result<Vec<Fact>, AllocError>
    requires { All (facts.Holds context.topology.now context.limits context.ledger.now) found.items }
    ensures has { IfOk result (λ more. (kinds.sees_in context.entry.topology.now context.entry.ledger.now client (Some Crtc) crtc && ((connector == 0) || kinds.sees_in context.entry.topology.now context.entry.ledger.now client (Some Connector) connector)) ≡ false → kinds.Shows more.items kinds.is_mode_object) }
    ensures holds { IfOk result (λ more. All (facts.Holds context.entry.topology.now context.entry.limits context.entry.ledger.now) more.items) }
{
    let found = unseen(context, found, client, crtc, Some(Kind::Crtc))?;
    if connector == 0 {
        return Ok(found);
    }
    unseen(context, found, client, connector, Some(Kind::Connector))
}

/// Adds the reason a client doesn't see a plane, or the CRTC on which it is to show a framebuffer.
fn unseen_plane(
    context: Context<'_>,
    found: Vec<Fact>,
    client: u64,
    plane: u32,
    crtc: u32,
    framebuffer: u32,
) -> Result<Vec<Fact>, AllocError>
    requires { All (facts.Holds context.topology.now context.limits context.ledger.now) found.items }
    ensures has { IfOk result (λ more. (kinds.sees_in context.entry.topology.now context.entry.ledger.now client (Some Plane) plane && ((framebuffer == 0) || kinds.sees_in context.entry.topology.now context.entry.ledger.now client (Some Crtc) crtc)) ≡ false → kinds.Shows more.items kinds.is_mode_object) }
    ensures holds { IfOk result (λ more. All (facts.Holds context.entry.topology.now context.entry.limits context.entry.ledger.now) more.items) }
{
    let found = unseen(context, found, client, plane, Some(Kind::Plane))?;
    if framebuffer == 0 {
        return Ok(found);
    }
    unseen(context, found, client, crtc, Some(Kind::Crtc))
}

/// Adds the reason a client doesn't see an id of a lease. If the id is above those of mode objects, it may be a
/// framebuffer.
fn unseen_id(
    context: Context<'_>,
    found: Vec<Fact>,
    client: u64,
    id: u32,
) -> Result<Vec<Fact>, AllocError>
    requires { All (facts.Holds context.topology.now context.limits context.ledger.now) found.items }
    ensures has { IfOk result (λ more. kinds.sees_in context.entry.topology.now context.entry.ledger.now client None id ≡ false → kinds.Shows more.items kinds.is_id) }
    ensures kept { IfOk result (λ more. (kind : Fact → Bool) → kinds.Shows found.items kind → kinds.Shows more.items kind) }
    ensures holds { IfOk result (λ more. All (facts.Holds context.entry.topology.now context.entry.limits context.entry.ledger.now) more.items) }
{
    if context.topology.kind(id).is_none() && id > context.topology.object_count() {
        with(context, found, framebuffer_fact(context, id))
    } else {
        unseen(context, found, client, id, None)
    }
}

/// Adds the reason a client doesn't see some of the ids of a lease.
fn unseen_of(
    context: Context<'_>,
    found: Vec<Fact>,
    client: u64,
    ids: &[u32],
) -> Result<Vec<Fact>, AllocError>
    requires { All (facts.Holds context.topology.now context.limits context.ledger.now) found.items }
    ensures has { IfOk result (λ more. list_all (kinds.sees_in context.entry.topology.now context.entry.ledger.now client None) ids.now ≡ false → kinds.Shows more.items kinds.is_id) }
    ensures holds { IfOk result (λ more. All (facts.Holds context.entry.topology.now context.entry.limits context.entry.ledger.now) more.items) }
{
    let mut found = found;
    for id in ids {
        found = unseen_id(context, found, client, *id)?;
    }
    Ok(found)
}

/// Returns the reason a CRTC can't be shown by a connector.
fn connector_route(
    context: Context<'_>,
    crtc: u32,
    framebuffer: u32,
    connector: u32,
) -> Option<Fact>
    ensures is { IfSome result (λ fact. kinds.is_connector_route fact ≡ true) }
    ensures none { IfNone result (is_route context.entry.topology.now crtc framebuffer connector ≡ false → ((connector == 0) || is_some (encoder_of context.entry.topology.now connector)) ≡ true → ⊥) }
    ensures holds { IfSome result (facts.Holds context.entry.topology.now context.entry.limits context.entry.ledger.now) }
{
    if (framebuffer == 0) != (connector == 0) {
        return Some(Fact::Request(RequestFact::HalfRoute {
            framebuffer,
            connector,
        }));
    }
    let encoder = context.topology.encoder_of(connector)?;
    Some(Fact::ModeObject(ModeObjectFact::EncoderOf {
        crtc,
        connector,
        encoder,
    }))
}

/// Returns the reason a CRTC can't be shown by a connector or a plane.
pub(crate) fn bad_route(
    alloc: Global,
    context: Context<'_>,
    client: u64,
    call: &Call,
) -> Result<Vec<Fact>, AllocError>
    ensures plane { IfOk result (λ found. AllByRecursion (kinds.Shows found.items) (kinds.kinds rules.BadRoute call.now)) }
    ensures connector { IfOk result (λ found. kinds.Reasons context.entry.topology.now context.entry.ledger.now client rules.BadRoute call.now found.items) }
    ensures holds { IfOk result (λ found. All (facts.Holds context.entry.topology.now context.entry.limits context.entry.ledger.now) found.items) }
{
    match *call {
        Call::SetCrtc {
            crtc,
            framebuffer,
            connector,
        } => only(
            alloc,
            context,
            connector_route(context, crtc, framebuffer, connector),
        ),
        Call::SetPlane { plane, crtc, .. } => only(
            alloc,
            context,
            Some(Fact::Request(RequestFact::PlaneRoute { crtc, plane })),
        ),
        _ => Ok(Vec::new(alloc)),
    }
}
