//! Leases that can't be created, revoked or redeemed.

ghost use Rattle.std.specs.Prelude.{◌≡◌, Bool, true, false, not, ◌||◌, take, All, IfNone, IfOk, IfSome};
ghost use Rattle.std.specs.List.{list_all, list_any};
ghost use Rattle.drm_index_array.specs.Numbers.{is_among};
ghost use Rattle.drm_table.specs.declared.rules.Rule.TheVariants as rules;
ghost use Rattle.drm_modes.specs.LeaseRules.{is_lease, stands_once};
ghost use Rattle.drm_modes.specs.Topology.{is_of_kind, is_plane, kind_of};
ghost use Rattle.drm_model.specs.Rows.{is_option};
ghost use Rattle.drm_history.specs.Lessees.{granted};
ghost use Rattle.drm_history.specs.Shown.{is_universal_in};
ghost use Rattle.drm_rights.specs.Leases as lending;
ghost use Rattle.drm_rights.specs.Leases.{leases_in};
ghost use Rattle.drm_refusals.specs.Facts as facts;
ghost use Rattle.drm_refusals.specs.Kinds as kinds;
ghost use Rattle.drm_refusals.specs.Leases.{lease_meant};
ghost use Rattle.drm_refusals.specs.declared.facts.Fact.{Fact};

use crate::collecting::{only, with};
use crate::context::Context;
use crate::facts::{Fact, LeaseFact, ModeObjectFact, RequestFact};
use crate::publications::framebuffer_fact;
use drm_explanations::Subject;
use drm_modes::Kind;
use drm_rights::{Lease, Ledger};
use drm_table::{Call, ShownList};
use std::alloc::{AllocError, Global};

/// Returns the reason an id can't be leased: it is that of an encoder or a framebuffer.
fn unleasable(context: Context<'_>, id: u32) -> Option<Fact>
    ensures is { IfSome result (λ fact. kinds.is_id fact ≡ true) }
    ensures none { IfNone result (kinds.is_leasable (kind_of context.entry.topology.now id) ≡ true) }
    ensures holds { IfSome result (facts.Holds context.entry.topology.now context.entry.limits context.entry.ledger.now) }
{
    match context.topology.kind(id) {
        Some(Kind::Encoder) => Some(Fact::ModeObject(ModeObjectFact::Encoder { id })),
        Some(_) => None,
        None => framebuffer_fact(context, id),
    }
}

/// Returns the ids that can't be leased.
pub(crate) fn not_leasable(
    alloc: Global,
    context: Context<'_>,
    client: u64,
    call: &Call,
) -> Result<Vec<Fact>, AllocError>
    ensures has { IfOk result (λ found. kinds.Reasons context.entry.topology.now context.entry.ledger.now client rules.NotLeasable call.now found.items) }
    ensures holds { IfOk result (λ found. All (facts.Holds context.entry.topology.now context.entry.limits context.entry.ledger.now) found.items) }
{
    match call {
        Call::CreateLease { ids } => unleasable_of(alloc, context, ids.ids()),
        _ => Ok(Vec::new(alloc)),
    }
}

/// Returns those of these ids that can't be leased.
fn unleasable_of(alloc: Global, context: Context<'_>, ids: &[u32]) -> Result<Vec<Fact>, AllocError>
    ensures has { IfOk result (λ found. list_all (λ x. kinds.is_leasable (kind_of context.entry.topology.now x)) ids.now ≡ false → kinds.Shows found.items kinds.is_id) }
    ensures holds { IfOk result (λ found. All (facts.Holds context.entry.topology.now context.entry.limits context.entry.ledger.now) found.items) }
{
    let mut found = Vec::new(alloc);
    for id in ids {
        found = with(context, found, unleasable(context, *id))?;
    }
    Ok(found)
}

/// Returns that an id is also in the list before this place, if it is.
fn repetition(context: Context<'_>, ids: &[u32], place: usize, id: u32) -> Option<Fact>
    ensures is { IfSome result (λ fact. kinds.is_repetition fact ≡ true) }
    ensures none { IfNone result (is_among (take place ids.now) id ≡ false) }
    ensures holds { IfSome result (facts.Holds context.entry.topology.now context.entry.limits context.entry.ledger.now) }
{
    let before = ids.get(..place).unwrap_or(ids);
    if before.contains(&id) {
        Some(Fact::Request(RequestFact::Repeated { id }))
    } else {
        None
    }
}

/// Returns those of these ids that are also in the list before.
fn repeated_of(alloc: Global, context: Context<'_>, ids: &[u32]) -> Result<Vec<Fact>, AllocError>
    ensures has { IfOk result (λ found. list_all (stands_once ids.now) ids.now ≡ false → kinds.Shows found.items kinds.is_repetition) }
    ensures holds { IfOk result (λ found. All (facts.Holds context.entry.topology.now context.entry.limits context.entry.ledger.now) found.items) }
{
    let mut found = Vec::new(alloc);
    for (place, id) in ids.iter().enumerate() {
        found = with(context, found, repetition(context, ids, place, *id))?;
    }
    Ok(found)
}

/// Returns the ids that are in the list twice.
pub(crate) fn repeated(
    alloc: Global,
    context: Context<'_>,
    client: u64,
    call: &Call,
) -> Result<Vec<Fact>, AllocError>
    ensures has { IfOk result (λ found. kinds.Reasons context.entry.topology.now context.entry.ledger.now client rules.Repeated call.now found.items) }
    ensures holds { IfOk result (λ found. All (facts.Holds context.entry.topology.now context.entry.limits context.entry.ledger.now) found.items) }
{
    match call {
        Call::CreateLease { ids } => repeated_of(alloc, context, ids.ids()),
        _ => Ok(Vec::new(alloc)),
    }
}

/// Returns a fact if none of the ids is that of a mode object of a kind.
fn lack(context: Context<'_>, ids: &[u32], kind: Kind, fact: Fact) -> Option<Fact>
    requires { facts.Holds context.topology.now context.limits context.ledger.now fact }
    ensures is { IfSome result (λ lacking. lacking ≡ fact) }
    ensures none { IfNone result (list_any (is_of_kind context.entry.topology.now kind) ids.now ≡ true) }
    ensures holds { IfSome result (facts.Holds context.entry.topology.now context.entry.limits context.entry.ledger.now) }
{
    if ids.iter().any(|id| context.topology.is_of_kind(kind, *id)) {
        None
    } else {
        Some(fact)
    }
}

/// Returns that no plane is among the ids for a client with universal planes on.
fn lacks_plane(context: Context<'_>, client: u64, ids: &[u32]) -> Option<Fact>
    ensures is { IfSome result (λ fact. kinds.is_lack fact ≡ true) }
    ensures none { IfNone result ((not (is_universal_in context.entry.ledger.now client) || list_any (is_plane context.entry.topology.now) ids.now) ≡ true) }
    ensures holds { IfSome result (facts.Holds context.entry.topology.now context.entry.limits context.entry.ledger.now) }
{
    if context.ledger.has_universal(client) {
        let fact = Fact::Lease(LeaseFact::LacksPlane { client });
        lack(context, ids, Kind::Plane, fact)
    } else {
        None
    }
}

/// Returns what is missing in a lease of these ids.
fn lacks(
    alloc: Global,
    context: Context<'_>,
    client: u64,
    ids: &[u32],
) -> Result<Vec<Fact>, AllocError>
    ensures has { IfOk result (λ found. is_lease context.entry.topology.now (is_universal_in context.entry.ledger.now client) ids.now ≡ false → kinds.Shows found.items kinds.is_lack) }
    ensures holds { IfOk result (λ found. All (facts.Holds context.entry.topology.now context.entry.limits context.entry.ledger.now) found.items) }
{
    let crtc = Fact::Request(RequestFact::LacksCrtc);
    let connector = Fact::Request(RequestFact::LacksConnector);
    let found = only(alloc, context, lack(context, ids, Kind::Crtc, crtc))?;
    let found = with(
        context,
        found,
        lack(context, ids, Kind::Connector, connector),
    )?;
    with(context, found, lacks_plane(context, client, ids))
}

/// Returns what is missing in a lease.
pub(crate) fn bad_shape(
    alloc: Global,
    context: Context<'_>,
    client: u64,
    call: &Call,
) -> Result<Vec<Fact>, AllocError>
    ensures has { IfOk result (λ found. kinds.Reasons context.entry.topology.now context.entry.ledger.now client rules.LeaseShape call.now found.items) }
    ensures holds { IfOk result (λ found. All (facts.Holds context.entry.topology.now context.entry.limits context.entry.ledger.now) found.items) }
{
    match call {
        Call::CreateLease { ids } => lacks(alloc, context, client, ids.ids()),
        _ => Ok(Vec::new(alloc)),
    }
}

/// Returns that a lease has a mode object, if it does.
fn lent(context: Context<'_>, lease: Lease, id: u32) -> Option<Fact>
    ensures is { IfSome result (λ fact. kinds.is_leased_out fact ≡ true) }
    ensures none { IfNone result (granted context.entry.topology.now context.entry.ledger.now lease.master id ≡ false) }
    ensures holds { IfSome result (facts.Holds context.entry.topology.now context.entry.limits context.entry.ledger.now) }
{
    if context
        .ledger
        .is_granted(context.topology, lease.master, id)
    {
        Some(Fact::Lease(LeaseFact::LeasedOut { id, lease }))
    } else {
        None
    }
}

/// Adds those of these ids that a lease has.
fn lent_of(
    context: Context<'_>,
    found: Vec<Fact>,
    lease: Lease,
    ids: &[u32],
) -> Result<Vec<Fact>, AllocError>
    requires { All (facts.Holds context.topology.now context.limits context.ledger.now) found.items }
    ensures has { IfOk result (λ more. list_all (λ x. not (granted context.entry.topology.now context.entry.ledger.now lease.master x)) ids.now ≡ false → kinds.Shows more.items kinds.is_leased_out) }
    ensures kept { IfOk result (λ more. (kind : Fact → Bool) → kinds.Shows found.items kind → kinds.Shows more.items kind) }
    ensures holds { IfOk result (λ more. All (facts.Holds context.entry.topology.now context.entry.limits context.entry.ledger.now) more.items) }
{
    let mut more = found;
    for id in ids {
        more = with(context, more, lent(context, lease, *id))?;
    }
    Ok(more)
}

/// Returns the planes that the CRTCs among these ids bring, with universal planes off.
fn brought_along(context: Context<'_>, client: u64, ids: &[u32]) -> ShownList
    ensures { result ≡ kinds.brought context.entry.topology.now context.entry.ledger.now client ids.now }
{
    if context.ledger.has_universal(client) {
        ShownList::new()
    } else {
        context.topology.planes_of(ids)
    }
}

/// Returns whether a lessor, if there is one, is this master.
fn is_lent_by(lessor: Option<u64>, master: u64) -> bool
    ensures { result ≡ is_option master lessor }
{
    match lessor {
        Some(lessor) => lessor == master,
        None => false,
    }
}

/// Adds what a lease of this lessor has of the mode objects that a client names, or of the planes that a named CRTC
/// brings.
fn lent_by(
    context: Context<'_>,
    found: Vec<Fact>,
    client: u64,
    lessor: u64,
    lease: Lease,
    ids: &[u32],
) -> Result<Vec<Fact>, AllocError>
    requires { All (facts.Holds context.topology.now context.limits context.ledger.now) found.items }
    ensures has { IfOk result (λ more. kinds.leaves context.entry.topology.now context.entry.ledger.now lessor (kinds.leased context.entry.topology.now context.entry.ledger.now client ids.now) lease ≡ false → kinds.Shows more.items kinds.is_leased_out) }
    ensures kept { IfOk result (λ more. (kind : Fact → Bool) → kinds.Shows found.items kind → kinds.Shows more.items kind) }
    ensures holds { IfOk result (λ more. All (facts.Holds context.entry.topology.now context.entry.limits context.entry.ledger.now) more.items) }
{
    if !is_lent_by(lease.lessor, lessor) {
        return Ok(found);
    }
    let before = found.len();
    let along = brought_along(context, client, ids);
    let more = lent_of(context, found, lease, ids)?;
    let more = lent_of(context, more, lease, along.ids())?;
    if more.len() == before {
        return Ok(more);
    }
    with(
        context,
        more,
        Some(Fact::Told(Subject::Lease(lease.master))),
    )
}

/// Adds what the direct lessees of a master have of these mode objects.
fn lent_from(
    context: Context<'_>,
    found: Vec<Fact>,
    client: u64,
    lessor: u64,
    ids: &[u32],
) -> Result<Vec<Fact>, AllocError>
    requires { All (facts.Holds context.topology.now context.limits context.ledger.now) found.items }
    ensures has { IfOk result (λ more. list_all (kinds.leaves context.entry.topology.now context.entry.ledger.now lessor (kinds.leased context.entry.topology.now context.entry.ledger.now client ids.now)) (leases_in context.entry.ledger.now) ≡ false → kinds.Shows more.items kinds.is_leased_out) }
    ensures holds { IfOk result (λ more. All (facts.Holds context.entry.topology.now context.entry.limits context.entry.ledger.now) more.items) }
{
    let mut more = found;
    for lease in context.ledger.leases() {
        more = lent_by(context, more, client, lessor, *lease, ids)?;
    }
    Ok(more)
}

/// Returns the direct lessees of a client's master that have a mode object that it names, or a plane that a named CRTC
/// brings.
pub(crate) fn leased_out(
    alloc: Global,
    context: Context<'_>,
    client: u64,
    call: &Call,
) -> Result<Vec<Fact>, AllocError>
    ensures has { IfOk result (λ found. kinds.Reasons context.entry.topology.now context.entry.ledger.now client rules.LeasedOut call.now found.items) }
    ensures holds { IfOk result (λ found. All (facts.Holds context.entry.topology.now context.entry.limits context.entry.ledger.now) found.items) }
{
    let none = Vec::new(alloc);
    let Some(lessor) = context.ledger.master_of(client) else {
        return Ok(none);
    };
    match call {
        Call::CreateLease { ids } => lent_from(context, none, client, lessor, ids.ids()),
        _ => Ok(none),
    }
}

/// Returns the last lease with an id under an owner.
fn lease_under(leases: &[Lease], owner: u64, id: u32) -> Option<Lease>
    ensures { result ≡ lending.lease_of_id leases.now owner id }
{
    leases
        .iter()
        .rev()
        .copied()
        .find(|lease| lease.id == u64::from(id) && lease.owner == owner)
}

/// Returns the last lease with an id under the owner of a client's master.
fn lease_of_id(ledger: &Ledger, client: u64, id: u32) -> Option<Lease>
    ensures { result ≡ lease_meant ledger.now client id }
{
    let owner = ledger.owner_of(ledger.master_of(client)?);
    lease_under(ledger.leases(), owner, id)
}

/// Returns the reason no lessee has an id.
pub(crate) fn no_lessee(
    alloc: Global,
    context: Context<'_>,
    client: u64,
    lessee: u32,
) -> Result<Vec<Fact>, AllocError>
    ensures has { IfOk result (λ found. kinds.Shows found.items kinds.is_lessee) }
    ensures holds { IfOk result (λ found. All (facts.Holds context.entry.topology.now context.entry.limits context.entry.ledger.now) found.items) }
{
    let fact = match lease_of_id(context.ledger, client, lessee) {
        Some(lease) => Fact::Told(Subject::Lease(lease.master)),
        None => Fact::Lease(LeaseFact::NoLessee { client, lessee }),
    };
    only(alloc, context, Some(fact))
}

/// Returns the lessor of a lessee, if it is known.
fn lessor_fact(context: Context<'_>, client: u64, lessee: u32) -> Option<Fact>
    ensures { IfSome result (facts.Holds context.entry.topology.now context.entry.limits context.entry.ledger.now) }
{
    let lease = lease_of_id(context.ledger, client, lessee)?;
    let lessor = lease.lessor?;
    let master = context.ledger.master_of(client)?;
    Some(Fact::Lease(LeaseFact::OtherLessor {
        client,
        lessee,
        lessor,
        master,
    }))
}

/// Returns the lessor of a lessee, and its lease.
pub(crate) fn other_lessee(
    alloc: Global,
    context: Context<'_>,
    client: u64,
    call: &Call,
) -> Result<Vec<Fact>, AllocError>
    ensures has { IfOk result (λ found. kinds.Reasons context.entry.topology.now context.entry.ledger.now client rules.NotYourLessee call.now found.items) }
    ensures holds { IfOk result (λ found. All (facts.Holds context.entry.topology.now context.entry.limits context.entry.ledger.now) found.items) }
{
    let none = Vec::new(alloc);
    let Call::RevokeLease { lessee } = call else {
        return Ok(none);
    };
    let Some(lease) = lease_of_id(context.ledger, client, *lessee) else {
        return Ok(none);
    };
    let found = with(context, none, lessor_fact(context, client, *lessee))?;
    with(
        context,
        found,
        Some(Fact::Told(Subject::Lease(lease.master))),
    )
}

/// Returns the last lease with a token.
fn lease_of_token(ledger: &Ledger, token: u32) -> Option<Lease>
    ensures { result ≡ lending.lease_of_token (leases_in ledger.now) token }
{
    ledger
        .leases()
        .iter()
        .rev()
        .copied()
        .find(|lease| lease.token == u64::from(token))
}

/// Returns the reason a lease token is not open.
pub(crate) fn no_lease_token(
    alloc: Global,
    context: Context<'_>,
    token: u32,
) -> Result<Vec<Fact>, AllocError>
    ensures has { IfOk result (λ found. kinds.Shows found.items kinds.is_token) }
    ensures holds { IfOk result (λ found. All (facts.Holds context.entry.topology.now context.entry.limits context.entry.ledger.now) found.items) }
{
    match lease_of_token(context.ledger, token) {
        Some(lease) => {
            let used = Fact::Lease(LeaseFact::TokenUsed { token });
            let found = only(alloc, context, Some(used))?;
            with(
                context,
                found,
                Some(Fact::Told(Subject::Lease(lease.master))),
            )
        }
        None => only(
            alloc,
            context,
            Some(Fact::Lease(LeaseFact::TokenUnknown { token })),
        ),
    }
}
