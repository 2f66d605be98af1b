//! The facts that explain a denial.

ghost use Rattle.std.specs.Prelude.{◌≡◌, Bool, true, false, All, IfNone, IfOk, IfSome, MatchOption, Some};
ghost use Rattle.std.specs.List.{AllByRecursion};
ghost use Rattle.std.specs.Option.{option_map};
ghost use Rattle.drm_table.specs.declared.events.Event.TheVariants as events;
ghost use Rattle.drm_table.specs.declared.rules.Rule.TheVariants as rules;
ghost use Rattle.drm_refusals.specs.declared.facts.Fact.{Fact};
ghost use Rattle.drm_refusals.specs.declared.facts.Fact.TheVariants as variants;
ghost use Rattle.drm_history.specs.Magics.{magic_in};
ghost use Rattle.drm_refusals.specs.Facts as facts;
ghost use Rattle.drm_refusals.specs.Kinds as kinds;

use crate::buffers::{no_handle, no_name};
use crate::collecting::{only, with};
use crate::context::Context;
use crate::facts::{ClientFact, Fact, MagicFact, RequestFact};
use crate::leasing::{
    bad_shape, leased_out, no_lease_token, no_lessee, not_leasable, other_lessee, repeated,
};
use crate::publications::{no_framebuffer, no_token};
use crate::room::{full, full_of_clients};
use crate::screens::{bad_route, no_mode_object};
use crate::searching::{Search, last};
use crate::sizes::{bad_cap, bad_size};
use drm_explanations::{Subject, closed_at};
use drm_rights::Ledger;
use drm_table::{Call, CallKind, Event, Opening, Rule};
use std::alloc::{AllocError, Global};

/// Returns the reason a client is not open.
fn closed_or_never(ledger: &Ledger, client: u64) -> Option<ClientFact>
    ensures open { IfNone result (kinds.is_open ledger.now client ≡ true) }
    ensures holds { IfSome result (facts.ClientHolds ledger.now) }
{
    let steps = ledger.steps();
    if let Some(step) = closed_at(steps, client) {
        return Some(ClientFact::Closed { client, step });
    }
    match last(steps, Search::Opens { client }) {
        Some(_) => None,
        None => Some(ClientFact::NeverOpened { client }),
    }
}

/// Returns the reason the caller is not open.
fn absent(context: Context<'_>, client: u64) -> Option<Fact>
    ensures open { MatchOption result (kinds.is_open context.entry.ledger.now client ≡ true) (λ fact. kinds.is_absence fact ≡ true) }
    ensures holds { IfSome result (facts.Holds context.entry.topology.now context.entry.limits context.entry.ledger.now) }
{
    if client == 0 {
        return Some(Fact::Request(RequestFact::NoCaller));
    }
    match closed_or_never(context.ledger, client) {
        Some(fact) => Some(Fact::Client(fact)),
        None => None,
    }
}

/// Returns the number or the layout that no call has.
fn unknown(call: &Call) -> RequestFact
    ensures is { kinds.is_number (variants.Request result) ≡ true }
    ensures holds { facts.RequestHolds result }
{
    let number = call.number();
    match CallKind::of_number(number) {
        Some(kind) => RequestFact::OtherFields { number, kind },
        None => RequestFact::NoCall { number },
    }
}

/// Returns the client that spent a magic of a client, or that the magic is no longer that client's.
fn spent(ledger: &Ledger, master: u64, magic: u32, client: u64) -> MagicFact
    requires { magic_in ledger.now master magic ≡ Some client }
    ensures { facts.MagicHolds ledger.now result }
{
    if let Some(step) = closed_at(ledger.steps(), client) {
        return MagicFact::OfClosed {
            master,
            magic,
            client,
            step,
        };
    }
    match ledger.authentication(client) {
        Some(told) if told.magic == u64::from(magic) => MagicFact::Spent {
            magic,
            client,
            by: told.by,
            step: told.step,
        },
        _ => MagicFact::Lost {
            master,
            magic,
            client,
        },
    }
}

/// Returns the reason no client of the caller's master has an unspent magic.
fn no_magic(ledger: &Ledger, client: u64, magic: u32) -> MagicFact
    ensures { facts.MagicHolds ledger.now result }
{
    let master = ledger.master_of(client).unwrap_or(0);
    match ledger.client_of(master, u64::from(magic)) {
        Some(holder) => spent(ledger, master, magic, holder),
        None => MagicFact::Unknown { master, magic },
    }
}

/// Returns the fact of a call's magic.
fn by_magic(
    alloc: Global,
    context: Context<'_>,
    client: u64,
    call: &Call,
) -> Result<Vec<Fact>, AllocError>
    ensures has { IfOk result (λ found. AllByRecursion (kinds.Shows found.items) (kinds.kinds rules.NoMagic call.now)) }
    ensures holds { IfOk result (λ found. All (facts.Holds context.entry.topology.now context.entry.limits context.entry.ledger.now) found.items) }
{
    match call {
        Call::AuthMagic { magic } => only(
            alloc,
            context,
            Some(Fact::Magic(no_magic(context.ledger, client, *magic))),
        ),
        _ => Ok(Vec::new(alloc)),
    }
}

/// Returns the reason the framebuffer of a call is missing.
fn by_framebuffer(alloc: Global, context: Context<'_>, call: &Call) -> Result<Vec<Fact>, AllocError>
    ensures has { IfOk result (λ found. AllByRecursion (kinds.Shows found.items) (kinds.kinds rules.NoFb call.now)) }
    ensures holds { IfOk result (λ found. All (facts.Holds context.entry.topology.now context.entry.limits context.entry.ledger.now) found.items) }
{
    match call {
        Call::SetCrtc { framebuffer, .. } => no_framebuffer(alloc, context, *framebuffer),
        Call::SetPlane { framebuffer, .. } => no_framebuffer(alloc, context, *framebuffer),
        Call::GetFb { framebuffer } => no_framebuffer(alloc, context, *framebuffer),
        Call::RmFb { framebuffer } => no_framebuffer(alloc, context, *framebuffer),
        _ => Ok(Vec::new(alloc)),
    }
}

/// Returns the lease of a client's master as a subject.
fn own_lease(ledger: &Ledger, client: u64) -> Option<Subject> {
    let master = ledger.master_of(client)?;
    Some(Subject::Lease(master))
}

/// Returns the reason the caller is not open.
fn no_client(alloc: Global, context: Context<'_>, client: u64) -> Result<Vec<Fact>, AllocError>
    ensures has { IfOk result (λ found. kinds.is_open context.entry.ledger.now client ≡ false → kinds.Shows found.items kinds.is_absence) }
    ensures holds { IfOk result (λ found. All (facts.Holds context.entry.topology.now context.entry.limits context.entry.ledger.now) found.items) }
{
    match absent(context, client) {
        Some(fact) => only(alloc, context, Some(fact)),
        None => Ok(Vec::new(alloc)),
    }
}

/// Returns the line of the explanation about a subject, if there is one.
fn line(context: Context<'_>, subject: Option<Subject>) -> Option<Fact>
    ensures is { result ≡ option_map variants.Told subject }
    ensures holds { IfSome result (facts.Holds context.entry.topology.now context.entry.limits context.entry.ledger.now) }
{
    match subject {
        Some(subject) => Some(Fact::Told(subject)),
        None => None,
    }
}

/// Returns the lines of the explanation about these subjects.
fn told(
    alloc: Global,
    context: Context<'_>,
    first: Subject,
    second: Option<Subject>,
    third: Option<Subject>,
) -> Result<Vec<Fact>, AllocError>
    ensures first { IfOk result (λ found. (kind : Fact → Bool) → kind (variants.Told first) ≡ true → kinds.Shows found.items kind) }
    ensures second { IfOk result (λ found. IfSome second (λ subject. (kind : Fact → Bool) → kind (variants.Told subject) ≡ true → kinds.Shows found.items kind)) }
    ensures third { IfOk result (λ found. IfSome third (λ subject. (kind : Fact → Bool) → kind (variants.Told subject) ≡ true → kinds.Shows found.items kind)) }
    ensures holds { IfOk result (λ found. All (facts.Holds context.entry.topology.now context.entry.limits context.entry.ledger.now) found.items) }
{
    let found = only(alloc, context, Some(Fact::Told(first)))?;
    let found = with(context, found, line(context, second))?;
    with(context, found, line(context, third))
}

/// Returns the reason no lessee has the id of a call.
fn by_lessee(
    alloc: Global,
    context: Context<'_>,
    client: u64,
    call: &Call,
) -> Result<Vec<Fact>, AllocError>
    ensures has { IfOk result (λ found. AllByRecursion (kinds.Shows found.items) (kinds.kinds rules.NoLessee call.now)) }
    ensures holds { IfOk result (λ found. All (facts.Holds context.entry.topology.now context.entry.limits context.entry.ledger.now) found.items) }
{
    match call {
        Call::RevokeLease { lessee } => no_lessee(alloc, context, client, *lessee),
        _ => Ok(Vec::new(alloc)),
    }
}

/// Returns the reason no object has the name of a call.
fn by_name(alloc: Global, context: Context<'_>, call: &Call) -> Result<Vec<Fact>, AllocError>
    ensures has { IfOk result (λ found. AllByRecursion (kinds.Shows found.items) (kinds.kinds rules.NoName call.now)) }
    ensures holds { IfOk result (λ found. All (facts.Holds context.entry.topology.now context.entry.limits context.entry.ledger.now) found.items) }
{
    match call {
        Call::GemOpen { name } => no_name(alloc, context, *name),
        _ => Ok(Vec::new(alloc)),
    }
}

/// Returns the reason the token of a call is not open, or the client that published it.
fn by_token(alloc: Global, context: Context<'_>, call: &Call) -> Result<Vec<Fact>, AllocError>
    ensures has { IfOk result (λ found. AllByRecursion (kinds.Shows found.items) (kinds.kinds rules.NoToken call.now)) }
    ensures holds { IfOk result (λ found. All (facts.Holds context.entry.topology.now context.entry.limits context.entry.ledger.now) found.items) }
{
    match call {
        Call::PrimeFdToHandle { token } => no_token(alloc, context, *token),
        Call::TokenClose { token } => no_token(alloc, context, *token),
        _ => Ok(Vec::new(alloc)),
    }
}

/// Returns what is wrong with the number or the fields of a call.
fn by_number(alloc: Global, context: Context<'_>, call: &Call) -> Result<Vec<Fact>, AllocError>
    ensures has { IfOk result (λ found. kinds.Shows found.items kinds.is_number) }
    ensures holds { IfOk result (λ found. All (facts.Holds context.entry.topology.now context.entry.limits context.entry.ledger.now) found.items) }
{
    only(alloc, context, Some(Fact::Request(unknown(call))))
}

/// Returns the facts that explain the denial of a call.
fn by_call(
    alloc: Global,
    context: Context<'_>,
    client: u64,
    call: &Call,
    rule: Rule,
) -> Result<Vec<Fact>, AllocError>
    ensures has { IfOk result (λ found. kinds.HasKinds context.entry.topology.now context.entry.ledger.now (events.Ask client call.now) rule found.items) }
    ensures holds { IfOk result (λ found. All (facts.Holds context.entry.topology.now context.entry.limits context.entry.ledger.now) found.items) }
{
    let current = Subject::Current(client);
    let master = Subject::Master(client);
    let device = Some(Subject::Device);
    match rule {
        Rule::Unknown => by_number(alloc, context, call),
        Rule::Layout => by_number(alloc, context, call),
        Rule::NoClient => no_client(alloc, context, client),
        Rule::RootOnly => told(alloc, context, Subject::Client(client), None, None),
        Rule::Auth => told(alloc, context, Subject::Authentication(client), None, None),
        Rule::Master => told(alloc, context, current, Some(master), device),
        Rule::RenderAllow => told(alloc, context, Subject::Client(client), None, None),
        Rule::NoHandle => no_handle(alloc, context, client, call),
        Rule::NoHandleToClose => no_handle(alloc, context, client, call),
        Rule::NoName => by_name(alloc, context, call),
        Rule::NoToken => by_token(alloc, context, call),
        Rule::NoMagic => by_magic(alloc, context, client, call),
        Rule::MasterPerm => told(alloc, context, Subject::Client(client), Some(master), None),
        Rule::MasterBusy => told(alloc, context, current, device, None),
        Rule::NotCurrent => told(alloc, context, current, Some(master), device),
        Rule::IsLessee => told(
            alloc,
            context,
            master,
            own_lease(context.ledger, client),
            None,
        ),
        Rule::NoModeObject => no_mode_object(alloc, context, client, call),
        Rule::SubLease => told(
            alloc,
            context,
            master,
            own_lease(context.ledger, client),
            None,
        ),
        Rule::NoLessee => by_lessee(alloc, context, client, call),
        Rule::NoFb => by_framebuffer(alloc, context, call),
        Rule::BadSize => bad_size(alloc, context, client, call),
        Rule::BadRoute => bad_route(alloc, context, client, call),
        Rule::BadCap => bad_cap(alloc, context, call),
        Rule::Full => full(alloc, context, client, call),
        Rule::NoLeaseToken => Ok(Vec::new(alloc)),
        Rule::NotLeasable => not_leasable(alloc, context, client, call),
        Rule::Repeated => repeated(alloc, context, client, call),
        Rule::LeaseShape => bad_shape(alloc, context, client, call),
        Rule::LeasedOut => leased_out(alloc, context, client, call),
        Rule::NotYourLessee => other_lessee(alloc, context, client, call),
    }
}

/// Returns the facts that explain the denial of an opening.
fn by_opening(
    alloc: Global,
    context: Context<'_>,
    opening: &Opening,
    rule: Rule,
) -> Result<Vec<Fact>, AllocError>
    ensures has { IfOk result (λ found. kinds.HasKinds context.entry.topology.now context.entry.ledger.now (events.Open opening.now) rule found.items) }
    ensures holds { IfOk result (λ found. All (facts.Holds context.entry.topology.now context.entry.limits context.entry.ledger.now) found.items) }
{
    match rule {
        Rule::NoLeaseToken => match opening {
            Opening::Lease { token, .. } => no_lease_token(alloc, context, *token),
            _ => Ok(Vec::new(alloc)),
        },
        Rule::Full => full_of_clients(alloc, context),
        _ => Ok(Vec::new(alloc)),
    }
}

/// Returns the facts that explain a denial.
pub(crate) fn reasons(
    alloc: Global,
    context: Context<'_>,
    event: &Event,
    rule: Rule,
) -> Result<Vec<Fact>, AllocError>
    ensures has { IfOk result (λ found. kinds.HasKinds context.entry.topology.now context.entry.ledger.now event.now rule found.items) }
    ensures holds { IfOk result (λ found. All (facts.Holds context.entry.topology.now context.entry.limits context.entry.ledger.now) found.items) }
{
    match event {
        Event::Open(opening) => by_opening(alloc, context, opening, rule),
        Event::Ask(client, call) => by_call(alloc, context, u64::from(*client), call, rule),
        Event::Close(client) => no_client(alloc, context, u64::from(*client)),
    }
}
