//! PRIME tokens and framebuffers that are missing, or another client's.

ghost use Rattle.std.specs.Prelude.{◌≡◌, true, All, IfOk, IfSome, MatchOption};
ghost use Rattle.std.specs.Option.{is_some};
ghost use Rattle.drm_refusals.specs.Facts as facts;
ghost use Rattle.drm_refusals.specs.Kinds as kinds;

use crate::collecting::only;
use crate::context::Context;
use crate::facts::{Fact, PublishedFact};
use crate::withdrawals::withdrawn;
use drm_explanations::at;
use drm_rights::{Key, Ledger, last_publishing};
use std::alloc::{AllocError, Global};

/// Returns the step that published under a key, and the step that withdrew that.
pub(crate) fn publication(ledger: &Ledger, key: Key) -> Option<PublishedFact>
    ensures some { is_some result ≡ true }
    ensures holds { IfSome result (facts.PublishedHolds ledger.now) }
{
    let steps = ledger.steps();
    let Some(published) = last_publishing(steps, key) else {
        return Some(PublishedFact::Never { key });
    };
    let client = published.client;
    let step = published.past as u64 + 1;
    let Some(number) = withdrawn(steps, published, key) else {
        return Some(PublishedFact::Published { key, client, step });
    };
    let by = at(steps, number)?;
    Some(PublishedFact::Withdrawn {
        key,
        client,
        step,
        by,
    })
}

fn publication_fact(context: Context<'_>, key: Key) -> Option<Fact>
    ensures is { MatchOption result ⊥ (λ fact. kinds.is_published fact ≡ true) }
    ensures holds { IfSome result (facts.Holds context.entry.topology.now context.entry.limits context.entry.ledger.now) }
{
    match publication(context.ledger, key) {
        Some(fact) => Some(Fact::Published(fact)),
        None => None,
    }
}

/// Returns the reason a PRIME token is not open, or the client that published it.
pub(crate) fn no_token(
    alloc: Global,
    context: Context<'_>,
    token: u32,
) -> Result<Vec<Fact>, AllocError>
    ensures has { IfOk result (λ found. kinds.Shows found.items kinds.is_published) }
    ensures holds { IfOk result (λ found. All (facts.Holds context.entry.topology.now context.entry.limits context.entry.ledger.now) found.items) }
{
    only(
        alloc,
        context,
        publication_fact(context, Key::Token(u64::from(token))),
    )
}

/// Returns the reason a framebuffer is missing, or the client that created it.
pub(crate) fn framebuffer_fact(context: Context<'_>, framebuffer: u32) -> Option<Fact>
    ensures is { MatchOption result ⊥ (λ fact. kinds.is_published fact ≡ true) }
    ensures holds { IfSome result (facts.Holds context.entry.topology.now context.entry.limits context.entry.ledger.now) }
{
    publication_fact(context, Key::Framebuffer(u64::from(framebuffer)))
}

/// Returns the reason a framebuffer is missing, or the client that created it.
pub(crate) fn no_framebuffer(
    alloc: Global,
    context: Context<'_>,
    framebuffer: u32,
) -> Result<Vec<Fact>, AllocError>
    ensures has { IfOk result (λ found. kinds.Shows found.items kinds.is_published) }
    ensures holds { IfOk result (λ found. All (facts.Holds context.entry.topology.now context.entry.limits context.entry.ledger.now) found.items) }
{
    only(alloc, context, framebuffer_fact(context, framebuffer))
}
