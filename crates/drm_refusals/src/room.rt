//! Limits that are reached.

ghost use Rattle.std.specs.Prelude.{All, IfOk, IfSome};
ghost use Rattle.drm_refusals.specs.Facts as facts;
ghost use Rattle.drm_refusals.specs.Kinds as kinds;

use crate::collecting::only;
use crate::context::Context;
use crate::facts::{Fact, LimitFact};
use drm_rights::{Step, handles_of};
use drm_table::{Answer, Call};
use std::alloc::{AllocError, Global};

/// Returns the number of clients that are open after these steps.
fn open_clients(steps: &[Step]) -> u64 {
    let mut count: u64 = 0;
    for step in steps {
        match &step.answer {
            Answer::Opened { .. } => count = count.saturating_add(1),
            Answer::Closed => count = count.saturating_sub(1),
            _ => {}
        }
    }
    count
}

/// Returns that the limit of open clients is reached.
pub(crate) fn full_of_clients(alloc: Global, context: Context<'_>) -> Result<Vec<Fact>, AllocError>
    ensures has { IfOk result (λ found. kinds.Shows found.items kinds.is_client_limit) }
    ensures holds { IfOk result (λ found. All (facts.Holds context.entry.topology.now context.entry.limits context.entry.ledger.now) found.items) }
{
    let count = open_clients(context.ledger.steps());
    let most = context.limits.clients;
    only(
        alloc,
        context,
        Some(Fact::Limit(LimitFact::Clients { count, most })),
    )
}

/// Returns that the limit of a client's handles is reached, or that of objects.
fn full_of_handles(
    alloc: Global,
    context: Context<'_>,
    client: u64,
) -> Result<LimitFact, AllocError>
    ensures { IfOk result (facts.LimitHolds context.entry.limits context.entry.ledger.now) }
{
    let count = handles_of(alloc, context.ledger.steps(), client)?.len() as u64;
    let most = context.limits.handles;
    if count >= u64::from(most) {
        return Ok(LimitFact::Handles {
            client,
            count,
            most,
        });
    }
    Ok(LimitFact::Objects {
        most: context.limits.objects,
    })
}

/// Returns the limit that a call has reached.
fn limit_of(
    alloc: Global,
    context: Context<'_>,
    client: u64,
    call: &Call,
) -> Result<LimitFact, AllocError>
    ensures { IfOk result (facts.LimitHolds context.entry.limits context.entry.ledger.now) }
{
    let limits = context.limits;
    match call {
        Call::GemFlink { .. } => Ok(LimitFact::Names { most: limits.names }),
        Call::PrimeHandleToFd { .. } => Ok(LimitFact::Tokens {
            most: limits.tokens,
        }),
        Call::AddFb { .. } => Ok(LimitFact::Framebuffers {
            most: limits.framebuffers,
        }),
        Call::CreateLease { .. } => Ok(LimitFact::Leases {
            lessees: limits.lessees,
            tokens: limits.tokens,
        }),
        _ => full_of_handles(alloc, context, client),
    }
}

/// Returns the limit that a call has reached.
pub(crate) fn full(
    alloc: Global,
    context: Context<'_>,
    client: u64,
    call: &Call,
) -> Result<Vec<Fact>, AllocError>
    ensures has { IfOk result (λ found. kinds.Shows found.items kinds.is_limit) }
    ensures holds { IfOk result (λ found. All (facts.Holds context.entry.topology.now context.entry.limits context.entry.ledger.now) found.items) }
{
    let limit = limit_of(alloc, context, client, call)?;
    only(alloc, context, Some(Fact::Limit(limit)))
}

/// Returns the number of steps in the journal, and its limit.
pub(crate) fn full_journal(alloc: Global, context: Context<'_>) -> Result<Vec<Fact>, AllocError>
    ensures { IfOk result (λ found. All (facts.Holds context.entry.topology.now context.entry.limits context.entry.ledger.now) found.items) }
{
    let steps = context.ledger.steps();
    let journal = LimitFact::Journal {
        used: steps.len() as u64,
        most: context.limits.journal,
        clients: open_clients(steps),
    };
    only(alloc, context, Some(Fact::Limit(journal)))
}
