//! Handles and names that are missing.

ghost use Rattle.std.specs.Prelude.{◌≡◌, true, All, IfOk, IfSome};
ghost use Rattle.std.specs.Option.{is_some};
ghost use Rattle.drm_refusals.specs.Facts as facts;
ghost use Rattle.drm_refusals.specs.Kinds as kinds;

use crate::collecting::{only, with};
use crate::context::Context;
use crate::facts::{Fact, HandleFact, PublishedFact};
use crate::publications::publication;
use crate::searching::{Search, last};
use drm_explanations::at;
use drm_rights::{Key, Ledger, Step, Trail, handles_of, last_publishing};
use drm_table::{Answer, Call, Event};
use std::alloc::{AllocError, Global};

/// Returns the handle that a call names.
fn handle_in(call: &Call) -> Option<u32> {
    match call {
        Call::GemClose { handle } => Some(*handle),
        Call::GemFlink { handle } => Some(*handle),
        Call::PrimeHandleToFd { handle } => Some(*handle),
        Call::StampWrite { handle, .. } => Some(*handle),
        Call::StampRead { handle } => Some(*handle),
        Call::AddFb { handle, .. } => Some(*handle),
        Call::DestroyDumb { handle } => Some(*handle),
        _ => None,
    }
}

/// Returns the reason a client does not hold a handle.
fn lacked(ledger: &Ledger, client: u64, handle: u32) -> Option<HandleFact>
    ensures { IfSome result (facts.HandleHolds ledger.now) }
{
    let steps = ledger.steps();
    let number = u64::from(handle);
    let given = last(
        steps,
        Search::Gives {
            client,
            handle: number,
        },
    );
    let Some(given) = given else {
        return Some(HandleFact::NeverGiven { client, handle });
    };
    let taken = last(
        steps,
        Search::Takes {
            client,
            handle: number,
        },
    )?;
    if taken < given {
        return None;
    }
    let by = at(steps, taken)?;
    Some(HandleFact::GaveBack { client, handle, by })
}

/// Returns the reason a client does not hold the handle of a call.
fn missing(context: Context<'_>, client: u64, call: &Call) -> Option<Fact>
    ensures { IfSome result (facts.Holds context.entry.topology.now context.entry.limits context.entry.ledger.now) }
{
    match lacked(context.ledger, client, handle_in(call)?) {
        Some(fact) => Some(Fact::Handle(fact)),
        None => None,
    }
}

/// Returns the reason a client does not hold the handle of a call, and the handles that it holds.
pub(crate) fn no_handle(
    alloc: Global,
    context: Context<'_>,
    client: u64,
    call: &Call,
) -> Result<Vec<Fact>, AllocError>
    ensures has { IfOk result (λ found. kinds.Shows found.items kinds.is_held) }
    ensures holds { IfOk result (λ found. All (facts.Holds context.entry.topology.now context.entry.limits context.entry.ledger.now) found.items) }
{
    let found = only(alloc, context, missing(context, client, call))?;
    let held = handles_of(alloc, context.ledger.steps(), client)?;
    let held = Fact::Handle(HandleFact::Holds { client, held });
    with(context, found, Some(held))
}

/// Returns whether a step closed a handle of an object, after the first `before` steps.
fn gives_back(
    alloc: Global,
    trail: &Trail,
    before: usize,
    step: &Step,
    object: u64,
) -> Result<bool, AllocError> {
    match (&step.event, &step.answer) {
        (Event::Ask(client, Call::GemClose { handle }), Answer::Done)
        | (Event::Ask(client, Call::DestroyDumb { handle }), Answer::Done) => {
            let of = trail.object_of(before, u64::from(*client), u64::from(*handle));
            Ok(of == Some(object))
        }
        (Event::Close(client), Answer::Closed) => {
            let client = u64::from(*client);
            let steps = trail.steps();
            for held in &handles_of(alloc, steps.get(..before).unwrap_or(steps), client)? {
                if trail.object_of(before, client, held.handle) == Some(object) {
                    return Ok(true);
                }
            }
            Ok(false)
        }
        _ => Ok(false),
    }
}

/// Returns the last step that closed a handle of an object.
fn last_giving_back(alloc: Global, trail: &Trail, object: u64) -> Result<Option<u64>, AllocError> {
    let steps = trail.steps();
    let mut before = steps.len();
    for step in steps.iter().rev() {
        before = before.saturating_sub(1);
        if gives_back(alloc, trail, before, step, object)? {
            return Ok(Some(before as u64 + 1));
        }
    }
    Ok(None)
}

/// Returns the reason no object has a name.
fn unnamed(alloc: Global, ledger: &Ledger, name: u32) -> Result<Option<PublishedFact>, AllocError>
    ensures some { IfOk result (λ fact. is_some fact ≡ true) }
    ensures holds { IfOk result (λ fact. IfSome fact (facts.PublishedHolds ledger.now)) }
{
    let trail = ledger.trail();
    let steps = trail.steps();
    let key = Key::Name(u64::from(name));
    let Some(named) = last_publishing(steps, key) else {
        return Ok(Some(PublishedFact::Never { key }));
    };
    let Some(buffer) = trail.object_of(named.past, named.client, named.handle) else {
        return Ok(publication(ledger, key));
    };
    let last = last_giving_back(alloc, trail, buffer)?.and_then(|number| at(steps, number));
    Ok(Some(PublishedFact::Named {
        name,
        buffer,
        client: named.client,
        step: named.past as u64 + 1,
        last,
    }))
}

/// Returns the reason no object has a name.
pub(crate) fn no_name(
    alloc: Global,
    context: Context<'_>,
    name: u32,
) -> Result<Vec<Fact>, AllocError>
    ensures has { IfOk result (λ found. kinds.Shows found.items kinds.is_published) }
    ensures holds { IfOk result (λ found. All (facts.Holds context.entry.topology.now context.entry.limits context.entry.ledger.now) found.items) }
{
    match unnamed(alloc, context.ledger, name)? {
        Some(fact) => only(alloc, context, Some(Fact::Published(fact))),
        None => Ok(Vec::new(alloc)),
    }
}
