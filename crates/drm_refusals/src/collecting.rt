//! Lists of facts.

ghost use Rattle.std.specs.Prelude.{◌≡◌, Bool, true, All, IfOk, IfSome};
ghost use Rattle.drm_refusals.specs.Facts as facts;
ghost use Rattle.drm_refusals.specs.Kinds.{Shows};
ghost use Rattle.drm_refusals.specs.declared.facts.Fact.{Fact};

use crate::context::Context;
use crate::facts::Fact;
use std::alloc::{AllocError, Global};

/// Returns the list with one more fact, if there is one.
pub(crate) fn with(
    context: Context<'_>,
    found: Vec<Fact>,
    fact: Option<Fact>,
) -> Result<Vec<Fact>, AllocError>
    requires found { All (facts.Holds context.topology.now context.limits context.ledger.now) found.items }
    requires fact { IfSome fact (facts.Holds context.topology.now context.limits context.ledger.now) }
    ensures kept { IfOk result (λ more. (kind : Fact → Bool) → Shows found.items kind → Shows more.items kind) }
    ensures has { IfOk result (λ more. IfSome fact (λ new. (kind : Fact → Bool) → kind new ≡ true → Shows more.items kind)) }
    ensures holds { IfOk result (λ more. All (facts.Holds context.entry.topology.now context.entry.limits context.entry.ledger.now) more.items) }
{
    let mut found = found;
    match fact {
        Some(fact) => {
            found.push(fact)?;
            Ok(found)
        }
        None => Ok(found),
    }
}

/// Returns the list of one fact, if there is one.
pub(crate) fn only(
    alloc: Global,
    context: Context<'_>,
    fact: Option<Fact>,
) -> Result<Vec<Fact>, AllocError>
    requires { IfSome fact (facts.Holds context.topology.now context.limits context.ledger.now) }
    ensures has { IfOk result (λ found. IfSome fact (λ new. (kind : Fact → Bool) → kind new ≡ true → Shows found.items kind)) }
    ensures holds { IfOk result (λ found. All (facts.Holds context.entry.topology.now context.entry.limits context.entry.ledger.now) found.items) }
{
    with(context, Vec::new(alloc), fact)
}
