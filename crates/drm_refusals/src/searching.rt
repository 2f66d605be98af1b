//! The last step that changed a client or its handle.

ghost use Rattle.std.specs.Prelude.{◌≡◌};
ghost use Rattle.drm_trails.specs.Passing.{last_step};
ghost use Rattle.drm_trails.specs.Steps.{entry_of, history_of};
ghost use Rattle.drm_refusals.specs.Searches as specs;

use drm_rights::Step;
use drm_table::{Answer, Event};

/// The step that is searched for.
#[derive(Clone, Copy)]
pub(crate) enum Search {
    /// It assigned the client the handle.
    Gives { client: u64, handle: u64 },
    /// It took the handle from the client.
    Takes { client: u64, handle: u64 },
    /// It opened the client.
    Opens { client: u64 },
}

/// Returns whether a step assigned the client the handle.
fn gives(step: &Step, client: u64, handle: u64) -> bool
    ensures { result ≡ specs.gives client handle (entry_of step.now) }
{
    match step.given() {
        Some(giving) => giving.client == client && giving.handle == handle,
        None => false,
    }
}

/// Returns whether a step opened the client.
fn opens(step: &Step, client: u64) -> bool
    ensures { result ≡ specs.opens client (entry_of step.now) }
{
    match (&step.event, &step.answer) {
        (Event::Open(_), Answer::Opened { client: opened }) => u64::from(*opened) == client,
        _ => false,
    }
}

/// Returns whether a step is one that is searched for.
fn passes(search: Search, step: &Step) -> bool
    ensures { result ≡ specs.passes search (entry_of step.now) }
{
    match search {
        Search::Gives { client, handle } => gives(step, client, handle),
        Search::Takes { client, handle } => step.takes(client, handle),
        Search::Opens { client } => opens(step, client),
    }
}

/// Returns the number of the last step that is searched for.
pub(crate) fn last(steps: &[Step], search: Search) -> Option<u64>
    ensures { result ≡ last_step (specs.passes search) (history_of steps.now) }
{
    let mut last = None;
    for (place, step) in steps.iter().enumerate() {
        if passes(search, step) {
            last = Some(place as u64 + 1);
        }
    }
    last
}
