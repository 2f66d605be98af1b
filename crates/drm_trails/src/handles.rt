//! The handles of a client, each with the step that assigned it.

ghost use Rattle.std.specs.Prelude.{◌≡◌, ◌<◌, ℕ, None, AllPairs, IfOk, OnOk, map, if◌then◌else◌};
ghost use Rattle.std.specs.BTreeMap.{IsOrdered, get};
ghost use Rattle.std.specs.Option.{is_some};
ghost use Rattle.std.specs.Ordering.{nat_cmp};
ghost use Rattle.drm_model.specs.Rows.{is_option};
ghost use Rattle.drm_trails.specs.Handles.{held_of, is_given_at, is_held_since, is_taken, since_after};
ghost use Rattle.drm_trails.specs.Searches.{last_gift, source_for};
ghost use Rattle.drm_trails.specs.Steps.{entry_of, givings_of, history_of};

use crate::steps::{Giving, Step, Taken};
use std::alloc::{AllocError, Global};
use std::collections::BTreeMap;

/// A handle, and the number of the step that assigned it (own).
///
/// # Examples
///
/// ```rust
/// use drm_trails::Held;
///
/// let held = Held { handle: 1, step: 2 };
/// assert!(rt; held.handle == 1);
/// ```
#[derive(Clone, Copy, PartialEq, Debug)]
pub struct Held {
    /// The handle.
    pub handle: u64,
    /// The number of the step, from 1.
    pub step: u64,
}

/// Returns the handle that is assigned to this client, or `None`.
fn handle_of(given: Option<Giving>, client: u64) -> Option<u64>
    ensures { (h : ℕ) → is_option h result ≡ is_some (source_for client h (givings_of given)) }
{
    let giving = given?;
    if giving.client == client {
        return Some(giving.handle);
    }
    None
}

/// Removes the handles that a step takes from a client.
fn take_back(held: &mut BTreeMap<u64, u64>, taken: Taken)
    ensures { (h : ℕ) → get nat_cmp held.new h ≡ (if is_taken h taken then None else get nat_cmp held.old h) }
{
    match taken {
        Taken::Nothing => {}
        Taken::One(handle) => {
            held.remove(&handle);
        }
        Taken::All => held.clear(),
    }
}

/// Applies a step with this number to a client's handles.
fn note_step(
    held: &mut BTreeMap<u64, u64>,
    step: &Step,
    number: u64,
    client: u64,
) -> Result<(), AllocError>
    ensures { OnOk result ((h : ℕ) → get nat_cmp held.new h ≡ since_after (entry_of step.now) number client h (get nat_cmp held.old h)) }
{
    take_back(held, step.taken_from(client));
    if let Some(handle) = handle_of(step.given(), client) {
        held.insert(handle, number)?;
    }
    Ok(())
}

/// Returns the handles in rising order.
fn listed(alloc: Global, held: &BTreeMap<u64, u64>) -> Result<Vec<Held>, AllocError>
    ensures entries { IfOk result (λ list. list.items ≡ map held_of held.now.entries) }
    ensures ordered { IsOrdered nat_cmp held.now }
{
    held.iter()
        .map(|(handle, step)| Held {
            handle: *handle,
            step: *step,
        })
        .collect(alloc)
}

/// Returns the client's handles after these steps, in rising order.
///
/// Each handle occurs once, with the last step that assigned it. A handle that a later step took is left out.
/// Allocates the list.
///
/// # Errors
///
/// `AllocError` if memory is refused.
pub fn handles_of(alloc: Global, steps: &[Step], client: u64) -> Result<Vec<Held>, AllocError>
    ensures held { IfOk result (λ held. (h s : ℕ) → is_held_since held.items h s ≡ is_given_at (last_gift (history_of steps.now) client h) s) }
    ensures rising { IfOk result (λ held. AllPairs (λ one other. one.handle < other.handle) held.items) }
{
    let mut held = BTreeMap::new(alloc);
    let mut number = 0;
    for step in steps {
        number += 1;
        note_step(&mut held, step, number, client)?;
    }
    listed(alloc, &held)
}
