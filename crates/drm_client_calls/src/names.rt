//! Global names.

ghost use Rattle.std.specs.Prelude.{◌≡◌, true};
ghost use Rattle.drm_files.specs.Files.{is_open_client};
ghost use Rattle.drm_table.specs.declared.calls.Call.TheVariants.{GemFlink, GemOpen};
ghost use Rattle.drm_state.specs.Invariants.{MeetsInvariants, StepPrecondition};
ghost use Rattle.drm_state.specs.Places.{outcome};
ghost use Rattle.drm_state.specs.Refinement.{RefinesCall};

use drm_share::ShareFault;
use drm_state::{Memory, State, new_handle};
use drm_table::{Answer, Rule};
use std::alloc::AllocError;

/// Returns the global name of the object of a handle (GEM_FLINK; drm-gem(7)). An object without a name gets the lowest
/// free one. If memory is refused, nothing changes.
pub fn gem_flink(
    state: &mut State,
    step_number: u32,
    memory: Memory,
    client: u32,
    handle: u32,
    answer: &mut Answer,
) -> Result<(), AllocError>
    requires precondition { StepPrecondition state.old step_number }
    requires open_client { is_open_client state.old.files client ≡ true }
    ensures refines { RefinesCall state.old step_number client (GemFlink handle) (outcome result answer.new) state.new }
    ensures invariants { MeetsInvariants state.new }
{
    let Some(object) = state.files.object_of(client, handle) else {
        answer.set_denied(Rule::NoHandle);
        return Ok(());
    };
    if let Some(name) = state.names.name_of(object) {
        answer.set_number(name as u64);
        return Ok(());
    }
    if memory.is_refused() && !state.names.is_full() {
        return Err(AllocError);
    }
    let given = match state.names.give(object) {
        Ok(given) => given,
        Err(ShareFault::Full) => {
            answer.set_denied(Rule::Full);
            return Ok(());
        }
        Err(ShareFault::NoMemory) => return Err(AllocError),
    };
    answer.set_number(given as u64);
    Ok(())
}

/// Creates a handle of the object that has a global name (GEM_OPEN; drm-gem(7)). If memory is refused, nothing changes.
pub fn gem_open(
    state: &mut State,
    step_number: u32,
    memory: Memory,
    client: u32,
    name: u32,
    answer: &mut Answer,
) -> Result<(), AllocError>
    requires precondition { StepPrecondition state.old step_number }
    requires open_client { is_open_client state.old.files client ≡ true }
    ensures refines { RefinesCall state.old step_number client (GemOpen name) (outcome result answer.new) state.new }
    ensures invariants { MeetsInvariants state.new }
{
    let Some(object) = state.names.lookup(name) else {
        answer.set_denied(Rule::NoName);
        return Ok(());
    };
    let size = state.objects.size(object);
    let Some(handle) = new_handle(state, step_number, memory, client, object, None)? else {
        answer.set_denied(Rule::Full);
        return Ok(());
    };
    answer.set_buffer(handle, size);
    Ok(())
}
