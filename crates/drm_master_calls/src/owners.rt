//! The device's master.

ghost use Rattle.std.specs.Prelude.{◌≡◌, true};
ghost use Rattle.drm_table.specs.declared.calls.Call.TheVariants.{DropMaster, SetMaster};
ghost use Rattle.drm_state.specs.Callers.{IsPrimaryCaller};
ghost use Rattle.drm_state.specs.Invariants.{MeetsInvariants, StepPrecondition};
ghost use Rattle.drm_state.specs.Places.{outcome};
ghost use Rattle.drm_state.specs.Refinement.{RefinesCall, RefinesReply};

use drm_masters::{SetDone, SetFault};
use drm_state::{Memory, PrimaryCaller, State};
use drm_table::Answer;
use std::alloc::AllocError;

/// Makes the caller current (SET_MASTER; drm-uapi). For a current client, nothing changes. For a master, its own master
/// is set again. Any other client gets a new master, which authenticates it. If memory is refused, nothing changes.
pub fn set_master(
    state: &mut State,
    step_number: u32,
    memory: Memory,
    caller: PrimaryCaller,
    answer: &mut Answer,
) -> Result<(), AllocError>
    requires precondition { StepPrecondition state.old step_number }
    requires caller { IsPrimaryCaller state.old caller }
    ensures refines { RefinesCall state.old step_number caller.client SetMaster (outcome result answer.new) state.new }
    ensures invariants { MeetsInvariants state.new }
{
    if memory.is_refused() && state.masters.sets_new(caller.client, caller.flags.root) {
        return Err(AllocError);
    }
    match state
        .masters
        .set(caller.client, caller.flags.root, step_number)
    {
        Ok(SetDone::Made) => {
            state.files.set_authenticated(caller.client);
            state.masters.laws();
            answer.set_done();
            Ok(())
        }
        Ok(SetDone::Already) => {
            answer.set_done();
            Ok(())
        }
        Ok(SetDone::Again) => {
            state.masters.laws();
            answer.set_done();
            Ok(())
        }
        Err(SetFault::Denied(rule)) => {
            answer.set_denied(rule);
            Ok(())
        }
        Err(SetFault::NoMemory) => Err(AllocError),
    }
}

/// Leaves the device without a master (DROP_MASTER; drm(7)). The client keeps its own master. Does not allocate.
pub fn drop_master(state: &mut State, caller: PrimaryCaller, answer: &mut Answer)
    requires invariants { MeetsInvariants state.old }
    requires caller { IsPrimaryCaller state.old caller }
    ensures refines { RefinesReply state.old caller.client DropMaster answer.new state.new }
    ensures invariants { MeetsInvariants state.new }
{
    match state.masters.drop_master(caller.client, caller.flags.root) {
        Ok(()) => {
            state.masters.laws();
            answer.set_done();
        }
        Err(rule) => answer.set_denied(rule),
    }
}
