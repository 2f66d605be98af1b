//! The calls: which client may make one, and which family carries it out.

ghost use Rattle.std.specs.Prelude.{◌≡◌, true, None, Some, OnOk, IfOk, IfErr};
ghost use Rattle.drm_state.specs.Callers.{IsCaller};
ghost use Rattle.drm_state.specs.Invariants.{MeetsInvariants, StepPrecondition};
ghost use Rattle.drm_table.specs.declared.events.Event.TheVariants.{Ask};
ghost use Rattle.drm_table.specs.Permit.{has_flag, render_allow};
ghost use Rattle.drm_table.specs.Table.{flags_of};
ghost use Rattle.drm_model.specs.Verdict as model;
ghost use Rattle.drm_state.specs.Refinement.{Refines, RefinesCall, IsAdmission};
ghost use Rattle.drm_state.specs.Places.{outcome};

use crate::families::{
    buffer_call, device_call, framebuffer_call, lease_call, master_call, mode_call, share_call,
};
use drm_state::{Caller, Memory, State};
use drm_table::{Answer, Call, Family, Rule, permit};
use std::alloc::AllocError;

/// Answers a request of a client: with the first rule that denies it, or by the call's own function.
pub fn ask(
    state: &mut State,
    step_number: u32,
    memory: Memory,
    client: u32,
    call: &Call,
    answer: &mut Answer,
) -> Result<(), AllocError>
    requires { StepPrecondition state.old step_number }
    ensures refines { Refines state.old step_number (Ask client call.now) (outcome result answer.new) state.new }
    ensures invariants { MeetsInvariants state.new }
{
    match admission(state, client, call) {
        Ok(caller) => carry_out(state, step_number, memory, caller, call, answer),
        Err(rule) => {
            answer.set_denied(rule);
            Ok(())
        }
    }
}

/// Returns the caller, or the first rule that fails of those that apply to every call.
fn admission(state: &State, client: u32, call: &Call) -> Result<Caller, Rule>
    ensures ok { OnOk result (IsAdmission state.now client call.now None) }
    ensures err { IfErr result (λ rule. IsAdmission state.now client call.now (Some rule)) }
    ensures client { IfOk result (λ caller. caller.client ≡ client) }
    ensures caller { IfOk result (λ caller. IsCaller state.now caller) }
    ensures render { IfOk result (λ caller. caller.flags.render ≡ true → has_flag (flags_of call.now) render_allow ≡ true) }
{
    if !is_known(call) {
        return Err(Rule::Unknown);
    }
    if !is_laid_out(call) {
        return Err(Rule::Layout);
    }
    let Some(caller) = Caller::of(state, client) else {
        return Err(Rule::NoClient);
    };
    match permit(call.flags(), caller.credentials()) {
        Some(rule) => Err(rule),
        None => Ok(caller),
    }
}

/// Returns whether a row has the call's number.
fn is_known(call: &Call) -> bool
    ensures { result ≡ model.is_known call.now }
{
    !matches!(call, Call::Unknown(_))
}

/// Returns whether the call's fields are its row's.
fn is_laid_out(call: &Call) -> bool
    ensures { result ≡ model.is_laid_out call.now }
{
    !matches!(call, Call::BadLayout(_))
}

/// Answers a call that is admitted, by its family. A call without a row has none, and is never admitted.
#[tactic(auto, using(drm_state::proofs::Refinements::is_answered))]
fn carry_out(
    state: &mut State,
    step_number: u32,
    memory: Memory,
    caller: Caller,
    call: &Call,
    answer: &mut Answer,
) -> Result<(), AllocError>
    requires precondition { StepPrecondition state.old step_number }
    requires caller { IsCaller state.old caller }
    requires render { caller.flags.render ≡ true → has_flag (flags_of call.now) render_allow ≡ true }
    ensures refines { RefinesCall state.old step_number caller.client call.now (outcome result answer.new) state.new }
    ensures invariants { MeetsInvariants state.new }
{
    match call.family() {
        Some(Family::Device) => device_call(state, step_number, caller.client, call, answer),
        Some(Family::Masters) => master_call(
            state,
            step_number,
            memory,
            caller.primary(),
            call,
            answer,
        ),
        Some(Family::Buffers) => buffer_call(
            state,
            step_number,
            memory,
            caller.client,
            call,
            answer,
        ),
        Some(Family::Sharing) => share_call(
            state,
            step_number,
            memory,
            caller.client,
            call,
            answer,
        ),
        Some(Family::Modes) => mode_call(state, step_number, caller.primary(), call, answer),
        Some(Family::Framebuffers) => framebuffer_call(
            state,
            step_number,
            memory,
            caller.primary(),
            call,
            answer,
        ),
        Some(Family::Leases) => lease_call(
            state,
            step_number,
            memory,
            caller.primary(),
            call,
            answer,
        ),
        None => {
            answer.set_denied(Rule::Unknown);
            Ok(())
        }
    }
}
