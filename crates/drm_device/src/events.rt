//! One event, by its kind.

ghost use Rattle.drm_state.specs.Invariants.{MeetsInvariants, StepPrecondition};
ghost use Rattle.std.specs.Prelude.{◌≡◌, Ok, Err, OnOk, IfOk, IfErr, IsOk};
ghost use Rattle.drm_state.specs.Places.{outcome};
ghost use Rattle.drm_state.specs.Refinement.{Refines};
ghost use Rattle.drm_table.specs.declared.answers.Answer.TheVariants.{Done};

use crate::calls::ask;
use drm_client_calls::{close, open};
use drm_state::{Memory, State};
use drm_table::{Answer, Apart, Event};
use std::alloc::AllocError;

/// Answers an event for which the journal has room. If memory is refused, nothing changes.
#[tactic(auto, using(drm_state::proofs::Refinements::is_done))]
pub fn advance(
    state: &mut State,
    step_number: u32,
    memory: Memory,
    event: &Event,
    answer: &mut Answer,
) -> Result<(), AllocError>
    requires { StepPrecondition state.old step_number }
    ensures invariants { MeetsInvariants state.new }
    ensures refines { Refines state.old step_number event.now (outcome result answer.new) state.new }
{
    match event {
        Event::Open(opening) => open(state, step_number, memory, *opening, answer),
        Event::Ask(client, call) => ask(state, step_number, memory, *client, call, answer),
        Event::Close(client) => {
            close(state, *client, answer);
            Ok(())
        }
    }
}

/// Puts an answer in the place of an outcome that has none. It is a separate function, so that steps need not clear its place.
fn make_answered(outcome: &mut Result<Answer, Apart>)
    ensures { outcome.new ≡ Ok Done }
{
    *outcome = Ok(Answer::Done);
}

/// Answers an event for which the journal has room, and writes the answer to the place of an outcome. Where memory is refused the state
/// is unchanged.
pub fn advance_at(
    state: &mut State,
    step_number: u32,
    memory: Memory,
    event: &Event,
    outcome: &mut Result<Answer, Apart>,
) -> Result<(), AllocError>
    requires { StepPrecondition state.old step_number }
    ensures invariants { MeetsInvariants state.new }
    ensures ok { OnOk result (IfOk outcome.new (λ answer. Refines state.old step_number event.now (Ok answer) state.new)) }
    ensures answered { OnOk result (IsOk outcome.new) }
    ensures err { IfErr result (λ fault. Refines state.old step_number event.now (Err fault) state.new) }
{
    if outcome.is_err() {
        make_answered(outcome);
    }
    match outcome {
        Ok(answer) => advance(state, step_number, memory, event, answer),
        Err(_) => unreachable!(),
    }
}
