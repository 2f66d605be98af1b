//! The opening of a client.

ghost use Rattle.std.specs.Prelude.{◌≡◌, ◌<◌, ◌∷◌, ◌++◌, [], true, length, OnOk, OnErr, if◌then◌else◌};
ghost use Rattle.std.specs.List.{AllByRecursion};
ghost use Rattle.drm_files.specs.Files.{client, new_flags};
ghost use Rattle.drm_table.specs.declared.events.Event.TheVariants.{Open};
ghost use Rattle.drm_table.specs.declared.events.Opening.TheVariants.{Primary, Render, Lease};
ghost use Rattle.drm_state.specs.Invariants.{MeetsInvariants, StepPrecondition};
ghost use Rattle.drm_state.specs.Places.{outcome};
ghost use Rattle.drm_state.specs.Refinement.{Refines};

use drm_files::Files;
use drm_masters::NoMemory;
use drm_state::{Memory, State};
use drm_table::{Answer, Opening, Rule};
use std::alloc::AllocError;

/// Opens a client, by the kind of its opening. If memory is refused, nothing changes.
pub fn open(
    state: &mut State,
    step_number: u32,
    memory: Memory,
    opening: Opening,
    answer: &mut Answer,
) -> Result<(), AllocError>
    requires { StepPrecondition state.old step_number }
    ensures refines { Refines state.old step_number (Open opening) (outcome result answer.new) state.new }
    ensures invariants { MeetsInvariants state.new }
{
    match opening {
        Opening::Primary { root, universal } => {
            open_primary(state, step_number, memory, root, universal, answer)
        }
        Opening::Render => open_render(state, step_number, memory, answer),
        Opening::Lease {
            token,
            root,
            universal,
        } => open_lease(state, step_number, memory, token, root, universal, answer),
    }
}

/// Opens a primary client. It has its own master if the device has none, and else the device's.
fn open_primary(
    state: &mut State,
    step_number: u32,
    memory: Memory,
    root: bool,
    universal: bool,
    answer: &mut Answer,
) -> Result<(), AllocError>
    requires { StepPrecondition state.old step_number }
    ensures refines { Refines state.old step_number (Open (Primary root universal)) (outcome result answer.new) state.new }
    ensures invariants { MeetsInvariants state.new }
{
    if state.files.is_full() {
        answer.set_denied(Rule::Full);
        return Ok(());
    }
    let opener = state.masters.device_master().is_none();
    open_file(
        &mut state.files,
        memory,
        step_number,
        false,
        root,
        universal,
        opener,
    )?;
    if let Err(NoMemory) = state.masters.on_open(step_number, step_number) {
        let _rest = state.files.close(step_number);
        return Err(AllocError);
    }
    state.masters.laws();
    *answer = Answer::Opened {
        client: step_number,
    };
    Ok(())
}

/// Returns a render client, which has no master, and universal planes on (own).
fn open_render(
    state: &mut State,
    step_number: u32,
    memory: Memory,
    answer: &mut Answer,
) -> Result<(), AllocError>
    requires { StepPrecondition state.old step_number }
    ensures refines { Refines state.old step_number (Open Render) (outcome result answer.new) state.new }
    ensures invariants { MeetsInvariants state.new }
{
    if state.files.is_full() {
        answer.set_denied(Rule::Full);
        return Ok(());
    }
    open_file(
        &mut state.files,
        memory,
        step_number,
        true,
        false,
        true,
        false,
    )?;
    *answer = Answer::Opened {
        client: step_number,
    };
    Ok(())
}

/// The client of a lessee that no client redeemed, by the lessee's open token, which is spent (drm-uapi, leases; the
/// token is own).
fn open_lease(
    state: &mut State,
    step_number: u32,
    memory: Memory,
    token: u32,
    root: bool,
    universal: bool,
    answer: &mut Answer,
) -> Result<(), AllocError>
    requires { StepPrecondition state.old step_number }
    ensures refines { Refines state.old step_number (Open (Lease token root universal)) (outcome result answer.new) state.new }
    ensures invariants { MeetsInvariants state.new }
{
    let Some(lessee) = state.leases.token_master(token) else {
        answer.set_denied(Rule::NoLeaseToken);
        return Ok(());
    };
    if state.files.is_full() {
        answer.set_denied(Rule::Full);
        return Ok(());
    }
    open_file(
        &mut state.files,
        memory,
        step_number,
        false,
        root,
        universal,
        true,
    )?;
    if let Err(NoMemory) = state.masters.on_redeem(step_number, lessee) {
        let _rest = state.files.close(step_number);
        return Err(AllocError);
    }
    let _spent = state.leases.redeem(token);
    state.masters.laws();
    state.leases.laws();
    *answer = Answer::Opened {
        client: step_number,
    };
    Ok(())
}

/// Opens the file of a client that is newer than all; a master's opener is authenticated whether it is root or not. If
/// memory is refused, nothing changes.
fn open_file(
    files: &mut Files,
    memory: Memory,
    number: u32,
    render: bool,
    root: bool,
    universal: bool,
    opener: bool,
) -> Result<(), AllocError>
    requires newest { AllByRecursion (λ f. f.client < number) files.old.clients }
    requires room { length files.old.clients < files.old.limit }
    ensures ok { OnOk result (files.new ≡ record files.old { clients = files.old.clients ++ client number (record (new_flags render root universal) { authenticated = if opener then true else root }) ∷ [] }) }
    ensures err { OnErr result (files.new ≡ files.old) }
{
    if memory.is_refused() {
        return Err(AllocError);
    }
    if let Err(_fault) = files.open(number, render, root, universal) {
        return Err(AllocError);
    }
    if opener {
        files.set_authenticated(number);
    }
    Ok(())
}
