//! PRIME tokens, which represent file descriptors (own).

ghost use Rattle.std.specs.Prelude.{◌≡◌, true};
ghost use Rattle.drm_files.specs.Files.{is_open_client};
ghost use Rattle.drm_table.specs.declared.calls.Call.TheVariants.{PrimeHandleToFd, PrimeFdToHandle, TokenClose};
ghost use Rattle.drm_state.specs.Invariants.{MeetsInvariants, StepPrecondition};
ghost use Rattle.drm_state.specs.Places.{outcome};
ghost use Rattle.drm_state.specs.Refinement.{RefinesCall, RefinesReply};

use drm_share::ShareFault;
use drm_state::{Memory, State, new_handle};
use drm_table::{Answer, Rule};
use std::alloc::AllocError;

/// Creates a token for the object of a handle (PRIME_HANDLE_TO_FD; drm-mm). A handle without an export order gets one.
/// If memory is refused, nothing changes.
pub fn prime_export(
    state: &mut State,
    step_number: u32,
    memory: Memory,
    client: u32,
    handle: u32,
    answer: &mut Answer,
) -> Result<(), AllocError>
    requires precondition { StepPrecondition state.old step_number }
    requires open_client { is_open_client state.old.files client ≡ true }
    ensures refines { RefinesCall state.old step_number client (PrimeHandleToFd handle) (outcome result answer.new) state.new }
    ensures invariants { MeetsInvariants state.new }
{
    let Some(object) = state.files.object_of(client, handle) else {
        answer.set_denied(Rule::NoHandle);
        return Ok(());
    };
    if memory.is_refused() && !state.tokens.is_full() {
        return Err(AllocError);
    }
    let token = match state.tokens.export(client, object) {
        Ok(token) => token,
        Err(ShareFault::Full) => {
            answer.set_denied(Rule::Full);
            return Ok(());
        }
        Err(ShareFault::NoMemory) => return Err(AllocError),
    };
    state.objects.refer(object);
    state.files.set_prime(client, handle, step_number);
    answer.set_number(token as u64);
    Ok(())
}

/// Returns the caller's handle of a token's object (PRIME_FD_TO_HANDLE; drm-mm). It is the one with the lowest export
/// order. If there is none, it is a new handle with an order. If memory is refused, nothing changes.
pub fn prime_import(
    state: &mut State,
    step_number: u32,
    memory: Memory,
    client: u32,
    token: u32,
    answer: &mut Answer,
) -> Result<(), AllocError>
    requires precondition { StepPrecondition state.old step_number }
    requires open_client { is_open_client state.old.files client ≡ true }
    ensures refines { RefinesCall state.old step_number client (PrimeFdToHandle token) (outcome result answer.new) state.new }
    ensures invariants { MeetsInvariants state.new }
{
    let Some(object) = state.tokens.lookup(token) else {
        answer.set_denied(Rule::NoToken);
        return Ok(());
    };
    let size = state.objects.size(object);
    if let Some(handle) = state.files.prime_handle(client, object) {
        answer.set_buffer(handle, size);
        return Ok(());
    }
    let Some(fresh) = new_handle(
        state,
        step_number,
        memory,
        client,
        object,
        Some(step_number),
    )?
    else {
        answer.set_denied(Rule::Full);
        return Ok(());
    };
    answer.set_buffer(fresh, size);
    Ok(())
}

/// Closes a token, if the caller exported it (TOKEN_CLOSE, own). The object is freed with its last reference. Does not
/// allocate and needs no limit.
pub fn token_close(state: &mut State, client: u32, token: u32, answer: &mut Answer)
    requires invariants { MeetsInvariants state.old }
    requires open_client { is_open_client state.old.files client ≡ true }
    ensures refines { RefinesReply state.old client (TokenClose token) answer.new state.new }
    ensures invariants { MeetsInvariants state.new }
{
    let Some(object) = state.tokens.close(client, token) else {
        answer.set_denied(Rule::NoToken);
        return;
    };
    let _dead = state.objects.unrefer(object);
    answer.set_done();
}
