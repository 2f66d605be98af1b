//! Handles of objects that exist.

ghost use Rattle.std.specs.Prelude.{◌≡◌, ◌↔◌, true, None, Some, OnErr, OnOk, IfOk, IfErr, ◌++◌};
ghost use Rattle.drm_index_array.specs.Numbers.{is_among};
ghost use Rattle.drm_files.specs.FileFault.{IsFull};
ghost use Rattle.drm_files.specs.Files.{is_open_client, free_handle, hold, with_handle_row};
ghost use Rattle.drm_state.specs.Parts.{keys_of, referring_keys};
ghost use Rattle.drm_state.specs.Invariants.{MeetsInvariants, StepPrecondition};
ghost use Rattle.drm_state.specs.Refinement.{AddsHandle};
ghost use Rattle.drm_state.specs.declared.memory.Memory.TheVariants.{Refused};

use crate::memory::Memory;
use crate::state::State;
use drm_files::{FileFault, Files};
use drm_gem::ObjectKey;
use std::alloc::AllocError;

/// Creates a handle of an object for a client, and answers it, or none if the client has every handle. If memory is
/// refused, nothing changes.
pub fn new_handle(
    state: &mut State,
    step_number: u32,
    memory: Memory,
    client: u32,
    object: ObjectKey,
    export_order: Option<u32>,
) -> Result<Option<u32>, AllocError>
    requires precondition { StepPrecondition state.old step_number }
    requires open_client { is_open_client state.old.files client ≡ true }
    requires known { is_among (keys_of state.old.files.holds ++ referring_keys state.old) object ≡ true }
    ensures adds { AddsHandle state.old client object export_order result state.new }
    ensures invariants { MeetsInvariants state.new }
    ensures refused { memory ≡ Refused → IfOk result (λ handle. handle ≡ None) }
{
    let handle = match add_handle(&mut state.files, memory, client, object, export_order) {
        Ok(handle) => handle,
        Err(FileFault::Full) => return Ok(None),
        Err(FileFault::NoMemory) => return Err(AllocError),
    };
    state.objects.hold(object);
    Ok(Some(handle))
}

/// Assigns the lowest free handle of an open client to an object, as [`Files::add_handle`] does. If memory is refused
/// and the client has a free handle, nothing changes.
pub fn add_handle(
    files: &mut Files,
    memory: Memory,
    client: u32,
    object: ObjectKey,
    export_order: Option<u32>,
) -> Result<u32, FileFault>
    requires open_client { is_open_client files.old client ≡ true }
    ensures given { IfOk result (λ handle. free_handle files.old client ≡ Some handle) }
    ensures ok { IfOk result (λ handle. files.new ≡ with_handle_row files.old (hold client handle object export_order)) }
    ensures err { OnErr result (files.new ≡ files.old) }
    ensures full { IfErr result (λ fault. IsFull fault ↔ (free_handle files.old client ≡ None)) }
    ensures refused { memory ≡ Refused → OnOk result ⊥ }
{
    if memory.is_refused() && files.has_room(client) {
        return Err(FileFault::NoMemory);
    }
    files.add_handle(client, object, export_order)
}
