//! Framebuffers: what they are, and how they come and go.

ghost use Rattle.std.specs.Prelude.{◌≡◌, ◌≤◌, ◌&&◌, ◌||◌, true};
ghost use Rattle.drm_files.specs.Files.{is_open_client};
ghost use Rattle.drm_table.specs.declared.answers.Answer.TheVariants.{Framebuffer as FramebufferIs};
ghost use Rattle.drm_table.specs.declared.calls.Call.TheVariants.{AddFb, GetFb, RmFb};
ghost use Rattle.drm_model.specs.Buffers as buffers;
ghost use Rattle.drm_model.specs.Modes as model;
ghost use Rattle.drm_state.specs.Callers.{IsPrimaryCaller};
ghost use Rattle.drm_state.specs.Invariants.{MeetsInvariants, StepPrecondition};
ghost use Rattle.drm_state.specs.Places.{outcome};
ghost use Rattle.drm_state.specs.Refinement.{RefinesCall, RefinesReply};

use drm_modes::{AddFbFault, Shape};
use drm_state::{Memory, PrimaryCaller, State, bytes_per_pixel, is_dumb_shape, new_handle};
use drm_table::{Answer, Rule};
use std::alloc::AllocError;

/// Returns the shape of any client's framebuffer (MODE_GETFB; drm-uapi, mode setting). A caller that is current or root
/// gets a new handle of its object, any other 0. If the framebuffer does not exist, the caller has every handle or
/// memory is refused, nothing changes.
pub fn get_fb(
    state: &mut State,
    step_number: u32,
    memory: Memory,
    caller: PrimaryCaller,
    framebuffer: u32,
    answer: &mut Answer,
) -> Result<(), AllocError>
    requires precondition { StepPrecondition state.old step_number }
    requires caller { IsPrimaryCaller state.old caller }
    ensures refines { RefinesCall state.old step_number caller.client (GetFb framebuffer) (outcome result answer.new) state.new }
    ensures invariants { MeetsInvariants state.new }
{
    let Some(row) = state.modes.fb(framebuffer) else {
        answer.set_denied(Rule::NoFb);
        return Ok(());
    };
    if !gives_handle(caller) {
        *answer = framebuffer_answer(row.shape, 0);
        return Ok(());
    }
    let Some(handle) = new_handle(state, step_number, memory, caller.client, row.object, None)?
    else {
        answer.set_denied(Rule::Full);
        return Ok(());
    };
    *answer = framebuffer_answer(row.shape, handle);
    Ok(())
}

/// Creates a framebuffer of the caller over the object of its handle, and returns its id, the lowest free one
/// (MODE_ADDFB; drm-uapi, mode setting; so does the kernel's IDR).
///
/// If the caller has no such handle, the shape does not fit the object, no id is free or memory is refused, nothing
/// changes.
pub fn add_fb(
    state: &mut State,
    step_number: u32,
    memory: Memory,
    client: u32,
    shape: Shape,
    handle: u32,
    answer: &mut Answer,
) -> Result<(), AllocError>
    requires precondition { StepPrecondition state.old step_number }
    requires open_client { is_open_client state.old.files client ≡ true }
    ensures refines { RefinesCall state.old step_number client (AddFb shape.width shape.height shape.pitch shape.bpp handle) (outcome result answer.new) state.new }
    ensures invariants { MeetsInvariants state.new }
{
    let Some(object) = state.files.object_of(client, handle) else {
        answer.set_denied(Rule::NoHandle);
        return Ok(());
    };
    if !is_shape_over(shape, state.objects.size(object)) {
        answer.set_denied(Rule::BadSize);
        return Ok(());
    }
    if memory.is_refused() && !state.modes.is_full() {
        return Err(AllocError);
    }
    let framebuffer = match state.modes.addfb(client, shape, object) {
        Ok(framebuffer) => framebuffer,
        Err(AddFbFault::Full) => {
            answer.set_denied(Rule::Full);
            return Ok(());
        }
        Err(AddFbFault::NoMemory) => return Err(AllocError),
    };
    state.modes.laws();
    state.objects.refer(object);
    answer.set_number(framebuffer as u64);
    Ok(())
}

/// Removes the caller's framebuffer (MODE_RMFB; drm-uapi, mode setting). What shows it is dark afterwards, and its
/// object is freed with the last reference. If the caller created no such framebuffer, nothing changes. Does not
/// allocate.
pub fn rm_fb(state: &mut State, client: u32, framebuffer: u32, answer: &mut Answer)
    requires invariants { MeetsInvariants state.old }
    requires open_client { is_open_client state.old.files client ≡ true }
    ensures refines { RefinesReply state.old client (RmFb framebuffer) answer.new state.new }
    ensures invariants { MeetsInvariants state.new }
{
    let Some(object) = state.modes.rmfb(client, framebuffer) else {
        answer.set_denied(Rule::NoFb);
        return;
    };
    state.modes.laws();
    let _dead = state.objects.unrefer(object);
    answer.set_done();
}

/// Returns whether the caller holds for a framebuffer with a handle, as a current one and a root one are (drm-uapi,
/// mode setting).
fn gives_handle(caller: PrimaryCaller) -> bool
    ensures { result ≡ (caller.current || caller.flags.root) }
{
    caller.current || caller.flags.root
}

/// Returns the answer for a framebuffer of this shape, with a handle of its object, or 0 for none.
fn framebuffer_answer(shape: Shape, handle: u32) -> Answer
    ensures { result ≡ FramebufferIs shape.width shape.height shape.pitch shape.bpp handle }
{
    Answer::Framebuffer {
        width: shape.width,
        height: shape.height,
        pitch: shape.pitch,
        bpp: shape.bpp,
        handle,
    }
}

/// Returns whether a framebuffer may have this shape over an object of this many bytes.
fn is_shape_over(shape: Shape, size: u64) -> bool
    ensures { result ≡ (buffers.is_dumb_shape shape.width shape.height shape.bpp && model.fits_object shape.width shape.height shape.pitch shape.bpp size) }
{
    is_dumb_shape(shape.width, shape.height, shape.bpp) && fits_object(shape, size)
}

/// Returns whether a line has room for its pixels, and the object for the lines.
fn fits_object(shape: Shape, size: u64) -> bool
    requires narrow { shape.width ≤ 65535 }
    requires shallow { shape.bpp ≤ 64 }
    ensures { result ≡ model.fits_object shape.width shape.height shape.pitch shape.bpp size }
{
    shape.width * bytes_per_pixel(shape.bpp) <= shape.pitch
        && shape.pitch as u64 * shape.height as u64 <= size
}
