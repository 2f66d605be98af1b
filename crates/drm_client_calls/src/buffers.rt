//! Buffers and their handles.

ghost use Rattle.std.specs.Prelude.{◌≡◌, ◌≤◌, ◌*◌, true};
ghost use Rattle.drm_files.specs.Files.{is_open_client};
ghost use Rattle.drm_table.specs.declared.calls.Call.TheVariants.{GemClose, BufCreate, CreateDumb, DestroyDumb};
ghost use Rattle.drm_model.specs.Buffers as model;
ghost use Rattle.drm_state.specs.Invariants.{MeetsInvariants, StepPrecondition};
ghost use Rattle.drm_state.specs.Places.{outcome};
ghost use Rattle.drm_state.specs.Refinement.{RefinesCall, RefinesReply, MakesBuffer};

use drm_gem::CreateFault;
use drm_state::{Memory, State, add_handle, bytes_per_pixel, is_dumb_shape, release};
use drm_table::{Answer, Rule};
use std::alloc::AllocError;

/// The most bytes that a buffer may have: 64 GiB (own).
const MOST_BYTES: u64 = 68_719_476_736;

/// What a dumb buffer is for: pixels in a row, rows, and bits a pixel.
#[derive(Clone, Copy)]
pub struct Pixels {
    pub width: u32,
    pub height: u32,
    pub bpp: u32,
}

/// Creates a dumb buffer and a handle of it (MODE_CREATE_DUMB; drm-uapi). If memory is refused, nothing changes.
pub fn create_dumb(
    state: &mut State,
    step_number: u32,
    memory: Memory,
    client: u32,
    pixels: Pixels,
    answer: &mut Answer,
) -> Result<(), AllocError>
    requires precondition { StepPrecondition state.old step_number }
    requires open_client { is_open_client state.old.files client ≡ true }
    ensures refines { RefinesCall state.old step_number client (CreateDumb pixels.width pixels.height pixels.bpp) (outcome result answer.new) state.new }
    ensures invariants { MeetsInvariants state.new }
{
    if !is_dumb_shape(pixels.width, pixels.height, pixels.bpp) {
        answer.set_denied(Rule::BadSize);
        return Ok(());
    }
    let pitch = dumb_pitch(pixels.width, pixels.bpp);
    let size = dumb_size(pitch, pixels.height);
    let Some(handle) = new_buffer(state, step_number, memory, client, size)? else {
        answer.set_denied(Rule::Full);
        return Ok(());
    };
    *answer = Answer::Dumb {
        handle,
        pitch,
        size,
    };
    Ok(())
}

/// Creates an object of this many bytes, rounded up to whole pages, and a handle of it (BUF_CREATE, own). If memory is
/// refused, nothing changes.
pub fn buf_create(
    state: &mut State,
    step_number: u32,
    memory: Memory,
    client: u32,
    size: u64,
    answer: &mut Answer,
) -> Result<(), AllocError>
    requires precondition { StepPrecondition state.old step_number }
    requires open_client { is_open_client state.old.files client ≡ true }
    ensures refines { RefinesCall state.old step_number client (BufCreate size) (outcome result answer.new) state.new }
    ensures invariants { MeetsInvariants state.new }
{
    if !is_buffer_size(size) {
        answer.set_denied(Rule::BadSize);
        return Ok(());
    }
    let size = buffer_size(size);
    let Some(handle) = new_buffer(state, step_number, memory, client, size)? else {
        answer.set_denied(Rule::Full);
        return Ok(());
    };
    answer.set_buffer(handle, size);
    Ok(())
}

/// Creates an object of this many bytes and a handle of it, and returns the handle. Returns `None` if the client has
/// every handle or the limit of objects is reached. If memory is refused, nothing changes.
fn new_buffer(
    state: &mut State,
    step_number: u32,
    memory: Memory,
    client: u32,
    size: u64,
) -> Result<Option<u32>, AllocError>
    requires precondition { StepPrecondition state.old step_number }
    requires open_client { is_open_client state.old.files client ≡ true }
    ensures makes { MakesBuffer state.old step_number client size result state.new }
    ensures invariants { MeetsInvariants state.new }
{
    if !state.files.has_room(client) {
        return Ok(None);
    }
    let made = match state.objects.create(step_number, size) {
        Ok(made) => made,
        Err(CreateFault::Full) => return Ok(None),
        Err(CreateFault::NoMemory) => return Err(AllocError),
    };
    let Ok(handle) = add_handle(&mut state.files, memory, client, made, None) else {
        // the object is freed again, since nothing names it
        let _dead = state.objects.unhold(made);
        return Err(AllocError);
    };
    Ok(Some(handle))
}

/// Returns the bytes of a row of pixels.
fn dumb_pitch(width: u32, bpp: u32) -> u32
    requires narrow { width ≤ 65535 }
    requires shallow { bpp ≤ 64 }
    ensures value { result ≡ model.dumb_pitch width bpp }
    ensures small { result ≤ 524288 }
{
    (width * bytes_per_pixel(bpp) + 63) / 64 * 64
}

/// Returns the bytes of a buffer of this many rows of this pitch.
fn dumb_size(pitch: u32, height: u32) -> u64
    requires narrow { pitch ≤ 524288 }
    requires low { height ≤ 65535 }
    ensures { result ≡ model.rounded_up 4096 (pitch * height) }
{
    (pitch as u64 * height as u64 + 4095) / 4096 * 4096
}

/// Returns whether a buffer may have this many bytes.
fn is_buffer_size(size: u64) -> bool
    ensures { result ≡ model.is_buffer_size size }
{
    1 <= size && size <= MOST_BYTES
}

/// Returns the bytes of a buffer of at least this many: whole pages.
fn buffer_size(size: u64) -> u64
    requires { size ≤ 68719476736 }
    ensures { result ≡ model.buffer_size size }
{
    (size + 4095) / 4096 * 4096
}

/// Closes a handle (GEM_CLOSE, MODE_DESTROY_DUMB; drm-gem(7), drm-uapi). The object's name is removed with its last
/// handle. The object is freed with its last reference. Does not allocate and needs no limit.
pub fn gem_close(state: &mut State, client: u32, handle: u32, answer: &mut Answer)
    requires invariants { MeetsInvariants state.old }
    requires open_client { is_open_client state.old.files client ≡ true }
    ensures destroy { RefinesReply state.old client (DestroyDumb handle) answer.new state.new }
    ensures close { RefinesReply state.old client (GemClose handle) answer.new state.new }
    ensures invariants { MeetsInvariants state.new }
{
    let Some(object) = state.files.drop_handle(client, handle) else {
        answer.set_denied(Rule::NoHandleToClose);
        return;
    };
    release(&mut state.names, &mut state.objects, object);
    answer.set_done();
}
