//! The calls of each family: which function carries each out.

ghost use Rattle.std.specs.Prelude.{◌≡◌, Some, true};
ghost use Rattle.drm_files.specs.Files.{is_open_client};
ghost use Rattle.drm_state.specs.Callers.{IsPrimaryCaller};
ghost use Rattle.drm_state.specs.Invariants.{MeetsInvariants, StepPrecondition};
ghost use Rattle.drm_state.specs.Refinement.{RefinesCall};
ghost use Rattle.drm_state.specs.Places.{outcome};
ghost use Rattle.drm_table.specs.Table.{family_of};
ghost use Rattle.drm_table.specs.declared.rows.Family.TheVariants.{Device, Masters, Buffers, Sharing, Modes, Framebuffers, Leases};

use crate::audits::audit;
use crate::capabilities::{get_cap, version};
use drm_client_calls::{
    Pixels, buf_create, create_dumb, gem_close, gem_flink, gem_open, list_handles, prime_export,
    prime_import, set_client_cap, stamp_read, stamp_write, token_close,
};
use drm_master_calls::{
    auth_magic, create_lease, drop_master, get_lease, get_magic, list_lessees, revoke_lease,
    set_master,
};
use drm_mode_calls::{
    add_fb, get_connector, get_crtc, get_encoder, get_fb, get_plane, get_plane_resources,
    get_resources, rm_fb, set_crtc, set_plane,
};
use drm_modes::Shape;
use drm_state::{Memory, PrimaryCaller, State};
use drm_table::{Answer, Call};
use std::alloc::AllocError;

/// Answers a call of the device itself, or of what a client sees of it, that is admitted. The answer is written to its place.
#[tactic(auto, using(drm_state::proofs::Refinements::is_answered), unfolding(drm_table::specs::Table::family_of, drm_table::specs::Table::call_row, drm_table::specs::Table::kind_row))]
pub fn device_call(
    state: &mut State,
    step_number: u32,
    client: u32,
    call: &Call,
    answer: &mut Answer,
) -> Result<(), AllocError>
    requires device_call { family_of call.now ≡ Some Device }
    requires precondition { StepPrecondition state.old step_number }
    requires open_client { is_open_client state.old.files client ≡ true }
    ensures refines { RefinesCall state.old step_number client call.now (outcome result answer.new) state.new }
    ensures invariants { MeetsInvariants state.new }
{
    match call {
        Call::Version => {
            version(answer);
            Ok(())
        }
        Call::GetCap { cap } => {
            get_cap(state, client, *cap, answer);
            Ok(())
        }
        Call::SetClientCap { cap, value } => {
            set_client_cap(state, client, *cap, *value, answer);
            Ok(())
        }
        Call::Audit { kind, from } => {
            audit(state, step_number, *kind, *from, answer);
            Ok(())
        }
        _ => unreachable!(),
    }
}

/// Answers a call of masters and magics that is admitted. If memory is refused, nothing changes.
#[tactic(auto, using(drm_state::proofs::Refinements::is_answered), unfolding(drm_table::specs::Table::family_of, drm_table::specs::Table::call_row, drm_table::specs::Table::kind_row))]
pub fn master_call(
    state: &mut State,
    step_number: u32,
    memory: Memory,
    caller: PrimaryCaller,
    call: &Call,
    answer: &mut Answer,
) -> Result<(), AllocError>
    requires master_call { family_of call.now ≡ Some Masters }
    requires precondition { StepPrecondition state.old step_number }
    requires caller { IsPrimaryCaller state.old caller }
    ensures refines { RefinesCall state.old step_number caller.client call.now (outcome result answer.new) state.new }
    ensures invariants { MeetsInvariants state.new }
{
    match call {
        Call::GetMagic => {
            get_magic(state, caller, answer);
            Ok(())
        }
        Call::AuthMagic { magic } => {
            auth_magic(state, caller, *magic, answer);
            Ok(())
        }
        Call::SetMaster => set_master(state, step_number, memory, caller, answer),
        Call::DropMaster => {
            drop_master(state, caller, answer);
            Ok(())
        }
        _ => unreachable!(),
    }
}

/// Answers a call of buffers that is admitted. If memory is refused, nothing changes.
#[tactic(auto, using(drm_state::proofs::Refinements::is_answered), unfolding(drm_table::specs::Table::family_of, drm_table::specs::Table::call_row, drm_table::specs::Table::kind_row))]
pub fn buffer_call(
    state: &mut State,
    step_number: u32,
    memory: Memory,
    client: u32,
    call: &Call,
    answer: &mut Answer,
) -> Result<(), AllocError>
    requires buffer_call { family_of call.now ≡ Some Buffers }
    requires precondition { StepPrecondition state.old step_number }
    requires open_client { is_open_client state.old.files client ≡ true }
    ensures refines { RefinesCall state.old step_number client call.now (outcome result answer.new) state.new }
    ensures invariants { MeetsInvariants state.new }
{
    match call {
        Call::GemClose { handle } => {
            gem_close(state, client, *handle, answer);
            Ok(())
        }
        Call::DestroyDumb { handle } => {
            gem_close(state, client, *handle, answer);
            Ok(())
        }
        Call::BufCreate { size } => buf_create(state, step_number, memory, client, *size, answer),
        Call::CreateDumb { width, height, bpp } => {
            let pixels = Pixels {
                width: *width,
                height: *height,
                bpp: *bpp,
            };
            create_dumb(state, step_number, memory, client, pixels, answer)
        }
        Call::StampWrite { handle, stamp } => {
            stamp_write(state, client, *handle, *stamp, answer);
            Ok(())
        }
        Call::StampRead { handle } => {
            stamp_read(state, client, *handle, answer);
            Ok(())
        }
        Call::ListHandles { from } => {
            list_handles(state, client, *from, answer);
            Ok(())
        }
        _ => unreachable!(),
    }
}

/// Answers a call that shares objects and is admitted. If memory is refused, nothing changes.
#[tactic(auto, using(drm_state::proofs::Refinements::is_answered), unfolding(drm_table::specs::Table::family_of, drm_table::specs::Table::call_row, drm_table::specs::Table::kind_row))]
pub fn share_call(
    state: &mut State,
    step_number: u32,
    memory: Memory,
    client: u32,
    call: &Call,
    answer: &mut Answer,
) -> Result<(), AllocError>
    requires share_call { family_of call.now ≡ Some Sharing }
    requires precondition { StepPrecondition state.old step_number }
    requires open_client { is_open_client state.old.files client ≡ true }
    ensures refines { RefinesCall state.old step_number client call.now (outcome result answer.new) state.new }
    ensures invariants { MeetsInvariants state.new }
{
    match call {
        Call::GemFlink { handle } => gem_flink(state, step_number, memory, client, *handle, answer),
        Call::GemOpen { name } => gem_open(state, step_number, memory, client, *name, answer),
        Call::PrimeHandleToFd { handle } => {
            prime_export(state, step_number, memory, client, *handle, answer)
        }
        Call::PrimeFdToHandle { token } => {
            prime_import(state, step_number, memory, client, *token, answer)
        }
        Call::TokenClose { token } => {
            token_close(state, client, *token, answer);
            Ok(())
        }
        _ => unreachable!(),
    }
}

/// Answers a call of mode objects, or of what CRTCs and planes show, that is admitted. Does not allocate.
#[tactic(auto, using(drm_state::proofs::Refinements::is_answered), unfolding(drm_table::specs::Table::family_of, drm_table::specs::Table::call_row, drm_table::specs::Table::kind_row))]
pub fn mode_call(
    state: &mut State,
    step_number: u32,
    caller: PrimaryCaller,
    call: &Call,
    answer: &mut Answer,
) -> Result<(), AllocError>
    requires mode_call { family_of call.now ≡ Some Modes }
    requires precondition { StepPrecondition state.old step_number }
    requires caller { IsPrimaryCaller state.old caller }
    ensures refines { RefinesCall state.old step_number caller.client call.now (outcome result answer.new) state.new }
    ensures invariants { MeetsInvariants state.new }
{
    match *call {
        Call::GetResources => {
            get_resources(state, caller, answer);
            Ok(())
        }
        Call::GetPlaneResources => {
            get_plane_resources(state, caller, answer);
            Ok(())
        }
        Call::GetCrtc { crtc } => {
            get_crtc(state, caller, crtc, answer);
            Ok(())
        }
        Call::GetEncoder { encoder } => {
            get_encoder(state, caller, encoder, answer);
            Ok(())
        }
        Call::GetConnector { connector } => {
            get_connector(state, caller, connector, answer);
            Ok(())
        }
        Call::GetPlane { plane } => {
            get_plane(state, caller, plane, answer);
            Ok(())
        }
        Call::SetCrtc {
            crtc,
            framebuffer,
            connector,
        } => {
            set_crtc(state, caller, crtc, framebuffer, connector, answer);
            Ok(())
        }
        Call::SetPlane {
            plane,
            crtc,
            framebuffer,
        } => {
            set_plane(state, caller, plane, crtc, framebuffer, answer);
            Ok(())
        }
        _ => unreachable!(),
    }
}

/// Answers a call of framebuffers that is admitted. If memory is refused, nothing changes.
#[tactic(auto, using(drm_state::proofs::Refinements::is_answered), unfolding(drm_table::specs::Table::family_of, drm_table::specs::Table::call_row, drm_table::specs::Table::kind_row))]
pub fn framebuffer_call(
    state: &mut State,
    step_number: u32,
    memory: Memory,
    caller: PrimaryCaller,
    call: &Call,
    answer: &mut Answer,
) -> Result<(), AllocError>
    requires framebuffer_call { family_of call.now ≡ Some Framebuffers }
    requires precondition { StepPrecondition state.old step_number }
    requires caller { IsPrimaryCaller state.old caller }
    ensures refines { RefinesCall state.old step_number caller.client call.now (outcome result answer.new) state.new }
    ensures invariants { MeetsInvariants state.new }
{
    match *call {
        Call::GetFb { framebuffer } => get_fb(
            state,
            step_number,
            memory,
            caller,
            framebuffer,
            answer,
        ),
        Call::AddFb {
            width,
            height,
            pitch,
            bpp,
            handle,
        } => {
            let shape = Shape {
                width,
                height,
                pitch,
                bpp,
            };
            add_fb(
                state,
                step_number,
                memory,
                caller.client,
                shape,
                handle,
                answer,
            )
        }
        Call::RmFb { framebuffer } => {
            rm_fb(state, caller.client, framebuffer, answer);
            Ok(())
        }
        _ => unreachable!(),
    }
}

/// Answers a call of leases that is admitted. If memory is refused, nothing changes.
#[tactic(auto, using(drm_state::proofs::Refinements::is_answered), unfolding(drm_table::specs::Table::family_of, drm_table::specs::Table::call_row, drm_table::specs::Table::kind_row))]
pub fn lease_call(
    state: &mut State,
    step_number: u32,
    memory: Memory,
    caller: PrimaryCaller,
    call: &Call,
    answer: &mut Answer,
) -> Result<(), AllocError>
    requires lease_call { family_of call.now ≡ Some Leases }
    requires precondition { StepPrecondition state.old step_number }
    requires caller { IsPrimaryCaller state.old caller }
    ensures refines { RefinesCall state.old step_number caller.client call.now (outcome result answer.new) state.new }
    ensures invariants { MeetsInvariants state.new }
{
    match call {
        Call::CreateLease { ids } => create_lease(state, step_number, memory, caller, ids, answer),
        Call::ListLessees => {
            list_lessees(state, caller, answer);
            Ok(())
        }
        Call::GetLease => {
            get_lease(state, caller, answer);
            Ok(())
        }
        Call::RevokeLease { lessee } => {
            revoke_lease(state, caller, *lessee, answer);
            Ok(())
        }
        _ => unreachable!(),
    }
}
