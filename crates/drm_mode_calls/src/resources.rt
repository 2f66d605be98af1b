//! What there is.

ghost use Rattle.drm_table.specs.declared.calls.Call.TheVariants.{GetResources, GetPlaneResources};
ghost use Rattle.drm_state.specs.Callers.{IsPrimaryCaller};
ghost use Rattle.drm_state.specs.Invariants.{MeetsInvariants};
ghost use Rattle.drm_state.specs.Refinement.{RefinesReply};

use crate::seeing::{put_ids_in, view, visible};
use drm_modes::Kind;
use drm_state::{PrimaryCaller, State};
use drm_table::{Answer, ShownList};

/// Returns the CRTCs and connectors that the caller sees, all encoders, and its own framebuffers, each list in rising
/// order (MODE_GETRESOURCES; drm-uapi, mode setting). Does not allocate.
pub fn get_resources(state: &State, caller: PrimaryCaller, answer: &mut Answer)
    requires invariants { MeetsInvariants state.now }
    requires caller { IsPrimaryCaller state.now caller }
    ensures { RefinesReply state.now caller.client GetResources answer.new state.now }
{
    state.modes.laws();
    let seen = view(state, caller);
    let mut crtcs = ShownList::new();
    let mut connectors = ShownList::new();
    let mut encoders = ShownList::new();
    put_ids_in(&state.modes, seen, Kind::Crtc, &mut crtcs);
    put_ids_in(&state.modes, seen, Kind::Connector, &mut connectors);
    state.modes.append_ids(Kind::Encoder, &mut encoders);
    let framebuffers = state.modes.framebuffers_of(caller.client);
    answer.set_resources(crtcs, connectors, encoders, framebuffers);
}

/// Returns the planes that the caller sees, in rising order (MODE_GETPLANERESOURCES; drm-uapi, mode setting). Does not
/// allocate.
pub fn get_plane_resources(state: &State, caller: PrimaryCaller, answer: &mut Answer)
    requires invariants { MeetsInvariants state.now }
    requires caller { IsPrimaryCaller state.now caller }
    ensures { RefinesReply state.now caller.client GetPlaneResources answer.new state.now }
{
    answer.set_list(visible(state, caller, Kind::Plane));
}
