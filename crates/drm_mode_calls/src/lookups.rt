//! What a mode object is and shows.

ghost use Rattle.std.specs.Prelude.{◌≡◌, true};
ghost use Rattle.drm_table.specs.declared.calls.Call.TheVariants.{GetCrtc, GetEncoder, GetConnector, GetPlane};
ghost use Rattle.drm_state.specs.Callers.{IsPrimaryCaller};
ghost use Rattle.drm_state.specs.Invariants.{MeetsInvariants};
ghost use Rattle.drm_state.specs.Refinement.{RefinesReply};

use crate::seeing::{view_with, visible_mask};
use drm_modes::Kind;
use drm_state::{PrimaryCaller, State};
use drm_table::{Answer, Rule};

/// Returns the framebuffer that a CRTC shows, or 0 if it is dark (MODE_GETCRTC; drm-uapi, mode setting). Denied if the
/// caller sees no such CRTC. Does not allocate.
pub fn get_crtc(state: &State, caller: PrimaryCaller, crtc: u32, answer: &mut Answer)
    requires invariants { MeetsInvariants state.now }
    requires caller { IsPrimaryCaller state.now caller }
    ensures { RefinesReply state.now caller.client (GetCrtc crtc) answer.new state.now }
{
    let Some(_seen) = view_with(state, caller, Kind::Crtc, crtc) else {
        answer.set_denied(Rule::NoModeObject);
        return;
    };
    answer.set_number(state.modes.shown(crtc) as u64);
}

/// Returns the possible CRTCs of an encoder, as a mask over those that the caller sees (MODE_GETENCODER; drm-uapi, mode
/// setting). Denied if the encoder does not exist. Does not allocate.
pub fn get_encoder(state: &State, caller: PrimaryCaller, encoder: u32, answer: &mut Answer)
    requires invariants { MeetsInvariants state.now }
    requires caller { IsPrimaryCaller state.now caller }
    ensures { RefinesReply state.now caller.client (GetEncoder encoder) answer.new state.now }
{
    let Some(seen) = view_with(state, caller, Kind::Encoder, encoder) else {
        answer.set_denied(Rule::NoModeObject);
        return;
    };
    answer.set_number(visible_mask(&state.modes, seen, encoder) as u64);
}

/// Returns the encoder of a connector (MODE_GETCONNECTOR; drm-uapi, mode setting). That a connector has one encoder is
/// own. Denied if the caller sees no such connector. Does not allocate.
pub fn get_connector(state: &State, caller: PrimaryCaller, connector: u32, answer: &mut Answer)
    requires invariants { MeetsInvariants state.now }
    requires caller { IsPrimaryCaller state.now caller }
    ensures { RefinesReply state.now caller.client (GetConnector connector) answer.new state.now }
{
    let Some(_seen) = view_with(state, caller, Kind::Connector, connector) else {
        answer.set_denied(Rule::NoModeObject);
        return;
    };
    answer.set_number(state.modes.encoder_of(connector).unwrap_or(0) as u64);
}

/// Returns the framebuffer that a plane shows, or 0 if it is dark, and its possible CRTCs, as a mask over those that
/// the caller sees (MODE_GETPLANE; drm-uapi, mode setting). Denied if the caller sees no such plane. Does not allocate.
pub fn get_plane(state: &State, caller: PrimaryCaller, plane: u32, answer: &mut Answer)
    requires invariants { MeetsInvariants state.now }
    requires caller { IsPrimaryCaller state.now caller }
    ensures { RefinesReply state.now caller.client (GetPlane plane) answer.new state.now }
{
    let Some(seen) = view_with(state, caller, Kind::Plane, plane) else {
        answer.set_denied(Rule::NoModeObject);
        return;
    };
    *answer = Answer::Plane {
        framebuffer: state.modes.shown(plane),
        mask: visible_mask(&state.modes, seen, plane),
    };
}
