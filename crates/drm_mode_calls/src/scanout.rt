//! What CRTCs and planes show.

ghost use Rattle.std.specs.Prelude.{◌≡◌, true};
ghost use Rattle.drm_table.specs.declared.calls.Call.TheVariants.{SetCrtc, SetPlane};
ghost use Rattle.drm_modes.specs.Modes as shown;
ghost use Rattle.drm_state.specs.Callers.{IsPrimaryCaller};
ghost use Rattle.drm_state.specs.Invariants.{MeetsInvariants};
ghost use Rattle.drm_state.specs.Refinement.{RefinesReply};
ghost use Rattle.drm_mode_calls.specs.Scanout as scanned;

use crate::seeing::{is_seen, view_with};
use drm_modes::Kind;
use drm_state::{PrimaryCaller, State};
use drm_table::{Answer, Rule};

/// Sets the framebuffer that a CRTC shows, of any client, or makes the CRTC dark if it is 0 (MODE_SETCRTC; drm-uapi,
/// mode setting). The connector is checked and not kept. That at most one connector is named is own. Does not allocate.
///
/// A denial changes nothing. The call is denied in these cases:
///
/// - The caller does not see the CRTC or the connector (0 for none).
/// - The framebuffer does not exist.
/// - There is a framebuffer without a connector that the CRTC reaches, or a connector without a framebuffer.
pub fn set_crtc(
    state: &mut State,
    caller: PrimaryCaller,
    crtc: u32,
    framebuffer: u32,
    connector: u32,
    answer: &mut Answer,
)
    requires invariants { MeetsInvariants state.old }
    requires caller { IsPrimaryCaller state.old caller }
    ensures refines { RefinesReply state.old caller.client (SetCrtc crtc framebuffer connector) answer.new state.new }
    ensures invariants { MeetsInvariants state.new }
{
    if let Some(rule) = crtc_refusal(state, caller, crtc, framebuffer, connector) {
        answer.set_denied(rule);
        return;
    }
    state.modes.setcrtc(crtc, framebuffer);
    state.modes.laws();
    answer.set_done();
}

/// Sets the framebuffer that a plane shows on a CRTC, of any client, or makes the plane dark if it is 0 (MODE_SETPLANE;
/// drm-uapi, mode setting). The CRTC is then not used. Does not allocate.
///
/// A denial changes nothing. The call is denied in these cases:
///
/// - The caller does not see the plane, or the CRTC that is to show it.
/// - The framebuffer does not exist.
/// - The plane can't be shown on the CRTC.
pub fn set_plane(
    state: &mut State,
    caller: PrimaryCaller,
    plane: u32,
    crtc: u32,
    framebuffer: u32,
    answer: &mut Answer,
)
    requires invariants { MeetsInvariants state.old }
    requires caller { IsPrimaryCaller state.old caller }
    ensures refines { RefinesReply state.old caller.client (SetPlane plane crtc framebuffer) answer.new state.new }
    ensures invariants { MeetsInvariants state.new }
{
    if let Some(rule) = plane_refusal(state, caller, plane, crtc, framebuffer) {
        answer.set_denied(rule);
        return;
    }
    state.modes.setplane(plane, framebuffer);
    state.modes.laws();
    answer.set_done();
}

/// The first rule of MODE_SETCRTC that fails; what follows it isn't looked up.
fn crtc_refusal(
    state: &State,
    caller: PrimaryCaller,
    crtc: u32,
    framebuffer: u32,
    connector: u32,
) -> Option<Rule>
    ensures { result ≡ scanned.crtc_refusal state.now caller crtc framebuffer connector }
{
    if !sees_route(state, caller, crtc, connector) {
        return Some(Rule::NoModeObject);
    }
    if !can_show(state, framebuffer) {
        return Some(Rule::NoFb);
    }
    if !is_route(state, crtc, framebuffer, connector) {
        return Some(Rule::BadRoute);
    }
    None
}

/// The first rule of MODE_SETPLANE that fails; what follows it isn't looked up.
fn plane_refusal(
    state: &State,
    caller: PrimaryCaller,
    plane: u32,
    crtc: u32,
    framebuffer: u32,
) -> Option<Rule>
    ensures { result ≡ scanned.plane_refusal state.now caller plane crtc framebuffer }
{
    if !sees_plane_route(state, caller, plane, crtc, framebuffer) {
        return Some(Rule::NoModeObject);
    }
    if !can_show(state, framebuffer) {
        return Some(Rule::NoFb);
    }
    if !is_plane_route(state, plane, crtc, framebuffer) {
        return Some(Rule::BadRoute);
    }
    None
}

/// Returns whether the client sees a CRTC, and a connector unless that is 0.
fn sees_route(state: &State, caller: PrimaryCaller, crtc: u32, connector: u32) -> bool
    ensures { result ≡ scanned.sees_route state.now caller crtc connector }
{
    let Some(seen) = view_with(state, caller, Kind::Crtc, crtc) else {
        return false;
    };
    connector == 0 || is_seen(&state.modes, seen, Kind::Connector, connector)
}

/// Returns whether there is a framebuffer with a connector that a CRTC reaches, or neither.
fn is_route(state: &State, crtc: u32, framebuffer: u32, connector: u32) -> bool
    ensures { result ≡ scanned.is_route state.now crtc framebuffer connector }
{
    if connector == 0 {
        return framebuffer == 0;
    }
    framebuffer != 0 && state.modes.reaches(connector, crtc)
}

/// Whether the client sees a plane, and a CRTC unless the plane becomes dark.
fn sees_plane_route(
    state: &State,
    caller: PrimaryCaller,
    plane: u32,
    crtc: u32,
    framebuffer: u32,
) -> bool
    ensures { result ≡ scanned.sees_plane_route state.now caller plane crtc framebuffer }
{
    let Some(seen) = view_with(state, caller, Kind::Plane, plane) else {
        return false;
    };
    framebuffer == 0 || is_seen(&state.modes, seen, Kind::Crtc, crtc)
}

/// Returns whether a plane can be shown on a CRTC, or becomes dark.
fn is_plane_route(state: &State, plane: u32, crtc: u32, framebuffer: u32) -> bool
    ensures { result ≡ scanned.is_plane_route state.now plane crtc framebuffer }
{
    framebuffer == 0 || state.modes.drives(plane, crtc)
}

/// Returns whether an id is that of a framebuffer, or 0 for none.
fn can_show(state: &State, framebuffer: u32) -> bool
    ensures { result ≡ shown.can_show state.now.modes framebuffer }
{
    framebuffer == 0 || state.modes.fb(framebuffer).is_some()
}
