//! What a client turns on and off.

ghost use Rattle.std.specs.Prelude.{◌≡◌, ◌&&◌, nat_le, true, is_some, IfSome};
ghost use Rattle.drm_files.specs.Files.{is_open_client};
ghost use Rattle.drm_table.specs.declared.calls.Call.TheVariants.{SetClientCap};
ghost use Rattle.drm_model.specs.ClientCapabilities.{is_capability};
ghost use Rattle.drm_state.specs.Invariants.{MeetsInvariants};
ghost use Rattle.drm_state.specs.Parts.{capability_number};
ghost use Rattle.drm_state.specs.Refinement.{RefinesReply};

use drm_files::ClientCapability;
use drm_state::State;
use drm_table::{Answer, Rule};

/// The number of `DRM_CLIENT_CAP_UNIVERSAL_PLANES` (drm-uapi).
const UNIVERSAL_PLANES: u64 = 2;

/// Turns a capability of the caller on by 1 and off by 0 (SET_CLIENT_CAP; drm-uapi). Does not allocate.
pub fn set_client_cap(state: &mut State, client: u32, cap: u64, value: u64, answer: &mut Answer)
    requires invariants { MeetsInvariants state.old }
    requires open_client { is_open_client state.old.files client ≡ true }
    ensures refines { RefinesReply state.old client (SetClientCap cap value) answer.new state.new }
    ensures invariants { MeetsInvariants state.new }
{
    let Some(capability) = settable(cap, value) else {
        answer.set_denied(Rule::BadCap);
        return;
    };
    state.files.set_capability(client, capability, value == 1);
    answer.set_done();
}

/// Returns the capability of a number, if a client can set it to the value.
fn settable(cap: u64, value: u64) -> Option<ClientCapability>
    ensures settable { is_some result ≡ (is_capability cap && nat_le value 1) }
    ensures number { IfSome result (λ capability. capability_number capability ≡ cap) }
{
    if value > 1 {
        return None;
    }
    match cap {
        UNIVERSAL_PLANES => Some(ClientCapability::UniversalPlanes),
        _ => None,
    }
}
