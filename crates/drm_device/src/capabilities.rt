//! The version and the capabilities of the device.

ghost use Rattle.std.specs.Prelude.{◌≡◌};
ghost use Rattle.drm_table.specs.declared.calls.Call.TheVariants.{GetCap};
ghost use Rattle.drm_model.specs.Capabilities.{version_answer};
ghost use Rattle.drm_state.specs.Invariants.{MeetsInvariants};
ghost use Rattle.drm_state.specs.Refinement.{RefinesReply};

use drm_state::State;
use drm_table::{Answer, Rule};

/// The capability of dumb buffers (drm-uapi, `DRM_CAP_DUMB_BUFFER`).
const DUMB_BUFFER: u64 = 0x1;

/// The capability of PRIME, by its directions (drm-uapi, `DRM_CAP_PRIME`).
const PRIME: u64 = 0x5;

/// Returns the version of the interface (VERSION; drm-uapi).
pub fn version(answer: &mut Answer)
    ensures { answer.new ≡ version_answer }
{
    answer.set_version(1, 0, 0);
}

/// Returns a capability (GET_CAP; drm-uapi). There are dumb buffers, and PRIME in both directions. Does not allocate
/// and needs no limit.
pub fn get_cap(state: &State, client: u32, cap: u64, answer: &mut Answer)
    requires { MeetsInvariants state.now }
    ensures { RefinesReply state.now client (GetCap cap) answer.new state.now }
{
    match cap {
        DUMB_BUFFER => answer.set_number(1),
        PRIME => answer.set_number(3),
        _ => answer.set_denied(Rule::BadCap),
    }
}
