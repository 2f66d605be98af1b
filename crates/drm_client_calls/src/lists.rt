//! LIST_HANDLES: what a client holds.

ghost use Rattle.std.specs.Prelude.{◌≡◌, true};
ghost use Rattle.drm_files.specs.Files.{is_open_client};
ghost use Rattle.drm_table.specs.declared.calls.Call.TheVariants.{ListHandles};
ghost use Rattle.drm_state.specs.Invariants.{MeetsInvariants};
ghost use Rattle.drm_state.specs.Refinement.{RefinesReply};

use drm_state::State;
use drm_table::Answer;

/// Returns the caller's handles from a number on, in rising order, 64 at most (LIST_HANDLES, own). Does not allocate
/// and needs no limit.
pub fn list_handles(state: &State, client: u32, from: u32, answer: &mut Answer)
    requires invariants { MeetsInvariants state.now }
    requires open_client { is_open_client state.now.files client ≡ true }
    ensures { RefinesReply state.now client (ListHandles from) answer.new state.now }
{
    answer.set_list(state.files.handles_of(client, from));
}
