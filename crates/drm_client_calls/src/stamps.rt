//! Stamps, which represent the contents of objects.

ghost use Rattle.std.specs.Prelude.{◌≡◌, true};
ghost use Rattle.drm_files.specs.Files.{is_open_client};
ghost use Rattle.drm_table.specs.declared.calls.Call.TheVariants.{StampWrite, StampRead};
ghost use Rattle.drm_state.specs.Invariants.{MeetsInvariants};
ghost use Rattle.drm_state.specs.Refinement.{RefinesReply};

use drm_state::State;
use drm_table::{Answer, Rule};

/// Sets the stamp of the object of a handle (STAMP_WRITE, own). Does not allocate and needs no limit.
pub fn stamp_write(state: &mut State, client: u32, handle: u32, stamp: u64, answer: &mut Answer)
    requires invariants { MeetsInvariants state.old }
    requires open_client { is_open_client state.old.files client ≡ true }
    ensures refines { RefinesReply state.old client (StampWrite handle stamp) answer.new state.new }
    ensures invariants { MeetsInvariants state.new }
{
    let Some(object) = state.files.object_of(client, handle) else {
        answer.set_denied(Rule::NoHandle);
        return;
    };
    state.objects.set_stamp(object, stamp);
    answer.set_done();
}

/// Returns the stamp of the object of a handle (STAMP_READ, own). Does not allocate and needs no limit.
pub fn stamp_read(state: &State, client: u32, handle: u32, answer: &mut Answer)
    requires invariants { MeetsInvariants state.now }
    requires open_client { is_open_client state.now.files client ≡ true }
    ensures { RefinesReply state.now client (StampRead handle) answer.new state.now }
{
    let Some(object) = state.files.object_of(client, handle) else {
        answer.set_denied(Rule::NoHandle);
        return;
    };
    answer.set_number(state.objects.stamp(object));
}
