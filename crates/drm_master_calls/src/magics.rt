//! Magics: a client's number under its master, and what it is used for.

ghost use Rattle.std.specs.Prelude.{◌≡◌, true};
ghost use Rattle.drm_table.specs.declared.calls.Call.TheVariants.{AuthMagic, GetMagic};
ghost use Rattle.drm_state.specs.Callers.{IsPrimaryCaller};
ghost use Rattle.drm_state.specs.Invariants.{MeetsInvariants};
ghost use Rattle.drm_state.specs.Refinement.{RefinesReply};

use drm_state::{PrimaryCaller, State};
use drm_table::Answer;

/// Returns the caller's number under its master (GET_MAGIC; drm(7)). A caller without a number gets the lowest free
/// one. Does not allocate.
pub fn get_magic(state: &mut State, caller: PrimaryCaller, answer: &mut Answer)
    requires invariants { MeetsInvariants state.old }
    requires caller { IsPrimaryCaller state.old caller }
    ensures refines { RefinesReply state.old caller.client GetMagic answer.new state.new }
    ensures invariants { MeetsInvariants state.new }
{
    let Ok(number) = state.masters.magic(caller.client) else {
        unreachable!()
    };
    state.masters.laws();
    answer.set_number(number as u64);
}

/// Authenticates the client that has this number under the caller's master (AUTH_MAGIC; drm(7)), and spends the number.
/// Does not allocate.
pub fn auth_magic(state: &mut State, caller: PrimaryCaller, number: u32, answer: &mut Answer)
    requires invariants { MeetsInvariants state.old }
    requires caller { IsPrimaryCaller state.old caller }
    ensures refines { RefinesReply state.old caller.client (AuthMagic number) answer.new state.new }
    ensures invariants { MeetsInvariants state.new }
{
    match state.masters.auth(caller.client, number) {
        Ok(authenticated) => {
            state.files.set_authenticated(authenticated);
            state.masters.laws();
            answer.set_done();
        }
        Err(rule) => answer.set_denied(rule),
    }
}
