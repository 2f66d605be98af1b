//! Leases that are made and revoked.

ghost use Rattle.std.specs.Prelude.{◌≡◌, true};
ghost use Rattle.drm_leases.specs.Agreed.{AreAgreed};
ghost use Rattle.drm_leases.specs.Rules.{lease_checks};
ghost use Rattle.drm_masters.specs.Masters.{is_option};
ghost use Rattle.drm_table.specs.Permit.{first_failing};
ghost use Rattle.drm_table.specs.declared.calls.Call.TheVariants.{CreateLease, RevokeLease};
ghost use Rattle.drm_state.specs.Callers.{IsPrimaryCaller};
ghost use Rattle.drm_state.specs.Invariants.{MeetsInvariants, StepPrecondition};
ghost use Rattle.drm_state.specs.Places.{outcome};
ghost use Rattle.drm_state.specs.Refinement.{RefinesCall, RefinesReply};

use drm_leases::LeaseFault;
use drm_state::{Memory, PrimaryCaller, State};
use drm_table::{Answer, IdList, Rule};
use std::alloc::AllocError;

/// Creates a lessee of the caller's master, by the step of this number, with a lease of these mode objects, and the
/// token that opens it (MODE_CREATE_LEASE; drm-uapi, leases). The order of the rules and the token are own.
///
/// With universal planes off, the lease also has the primary and the cursor plane of each listed CRTC that the caller
/// controls (own). If memory is refused, nothing changes.
pub fn create_lease(
    state: &mut State,
    step_number: u32,
    memory: Memory,
    caller: PrimaryCaller,
    ids: &IdList,
    answer: &mut Answer,
) -> Result<(), AllocError>
    requires precondition { StepPrecondition state.old step_number }
    requires caller { IsPrimaryCaller state.old caller }
    ensures refines { RefinesCall state.old step_number caller.client (CreateLease ids.now) (outcome result answer.new) state.new }
    ensures invariants { MeetsInvariants state.new }
{
    let listed = ids.ids();
    if memory.is_refused() && refusal(state, caller, listed).is_none() {
        return Err(AllocError);
    }
    match state.leases.create(
        &mut state.masters,
        &state.modes,
        caller.client,
        caller.flags.universal,
        listed,
        step_number,
    ) {
        Ok(made) => {
            state.masters.laws();
            state.leases.laws();
            *answer = Answer::Lease {
                id: made.id,
                token: made.token,
            };
            Ok(())
        }
        Err(LeaseFault::Denied(rule)) => {
            answer.set_denied(rule);
            Ok(())
        }
        Err(LeaseFault::NoMemory) => Err(AllocError),
    }
}

/// Returns the first rule that denies a lease of these mode objects to the caller. Does not allocate.
#[cold]
fn refusal(state: &State, caller: PrimaryCaller, listed: &[u32]) -> Option<Rule>
    requires agreed { AreAgreed state.now.leases state.now.masters }
    requires caller { IsPrimaryCaller state.now caller }
    ensures { result ≡ first_failing (lease_checks state.now.leases state.now.masters state.now.modes caller.member.master caller.flags.universal listed.now) }
{
    state.leases.create_refusal(
        &state.masters,
        &state.modes,
        caller.client,
        caller.flags.universal,
        listed,
    )
}

/// Ends the lease of a direct lessee of the caller's master, and all that was lent from it (MODE_REVOKE_LEASE;
/// drm-uapi, leases). That a lessee which no client redeemed is freed is own. Does not allocate.
pub fn revoke_lease(state: &mut State, caller: PrimaryCaller, lessee: u32, answer: &mut Answer)
    requires invariants { MeetsInvariants state.old }
    requires caller { IsPrimaryCaller state.old caller }
    ensures refines { RefinesReply state.old caller.client (RevokeLease lessee) answer.new state.new }
    ensures invariants { MeetsInvariants state.new }
{
    let member = caller.member;
    let Some(master) = state.masters.master(member.master) else {
        unreachable!()
    };
    let Some(key) = state.masters.lessee(master.key, lessee) else {
        answer.set_denied(Rule::NoLessee);
        return;
    };
    let Some(found) = state.masters.of_key(key) else {
        unreachable!()
    };
    if !is_lent_by(found.lessor, member.master) {
        answer.set_denied(Rule::NotYourLessee);
        return;
    }
    state.leases.revoke(&mut state.masters, key);
    state.masters.laws();
    state.leases.laws();
    answer.set_done();
}

/// Returns whether a lessor, if there is one, is this master.
fn is_lent_by(lessor: Option<u32>, master: u32) -> bool
    ensures { result ≡ is_option master lessor }
{
    match lessor {
        Some(lessor) => lessor == master,
        None => false,
    }
}
