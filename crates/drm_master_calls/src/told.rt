//! What leases there are.

ghost use Rattle.std.specs.Prelude.{◌≡◌, ◌≤◌, ◌+◌, ◌++◌, true, length};
ghost use Rattle.drm_table.specs.declared.calls.Call.TheVariants.{ListLessees, GetLease};
ghost use Rattle.drm_model.specs.Leases.{leasable_ids};
ghost use Rattle.drm_state.specs.Callers.{IsPrimaryCaller};
ghost use Rattle.drm_state.specs.Invariants.{MeetsInvariants};
ghost use Rattle.drm_state.specs.Refinement.{RefinesReply};

use drm_modes::{Kind, Modes};
use drm_state::{PrimaryCaller, State};
use drm_table::{Answer, ShownList};

/// Returns the ids of the direct lessees of the caller's master whose lease is not empty (MODE_LIST_LESSEES; drm-uapi,
/// leases), in rising order (own). Does not allocate.
pub fn list_lessees(state: &State, caller: PrimaryCaller, answer: &mut Answer)
    requires invariants { MeetsInvariants state.now }
    requires caller { IsPrimaryCaller state.now caller }
    ensures { RefinesReply state.now caller.client ListLessees answer.new state.now }
{
    let Some(master) = state.masters.master(caller.member.master) else {
        unreachable!()
    };
    answer.set_list(state.leases.list(&state.masters, master.key));
}

/// Returns the mode objects in the lease of the caller's master, in rising order (MODE_GET_LEASE; drm-uapi, leases). If
/// the master is no lessee, these are all CRTCs, planes and connectors (own). Does not allocate.
pub fn get_lease(state: &State, caller: PrimaryCaller, answer: &mut Answer)
    requires invariants { MeetsInvariants state.now }
    requires caller { IsPrimaryCaller state.now caller }
    ensures { RefinesReply state.now caller.client GetLease answer.new state.now }
{
    let Some(master) = state.masters.master(caller.member.master) else {
        unreachable!()
    };
    let list = if master.lessor.is_some() {
        state.leases.objects_of(master.key)
    } else {
        leasable(&state.modes)
    };
    answer.set_list(list);
}

/// Returns the CRTCs, planes and connectors, in this order. Does not allocate.
fn leasable(modes: &Modes) -> ShownList
    ensures { result ≡ leasable_ids modes.now.topology }
{
    modes.laws();
    let mut list = ShownList::new();
    modes.append_ids(Kind::Crtc, &mut list);
    modes.append_ids(Kind::Plane, &mut list);
    modes.append_ids(Kind::Connector, &mut list);
    list
}
