//! What a caller sees of the fixed mode objects.

ghost use Rattle.std.specs.Prelude.{◌≡◌, ℕ, [], IsTrue, IfSome, filter, ◌&&◌, true};
ghost use Rattle.std.specs.Option.{is_some};
ghost use Rattle.drm_leases.specs.Views.{is_in_view};
ghost use Rattle.drm_modes.specs.Topology.{Topology, ids_of_kind, is_of_kind, mask_over};
ghost use Rattle.drm_modes.specs.declared.kinds.Kind.TheVariants.{Crtc};
ghost use Rattle.drm_state.specs.Seeing as views;

use drm_leases::{Controlled, View};
use drm_modes::{Kind, Modes};
use drm_state::{PrimaryCaller, State};
use drm_table::ShownList;

/// Returns what a caller sees of the fixed mode objects. Does not allocate.
pub(crate) fn view(state: &State, caller: PrimaryCaller) -> View
    ensures { (x : ℕ) → is_in_view state.now.modes.topology result x ≡ views.sees state.now caller x }
{
    state.leases.view(&state.masters, caller.member.master, caller.flags.universal)
}

/// Returns what a caller sees, if it sees an object of a kind with this id. Does not allocate.
pub(crate) fn view_with(state: &State, caller: PrimaryCaller, kind: Kind, id: u32) -> Option<View>
    ensures object { is_some result ≡ views.sees_object state.now caller kind id }
    ensures view { IfSome result (λ seen. (x : ℕ) → is_in_view state.now.modes.topology seen x ≡ views.sees state.now caller x) }
{
    if !state.modes.is_of_kind(kind, id) {
        return None;
    }
    let seen = view(state, caller);
    if !seen.sees(&state.modes, id) {
        return None;
    }
    Some(seen)
}

/// Returns whether a view has an object of a kind with this id. Does not allocate.
pub(crate) fn is_seen(modes: &Modes, view: View, kind: Kind, id: u32) -> bool
    ensures { result ≡ (is_of_kind modes.now.topology kind id && is_in_view modes.now.topology view id) }
{
    modes.is_of_kind(kind, id) && view.sees(modes, id)
}

/// Returns the objects of a kind that a caller sees, rising (drm-uapi, leases; that they rise is own). Does not
/// allocate.
#[tactic(auto, using(std::proofs::lemmas::List::Elements::filter_agree))]
pub(crate) fn visible(state: &State, caller: PrimaryCaller, kind: Kind) -> ShownList
    ensures { result ≡ views.visible state.now caller kind }
{
    let mut seen = ShownList::new();
    put_ids_in(&state.modes, view(state, caller), kind, &mut seen);
    seen
}

/// Puts the objects of a kind that are in a view, rising, into an empty list. Does not allocate.
pub(crate) fn put_ids_in(modes: &Modes, view: View, kind: Kind, seen: &mut ShownList)
    requires empty { seen.old ≡ [] }
    ensures { seen.new ≡ filter (is_in_view modes.now.topology view) (ids_of_kind modes.now.topology kind) }
{
    if has_all(view) {
        modes.laws();
        modes.append_ids(kind, seen);
        return;
    }
    let ids = modes.ids(kind);
    for id in ids.ids() {
        if view.sees(modes, *id) {
            seen.push(*id);
        }
    }
}

/// Returns whether a view leaves out no mode object, whatever the topology. Does not allocate.
fn has_all(view: View) -> bool
    ensures { IsTrue result → (t : Topology) (x : ℕ) → is_in_view t view x ≡ true }
{
    match view.controlled {
        Controlled::All => view.universal,
        Controlled::Lease(_) => false,
    }
}

/// Returns the possible CRTCs of a plane or an encoder among those in a view, as a mask. Bit i is the i-th of them
/// (drm-uapi, leases; for planes own). Returns 0 for any other id. Does not allocate.
#[tactic(auto, using(drm_modes::proofs::Fixed::picked_crtcs))]
pub(crate) fn visible_mask(modes: &Modes, view: View, id: u32) -> u32
    ensures { result ≡ mask_over modes.now.topology id (filter (is_in_view modes.now.topology view) (ids_of_kind modes.now.topology Crtc)) }
{
    let mut crtcs = ShownList::new();
    put_ids_in(modes, view, Kind::Crtc, &mut crtcs);
    modes.mask(id, &crtcs)
}
