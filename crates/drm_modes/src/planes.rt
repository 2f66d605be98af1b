//! Tests of the kinds of planes.

ghost use Rattle.std.specs.Prelude.{◌≡◌, ◌≤◌, length, filter, replicate};
ghost use Rattle.std.specs.Bool.{OnTrue};
ghost use Rattle.std.specs.List.{list_all, zip};
ghost use Rattle.drm_modes.specs.PlaneKinds.{is_kind, stands_once};
ghost use Rattle.drm_modes.specs.PlaneKinds as kinds_are;
ghost use Rattle.drm_modes.specs.declared.kinds.PlaneKind.TheVariants.{Overlay as IsOverlay};

use crate::kinds::PlaneKind;
use crate::topologies::is_in;
use arrayvec::ArrayVec;

/// Returns `count` overlay planes.
pub(crate) fn overlays(count: u32) -> ArrayVec<PlaneKind, 64>
    requires { count ≤ 64 }
    ensures { result.items ≡ replicate count IsOverlay }
{
    let mut kinds = ArrayVec::new();
    for _plane in 0..count {
        kinds.push(PlaneKind::Overlay);
    }
    kinds
}

/// Returns whether each plane has a kind whose CRTC is a possible one of it, and no CRTC has two primary or two cursor
/// planes.
#[tactic(auto, unfolding(crate::specs::PlaneKinds::are_kinds))]
pub(crate) fn are_kinds(crtcs: u32, kinds: &[PlaneKind], planes: &[u32]) -> bool
    requires { crtcs ≤ 8 }
    ensures test { result ≡ kinds_are.are_kinds crtcs kinds.now planes.now }
    ensures one_each { OnTrue result (length kinds.now ≡ length planes.now) }
{
    kinds.len() == planes.len() && fit(crtcs, kinds, planes) && stand_once(kinds)
}

/// Returns whether each plane, by the mask of its possible CRTCs, may have its kind.
fn fit(crtcs: u32, kinds: &[PlaneKind], planes: &[u32]) -> bool
    requires few { crtcs ≤ 8 }
    requires one_each { length kinds.now ≡ length planes.now }
    ensures { result ≡ list_all (kinds_are.fits crtcs) (zip kinds.now planes.now) }
{
    kinds
        .iter()
        .zip(planes.iter())
        .all(|(kind, mask)| fits(crtcs, *kind, *mask))
}

/// Returns whether a plane with this mask may have this kind: an overlay plane, or that of a possible CRTC.
fn fits(crtcs: u32, kind: PlaneKind, mask: u32) -> bool
    requires { crtcs ≤ 8 }
    ensures { result ≡ kinds_are.fits crtcs (kind, mask) }
{
    match kind.crtc() {
        None => true,
        Some(crtc) => is_possible(crtcs, mask, crtc),
    }
}

/// Returns whether a CRTC, out of `crtcs`, is one of a mask.
pub(crate) fn is_possible(crtcs: u32, mask: u32, crtc: u32) -> bool
    requires { crtcs ≤ 8 }
    ensures { result ≡ kinds_are.is_possible crtcs mask crtc }
{
    if !is_in(1, crtcs, crtc) {
        return false;
    }
    (mask >> (crtc - 1)) & 1 == 1
}

/// Returns whether no CRTC has two primary or two cursor planes.
fn stand_once(kinds: &[PlaneKind]) -> bool
    ensures { result ≡ list_all (stands_once kinds.now) kinds.now }
{
    kinds
        .iter()
        .all(|kind| kind.crtc().is_none() || count(kinds, *kind) == 1)
}

fn count(kinds: &[PlaneKind], kind: PlaneKind) -> usize
    ensures { result ≡ length (filter (is_kind kind) kinds.now) }
{
    kinds.iter().filter(|other| is_kind(kind, **other)).count()
}

fn is_kind(kind: PlaneKind, other: PlaneKind) -> bool
    ensures { result ≡ is_kind kind other }
{
    match kind {
        PlaneKind::Overlay => matches!(other, PlaneKind::Overlay),
        PlaneKind::Primary(crtc) => matches!(other, PlaneKind::Primary(same) if same == crtc),
        PlaneKind::Cursor(crtc) => matches!(other, PlaneKind::Cursor(same) if same == crtc),
    }
}
