//! The kinds of the planes above a line, and the encoders of a topology's connectors.

ghost use Rattle.std.specs.Prelude.{◌≡◌, ◌≤◌, ◌+◌, map, length};
ghost use Rattle.std.specs.List.{AllByRecursion, list_any};
ghost use Rattle.drm_modes.specs.PlaneKinds.{is_kind};
ghost use Rattle.drm_runs.specs.Causes.{has_such_plane};

use arrayvec::ArrayVec;
use drm_modes::PlaneKind;

/// The most mode objects of a topology.
pub(crate) const MOST_OBJECTS: usize = 64;

/// Returns whether a CRTC has a plane of this kind. Always false for overlay planes, which may be any number.
pub(crate) fn has_such_plane(planes: &[PlaneKind], kind: PlaneKind) -> bool
    ensures { result ≡ has_such_plane planes.now kind }
{
    kind.crtc().is_some() && has_kind(planes, kind)
}

/// Returns whether a plane is of this kind.
fn has_kind(planes: &[PlaneKind], kind: PlaneKind) -> bool
    ensures { result ≡ list_any (is_kind kind) planes.now }
{
    planes.iter().any(|plane| is_kind(kind, *plane))
}

/// Returns whether both are of the same kind.
fn is_kind(kind: PlaneKind, other: PlaneKind) -> bool
    ensures { result ≡ is_kind kind other }
{
    match kind {
        PlaneKind::Overlay => matches!(other, PlaneKind::Overlay),
        PlaneKind::Primary(crtc) => matches!(other, PlaneKind::Primary(same) if same == crtc),
        PlaneKind::Cursor(crtc) => matches!(other, PlaneKind::Cursor(same) if same == crtc),
    }
}

/// Returns the ids of the encoders at these places, from 1, after `before` objects.
pub(crate) fn encoder_ids(before: u32, places: &[u32]) -> ArrayVec<u32, MOST_OBJECTS>
    requires few { length places.now ≤ MOST_OBJECTS }
    requires few_before { before ≤ 72 }
    requires each { AllByRecursion (λ place. place ≤ 64) places.now }
    ensures { result.items ≡ map (λ place. before + place) places.now }
{
    let mut ids = ArrayVec::new();
    for place in places {
        ids.push(before + *place);
    }
    ids
}
