//! The rules of CREATE_LEASE (drm-uapi, leases), each over all ids.

ghost use Rattle.std.specs.Prelude.{◌≡◌, ◌==◌, ◌+◌, ◌≤◌, drop, filter, length};
ghost use Rattle.std.specs.List.{list_any, list_all};
ghost use Rattle.drm_index_array.specs.Numbers as numbers;
ghost use Rattle.drm_modes.specs.Topology as topology;
ghost use Rattle.drm_leases.specs.Leases as sets;
ghost use Rattle.drm_leases.specs.Masks.{grants_in};
ghost use Rattle.drm_leases.specs.Rules as rules;
ghost use Rattle.drm_leases.specs.Views.{is_controlled, is_in_view};
ghost use Rattle.drm_modes.specs.LeaseRules as lease_rules;
ghost use Rattle.drm_modes.specs.Modes.{has_framebuffer};

use crate::granted::Granted;
use crate::searches::controlled;
use crate::views::{Controlled, View};
use drm_masters::Masters;
use drm_modes::{Kind, Modes};
use drm_table::ShownList;

/// The depth at which a lessee cannot create a lease (own).
const LAST_DEPTH: u32 = 8;

/// Returns whether a master may lease: an owner, or a lessee that is not at the last depth (own).
pub fn may_lease(masters: &Masters, master: u32) -> bool
    ensures { result ≡ rules.may_lease masters.now.masters master }
{
    masters.depth(master) < LAST_DEPTH
}

/// Returns whether each id is that of a fixed mode object that a client of a master sees, or of any client's
/// framebuffer. Which planes the client sees depends on universal planes.
pub fn are_seen(
    granted: &Granted,
    masters: &Masters,
    modes: &Modes,
    master: u32,
    universal: bool,
    ids: &[u32],
) -> bool
    ensures { result ≡ list_all (rules.is_seen (grants_in granted.now.rows) masters.now.masters modes.now master universal) ids.now }
{
    let view = View {
        controlled: controlled(granted, masters, master),
        universal,
    };
    ids.iter().all(|id| is_seen(view, modes, *id))
}

/// Returns whether an id is that of a fixed mode object that is in a client's view, or of any client's framebuffer.
fn is_seen(view: View, modes: &Modes, id: u32) -> bool
    ensures { result ≡ lease_rules.is_seen modes.now.topology (is_in_view modes.now.topology view id) (has_framebuffer modes.now id) id }
{
    (modes.kind(id).is_some() && view.sees(modes, id)) || modes.fb(id).is_some()
}

/// Returns the planes that are added to a lease. With universal planes off, these are the primary and the cursor plane
/// of each listed CRTC that the master controls.
#[inline(always)]
pub fn planes_along(
    granted: &Granted,
    masters: &Masters,
    modes: &Modes,
    master: u32,
    universal: bool,
    ids: &[u32],
) -> ShownList
    ensures { result ≡ rules.brought_along (grants_in granted.now.rows) masters.now.masters modes.now.topology master universal ids.now }
{
    if universal {
        return ShownList::new();
    }
    let planes = modes.planes_of(ids);
    passing_planes(controlled(granted, masters, master), planes.ids())
}

/// Returns the planes that are controlled.
#[inline(always)]
fn passing_planes(controlled: Controlled, planes: &[u32]) -> ShownList
    requires { length planes.now ≤ 64 }
    ensures { result ≡ filter (is_controlled controlled) planes.now }
{
    let mut list = ShownList::new();
    for plane in planes {
        if controlled.has(*plane) {
            list.push(*plane);
        }
    }
    list
}

/// Returns whether each may be leased: an encoder and a framebuffer may not.
pub fn are_leasable(modes: &Modes, ids: &[u32]) -> bool
    ensures { result ≡ list_all (rules.is_leasable modes.now) ids.now }
{
    ids.iter().all(|id| is_leasable(modes, *id))
}

fn is_leasable(modes: &Modes, id: u32) -> bool
    ensures { result ≡ rules.is_leasable modes.now id }
{
    !(modes.is_of_kind(Kind::Encoder, id) || modes.fb(id).is_some())
}

/// Returns whether no id occurs twice.
pub fn stand_once(ids: &[u32]) -> bool
    ensures { result ≡ list_all (rules.stands_once ids.now) ids.now }
{
    ids.iter().all(|id| count(ids, *id) == 1)
}

fn count(ids: &[u32], number: u32) -> usize
    ensures { result ≡ numbers.count ids.now number }
{
    ids.iter().filter(|id| **id == number).count()
}

/// Returns whether they are a lease: a CRTC and a connector are among them, and with universal planes on a plane.
pub fn is_lease(modes: &Modes, universal: bool, ids: &[u32]) -> bool
    ensures { result ≡ rules.is_lease modes.now.topology universal ids.now }
{
    has_kind(modes, Kind::Crtc, ids)
        && has_kind(modes, Kind::Connector, ids)
        && (!universal || has_kind(modes, Kind::Plane, ids))
}

fn has_kind(modes: &Modes, kind: Kind, ids: &[u32]) -> bool
    ensures { result ≡ list_any (topology.is_of_kind modes.now.topology kind) ids.now }
{
    ids.iter().any(|id| modes.is_of_kind(kind, *id))
}
