//! The fixed mode objects.

ghost use Rattle.std.specs.Prelude.{◌≡◌, ℕ, [], ◌==◌, true, false, slice_get, ◌<◌, ◌≤◌, ◌+◌, ◌++◌, ◌^◌, ◌↔◌, ◌&&◌, nat_le, nat_lt, length, IsTrue, IsSome, IfSome};
ghost use Rattle.std.specs.Bool.{OnTrue};
ghost use Rattle.std.specs.Int.{bit_at};
ghost use Rattle.std.specs.Option.{option_map_or};
ghost use Rattle.std.specs.List.{list_all};
ghost use Rattle.drm_modes.specs.Topology as fixed;
ghost use Rattle.drm_modes.specs.Topology.{IsTopology, AreCrtcs};
ghost use Rattle.drm_modes.specs.Numbers.{numbers_from};
ghost use Rattle.drm_index_array.specs.Numbers.{is_among};
ghost use Rattle.drm_modes.specs.Topologies.{topology_of, topology_with};
ghost use Rattle.drm_modes.specs.Modes.{scanout_count};

use crate::kinds::{Kind, PlaneKind};
use crate::planes::{are_kinds, is_possible, overlays};
use arrayvec::ArrayVec;
use drm_table::ShownList;
use std::alloc::AllocError;
use std::marker::Model;

/// CRTCs, planes, encoders and connectors, with ids from 1 in that order (drm-uapi, mode setting).
///
/// # Examples
///
/// ```rust
/// use drm_modes::{Kind, Topology};
///
/// let Some(topology) = Topology::new(2, &[1, 2], &[3, 2], &[5, 6]) else { return };
/// assert!(rt; topology.kind(8) == Some(Kind::Connector));
/// assert!(rt; Topology::new(1, &[2], &[1], &[1]).is_none());
/// ```
#[derive(Drop)]
pub struct Topology {
    crtcs: u32,
    planes: ArrayVec<u32, 64>,
    kinds: ArrayVec<PlaneKind, 64>,
    encoders: ArrayVec<u32, 64>,
    connectors: ArrayVec<u32, 64>,
}

impl Model for Topology {
    ghost use Rattle.std.specs.Prelude.{◌≡◌, true};
    ghost use Rattle.drm_modes.specs.Topology.{Topology as Fixed};
    ghost use Rattle.drm_modes.specs.Topology.{is_topology};

    ghost Value = { Fixed };

    ghost use Rattle.drm_modes.specs.Topologies.{topology_with};

    ghost view = { λ t. topology_with t.crtcs t.planes.items t.kinds.items t.encoders.items t.connectors.items };

    ghost invariant = { λ t. is_topology (topology_with t.crtcs t.planes.items t.kinds.items t.encoders.items t.connectors.items) ≡ true };
}

/// Copies the topology. Does not allocate and never fails.
impl Clone for Topology {
    ghost use Rattle.std.specs.Prelude.{◌≡◌, ⊤};

    ghost is_clone = { λ topology copy. copy ≡ topology };

    ghost is_infallible = { λ _. ⊤ };

    fn clone(&self) -> Result<Topology, AllocError> {
        Ok(Topology {
            crtcs: self.crtcs,
            planes: list_of(self.planes.as_slice()),
            kinds: list_of(self.kinds.as_slice()),
            encoders: list_of(self.encoders.as_slice()),
            connectors: list_of(self.connectors.as_slice()),
        })
    }
}

impl Topology {
    /// Creates a topology with only overlay planes, or returns `None` if there is none with these parts. Does not
    /// allocate.
    ///
    /// There are `crtcs` CRTCs. `planes` and `encoders` have a mask of the CRTCs that each may drive: bit i is CRTC i +
    /// 1, and 0 is allowed. `connectors` has the id of each one's encoder.
    ///
    /// There must be 1 to 8 CRTCs, and at most 64 objects (both own). Masks and connectors must name objects of the
    /// topology.
    pub fn new(crtcs: u32, planes: &[u32], encoders: &[u32], connectors: &[u32]) -> Option<Topology>
        ensures made { IsSome result ↔ IsTrue (fixed.is_topology (topology_of crtcs planes.now encoders.now connectors.now)) }
        ensures value { IfSome result (λ topology. topology ≡ topology_of crtcs planes.now encoders.now connectors.now) }
    {
        if !are_objects(crtcs, planes, encoders, connectors) {
            return None;
        }
        Some(Topology {
            crtcs,
            planes: list_of(planes),
            kinds: overlays(planes.len() as u32),
            encoders: list_of(encoders),
            connectors: list_of(connectors),
        })
    }

    /// Creates a topology with planes of these kinds, or returns `None` if there is none (drm-uapi, universal planes).
    /// Does not allocate.
    ///
    /// In addition to the conditions of [`Topology::new`], there must be one kind for each plane. The CRTC of a kind
    /// must be a possible one of its plane. A CRTC may have at most one primary and one cursor plane.
    pub fn with_kinds(
        crtcs: u32,
        planes: &[u32],
        kinds: &[PlaneKind],
        encoders: &[u32],
        connectors: &[u32],
    ) -> Option<Topology>
        ensures made { IsSome result ↔ IsTrue (fixed.is_topology (topology_with crtcs planes.now kinds.now encoders.now connectors.now)) }
        ensures value { IfSome result (λ topology. topology ≡ topology_with crtcs planes.now kinds.now encoders.now connectors.now) }
    {
        if !are_objects(crtcs, planes, encoders, connectors) {
            return None;
        }
        if !are_kinds(crtcs, kinds, planes) {
            return None;
        }
        Some(Topology {
            crtcs,
            planes: list_of(planes),
            kinds: list_of(kinds),
            encoders: list_of(encoders),
            connectors: list_of(connectors),
        })
    }

    /// States the facts that hold for each topology. Calling it does nothing.
    pub fn laws(&self)
        ensures { IsTopology self.now }
    {
        let _ = &self.crtcs;
    }

    /// Returns the kind of the fixed mode object with this id, or `None` if there is none. Does not allocate.
    pub fn kind(&self, id: u32) -> Option<Kind>
        ensures kind { result ≡ fixed.kind_of self.now id }
        ensures is { IfSome result (λ kind. fixed.is_of_kind self.now kind id ≡ true) }
    {
        self.laws();
        if is_in(1, self.crtcs, id) {
            return Some(Kind::Crtc);
        }
        if is_in(self.first_plane(), self.planes.len() as u32, id) {
            return Some(Kind::Plane);
        }
        if is_in(self.first_encoder(), self.encoders.len() as u32, id) {
            return Some(Kind::Encoder);
        }
        if is_in(self.first_connector(), self.connectors.len() as u32, id) {
            return Some(Kind::Connector);
        }
        None
    }

    /// Returns whether an id is that of an object of a kind. Does not allocate.
    pub fn is_of_kind(&self, kind: Kind, id: u32) -> bool
        ensures { result ≡ fixed.is_of_kind self.now kind id }
    {
        self.laws();
        match kind {
            Kind::Crtc => is_in(1, self.crtcs, id),
            Kind::Plane => is_in(self.first_plane(), self.planes.len() as u32, id),
            Kind::Encoder => is_in(self.first_encoder(), self.encoders.len() as u32, id),
            Kind::Connector => is_in(self.first_connector(), self.connectors.len() as u32, id),
        }
    }

    /// Returns the ids of the objects of a kind, in rising order. Does not allocate.
    pub fn ids(&self, kind: Kind) -> ShownList
        ensures { result ≡ fixed.ids_of_kind self.now kind }
    {
        self.laws();
        let mut ids = ShownList::new();
        self.append_ids(kind, &mut ids);
        ids
    }

    /// Appends the ids of the objects of a kind, in rising order. The list must have room for them. Does not allocate.
    pub fn append_ids(&self, kind: Kind, list: &mut ShownList)
        requires room { length list.old + length (fixed.ids_of_kind self.now kind) ≤ 64 }
        ensures { list.new ≡ list.old ++ fixed.ids_of_kind self.now kind }
    {
        self.laws();
        match kind {
            Kind::Crtc => append_numbers(1, self.crtcs, list),
            Kind::Plane => append_numbers(self.first_plane(), self.planes.len() as u32, list),
            Kind::Encoder => append_numbers(self.first_encoder(), self.encoders.len() as u32, list),
            Kind::Connector => {
                append_numbers(self.first_connector(), self.connectors.len() as u32, list)
            }
        }
    }

    /// Returns the number of fixed mode objects.
    pub fn object_count(&self) -> u32
        ensures count { result ≡ fixed.object_count self.now }
        ensures few { result ≤ 64 }
    {
        self.laws();
        self.crtcs
            + self.planes.len() as u32
            + self.encoders.len() as u32
            + self.connectors.len() as u32
    }

    /// Returns the number of CRTCs and planes.
    pub fn scanout_count(&self) -> u32
        ensures count { result ≡ scanout_count self.now }
        ensures few { result ≤ 64 }
    {
        self.laws();
        self.crtcs + self.planes.len() as u32
    }

    /// Returns the id of the first plane, or of the object after the CRTCs if there is none.
    fn first_plane(&self) -> u32
        ensures first { result ≡ fixed.first_plane self.now }
        ensures few { result + length self.now.planes ≤ 65 }
    {
        self.laws();
        self.crtcs + 1
    }

    /// Returns the id of the first encoder, or of the object after the planes if there is none.
    fn first_encoder(&self) -> u32
        ensures first { result ≡ fixed.first_encoder self.now }
        ensures few { result + length self.now.encoders ≤ 65 }
    {
        self.laws();
        self.crtcs + 1 + self.planes.len() as u32
    }

    /// Returns the id of the first connector, or the id after the encoders if there is none.
    fn first_connector(&self) -> u32
        ensures first { result ≡ fixed.first_connector self.now }
        ensures few { result + length self.now.connectors ≤ 65 }
    {
        self.laws();
        self.crtcs + 1 + self.planes.len() as u32 + self.encoders.len() as u32
    }

    /// Returns the possible CRTCs of a plane or an encoder: bit i is CRTC i + 1. Returns 0 for any other id. Does not
    /// allocate.
    pub fn possible_crtcs(&self, id: u32) -> u32
        ensures { result ≡ fixed.possible_crtcs self.now id }
    {
        self.laws();
        let plane = self.first_plane();
        if is_in(plane, self.planes.len() as u32, id) {
            return self.planes[(id - plane) as usize];
        }
        let encoder = self.first_encoder();
        if is_in(encoder, self.encoders.len() as u32, id) {
            return self.encoders[(id - encoder) as usize];
        }
        0
    }

    /// Returns whether a CRTC is a possible one of a plane or an encoder. Returns `false` if the ids are not theirs.
    /// Does not allocate.
    pub fn drives(&self, id: u32, crtc: u32) -> bool
        ensures { result ≡ fixed.drives self.now id crtc }
    {
        self.laws();
        is_possible(self.crtcs, self.possible_crtcs(id), crtc)
    }

    /// Returns the kind of a plane, or `None` if the id is not that of a plane. Does not allocate.
    pub fn plane_kind(&self, id: u32) -> Option<PlaneKind>
        ensures { result ≡ fixed.plane_kind self.now id }
    {
        self.laws();
        let first = self.first_plane();
        if !is_in(first, self.planes.len() as u32, id) {
            return None;
        }
        Some(self.kinds[(id - first) as usize])
    }

    /// Returns the CRTC of a primary or cursor plane, or `None` for any other id. Does not allocate.
    pub fn crtc_of_plane(&self, id: u32) -> Option<u32>
        ensures { result ≡ fixed.crtc_of_plane self.now id }
    {
        self.plane_kind(id)?.crtc()
    }

    /// Returns the primary and cursor planes of the CRTCs in a list, in rising order. Does not allocate.
    pub fn planes_of(&self, crtcs: &[u32]) -> ShownList
        ensures { result ≡ fixed.planes_of self.now crtcs.now }
    {
        let planes = self.ids(Kind::Plane);
        let mut list = ShownList::new();
        for plane in planes.ids() {
            if self.is_plane_of(*plane, crtcs) {
                list.push(*plane);
            }
        }
        list
    }

    fn is_plane_of(&self, id: u32, crtcs: &[u32]) -> bool
        ensures { result ≡ option_map_or (is_among crtcs.now) (fixed.crtc_of_plane self.now id) false }
    {
        match self.crtc_of_plane(id) {
            Some(crtc) => crtcs.contains(&crtc),
            None => false,
        }
    }

    /// Returns the encoder of a connector, or `None` if the id is not that of a connector. Does not allocate.
    pub fn encoder_of(&self, connector: u32) -> Option<u32>
        ensures { result ≡ fixed.encoder_of self.now connector }
    {
        self.laws();
        let first = self.first_connector();
        if !is_in(first, self.connectors.len() as u32, connector) {
            return None;
        }
        Some(self.connectors[(connector - first) as usize])
    }

    /// Returns whether a connector can show the picture of a CRTC: the CRTC is a possible one of the connector's
    /// encoder. Returns `false` if the ids are not theirs. Does not allocate.
    pub fn reaches(&self, connector: u32, crtc: u32) -> bool
        ensures { result ≡ fixed.reaches self.now connector crtc }
    {
        let Some(encoder) = self.encoder_of(connector) else {
            return false;
        };
        self.drives(encoder, crtc)
    }

    /// Returns the possible CRTCs of a plane or an encoder among those that are seen: bit i is the i-th of `visible`
    /// (drm-uapi, leases). Returns 0 for any other id. Does not allocate.
    pub fn mask(&self, id: u32, visible: &ShownList) -> u32
        requires { AreCrtcs self.now visible.now }
        ensures mask { result ≡ fixed.mask_over self.now id visible.now }
        ensures bits { (i : ℕ) → (bit_at result i == 1) ≡ option_map_or (fixed.drives self.now id) (slice_get visible.now i) false }
        ensures other { fixed.is_plane self.now id ≡ false → fixed.is_encoder self.now id ≡ false → result ≡ 0 }
    {
        self.mask_of(id, visible.ids())
    }

    fn mask_of(&self, id: u32, crtcs: &[u32]) -> u32
        requires { AreCrtcs self.now crtcs.now }
        ensures { result ≡ fixed.mask_over self.now id crtcs.now }
    {
        self.laws();
        let mut mask = 0;
        let mut bit = 1;
        for crtc in crtcs {
            if self.drives(id, *crtc) {
                mask += bit;
            }
            bit *= 2;
        }
        mask
    }
}

/// Appends `count` ids, from the first on, for which there is room.
fn append_numbers(first: u32, count: u32, ids: &mut ShownList)
    requires high { first + count ≤ 65 }
    requires room { length ids.old + length (numbers_from first count) ≤ 64 }
    ensures { ids.new ≡ ids.old ++ numbers_from first count }
{
    for id in first..first + count {
        ids.push(id);
    }
}

/// Returns whether an id is one of `count` ids, from the first on.
pub(crate) fn is_in(first: u32, count: u32, id: u32) -> bool
    ensures test { result ≡ is_among (numbers_from first count) id }
    ensures within { OnTrue result ((first ≤ id) × (id < first + count)) }
{
    first <= id && id - first < count
}

/// Returns whether the counts are in range, and masks and connectors name objects that exist.
#[tactic(auto, unfolding(crate::specs::Topology::are_objects))]
fn are_objects(crtcs: u32, planes: &[u32], encoders: &[u32], connectors: &[u32]) -> bool
    ensures value { result ≡ fixed.are_objects (topology_of crtcs planes.now encoders.now connectors.now) }
    ensures few { OnTrue result (length planes.now + length encoders.now + length connectors.now ≤ 64) }
    ensures few_crtcs { OnTrue result (crtcs ≤ 8) }
{
    if !are_counts(crtcs, planes.len(), encoders.len(), connectors.len()) {
        return false;
    }
    let first_encoder = crtcs + 1 + planes.len() as u32;
    are_masks(crtcs, planes)
        && are_masks(crtcs, encoders)
        && are_encoders(first_encoder, encoders.len() as u32, connectors)
}

/// Returns whether there are 1 to 8 CRTCs and at most 64 objects.
fn are_counts(crtcs: u32, planes: usize, encoders: usize, connectors: usize) -> bool
    ensures { result ≡ (nat_le 1 crtcs && nat_le crtcs 8 && nat_le (crtcs + planes + encoders + connectors) 64) }
{
    1 <= crtcs
        && crtcs <= 8
        && planes <= 64
        && encoders <= 64
        && connectors <= 64
        && crtcs as usize + planes + encoders + connectors <= 64
}

/// Returns whether each mask names only CRTCs that exist.
#[tactic(auto, using(std::proofs::lemmas::Nat::one_shl))]
fn are_masks(crtcs: u32, masks: &[u32]) -> bool
    requires { crtcs ≤ 8 }
    ensures { result ≡ list_all (λ mask. nat_lt mask (2 ^ crtcs)) masks.now }
{
    masks.iter().all(|mask| *mask < 1 << crtcs)
}

/// Returns whether each connector's encoder is one of `count`, with ids from the first on.
fn are_encoders(first: u32, count: u32, connectors: &[u32]) -> bool
    requires { first + count ≤ 65 }
    ensures { result ≡ list_all (λ encoder. nat_le first encoder && nat_lt encoder (first + count)) connectors.now }
{
    connectors
        .iter()
        .all(|encoder| first <= *encoder && *encoder < first + count)
}

/// Returns the same, in a list of fixed size.
fn list_of<T: Copy + Default>(items: &[T]) -> ArrayVec<T, 64>
    requires { length items.now ≤ 64 }
    ensures { result.items ≡ items.now }
{
    let mut list = ArrayVec::new();
    for item in items {
        list.push(*item);
    }
    list
}
