//! The parts of a topology that the lines so far define.

ghost use Rattle.std.specs.Prelude.{◌≡◌, ◌≤◌, unwrap_or, length};

use crate::causes::Unfit;
use crate::lists::{MOST_OBJECTS, encoder_ids, has_such_plane};
use crate::words::{first_number, mask_of, only_number};
use arrayvec::ArrayVec;
use drm_modes::{PlaneKind, Topology};

/// The most CRTCs of a topology.
const MOST_CRTCS: u32 = 8;

/// The objects that the lines so far define. Each function takes a line without its first word.
#[derive(Drop)]
pub(crate) struct Parts {
    crtcs: Option<u32>,
    planes: ArrayVec<u32, MOST_OBJECTS>,
    /// The kind of each plane.
    kinds: ArrayVec<PlaneKind, MOST_OBJECTS>,
    encoders: ArrayVec<u32, MOST_OBJECTS>,
    /// The encoder of each connector, by its place among the encoders, from 1.
    connectors: ArrayVec<u32, MOST_OBJECTS>,
    ghost few_crtcs: { unwrap_or crtcs 0 ≤ 8 },
    ghost one_kind_each: { length kinds.items ≡ length planes.items },
}

impl Parts {
    ghost use Rattle.std.specs.Prelude.{◌≡◌, ◌≤◌, true, [], ◌∷◌, ◌++◌, is_some, option_map, IfOk, OnOk};
    ghost use Rattle.std.specs.List.{AllByRecursion};
    ghost use Rattle.std.specs.Result.{result_err};
    ghost use Rattle.drm_modes.specs.Topology.{is_topology};
    ghost use Rattle.drm_script.specs.Words.{words_of};
    ghost use Rattle.drm_runs.specs.Causes.{first_cause, has_room, mask_cause, plane_cause, own_plane_cause, crtcs_cause, encoder_cause, connector_cause};
    ghost use Rattle.drm_runs.specs.TopologyLines.{only_number, mask_of, own_crtc, encoder_place};
    ghost use Rattle.drm_runs.specs.Parts.{told_in};
    ghost use Rattle.drm_runs.specs.Told.{nothing_told, topology_told};

    pub(crate) fn new() -> Parts
        ensures { told_in result ≡ nothing_told }
    {
        Parts {
            crtcs: None,
            planes: ArrayVec::new(),
            kinds: ArrayVec::new(),
            encoders: ArrayVec::new(),
            connectors: ArrayVec::new(),
        }
    }

    /// Returns whether one more object fits.
    fn has_room(&self) -> bool
        ensures { result ≡ has_room (told_in self.now) }
    {
        let crtcs = self.crtcs.unwrap_or(0) as usize;
        crtcs + self.planes.len() + self.encoders.len() + self.connectors.len() < MOST_OBJECTS
    }

    /// Returns the mask of the CRTCs that a plane or an encoder names.
    #[tactic(auto, unfolding(crate::specs::Causes::mask_cause))]
    fn crtc_mask(&self, text: &[u8]) -> Result<u32, Unfit>
        ensures cause { result_err result ≡ mask_cause (told_in self.now) (words_of text.now) }
        ensures mask { IfOk result (λ mask. mask ≡ mask_of (words_of text.now)) }
    {
        let Some(count) = self.crtcs else {
            return Err(Unfit::NoCrtcs);
        };
        mask_of(text, count)
    }

    /// Reads a line `crtcs N`.
    pub(crate) fn set_crtcs(&mut self, text: &[u8]) -> Result<(), Unfit>
        ensures cause { result_err result ≡ crtcs_cause (told_in self.old) (words_of text.now) }
        ensures ok { OnOk result (told_in self.new ≡ record (told_in self.old) { crtcs = only_number (words_of text.now) }) }
    {
        let Some(count) = only_number(text) else {
            return Err(Unfit::CrtcCount);
        };
        if self.crtcs.is_some() {
            return Err(Unfit::SecondCrtcs);
        }
        if count < 1 || count > MOST_CRTCS {
            return Err(Unfit::CrtcCount);
        }
        self.crtcs = Some(count);
        Ok(())
    }

    /// Adds a plane with this mask. A CRTC has at most one primary and one cursor plane.
    fn add_plane(&mut self, mask: u32, kind: PlaneKind) -> Result<(), Unfit>
        ensures cause { result_err result ≡ plane_cause (told_in self.old) kind }
        ensures ok { OnOk result (told_in self.new ≡ record (told_in self.old) {
          planes = self.old.planes.items ++ mask ∷ [];
          kinds = self.old.kinds.items ++ kind ∷ [];
        }) }
    {
        if !self.has_room() {
            return Err(Unfit::TooMany);
        }
        if has_such_plane(self.kinds.as_slice(), kind) {
            return Err(Unfit::SecondPlane);
        }
        self.planes.push(mask);
        self.kinds.push(kind);
        Ok(())
    }

    /// Reads a line `plane CRTC..`.
    pub(crate) fn add_overlay(&mut self, text: &[u8]) -> Result<(), Unfit>
        ensures cause { result_err result ≡ first_cause (mask_cause (told_in self.old) (words_of text.now) ∷ plane_cause (told_in self.old) PlaneKind.Overlay ∷ []) }
        ensures ok { OnOk result (told_in self.new ≡ record (told_in self.old) {
          planes = self.old.planes.items ++ mask_of (words_of text.now) ∷ [];
          kinds = self.old.kinds.items ++ PlaneKind.Overlay ∷ [];
        }) }
    {
        let mask = self.crtc_mask(text)?;
        self.add_plane(mask, PlaneKind::Overlay)
    }

    /// Reads a line `primary CRTC..`.
    pub(crate) fn add_primary(&mut self, text: &[u8]) -> Result<(), Unfit>
        ensures cause { result_err result ≡ own_plane_cause (told_in self.old) PlaneKind.Primary (words_of text.now) }
        ensures ok { OnOk result (told_in self.new ≡ record (told_in self.old) {
          planes = self.old.planes.items ++ mask_of (words_of text.now) ∷ [];
          kinds = self.old.kinds.items ++ PlaneKind.Primary (own_crtc (words_of text.now)) ∷ [];
        }) }
    {
        let mask = self.crtc_mask(text)?;
        let Some(crtc) = first_number(text) else {
            return Err(Unfit::NoCrtcOfItsOwn);
        };
        self.add_plane(mask, PlaneKind::Primary(crtc))
    }

    /// Reads a line `cursor CRTC..`.
    pub(crate) fn add_cursor(&mut self, text: &[u8]) -> Result<(), Unfit>
        ensures cause { result_err result ≡ own_plane_cause (told_in self.old) PlaneKind.Cursor (words_of text.now) }
        ensures ok { OnOk result (told_in self.new ≡ record (told_in self.old) {
          planes = self.old.planes.items ++ mask_of (words_of text.now) ∷ [];
          kinds = self.old.kinds.items ++ PlaneKind.Cursor (own_crtc (words_of text.now)) ∷ [];
        }) }
    {
        let mask = self.crtc_mask(text)?;
        let Some(crtc) = first_number(text) else {
            return Err(Unfit::NoCrtcOfItsOwn);
        };
        self.add_plane(mask, PlaneKind::Cursor(crtc))
    }

    /// Reads a line `encoder CRTC..`.
    pub(crate) fn add_encoder(&mut self, text: &[u8]) -> Result<(), Unfit>
        ensures cause { result_err result ≡ encoder_cause (told_in self.old) (words_of text.now) }
        ensures ok { OnOk result (told_in self.new ≡ record (told_in self.old) { encoders = self.old.encoders.items ++ mask_of (words_of text.now) ∷ [] }) }
    {
        let mask = self.crtc_mask(text)?;
        if !self.has_room() {
            return Err(Unfit::TooMany);
        }
        self.encoders.push(mask);
        Ok(())
    }

    /// Reads a line `connector ENCODER`.
    pub(crate) fn add_connector(&mut self, text: &[u8]) -> Result<(), Unfit>
        ensures cause { result_err result ≡ connector_cause (told_in self.old) (words_of text.now) }
        ensures ok { OnOk result (told_in self.new ≡ record (told_in self.old) { connectors = self.old.connectors.items ++ encoder_place (words_of text.now) ∷ [] }) }
    {
        let place = only_number(text).unwrap_or(0);
        let count = self.encoders.len() as u32;
        if place < 1 || place > count {
            return Err(Unfit::Encoder(count));
        }
        if !self.has_room() {
            return Err(Unfit::TooMany);
        }
        self.connectors.push(place);
        Ok(())
    }

    /// Returns the topology, if a line sets the number of CRTCs.
    pub(crate) fn topology(&self) -> Option<Topology>
        requires places { AllByRecursion (λ place. place ≤ 64) self.now.connectors.items }
        requires is { is_some self.now.crtcs ≡ true → is_topology (topology_told (told_in self.now)) ≡ true }
        ensures { result ≡ option_map (λ _. topology_told (told_in self.now)) self.now.crtcs }
    {
        let crtcs = self.crtcs?;
        let connectors = encoder_ids(crtcs + self.planes.len() as u32, self.connectors.as_slice());
        Topology::with_kinds(
            crtcs,
            self.planes.as_slice(),
            self.kinds.as_slice(),
            self.encoders.as_slice(),
            connectors.as_slice(),
        )
    }
}
