//! Framebuffers, and what is shown.

ghost use Rattle.std.specs.Prelude.{◌≡◌, [], ℕ, ◌==◌, false, ◌≤◌, ◌+◌, ◌++◌, ◌↔◌, Some, None, find, length, slice_get, is_some, true, IsTrue, OnSome, OnErr, IfOk, IfErr, IfSome, IfNone, option_map};
ghost use Rattle.std.specs.Int.{bit_at};
ghost use Rattle.std.specs.Option.{option_map_or};
ghost use Rattle.drm_modes.specs.Topology.{kind_of, ids_of_kind, is_of_kind, encoder_of, reaches, drives, possible_crtcs, plane_kind, crtc_of_plane, planes_of, mask_over, is_crtc, is_plane, is_encoder, object_count, AreCrtcs};
ghost use Rattle.drm_modes.specs.Modes.{AreModes, empty_modes, fb_of, has_framebuffer, is_framebuffer, is_framebuffer_of, is_made_by, framebuffers_of, framebuffer, free_framebuffer, with_framebuffer, without_framebuffer, can_show, shown_by, with_shown, shown_rows, scanout_count, first_framebuffer, nth_row};
ghost use Rattle.drm_modes.specs.AddFbFault.{IsFull};
ghost use Rattle.drm_modes.specs.Tables.{framebuffer_row};

use crate::faults::AddFbFault;
use crate::kinds::{Kind, PlaneKind};
use crate::rows::{Fb, Framebuffer, ModeRow, Shape, Shown};
use crate::scanouts;
use crate::topologies::Topology;
use arrayvec::ArrayVec;
use drm_gem::ObjectKey;
use drm_id_alloc::{AddFault, Groups, IdTable};
use drm_table::ShownList;
use std::alloc::Global;
use std::marker::Model;

/// The numbers of an audit's rows of framebuffers, and of what is shown (own).
const FRAMEBUFFER_KIND: u32 = 8;

const SHOWN_KIND: u32 = 9;

/// The fixed mode objects, the framebuffers, and what CRTCs and planes show (drm-uapi, mode setting). Contracts see the
/// topology, and flat lists.
///
/// # Examples
///
/// ```rust
/// use drm_gem::ObjectKey;
/// use drm_modes::{Fb, Modes, Shape, Topology};
///
/// let alloc = rt.alloc();
/// let Some(topology) = Topology::new(2, &[1, 2], &[3, 2], &[5, 6]) else { return };
/// let mut modes = Modes::new(alloc, topology, 4);
/// let shape = Shape { width: 640, height: 480, pitch: 2560, bpp: 32 };
/// let object = ObjectKey::from_number(7);
/// let Ok(framebuffer) = modes.addfb(1, shape, object) else { return };
/// assert!(rt; modes.fb(framebuffer) == Some(Fb { client: 1, shape, object }));
/// assert!(rt; modes.rmfb(2, framebuffer).is_none());
/// assert!(rt; modes.rmfb(1, framebuffer) == Some(object));
/// ```
#[derive(Drop)]
pub struct Modes {
    topology: Topology,
    framebuffers: IdTable<Fb>,
    // The framebuffers, by the clients that created them.
    owned: Groups,
    // The framebuffer of each CRTC and then of each plane, 0 for a dark one.
    scanouts: ArrayVec<u32, 64>,
}

impl Model for Modes {
    ghost use Rattle.drm_modes.specs.Modes.{ModeSet};
    ghost use Rattle.drm_modes.specs.Tables.{mode_set, HasModes};

    ghost Value = { ModeSet };

    ghost view = { λ modes. mode_set modes.topology modes.framebuffers modes.scanouts.items };

    ghost invariant = { λ modes. HasModes modes.topology modes.framebuffers modes.owned modes.scanouts.items };
}

impl Modes {
    /// Creates a table without framebuffers, in which all CRTCs and planes are dark. Does not allocate.
    ///
    /// At most `framebuffers` may exist at once. Their ids follow those of the fixed objects.
    pub fn new(alloc: Global, topology: Topology, framebuffers: u32) -> Modes
        requires some { 1 ≤ framebuffers }
        requires few { framebuffers ≤ 64 }
        ensures { result ≡ empty_modes topology framebuffers }
    {
        topology.laws();
        let objects = topology.object_count();
        let count = topology.scanout_count();
        Modes {
            topology,
            framebuffers: IdTable::new(alloc, objects + 1, objects + framebuffers),
            owned: Groups::new(alloc),
            scanouts: scanouts::dark(count),
        }
    }

    /// States the facts that always hold. Calling it does nothing.
    pub fn laws(&self)
        ensures { AreModes self.now }
    {
        let _ = &self.framebuffers;
    }

    /// Returns the kind of the fixed mode object with this id, or `None` if there is none (drm-uapi, mode setting).
    /// Does not allocate.
    pub fn kind(&self, id: u32) -> Option<Kind>
        ensures kind { result ≡ kind_of self.now.topology id }
        ensures is { IfSome result (λ kind. is_of_kind self.now.topology kind id ≡ true) }
    {
        self.topology.kind(id)
    }

    /// Returns the number of fixed mode objects. Their ids are 1 to this number (drm-uapi, mode setting; the ids are
    /// own). Does not allocate.
    pub fn object_count(&self) -> u32
        ensures count { result ≡ object_count self.now.topology }
        ensures few { result ≤ 64 }
    {
        self.topology.object_count()
    }

    /// Returns whether an id is that of a fixed mode object of a kind (drm-uapi, mode setting). Does not allocate.
    pub fn is_of_kind(&self, kind: Kind, id: u32) -> bool
        ensures { result ≡ is_of_kind self.now.topology kind id }
    {
        self.topology.is_of_kind(kind, id)
    }

    /// Returns the ids of the fixed mode objects of a kind (drm-uapi, mode setting), in rising order (own). Does not
    /// allocate.
    pub fn ids(&self, kind: Kind) -> ShownList
        ensures { result ≡ ids_of_kind self.now.topology kind }
    {
        self.topology.ids(kind)
    }

    /// Appends the ids of the fixed mode objects of a kind (drm-uapi, mode setting), in rising order (own). The list must
    /// have room for them. Does not allocate.
    pub fn append_ids(&self, kind: Kind, list: &mut ShownList)
        requires room { length list.old + length (ids_of_kind self.now.topology kind) ≤ 64 }
        ensures { list.new ≡ list.old ++ ids_of_kind self.now.topology kind }
    {
        self.topology.append_ids(kind, list);
    }

    /// Returns the encoder of a connector, or `None` if the id is not that of a connector (drm-uapi, mode setting).
    /// That a connector has one encoder is own. Does not allocate.
    pub fn encoder_of(&self, connector: u32) -> Option<u32>
        ensures { result ≡ encoder_of self.now.topology connector }
    {
        self.topology.encoder_of(connector)
    }

    /// Returns the kind of a plane, or `None` if the id is not that of a plane (drm-uapi, universal planes). Does not
    /// allocate.
    pub fn plane_kind(&self, id: u32) -> Option<PlaneKind>
        ensures { result ≡ plane_kind self.now.topology id }
    {
        self.topology.plane_kind(id)
    }

    /// Returns the CRTC of a primary or cursor plane, or `None` for any other id (drm-uapi, universal planes). Does not
    /// allocate.
    pub fn crtc_of_plane(&self, id: u32) -> Option<u32>
        ensures { result ≡ crtc_of_plane self.now.topology id }
    {
        self.topology.crtc_of_plane(id)
    }

    /// Returns the primary and cursor planes of the CRTCs in a list (drm-uapi, universal planes), in rising order
    /// (own). Does not allocate.
    pub fn planes_of(&self, crtcs: &[u32]) -> ShownList
        ensures { result ≡ planes_of self.now.topology crtcs.now }
    {
        self.topology.planes_of(crtcs)
    }

    /// Returns the possible CRTCs of a plane or an encoder: bit i is CRTC i + 1. Returns 0 for any other id. Does not
    /// allocate.
    pub fn possible_crtcs(&self, id: u32) -> u32
        ensures { result ≡ possible_crtcs self.now.topology id }
    {
        self.topology.possible_crtcs(id)
    }

    /// Returns whether a CRTC is a possible one of a plane or an encoder. Returns `false` if the ids are not theirs.
    /// Does not allocate.
    pub fn drives(&self, id: u32, crtc: u32) -> bool
        ensures { result ≡ drives self.now.topology id crtc }
    {
        self.topology.drives(id, crtc)
    }

    /// Returns whether a CRTC is a possible one of a connector's encoder. Returns `false` if the ids are not theirs.
    /// Does not allocate.
    pub fn reaches(&self, connector: u32, crtc: u32) -> bool
        ensures { result ≡ reaches self.now.topology connector crtc }
    {
        self.topology.reaches(connector, crtc)
    }

    /// Returns the possible CRTCs of a plane or an encoder among those that are seen: bit i is the i-th of `visible`
    /// (drm-uapi, leases; for planes own). Returns 0 for any other id. Does not allocate.
    pub fn mask(&self, id: u32, visible: &ShownList) -> u32
        requires { AreCrtcs self.now.topology visible.now }
        ensures mask { result ≡ mask_over self.now.topology id visible.now }
        ensures bits { (i : ℕ) → (bit_at result i == 1) ≡ option_map_or (drives self.now.topology id) (slice_get visible.now i) false }
        ensures other { is_plane self.now.topology id ≡ false → is_encoder self.now.topology id ≡ false → result ≡ 0 }
    {
        self.topology.mask(id, visible)
    }

    /// Creates a framebuffer of a client over an object, with the lowest free id (so does the kernel's IDR), and
    /// returns the id (drm-uapi, MODE_ADDFB).
    ///
    /// # Errors
    ///
    /// `Full` if no id is free (own), `NoMemory` if memory is refused. The state is then unchanged.
    pub fn addfb(&mut self, client: u32, shape: Shape, object: ObjectKey) -> Result<u32, AddFbFault>
        ensures given { IfOk result (λ f. free_framebuffer self.old ≡ Some f) }
        ensures low { IfOk result (λ f. first_framebuffer self.old.topology ≤ f) }
        ensures high { IfOk result (λ f. f ≤ self.old.last) }
        ensures ok { IfOk result (λ f. self.new ≡ with_framebuffer self.old (framebuffer f client shape object)) }
        ensures err { OnErr result (self.new ≡ self.old) }
        ensures full { IfErr result (λ fault. IsFull fault ↔ (free_framebuffer self.old ≡ None)) }
    {
        let framebuffer = match self.framebuffers.add(Fb {
            client,
            shape,
            object,
        }) {
            Ok(framebuffer) => framebuffer,
            Err(AddFault::Full(_)) => return Err(AddFbFault::Full),
            Err(AddFault::NoMemory(_)) => return Err(AddFbFault::NoMemory),
        };
        if let Err(_fault) = self.owned.note(client, framebuffer) {
            let _returned = self.framebuffers.remove(framebuffer);
            return Err(AddFbFault::NoMemory);
        }
        Ok(framebuffer)
    }

    /// Returns whether no id is free. Does not allocate.
    pub fn is_full(&self) -> bool
        ensures { IsTrue result ↔ (free_framebuffer self.now ≡ None) }
    {
        self.framebuffers.is_full()
    }

    /// Returns the framebuffer with an id, if there is one. Does not allocate.
    pub fn fb(&self, id: u32) -> Option<Fb>
        ensures found { result ≡ option_map fb_of (find (is_framebuffer id) self.now.framebuffers) }
        ensures there { is_some result ≡ has_framebuffer self.now id }
    {
        let fb = *self.framebuffers.get(id)?;
        Some(fb)
    }

    /// Returns the ids of a client's framebuffers (drm-uapi, mode setting), in rising order (own). Looks at all
    /// framebuffers. Does not allocate.
    pub fn framebuffers_of(&self, client: u32) -> ShownList
        ensures { result ≡ framebuffers_of self.now client }
    {
        self.laws();
        let mut list = ShownList::new();
        let mut position = 0;
        while let Some(row) = self.nth_framebuffer(position) {
            if row.client == client {
                list.push(row.framebuffer);
            }
            position += 1;
        }
        list
    }

    /// Removes a framebuffer of a client, and returns its object (drm-uapi, MODE_RMFB). The CRTCs and planes that show
    /// it are dark afterwards. Does not allocate.
    ///
    /// If the framebuffer does not exist or another client created it, it returns `None`, and nothing changes.
    pub fn rmfb(&mut self, client: u32, framebuffer: u32) -> Option<ObjectKey>
        ensures object { result ≡ option_map (λ row. row.object) (find (is_framebuffer_of client framebuffer) self.old.framebuffers) }
        ensures removed { OnSome result (self.new ≡ without_framebuffer self.old framebuffer) }
        ensures none { IfNone result (self.new ≡ self.old) }
    {
        let pixels = *self.framebuffers.get(framebuffer)?;
        if pixels.client != client {
            return None;
        }
        self.take_away(client, framebuffer);
        Some(pixels.object)
    }

    /// Removes the framebuffer of a client that has the lowest id, and returns its id and its object. The CRTCs and
    /// planes that show it are dark afterwards. Does not allocate.
    ///
    /// Returns `None` if the client has no framebuffer. Looks at no framebuffer of another client.
    pub fn take_first_fb_of(&mut self, client: u32) -> Option<(u32, ObjectKey)>
        ensures first { result ≡ option_map (λ row. (row.framebuffer, row.object)) (find (is_made_by client) self.old.framebuffers) }
        ensures removed { IfSome result (λ taken. self.new ≡ without_framebuffer self.old taken.0) }
        ensures none { IfNone result (self.new ≡ self.old) }
    {
        let first = self.owned.next(client, 0)?;
        let Some(pixels) = self.framebuffers.get(first) else {
            unreachable!();
        };
        let object = pixels.object;
        self.take_away(client, first);
        Some((first, object))
    }

    // Removes a framebuffer that the client created.
    fn take_away(&mut self, client: u32, framebuffer: u32)
        requires made { is_some (find (is_framebuffer_of client framebuffer) self.old.framebuffers) ≡ true }
        ensures { self.new ≡ without_framebuffer self.old framebuffer }
    {
        let _pixels = self.framebuffers.remove(framebuffer);
        self.owned.forget(client, framebuffer);
        scanouts::darken(self.scanouts.as_mut_slice(), framebuffer);
    }

    /// Sets the framebuffer that a CRTC shows, or makes the CRTC dark if it is 0 (drm-uapi, mode setting). Does not
    /// allocate.
    pub fn setcrtc(&mut self, crtc: u32, framebuffer: u32)
        requires crtc { is_crtc self.old.topology crtc ≡ true }
        requires there { can_show self.old framebuffer ≡ true }
        ensures { self.new ≡ with_shown self.old crtc framebuffer }
    {
        self.show(crtc, framebuffer);
    }

    /// Sets the framebuffer that a plane shows, or makes the plane dark if it is 0 (drm-uapi, mode setting). Does not
    /// allocate.
    pub fn setplane(&mut self, plane: u32, framebuffer: u32)
        requires plane { is_plane self.old.topology plane ≡ true }
        requires there { can_show self.old framebuffer ≡ true }
        ensures { self.new ≡ with_shown self.old plane framebuffer }
    {
        self.show(plane, framebuffer);
    }

    fn show(&mut self, engine: u32, framebuffer: u32)
        requires low { 1 ≤ engine }
        requires high { engine ≤ scanout_count self.old.topology }
        requires there { can_show self.old framebuffer ≡ true }
        ensures { self.new ≡ with_shown self.old engine framebuffer }
    {
        self.scanouts.as_mut_slice()[engine as usize - 1] = framebuffer;
    }

    /// Returns the framebuffer that a CRTC or a plane shows, or 0 if it is dark or the id is another's. Does not
    /// allocate.
    pub fn shown(&self, id: u32) -> u32
        ensures { result ≡ shown_by self.now id }
    {
        if id == 0 || id as usize > self.scanouts.len() {
            return 0;
        }
        self.scanouts[id as usize - 1]
    }

    /// Returns the row at a position, from 0, of the rows of an audit's kind (own). Does not allocate.
    ///
    /// Framebuffers are kind 8, in the order of ids. What CRTCs and planes show is kind 9, in the order of their ids.
    /// No other kind has rows here.
    pub fn nth(&self, kind: u32, i: usize) -> Option<ModeRow>
        ensures { result ≡ nth_row self.now kind i }
    {
        match kind {
            FRAMEBUFFER_KIND => Some(ModeRow::Framebuffer(self.nth_framebuffer(i)?)),
            SHOWN_KIND => Some(ModeRow::Shown(self.nth_shown(i)?)),
            _ => None,
        }
    }

    /// Returns the framebuffer at a position of the list of framebuffers, from 0. Does not allocate.
    pub fn nth_framebuffer(&self, position: usize) -> Option<Framebuffer>
        ensures { result ≡ slice_get self.now.framebuffers position }
    {
        let framebuffer = self.framebuffers.nth(position)?;
        let fb = *self.framebuffers.get(framebuffer)?;
        Some(row(framebuffer, fb))
    }

    /// Returns the entry at a position of the list of CRTCs and planes that show something, from 0. Looks at all CRTCs
    /// and planes. Does not allocate.
    pub fn nth_shown(&self, position: usize) -> Option<Shown>
        ensures { result ≡ slice_get (shown_rows self.now) position }
    {
        scanouts::nth_lit(self.scanouts.as_slice(), position)
    }
}

fn row(framebuffer: u32, fb: Fb) -> Framebuffer
    ensures { result ≡ framebuffer_row (framebuffer, fb) }
{
    Framebuffer {
        framebuffer,
        client: fb.client,
        shape: fb.shape,
        object: fb.object,
    }
}
