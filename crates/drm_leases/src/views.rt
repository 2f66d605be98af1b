//! What a client sees of the fixed mode objects (drm-uapi, leases and universal planes).

ghost use Rattle.std.specs.Prelude.{◌≡◌};
ghost use Rattle.drm_leases.specs.Views.{is_controlled, is_in_view};

use crate::masks;
use drm_modes::{Kind, Modes};

/// The fixed mode objects that a master controls.
///
/// # Examples
///
/// ```rust
/// use drm_leases::Controlled;
///
/// assert!(rt; Controlled::Lease(0b101).has(3) && !Controlled::Lease(0b101).has(2));
/// ```
#[derive(Clone, Copy, PartialEq, Debug)]
pub enum Controlled {
    /// All of them: the master has no lessor.
    All,
    /// Those of the lessee's lease. Bit x - 1 is mode object x.
    Lease(u64),
}

impl Controlled {
    /// Returns whether the mode object is among them. Does not allocate.
    pub fn has(self, mode_object: u32) -> bool
        ensures { result ≡ is_controlled self mode_object }
    {
        match self {
            Controlled::All => true,
            Controlled::Lease(objects) => masks::has(objects, mode_object),
        }
    }
}

/// What a client sees of the fixed mode objects.
///
/// # Examples
///
/// ```rust
/// use drm_leases::{Controlled, View};
/// use drm_modes::{Modes, Topology};
///
/// let alloc = rt.alloc();
/// let Some(topology) = Topology::new(1, &[1], &[1], &[3]) else { return };
/// let modes = Modes::new(alloc, topology, 4);
/// let view = View { controlled: Controlled::Lease(0b1), universal: true };
/// assert!(rt; view.sees(&modes, 1) && !view.sees(&modes, 2));
/// ```
#[derive(Clone, Copy, PartialEq, Debug)]
pub struct View {
    /// The mode objects that the client's master controls.
    pub controlled: Controlled,
    /// Whether the client has universal planes on.
    pub universal: bool,
}

impl View {
    /// Returns whether the client sees a fixed mode object. All clients see an encoder. Of the rest a client sees what
    /// its master controls, but primary and cursor planes only with universal planes on. Does not allocate.
    pub fn sees(self, modes: &Modes, id: u32) -> bool
        ensures { result ≡ is_in_view modes.now.topology self id }
    {
        modes.is_of_kind(Kind::Encoder, id)
            || (self.controlled.has(id) && (modes.crtc_of_plane(id).is_none() || self.universal))
    }
}
