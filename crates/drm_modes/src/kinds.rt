//! The kinds of fixed mode objects.

/// The kind of a fixed mode object (drm-uapi, mode setting).
///
/// # Examples
///
/// ```rust
/// use drm_modes::{Kind, Topology};
///
/// let Some(topology) = Topology::new(2, &[1, 2], &[3, 2], &[5, 6]) else { return };
/// assert!(rt; topology.kind(1) == Some(Kind::Crtc) && topology.kind(8) == Some(Kind::Connector));
/// ```
#[derive(Clone, Copy, PartialEq, Debug)]
pub enum Kind {
    /// An object that scans out a framebuffer.
    Crtc,
    /// A picture that a CRTC shows next to its own.
    Plane,
    /// An object that takes the pixels of a CRTC to a connector.
    Encoder,
    /// An object to which a display is connected.
    Connector,
}

/// The kind of a plane (drm-uapi, universal planes).
///
/// # Examples
///
/// ```rust
/// use drm_modes::PlaneKind;
///
/// let kind = PlaneKind::Primary(1);
/// ```
#[derive(Clone, Copy, PartialEq, Debug, Default)]
pub enum PlaneKind {
    /// A further picture on a CRTC. Clients see it with universal planes on and off.
    #[default]
    Overlay,
    /// The picture of the CRTC with this id. Clients see it only with universal planes on.
    Primary(u32),
    /// The cursor of the CRTC with this id. Clients see it only with universal planes on.
    Cursor(u32),
}

impl PlaneKind {
    ghost use Rattle.std.specs.Prelude.{◌≡◌};
    ghost use Rattle.drm_modes.specs.PlaneKinds.{crtc_of_kind};

    /// Returns the CRTC of a primary or a cursor plane, or `None` for an overlay plane.
    pub fn crtc(self) -> Option<u32>
        ensures { result ≡ crtc_of_kind self }
    {
        match self {
            PlaneKind::Overlay => None,
            PlaneKind::Primary(crtc) | PlaneKind::Cursor(crtc) => Some(crtc),
        }
    }
}
