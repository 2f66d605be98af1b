//! The rows of framebuffers, and of what is shown.

use drm_gem::ObjectKey;

/// The shape of a framebuffer's pixels (drm-uapi, mode setting: MODE_ADDFB).
///
/// # Examples
///
/// ```rust
/// use drm_modes::Shape;
///
/// let shape = Shape { width: 640, height: 480, pitch: 2560, bpp: 32 };
/// ```
#[derive(Clone, Copy, PartialEq, Debug)]
pub struct Shape {
    /// The width in pixels.
    pub width: u32,
    /// The height in pixels.
    pub height: u32,
    /// The number of bytes from one line to the next.
    pub pitch: u32,
    /// The number of bits of a pixel.
    pub bpp: u32,
}

/// A framebuffer: an object whose pixels can be shown (drm-uapi, mode setting).
#[derive(Clone, Copy, PartialEq, Debug)]
pub struct Framebuffer {
    /// Its id, above those of the fixed mode objects.
    pub framebuffer: u32,
    /// The client that created it. Only it may remove it.
    pub client: u32,
    /// The shape of its pixels.
    pub shape: Shape,
    /// The object with the pixels.
    pub object: ObjectKey,
}

/// A framebuffer without its id (drm-uapi, mode setting).
#[derive(Clone, Copy, PartialEq, Debug)]
pub struct Fb {
    /// The client that created it. Only it may remove it.
    pub client: u32,
    /// The shape of its pixels.
    pub shape: Shape,
    /// The object with the pixels.
    pub object: ObjectKey,
}

/// A row of an audit from [`Modes`](crate::Modes) (own).
///
/// # Examples
///
/// ```rust
/// use drm_gem::ObjectKey;
/// use drm_modes::{Framebuffer, ModeRow, Modes, Shape, Topology};
///
/// let alloc = rt.alloc();
/// let shape = Shape { width: 640, height: 480, pitch: 2560, bpp: 32 };
/// let Some(topology) = Topology::new(2, &[1, 2], &[3, 2], &[5, 6]) else { return };
/// let mut modes = Modes::new(alloc, topology, 4);
/// let object = ObjectKey::from_number(7);
/// let Ok(framebuffer) = modes.addfb(1, shape, object) else { return };
/// let row = Framebuffer { framebuffer, client: 1, shape, object };
/// assert!(rt; modes.nth(8, 0) == Some(ModeRow::Framebuffer(row)));
/// ```
#[derive(Clone, Copy, PartialEq, Debug)]
pub enum ModeRow {
    /// A row of kind 8.
    Framebuffer(Framebuffer),
    /// A row of kind 9.
    Shown(Shown),
}

/// A CRTC or a plane that shows a framebuffer.
///
/// # Examples
///
/// ```rust
/// use drm_gem::ObjectKey;
/// use drm_modes::{Kind, Modes, Shape, Shown, Topology};
///
/// let alloc = rt.alloc();
/// let shape = Shape { width: 640, height: 480, pitch: 2560, bpp: 32 };
/// let Some(topology) = Topology::new(2, &[1, 2], &[3, 2], &[5, 6]) else { return };
/// let mut modes = Modes::new(alloc, topology, 4);
/// let object = ObjectKey::from_number(7);
/// let Ok(framebuffer) = modes.addfb(1, shape, object) else { return };
/// if modes.is_of_kind(Kind::Crtc, 1) && modes.fb(framebuffer).is_some() {
///     modes.setcrtc(1, framebuffer);
/// }
/// assert!(rt; modes.nth_shown(0) == Some(Shown { engine: 1, framebuffer }));
/// ```
#[derive(Clone, Copy, PartialEq, Debug)]
pub struct Shown {
    /// The id of the CRTC or plane.
    pub engine: u32,
    /// The framebuffer that it shows.
    pub framebuffer: u32,
}
