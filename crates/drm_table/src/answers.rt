//! The answers of a device.

use crate::audits::AuditPage;
use crate::lists::ShownList;
use crate::rules::Rule;

/// The answer of a step that the journal records.
///
/// # Examples
///
/// ```rust
/// use drm_table::Answer;
///
/// let answer = Answer::Number { value: 7 };
/// assert!(rt; answer != Answer::Done);
/// ```
#[derive(PartialEq, Debug, Drop)]
pub enum Answer {
    /// The call was carried out and returns nothing.
    Done,
    /// The client was opened. Its number is that of the step (own).
    Opened {
        client: u32,
    },
    /// The version of the interface (drm-uapi, `DRM_IOCTL_VERSION`).
    Version {
        major: u32,
        minor: u32,
        patch: u32,
    },
    /// A number that the call returns, such as a name, a token, an id or a stamp.
    Number {
        value: u64,
    },
    /// A dumb buffer: its handle, the bytes of a row, and its size in bytes (drm-uapi, `DRM_IOCTL_MODE_CREATE_DUMB`).
    Dumb {
        handle: u32,
        pitch: u32,
        size: u64,
    },
    /// A handle of a buffer, and the buffer's size in bytes (drm-gem(7)).
    Buffer {
        handle: u32,
        size: u64,
    },
    /// The CRTCs and connectors that the caller sees, the encoders, and the caller's framebuffers (drm-uapi,
    /// `DRM_IOCTL_MODE_GETRESOURCES`). Each list is in rising order.
    Resources {
        crtcs: ShownList,
        connectors: ShownList,
        encoders: ShownList,
        framebuffers: ShownList,
    },
    /// The framebuffer that a plane shows, or 0, and a mask of the CRTCs that the plane can be on (drm-uapi,
    /// `DRM_IOCTL_MODE_GETPLANE`).
    Plane {
        framebuffer: u32,
        mask: u32,
    },
    /// The shape of a framebuffer, and a handle of its object or 0 (drm-uapi, `DRM_IOCTL_MODE_GETFB`).
    Framebuffer {
        width: u32,
        height: u32,
        pitch: u32,
        bpp: u32,
        handle: u32,
    },
    /// A lease: the id of its lessee, and a token that opens a client of the lessee (drm-uapi,
    /// `DRM_IOCTL_MODE_CREATE_LEASE`). A token in place of a file descriptor is own.
    Lease {
        id: u32,
        token: u32,
    },
    /// Ids or handles, in rising order.
    List {
        list: ShownList,
    },
    /// Rows of an audit, with the values before the step (own).
    Audit {
        page: AuditPage,
    },
    /// The client was closed.
    Closed,
    /// The first rule that fails. No row was changed.
    Denied(Rule),
}

/// Functions that write a common answer to its final place. A caller with several possible answers then needs no place
/// for each of them. Where the place has an answer of the same kind, only its fields are written.
impl Answer {
    ghost use Rattle.std.specs.Prelude.{◌≡◌};
    ghost use Rattle.drm_table.specs.declared.answers.Answer.TheVariants as answers;

    /// Replaces the answer by [`Answer::Done`]. Does not allocate.
    pub fn set_done(&mut self)
        ensures done { self.new ≡ answers.Done }
    {
        if !matches!(self, Answer::Done) {
            *self = Answer::Done;
        }
    }

    /// Replaces the answer by [`Answer::Number`] with this value. Does not allocate.
    pub fn set_number(&mut self, value: u64)
        ensures number { self.new ≡ answers.Number value }
    {
        match self {
            Answer::Number { value: place } => *place = value,
            _ => *self = Answer::Number { value },
        }
    }

    /// Replaces the answer by [`Answer::Version`] with these numbers. Does not allocate.
    pub fn set_version(&mut self, major: u32, minor: u32, patch: u32)
        ensures version { self.new ≡ answers.Version major minor patch }
    {
        match self {
            Answer::Version {
                major: first,
                minor: second,
                patch: third,
            } => {
                *first = major;
                *second = minor;
                *third = patch;
            }
            _ => {
                *self = Answer::Version {
                    major,
                    minor,
                    patch,
                }
            }
        }
    }

    /// Replaces the answer by [`Answer::Buffer`] with this handle and this size in bytes. Does not allocate.
    pub fn set_buffer(&mut self, handle: u32, size: u64)
        ensures buffer { self.new ≡ answers.Buffer handle size }
    {
        match self {
            Answer::Buffer {
                handle: first,
                size: second,
            } => {
                *first = handle;
                *second = size;
            }
            _ => *self = Answer::Buffer { handle, size },
        }
    }

    /// Replaces the answer by [`Answer::List`] with these ids. Does not allocate.
    pub fn set_list(&mut self, list: ShownList)
        ensures list { self.new ≡ answers.List list }
    {
        match self {
            Answer::List { list: place } => *place = list,
            _ => *self = Answer::List { list },
        }
    }

    /// Replaces the answer by [`Answer::Audit`] with this page. Does not allocate.
    pub fn set_audit(&mut self, page: AuditPage)
        ensures audit { self.new ≡ answers.Audit page }
    {
        match self {
            Answer::Audit { page: place } => *place = page,
            _ => *self = Answer::Audit { page },
        }
    }

    /// Replaces the answer by [`Answer::Resources`] with these ids. Does not allocate.
    pub fn set_resources(
        &mut self,
        crtcs: ShownList,
        connectors: ShownList,
        encoders: ShownList,
        framebuffers: ShownList,
    )
        ensures resources { self.new ≡ answers.Resources crtcs connectors encoders framebuffers }
    {
        match self {
            Answer::Resources {
                crtcs: first,
                connectors: second,
                encoders: third,
                framebuffers: fourth,
            } => {
                *first = crtcs;
                *second = connectors;
                *third = encoders;
                *fourth = framebuffers;
            }
            _ => {
                *self = Answer::Resources {
                    crtcs,
                    connectors,
                    encoders,
                    framebuffers,
                }
            }
        }
    }

    /// Replaces the answer by [`Answer::Denied`] with this rule. Does not allocate.
    pub fn set_denied(&mut self, rule: Rule)
        ensures denied { self.new ≡ answers.Denied rule }
    {
        match self {
            Answer::Denied(place) => *place = rule,
            _ => *self = Answer::Denied(rule),
        }
    }
}
