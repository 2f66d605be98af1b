//! The rows of open clients and their handles.

ghost use Rattle.std.specs.Prelude.{◌≡◌};
ghost use Rattle.drm_files.specs.Files as files;

use drm_gem::ObjectKey;

/// A capability that a client can turn on and off (drm-uapi, client capabilities).
///
/// # Examples
///
/// ```rust
/// use drm_files::{ClientCapability, Files};
///
/// let alloc = rt.alloc();
/// let mut files = Files::new(alloc, 4, 100);
/// let Ok(()) = files.open(1, false, true, false) else { return };
/// files.set_capability(1, ClientCapability::UniversalPlanes, true);
/// assert!(rt; matches!(files.flags_of(1), Some(flags) if flags.universal));
/// ```
#[derive(Clone, Copy, PartialEq, Debug)]
pub enum ClientCapability {
    /// Primary and cursor planes are shown next to overlay planes (`DRM_CLIENT_CAP_UNIVERSAL_PLANES`).
    UniversalPlanes,
}

/// The flags of a client (drm-uapi: primary and render nodes, authentication).
#[derive(Clone, Copy, PartialEq, Debug)]
pub struct FileFlags {
    /// Whether it opened the render node.
    pub render: bool,
    /// Whether it may do what requires root.
    pub root: bool,
    /// Whether it is authenticated. A root client is from the start.
    pub authenticated: bool,
    /// Whether it has universal planes on, and so sees primary and cursor planes as well as overlay planes (drm-uapi,
    /// client capabilities).
    pub universal: bool,
}

impl FileFlags {
    /// Returns the flags with a capability on or off.
    pub(crate) fn with_capability(self, capability: ClientCapability, on: bool) -> FileFlags
        ensures { result ≡ files.capable capability on self }
    {
        match capability {
            ClientCapability::UniversalPlanes => FileFlags {
                universal: on,
                ..self
            },
        }
    }
}

/// An open client.
#[derive(Clone, Copy, PartialEq, Debug)]
pub struct FileClient {
    /// Its number.
    pub client: u32,
    /// Its flags.
    pub flags: FileFlags,
}

/// A row of an audit from [`Files`](crate::Files) (own).
///
/// # Examples
///
/// ```rust
/// use drm_files::{FileClient, FileFlags, FileRow, Files};
///
/// let alloc = rt.alloc();
/// let mut files = Files::new(alloc, 4, 100);
/// let Ok(()) = files.open(1, false, true, true) else { return };
/// let flags = FileFlags { render: false, root: true, authenticated: true, universal: true };
/// assert!(rt; files.nth(1, 0) == Some(FileRow::Client(FileClient { client: 1, flags })));
/// ```
#[derive(Clone, Copy, PartialEq, Debug)]
pub enum FileRow {
    /// A row of kind 1.
    Client(FileClient),
    /// A row of kind 6.
    Hold(FileHandle),
}

/// A handle that a client holds (drm-gem(7)).
///
/// # Examples
///
/// ```rust
/// use drm_files::{FileHandle, Files};
/// use drm_gem::ObjectKey;
///
/// let alloc = rt.alloc();
/// let mut files = Files::new(alloc, 4, 100);
/// let Ok(()) = files.open(1, false, true, true) else { return };
/// let object = ObjectKey::from_number(7);
/// let Ok(handle) = files.add_handle(1, object, Some(3)) else { return };
/// let hold = FileHandle { client: 1, handle, object, export_order: Some(3) };
/// assert!(rt; files.nth_handle(0) == Some(hold));
/// ```
#[derive(Clone, Copy, PartialEq, Debug)]
pub struct FileHandle {
    /// The client that has it.
    pub client: u32,
    /// The handle, one of the client's own numbers.
    pub handle: u32,
    /// The object of the handle.
    pub object: ObjectKey,
    /// The export order of the export or import that returns this handle, if there is one (drm-mm, PRIME).
    pub export_order: Option<u32>,
}
