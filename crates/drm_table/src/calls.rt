//! The calls of a client, and their table. For a new call, add its variants and its line here, and its fields in the
//! file of its family.

ghost use Rattle.std.specs.Prelude.{◌≡◌, [], length, map};
ghost use Rattle.drm_table.specs.Table.{all_kinds, columns, kind_row};

use crate::audits::AuditKind;
use crate::fields::Fields;
use crate::fields::Layout::{Ids, Numbers};
use crate::fields::Width::{U32, U64};
use crate::flags::RowFlags;
use crate::lists::IdList;
use crate::lookup::row;
use crate::rows::{Family, Row};
use bitflags::Flags;
use std::alloc::AllocError;

/// A request. It has one variant for each row of the table, and two for requests without a row.
///
/// # Examples
///
/// ```rust
/// use drm_table::Call;
///
/// let call = Call::BufCreate { size: 4096 };
/// assert!(rt; call.number() == 0x40);
/// ```
#[derive(PartialEq, Debug, Drop)]
pub enum Call {
    /// A number that no row has.
    Unknown(u16),
    /// The number of a row, with fields that do not match the row.
    BadLayout(u16),
    /// Returns the version of the interface (drm-uapi, `DRM_IOCTL_VERSION`).
    Version,
    /// Returns the caller's magic. A current client of its master can authenticate it by this number (drm(7)).
    GetMagic,
    /// Closes a handle (drm-gem(7)).
    GemClose {
        handle: u32,
    },
    /// Creates a global name for the object of a handle, or returns the name that it has (drm-gem(7), flink).
    GemFlink {
        handle: u32,
    },
    /// Creates a new handle of the object that has a global name (drm-gem(7), flink).
    GemOpen {
        name: u32,
    },
    /// Returns the value of a capability of the device (drm-uapi, `DRM_IOCTL_GET_CAP`).
    GetCap {
        cap: u64,
    },
    /// Sets a capability of the caller (drm-uapi, `DRM_IOCTL_SET_CLIENT_CAP`).
    SetClientCap {
        cap: u64,
        value: u64,
    },
    /// Authenticates the client that has this magic of the caller's master (drm(7)).
    AuthMagic {
        magic: u32,
    },
    /// Makes the caller's master the device's master (drm(7)).
    SetMaster,
    /// Leaves the device without a master (drm(7)).
    DropMaster,
    /// Exports the object of a handle as a new token (drm-mm, PRIME). A token in place of a file descriptor is own.
    PrimeHandleToFd {
        handle: u32,
    },
    /// Imports the object of a token: returns a handle of it, the same one each time (drm-mm, PRIME).
    PrimeFdToHandle {
        token: u32,
    },
    /// Creates a buffer of `size` bytes (own; each driver has its own call for this, drm-mm).
    BufCreate {
        size: u64,
    },
    /// Sets the stamp of an object, which represents its contents (own).
    StampWrite {
        handle: u32,
        stamp: u64,
    },
    /// Returns the stamp of an object (own).
    StampRead {
        handle: u32,
    },
    /// Closes a token that the caller exported (own; in a kernel, the client closes a file descriptor).
    TokenClose {
        token: u32,
    },
    /// Lists the caller's handles from a number on, 64 at most (own).
    ListHandles {
        from: u32,
    },
    /// Lists up to 16 rows of a kind, after the first `from` rows (own).
    Audit {
        kind: AuditKind,
        from: u32,
    },
    /// Lists the CRTCs, connectors and encoders, and the caller's framebuffers (drm-uapi,
    /// `DRM_IOCTL_MODE_GETRESOURCES`).
    GetResources,
    /// Returns the framebuffer that a CRTC shows, or 0 (drm-uapi, `DRM_IOCTL_MODE_GETCRTC`).
    GetCrtc {
        crtc: u32,
    },
    /// Shows a framebuffer on a CRTC through a connector (drm-uapi, `DRM_IOCTL_MODE_SETCRTC`). With 0 for both, the
    /// CRTC is dark afterwards.
    SetCrtc {
        crtc: u32,
        framebuffer: u32,
        connector: u32,
    },
    /// Returns the CRTCs that can drive an encoder, as a mask (drm-uapi, `DRM_IOCTL_MODE_GETENCODER`).
    GetEncoder {
        encoder: u32,
    },
    /// Returns the encoder of a connector (drm-uapi, `DRM_IOCTL_MODE_GETCONNECTOR`).
    GetConnector {
        connector: u32,
    },
    /// Returns the shape of a framebuffer and a handle of its object (drm-uapi, `DRM_IOCTL_MODE_GETFB`).
    GetFb {
        framebuffer: u32,
    },
    /// Creates a framebuffer over the object of a handle (drm-uapi, `DRM_IOCTL_MODE_ADDFB`). Width and height are in
    /// pixels, the pitch in bytes of a row, `bpp` in bits of a pixel.
    AddFb {
        width: u32,
        height: u32,
        pitch: u32,
        bpp: u32,
        handle: u32,
    },
    /// Removes a framebuffer of the caller (drm-uapi, `DRM_IOCTL_MODE_RMFB`). The CRTCs and planes that show it are
    /// dark afterwards.
    RmFb {
        framebuffer: u32,
    },
    /// Creates a buffer for scan-out (drm-uapi, dumb buffers). Width and height are in pixels, `bpp` in bits of a
    /// pixel.
    CreateDumb {
        width: u32,
        height: u32,
        bpp: u32,
    },
    /// Closes the handle of a dumb buffer (drm-uapi, dumb buffers). Any handle is allowed.
    DestroyDumb {
        handle: u32,
    },
    /// Lists the planes (drm-uapi, `DRM_IOCTL_MODE_GETPLANERESOURCES`).
    GetPlaneResources,
    /// Returns the framebuffer that a plane shows, or 0, and the CRTCs that it can be on (drm-uapi,
    /// `DRM_IOCTL_MODE_GETPLANE`).
    GetPlane {
        plane: u32,
    },
    /// Shows a framebuffer on a plane of a CRTC (drm-uapi, `DRM_IOCTL_MODE_SETPLANE`). With framebuffer 0, the plane is
    /// dark afterwards.
    SetPlane {
        plane: u32,
        crtc: u32,
        framebuffer: u32,
    },
    /// Leases the objects with these ids to a new lessee of the caller's master (drm-uapi,
    /// `DRM_IOCTL_MODE_CREATE_LEASE`).
    CreateLease {
        ids: IdList,
    },
    /// Lists the lessees of the caller's master (drm-uapi, `DRM_IOCTL_MODE_LIST_LESSEES`).
    ListLessees,
    /// Lists the objects that are leased to the caller's master (drm-uapi, `DRM_IOCTL_MODE_GET_LEASE`).
    GetLease,
    /// Revokes the lease of a lessee (drm-uapi, `DRM_IOCTL_MODE_REVOKE_LEASE`).
    RevokeLease {
        lessee: u32,
    },
}

/// A row of the table of calls.
///
/// # Examples
///
/// ```rust
/// use drm_table::{Call, CallKind, Field};
///
/// let call = CallKind::GemClose.call(&[Field::U32(1)]);
/// assert!(rt; call == Some(Call::GemClose { handle: 1 }));
/// assert!(rt; CallKind::GemClose.call(&[]).is_none());
/// ```
#[derive(Clone, Copy, PartialEq, Debug)]
pub enum CallKind {
    Version,
    GetMagic,
    GemClose,
    GemFlink,
    GemOpen,
    GetCap,
    SetClientCap,
    AuthMagic,
    SetMaster,
    DropMaster,
    PrimeHandleToFd,
    PrimeFdToHandle,
    BufCreate,
    StampWrite,
    StampRead,
    TokenClose,
    ListHandles,
    Audit,
    GetResources,
    GetCrtc,
    SetCrtc,
    GetEncoder,
    GetConnector,
    GetFb,
    AddFb,
    RmFb,
    CreateDumb,
    DestroyDumb,
    GetPlaneResources,
    GetPlane,
    SetPlane,
    CreateLease,
    ListLessees,
    GetLease,
    RevokeLease,
}

// A line of the table: number, name, word, flags, layout of the fields, and family.
macro_rules! row {
    ($number:literal => $name:literal, $word:literal, $flags:expr, $layout:expr, $family:ident) => {
        Row {
            number: $number,
            name: $name,
            word: $word,
            flags: $flags,
            layout: $layout,
            family: Family::$family,
        }
    };
}

const NONE: RowFlags = RowFlags::NONE;

const AUTH: RowFlags = RowFlags::AUTH;

const MASTER: RowFlags = RowFlags::MASTER;

const RENDER: RowFlags = RowFlags::RENDER_ALLOW;

const ROOT: RowFlags = RowFlags::ROOT_ONLY;

/// The table: a line for each call, in the order of the kinds (drm-uapi). The numbers 0x40 to 0x45 and the words are
/// own.
static ROWS: [Row; 35] = [
    row!(0x00 => "VERSION", b"version", RENDER, Numbers(&[]), Device),
    row!(0x02 => "GET_MAGIC", b"get_magic", NONE, Numbers(&[]), Masters),
    row!(0x09 => "GEM_CLOSE", b"gem_close", RENDER, Numbers(&[U32]), Buffers),
    row!(0x0A => "GEM_FLINK", b"gem_flink", AUTH, Numbers(&[U32]), Sharing),
    row!(0x0B => "GEM_OPEN", b"gem_open", AUTH, Numbers(&[U32]), Sharing),
    row!(0x0C => "GET_CAP", b"get_cap", RENDER, Numbers(&[U64]), Device),
    row!(0x0D => "SET_CLIENT_CAP", b"set_client_cap", NONE, Numbers(&[U64, U64]), Device),
    row!(0x11 => "AUTH_MAGIC", b"auth_magic", MASTER, Numbers(&[U32]), Masters),
    row!(0x1E => "SET_MASTER", b"set_master", NONE, Numbers(&[]), Masters),
    row!(0x1F => "DROP_MASTER", b"drop_master", NONE, Numbers(&[]), Masters),
    row!(0x2D => "PRIME_HANDLE_TO_FD", b"prime_export", RENDER, Numbers(&[U32]), Sharing),
    row!(0x2E => "PRIME_FD_TO_HANDLE", b"prime_import", RENDER, Numbers(&[U32]), Sharing),
    row!(0x40 => "BUF_CREATE", b"buf_create", RENDER, Numbers(&[U64]), Buffers),
    row!(0x41 => "STAMP_WRITE", b"stamp_write", RENDER, Numbers(&[U32, U64]), Buffers),
    row!(0x42 => "STAMP_READ", b"stamp_read", RENDER, Numbers(&[U32]), Buffers),
    row!(0x43 => "TOKEN_CLOSE", b"token_close", RENDER, Numbers(&[U32]), Sharing),
    row!(0x44 => "LIST_HANDLES", b"list_handles", RENDER, Numbers(&[U32]), Buffers),
    row!(0x45 => "AUDIT", b"audit", ROOT, Numbers(&[U32, U32]), Device),
    row!(0xA0 => "MODE_GETRESOURCES", b"getresources", NONE, Numbers(&[]), Modes),
    row!(0xA1 => "MODE_GETCRTC", b"getcrtc", NONE, Numbers(&[U32]), Modes),
    row!(0xA2 => "MODE_SETCRTC", b"setcrtc", MASTER, Numbers(&[U32, U32, U32]), Modes),
    row!(0xA6 => "MODE_GETENCODER", b"getencoder", NONE, Numbers(&[U32]), Modes),
    row!(0xA7 => "MODE_GETCONNECTOR", b"getconnector", NONE, Numbers(&[U32]), Modes),
    row!(0xAD => "MODE_GETFB", b"getfb", NONE, Numbers(&[U32]), Framebuffers),
    row!(0xAE => "MODE_ADDFB", b"addfb", NONE, Numbers(&[U32, U32, U32, U32, U32]), Framebuffers),
    row!(0xAF => "MODE_RMFB", b"rmfb", NONE, Numbers(&[U32]), Framebuffers),
    row!(0xB2 => "MODE_CREATE_DUMB", b"create_dumb", NONE, Numbers(&[U32, U32, U32]), Buffers),
    row!(0xB4 => "MODE_DESTROY_DUMB", b"destroy_dumb", NONE, Numbers(&[U32]), Buffers),
    row!(0xB5 => "MODE_GETPLANERESOURCES", b"getplaneresources", NONE, Numbers(&[]), Modes),
    row!(0xB6 => "MODE_GETPLANE", b"getplane", NONE, Numbers(&[U32]), Modes),
    row!(0xB7 => "MODE_SETPLANE", b"setplane", MASTER, Numbers(&[U32, U32, U32]), Modes),
    row!(0xC6 => "MODE_CREATE_LEASE", b"create_lease", MASTER, Ids, Leases),
    row!(0xC7 => "MODE_LIST_LESSEES", b"list_lessees", MASTER, Numbers(&[]), Leases),
    row!(0xC8 => "MODE_GET_LEASE", b"get_lease", MASTER, Numbers(&[]), Leases),
    row!(0xC9 => "MODE_REVOKE_LEASE", b"revoke_lease", MASTER, Numbers(&[U32]), Leases),
];

/// Returns the rows in the order of the kinds.
#[tactic(auto, unfolding(crate::specs::Table::kind_row))]
pub(crate) fn rows() -> &'static [Row]
    ensures rows { map columns result.now ≡ map kind_row all_kinds }
    ensures length { length result.now ≡ length all_kinds }
{
    &ROWS
}

impl CallKind {
    /// All rows, in rising order of their numbers.
    pub const ALL: [CallKind; 35] = [
        CallKind::Version,
        CallKind::GetMagic,
        CallKind::GemClose,
        CallKind::GemFlink,
        CallKind::GemOpen,
        CallKind::GetCap,
        CallKind::SetClientCap,
        CallKind::AuthMagic,
        CallKind::SetMaster,
        CallKind::DropMaster,
        CallKind::PrimeHandleToFd,
        CallKind::PrimeFdToHandle,
        CallKind::BufCreate,
        CallKind::StampWrite,
        CallKind::StampRead,
        CallKind::TokenClose,
        CallKind::ListHandles,
        CallKind::Audit,
        CallKind::GetResources,
        CallKind::GetCrtc,
        CallKind::SetCrtc,
        CallKind::GetEncoder,
        CallKind::GetConnector,
        CallKind::GetFb,
        CallKind::AddFb,
        CallKind::RmFb,
        CallKind::CreateDumb,
        CallKind::DestroyDumb,
        CallKind::GetPlaneResources,
        CallKind::GetPlane,
        CallKind::SetPlane,
        CallKind::CreateLease,
        CallKind::ListLessees,
        CallKind::GetLease,
        CallKind::RevokeLease,
    ];
}

/// Copies the call. Does not allocate and never fails.
impl Clone for Call {
    ghost use Rattle.std.specs.Prelude.{◌≡◌, ⊤};

    ghost is_clone = { λ call copy. copy ≡ call };

    ghost is_infallible = { λ _. ⊤ };

    fn clone(&self) -> Result<Call, AllocError> {
        Ok(match self {
            Call::Unknown(number) => Call::Unknown(*number),
            Call::BadLayout(number) => Call::BadLayout(*number),
            Call::Version => Call::Version,
            Call::GetMagic => Call::GetMagic,
            &Call::GemClose { handle } => Call::GemClose { handle },
            &Call::GemFlink { handle } => Call::GemFlink { handle },
            &Call::GemOpen { name } => Call::GemOpen { name },
            &Call::GetCap { cap } => Call::GetCap { cap },
            &Call::SetClientCap { cap, value } => Call::SetClientCap { cap, value },
            &Call::AuthMagic { magic } => Call::AuthMagic { magic },
            Call::SetMaster => Call::SetMaster,
            Call::DropMaster => Call::DropMaster,
            &Call::PrimeHandleToFd { handle } => Call::PrimeHandleToFd { handle },
            &Call::PrimeFdToHandle { token } => Call::PrimeFdToHandle { token },
            &Call::BufCreate { size } => Call::BufCreate { size },
            &Call::StampWrite { handle, stamp } => Call::StampWrite { handle, stamp },
            &Call::StampRead { handle } => Call::StampRead { handle },
            &Call::TokenClose { token } => Call::TokenClose { token },
            &Call::ListHandles { from } => Call::ListHandles { from },
            &Call::Audit { kind, from } => Call::Audit { kind, from },
            Call::GetResources => Call::GetResources,
            &Call::GetCrtc { crtc } => Call::GetCrtc { crtc },
            &Call::SetCrtc {
                crtc,
                framebuffer,
                connector,
            } => Call::SetCrtc {
                crtc,
                framebuffer,
                connector,
            },
            &Call::GetEncoder { encoder } => Call::GetEncoder { encoder },
            &Call::GetConnector { connector } => Call::GetConnector { connector },
            &Call::GetFb { framebuffer } => Call::GetFb { framebuffer },
            &Call::AddFb {
                width,
                height,
                pitch,
                bpp,
                handle,
            } => Call::AddFb {
                width,
                height,
                pitch,
                bpp,
                handle,
            },
            &Call::RmFb { framebuffer } => Call::RmFb { framebuffer },
            &Call::CreateDumb { width, height, bpp } => Call::CreateDumb { width, height, bpp },
            &Call::DestroyDumb { handle } => Call::DestroyDumb { handle },
            Call::GetPlaneResources => Call::GetPlaneResources,
            &Call::GetPlane { plane } => Call::GetPlane { plane },
            &Call::SetPlane {
                plane,
                crtc,
                framebuffer,
            } => Call::SetPlane {
                plane,
                crtc,
                framebuffer,
            },
            Call::CreateLease { ids } => Call::CreateLease { ids: ids.clone()? },
            Call::ListLessees => Call::ListLessees,
            Call::GetLease => Call::GetLease,
            &Call::RevokeLease { lessee } => Call::RevokeLease { lessee },
        })
    }
}

impl Call {
    ghost use Rattle.std.specs.Option.{option_map};
    ghost use Rattle.drm_table.specs.Table.{call_number, call_row, family_of, flags_of};

    /// Returns the row of the call and its fields in order, or `None` for a call without a row.
    #[tactic(auto, unfolding(crate::specs::Table::call_row))]
    pub fn row(&self) -> Option<(CallKind, Fields<32>)>
        ensures { result ≡ call_row self.now }
    {
        let mut fields = Fields::new();
        let kind = self.row_at(&mut fields)?;
        Some((kind, fields))
    }

    /// Returns the kind of the call's row, and writes its fields in order. For a call without a row it returns `None`, and
    /// writes nothing.
    #[tactic(auto, unfolding(crate::specs::Table::call_row))]
    fn row_at(&self, fields: &mut Fields<32>) -> Option<CallKind>
        requires empty { fields.old ≡ [] }
        ensures row { call_row self.now ≡ option_map (λ kind. (kind, fields.new)) result }
    {
        if let Some(kind) = self.buffer_row(fields) {
            return Some(kind);
        }
        if let Some(kind) = self.share_row(fields) {
            return Some(kind);
        }
        if let Some(kind) = self.master_row(fields) {
            return Some(kind);
        }
        if let Some(kind) = self.mode_row(fields) {
            return Some(kind);
        }
        if let Some(kind) = self.framebuffer_row(fields) {
            return Some(kind);
        }
        if let Some(kind) = self.lease_row(fields) {
            return Some(kind);
        }
        self.device_row(fields)
    }

    /// Returns the kind of the call's row, or `None` for a call without a row.
    #[tactic(auto, unfolding(crate::specs::Table::call_row))]
    pub(crate) fn kind(&self) -> Option<CallKind>
        ensures { result ≡ option_map (λ row. row.0) (call_row self.now) }
    {
        Some(match self {
            Call::Unknown(_) | Call::BadLayout(_) => return None,
            Call::Version => CallKind::Version,
            Call::GetMagic => CallKind::GetMagic,
            Call::GemClose { .. } => CallKind::GemClose,
            Call::GemFlink { .. } => CallKind::GemFlink,
            Call::GemOpen { .. } => CallKind::GemOpen,
            Call::GetCap { .. } => CallKind::GetCap,
            Call::SetClientCap { .. } => CallKind::SetClientCap,
            Call::AuthMagic { .. } => CallKind::AuthMagic,
            Call::SetMaster => CallKind::SetMaster,
            Call::DropMaster => CallKind::DropMaster,
            Call::PrimeHandleToFd { .. } => CallKind::PrimeHandleToFd,
            Call::PrimeFdToHandle { .. } => CallKind::PrimeFdToHandle,
            Call::BufCreate { .. } => CallKind::BufCreate,
            Call::StampWrite { .. } => CallKind::StampWrite,
            Call::StampRead { .. } => CallKind::StampRead,
            Call::TokenClose { .. } => CallKind::TokenClose,
            Call::ListHandles { .. } => CallKind::ListHandles,
            Call::Audit { .. } => CallKind::Audit,
            Call::GetResources => CallKind::GetResources,
            Call::GetCrtc { .. } => CallKind::GetCrtc,
            Call::SetCrtc { .. } => CallKind::SetCrtc,
            Call::GetEncoder { .. } => CallKind::GetEncoder,
            Call::GetConnector { .. } => CallKind::GetConnector,
            Call::GetFb { .. } => CallKind::GetFb,
            Call::AddFb { .. } => CallKind::AddFb,
            Call::RmFb { .. } => CallKind::RmFb,
            Call::CreateDumb { .. } => CallKind::CreateDumb,
            Call::DestroyDumb { .. } => CallKind::DestroyDumb,
            Call::GetPlaneResources => CallKind::GetPlaneResources,
            Call::GetPlane { .. } => CallKind::GetPlane,
            Call::SetPlane { .. } => CallKind::SetPlane,
            Call::CreateLease { .. } => CallKind::CreateLease,
            Call::ListLessees => CallKind::ListLessees,
            Call::GetLease => CallKind::GetLease,
            Call::RevokeLease { .. } => CallKind::RevokeLease,
        })
    }

    /// Returns the number of the call's row. A call without a row has the number that the client sent.
    #[tactic(auto, unfolding(crate::specs::Table::call_number))]
    pub fn number(&self) -> u16
        ensures { result ≡ call_number self.now }
    {
        match self.kind() {
            Some(kind) => kind.number(),
            None => match self {
                Call::Unknown(number) | Call::BadLayout(number) => *number,
                _ => 0,
            },
        }
    }

    /// Returns the flags of the row that has the call's number. They say which client may make the call
    /// (`drm_ioctl_permit`). A call whose fields are not its row's has the row's flags, too. If no row has the number,
    /// there are none.
    #[tactic(auto, unfolding(crate::specs::Table::flags_of))]
    pub fn flags(&self) -> RowFlags
        ensures { result ≡ flags_of self.now }
    {
        match self.kind() {
            Some(kind) => kind.row().flags,
            None => match row(self.number()) {
                Some(row) => row.flags,
                None => RowFlags::empty(),
            },
        }
    }

    /// Returns the family of the call's row, or `None` for a call without a row.
    #[tactic(auto, unfolding(crate::specs::Table::family_of))]
    pub fn family(&self) -> Option<Family>
        ensures { result ≡ family_of self.now }
    {
        match self.kind() {
            Some(kind) => Some(kind.family()),
            None => None,
        }
    }
}
