//! The caller.

ghost use Rattle.std.specs.Prelude.{◌≡◌, false, true, IfSome, IfNone};
ghost use Rattle.std.specs.Option.{is_some};
ghost use Rattle.drm_files.specs.Files.{is_open_client};
ghost use Rattle.drm_state.specs.Callers.{IsCaller, as_caller};

use crate::state::State;
use drm_files::FileFlags;
use drm_masters::Member;
use drm_table::Standing;

/// An open client that makes a call, as the device keeps it: looked up once, when the call is admitted.
#[derive(Clone, Copy)]
pub struct Caller {
    /// Its number, which is that of the step that opened it.
    pub client: u32,
    /// What its file says of it.
    pub flags: FileFlags,
    /// Its relation to its master. A render client has none.
    pub member: Option<Member>,
    /// Whether it is current (`drm_is_current_master`).
    pub current: bool,
}

impl Caller {
    /// Returns the client of this number, as it is kept now, or none if it isn't open. Does not allocate.
    pub fn of(state: &State, client: u32) -> Option<Caller>
        ensures client { IfSome result (λ caller. caller.client ≡ client) }
        ensures caller { IfSome result (λ caller. IsCaller state.now caller) }
        ensures none { IfNone result (is_open_client state.now.files client ≡ false) }
    {
        let flags = state.files.flags_of(client)?;
        let member = state.masters.member(client);
        let current = match member {
            Some(member) => state.masters.is_current_member(member),
            None => false,
        };
        Some(Caller {
            client,
            flags,
            member,
            current,
        })
    }

    /// Returns the properties of the caller that the flags of a call's row are tested against (`drm_ioctl_permit`).
    /// Does not allocate.
    pub fn credentials(self) -> Standing
        ensures { result ≡ record { root = self.flags.root; render = self.flags.render; authenticated = self.flags.authenticated; current = self.current } }
    {
        Standing {
            root: self.flags.root,
            render: self.flags.render,
            authenticated: self.flags.authenticated,
            current: self.current,
        }
    }

    /// Returns the caller with its master. Every caller has one, except a render client. Does not allocate.
    pub fn primary(self) -> PrimaryCaller
        requires { is_some self.member ≡ true }
        ensures { as_caller result ≡ self }
    {
        let Some(member) = self.member else {
            unreachable!()
        };
        PrimaryCaller {
            client: self.client,
            flags: self.flags,
            member,
            current: self.current,
        }
    }
}

/// A [`Caller`] that is not a render client (`drm_is_primary_client`). It opened a primary node or redeemed a lease token.
/// Only such a caller can make a call whose row has no RENDER_ALLOW.
#[derive(Clone, Copy)]
pub struct PrimaryCaller {
    /// The client's number, which is that of the step that opened it.
    pub client: u32,
    /// The flags of its file.
    pub flags: FileFlags,
    /// Its relation to masters.
    pub member: Member,
    /// Whether it is current (`drm_is_current_master`).
    pub current: bool,
}
