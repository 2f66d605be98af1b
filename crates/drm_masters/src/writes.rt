//! Rows as they are made and changed.

ghost use Rattle.std.specs.Prelude.{◌≡◌, if◌then◌else◌, None};
ghost use Rattle.drm_masters.specs.Masters.{is_option};
ghost use Rattle.drm_masters.specs.Calls as calls;

use crate::rows::{Magic, Master, MasterKey, Member};

/// Returns a client's own master. Its key is set when it is added.
pub fn founded_master(step_number: u32) -> Master
    ensures { result ≡ calls.founded_master 0 step_number }
{
    Master {
        key: MasterKey::from_number(0),
        step_number,
        lessor: None,
        lessee_id: 0,
        kept: false,
    }
}

/// Returns a lessee, which stays until it is redeemed or released. Its key is set when it is added.
pub fn lessee(step_number: u32, lessor: u32, lessee_id: u32) -> Master
    ensures { result ≡ calls.lessee 0 step_number lessor lessee_id }
{
    Master {
        key: MasterKey::from_number(0),
        step_number,
        lessor: Some(lessor),
        lessee_id,
        kept: true,
    }
}

/// Returns a client that has its own master.
pub fn owner(client: u32, master: u32) -> Member
    ensures { result ≡ calls.owner client master }
{
    Member {
        client,
        once_master: true,
        is_master: true,
        master,
        magic: None,
    }
}

/// Returns a client of another's master.
pub fn non_master(client: u32, master: u32) -> Member
    ensures { result ≡ calls.non_master client master }
{
    Member {
        client,
        once_master: false,
        is_master: false,
        master,
        magic: None,
    }
}

/// Returns a client that redeemed a lessee.
pub fn lease_client(client: u32, master: u32) -> Member
    ensures { result ≡ calls.lease_client client master }
{
    Member {
        client,
        once_master: false,
        is_master: true,
        master,
        magic: None,
    }
}

/// Returns the client with a number under its master.
pub fn with_magic(member: Member, number: u32, spent: bool) -> Member
    ensures { result ≡ calls.with_magic number spent member }
{
    Member {
        magic: Some(Magic { number, spent }),
        ..member
    }
}

/// Returns the device's master, unless it is this one.
pub fn device_without(device: Option<u32>, master: u32) -> Option<u32>
    ensures { result ≡ (if is_option master device then None else device) }
{
    match device {
        Some(step_number) if step_number == master => None,
        _ => device,
    }
}
