//! The rows of a lease.

use drm_masters::MasterKey;

/// A fixed mode object in the lease of a lessee (drm-uapi, leases).
#[derive(Clone, Copy, PartialEq, Debug)]
pub struct Grant {
    /// The lessee, by the number of the step that created it.
    pub master: u32,
    /// The id of the CRTC, plane or connector.
    pub mode_object: u32,
}

/// A lease: its lessee, its lessor, the key of the lessee, and its mode objects.
#[derive(Clone, Copy)]
pub struct Lease {
    /// The lessee, by the number of the step that created it.
    pub lessee: u32,
    /// The lessor, by the number of the step that created it.
    pub lessor: u32,
    /// The key of the lessee.
    pub key: MasterKey,
    /// The mask of the mode objects.
    pub objects: u64,
}

/// The data of a lease under its lessee.
#[derive(Clone, Copy)]
pub struct LeaseRecord {
    /// The lessor, by the number of the step that created it.
    pub lessor: u32,
    /// The key of the lessee.
    pub key: MasterKey,
    /// The mask of the mode objects.
    pub objects: u64,
}

/// A lease that was created.
#[derive(Clone, Copy, PartialEq, Debug)]
pub struct Leased {
    /// The lessee.
    pub m: MasterKey,
    /// The id of the lessee among all of its owner, from 1.
    pub id: u32,
    /// The token that opens its client.
    pub token: u32,
}
