//! The limits of a device.

ghost use Rattle.std.specs.Prelude.{◌≡◌};
ghost use Rattle.drm_table.specs.Limits as ranges;

/// The most that a device can hold. Each limit is at least 1, that of the journal at least 2 (own).
///
/// # Examples
///
/// ```rust
/// use drm_table::{Limits, are_in_range};
///
/// let limits = Limits { clients: 8, ..Limits::PROGRAM };
/// assert!(rt; are_in_range(limits));
/// assert!(rt; !are_in_range(Limits { journal: 1, ..Limits::PROGRAM }));
/// ```
#[derive(Clone, Copy, PartialEq, Debug)]
pub struct Limits {
    /// The most clients open at once, of all classes: at most 1,024.
    pub clients: u32,
    /// The most handles of one client: at most 65,535.
    pub handles: u32,
    /// The highest flink name: at most 65,535.
    pub names: u32,
    /// The highest PRIME token, and the highest lease token: at most 65,535.
    pub tokens: u32,
    /// The most objects: at most 65,535.
    pub objects: u32,
    /// The most framebuffers: at most 64.
    pub framebuffers: u32,
    /// The highest lessee id of one owner: at most 64.
    pub lessees: u32,
    /// The most steps that the journal records: at most 100,000.
    pub journal: u32,
}

impl Limits {
    /// The limits of the program: 64 clients, and the highest value of every other limit.
    pub const PROGRAM: Limits = Limits {
        clients: 64,
        handles: 65_535,
        names: 65_535,
        tokens: 65_535,
        objects: 65_535,
        framebuffers: 64,
        lessees: 64,
        journal: 100_000,
    };
}

/// Returns whether each limit is in its range.
#[tactic(auto, unfolding(crate::specs::Limits::are_in_range))]
pub fn are_in_range(limits: Limits) -> bool
    ensures { result ≡ ranges.are_in_range limits }
{
    1 <= limits.clients
        && limits.clients <= 1024
        && 1 <= limits.handles
        && limits.handles <= 65_535
        && 1 <= limits.names
        && limits.names <= 65_535
        && 1 <= limits.tokens
        && limits.tokens <= 65_535
        && 1 <= limits.objects
        && limits.objects <= 65_535
        && 1 <= limits.framebuffers
        && limits.framebuffers <= 64
        && 1 <= limits.lessees
        && limits.lessees <= 64
        && 2 <= limits.journal
        && limits.journal <= 100_000
}
