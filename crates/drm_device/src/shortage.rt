//! A shortage of memory that is made on purpose.

use std::sync::atomic::{AtomicU64, Ordering};

/// How many events that add a row are left up to the one to which memory is refused (own). At 0 it is over.
///
/// Threads may share it. It is for tests of programs that use a device: see
/// [`step_short_at`](crate::Device::step_short_at).
///
/// # Examples
///
/// ```rust
/// use drm_device::Shortage;
///
/// let shortage = Shortage::new(2);
/// assert!(rt; shortage.left() == 2);
/// ```
#[derive(Drop)]
pub struct Shortage {
    left: AtomicU64,
}

impl Shortage {
    /// Creates a shortage that ends with the event of this number among those that add a row. With 0 it is over. Does
    /// not allocate.
    pub const fn new(left: u64) -> Shortage {
        Shortage {
            left: AtomicU64::new(left),
        }
    }

    /// Returns the number of events that are left, with the one to which memory is refused. It is 0 if the shortage is
    /// over.
    pub fn left(&self) -> u64 {
        self.left.load(Ordering::SeqCst)
    }

    /// Makes the shortage begin anew with this number of events. With 0 it is over.
    pub fn set(&self, left: u64) {
        self.left.store(left, Ordering::SeqCst);
    }

    /// Lowers the number by one, and returns whether the shortage ends so. If another thread set it meanwhile, that
    /// number stays.
    pub(crate) fn ends_here(&self) -> bool {
        let left = self.left();
        if left == 0 {
            return false;
        }
        let lowered = self
            .left
            .compare_exchange(left, left - 1, Ordering::SeqCst, Ordering::SeqCst);
        lowered.is_ok() && left == 1
    }
}
