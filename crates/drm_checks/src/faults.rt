//! The reasons a script is not made shorter.

use crate::update::UpdateFault;
use drm_script::Malformed;
use std::alloc::AllocError;

/// The reason a script was not made shorter (own).
///
/// # Examples
///
/// ```rust
/// use drm_runs::Setup;
/// use drm_checks::{ShrinkFault, shrink_script};
///
/// let alloc = rt.alloc();
/// let Err(fault) = shrink_script(alloc, &Setup::usual(), b"open a card\n", 2, 1000) else { return };
/// assert!(rt; fault == ShrinkFault::NoLine(1) || fault == ShrinkFault::NoMemory);
/// ```
#[derive(Clone, Copy, Debug, PartialEq)]
pub enum ShrinkFault {
    /// No line has the number. The script has this number of lines.
    NoLine(u64),
    /// The line has no answer: it is empty, a comment, or sets limits.
    NoAnswer,
    /// The line with this number, from 1, can't be used. The cause says why.
    Malformed(u64, Malformed),
    /// Memory for a device or for a text was refused.
    NoMemory,
}

impl From<AllocError> for ShrinkFault {
    ghost use Rattle.std.specs.Prelude.{◌≡◌};
    ghost use Rattle.drm_checks.specs.declared.faults.ShrinkFault.TheVariants as faults;

    ghost from_gives = { λ _ fault. fault ≡ faults.NoMemory };

    fn from(_error: AllocError) -> ShrinkFault {
        ShrinkFault::NoMemory
    }
}

impl From<UpdateFault> for ShrinkFault {
    ghost use Rattle.std.specs.Prelude.{◌≡◌};
    ghost use Rattle.drm_checks.specs.Shrinking.{fault_of};

    ghost from_gives = { λ used fault. fault ≡ fault_of used };

    fn from(fault: UpdateFault) -> ShrinkFault {
        match fault {
            UpdateFault::Malformed(number, cause) => ShrinkFault::Malformed(number, cause),
            UpdateFault::NoMemory => ShrinkFault::NoMemory,
        }
    }
}
