//! The faults: the reasons a step is not made.

ghost use Rattle.std.specs.Prelude.{◌≡◌, Err};
ghost use Rattle.drm_table.specs.Rules.{apart_errno, apart_name, apart_number, apart_of_number, apart_row};

use crate::answers::Answer;
use crate::errnos::{ENOMEM, ENOSPC};
use crate::refusal_rows::{RefusalRow, row};

/// A fault: the reason a step was not made (own). The step changed nothing, and the journal does not record it.
///
/// # Examples
///
/// ```rust
/// use drm_table::Apart;
///
/// let fault = Apart::NoMemory;
/// assert!(rt; fault.errno() == 12);
/// ```
#[derive(Clone, Copy, PartialEq, Debug)]
pub enum Apart {
    /// The journal has no room for the step. The rest of its room is reserved for closings.
    JournalFull,
    /// Memory for a new row was refused.
    NoMemory,
    /// The ticket counter is exhausted: no ticket is left for another turn of threads.
    Worn,
}

impl Apart {
    /// All faults, in rising order of their numbers.
    pub const ALL: [Apart; 3] = [Apart::JournalFull, Apart::NoMemory, Apart::Worn];

    // Returns the row: a line for each fault (own).
    fn row(self) -> RefusalRow
        ensures number { result.number ≡ (apart_row self).number }
        ensures errno { result.errno ≡ (apart_row self).errno }
        ensures name { result.name.now ≡ (apart_row self).name }
    {
        match self {
            Apart::JournalFull => row(50, ENOSPC, "JournalFull"),
            Apart::NoMemory => row(51, ENOMEM, "NoMemory"),
            Apart::Worn => row(52, ENOSPC, "Worn"),
        }
    }

    /// Returns the number that answers show, 50 to 52 (own).
    pub fn number(self) -> u32
        ensures { result ≡ apart_number self }
    {
        self.row().number
    }

    /// Returns the errno: ENOSPC, ENOMEM or ENOSPC.
    pub fn errno(self) -> u32
        ensures { result ≡ apart_errno self }
    {
        self.row().errno
    }

    /// Returns the name that scripts show (own).
    pub fn name(self) -> &'static str
        ensures { result.now ≡ apart_name self }
    {
        self.row().name
    }

    /// Replaces an outcome by this fault. A caller that seldom does so then needs no place for the new outcome.
    pub fn replace(self, outcome: &mut Result<Answer, Apart>)
        ensures replaced { outcome.new ≡ Err self }
    {
        *outcome = Err(self);
    }

    /// Returns the fault with this number, or `None` if no fault has it.
    #[tactic(auto, unfolding(crate::specs::Rules::apart_of_number))]
    pub fn of_number(number: u32) -> Option<Apart>
        ensures { result ≡ apart_of_number number }
    {
        Apart::ALL
            .iter()
            .copied()
            .find(|apart| apart.number() == number)
    }
}
