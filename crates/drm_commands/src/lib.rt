//! The commands of the program that run, check, update, explain and shrink scripts, and the outcomes of the program.
#![tactic(auto)]

mod asked;
mod checking;
mod commands;
mod devices;
mod explaining;
mod faults;
mod files;
mod journal;
mod limits;
mod outcomes;
mod recording;
mod running;
mod shrinking;
mod updating;
mod visible;

pub use asked::{AskedDevice, Checking, Explaining, Running, Shrinking};
pub use checking::check;
pub use devices::{TopologyText, asked_device, asked_limits, read_asked};
pub use explaining::explain_script;
pub use faults::{Fault, FaultLine};
pub use journal::{
    FilesRead, JournalFile, complete_journal, create_asked, create_trace, write_noted,
};
pub use outcomes::{Outcome, outcome_by, outcome_of, outcome_of_checks, outcome_of_fault};
pub use running::run;
pub use shrinking::shrink;
pub use updating::update;
