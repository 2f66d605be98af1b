//! Scripts that check themselves: the text of a line after ` -> ` is the answer that it expects. Such scripts are
//! checked, updated and made shorter, and the journal of a device is written as one.
//!
//! An example is the body of a function that has the runtime `rt`. If memory is refused, it returns.
#![tactic(auto)]

mod check;
mod checker;
mod differences;
mod expectations;
mod faults;
mod journal;
mod laws;
mod lines;
mod namings;
mod replays;
mod search;
mod shrink;
mod totals;
mod trials;
mod update;
mod writer;

pub use check::{Report, check_on};
pub use differences::first_difference;
pub use expectations::{is_met, parts_of, script_of};
pub use faults::ShrinkFault;
pub use journal::{Journal, journal_of};
pub use laws::{checked_files_are_scripts, updated_files_pass};
pub use lines::put_words;
pub use shrink::{Shrunk, shrink_script};
pub use totals::{Totals, write_malformed, write_silent, write_totals};
pub use update::{UpdateFault, put_answered, update_script, use_line};
pub use writer::JournalWriter;
