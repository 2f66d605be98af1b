//! The display server: serves connections on sockets, lists the rows of a device, and is a program as a function.
#![tactic(auto)]

mod command_line;
mod controlling;
mod ending;
mod entry;
mod growing_journal;
mod listing;
mod options;
mod planning;
mod serving;
mod sockets;
mod standard;
mod tracing;
mod watching;
mod words;

pub use drm_commands::{
    Fault, FaultLine, Outcome, outcome_of, outcome_of_checks, outcome_of_fault,
};
pub use drm_connections::{Counts, OpenConnections};
pub use drm_listeners::{
    Attended, ByClass, CardClass, ClassListener, ListenerClass, Listeners, RenderClass, RootClass,
    ServeFault, Unserved, Visitors, serve_all, serve_until_ended,
};
pub use drm_runs::{Ran, ScriptEnd, Setup, run_on, run_script, scripts_are_answered};
pub use drm_traffic::class_word;
pub use entry::program;
pub use listing::{ListEnd, list_audit, outcome_of_listing};
