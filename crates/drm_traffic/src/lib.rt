//! The calls of a server's clients: what is done to them on purpose, their order, and their lines.
//!
//! An example is the body of a function that has the runtime `rt`. If memory is refused, it returns.
//!
//! The numbers of a rule that was read are in their ranges. No clause says when a rule is carried out. What a reader takes at
//! once is what was reported, in the order of the history or of the reports, each once. No clause says that a report is
//! taken, or what the line of a call is.
#![tactic(auto)]

mod batch;
mod classes;
mod commands;
mod counted;
mod faults;
mod inbox;
mod plan;
mod reorder;
mod rules;
mod step_queues;
mod tracer;
mod watch;

pub use batch::{Batch, WatchedCall, WatchedFault};
pub use classes::{PROGRAM, class_word};
pub use commands::{Control, MOST_BYTES, put_fault, read_control};
pub use faults::{RuleCause, RuleFault, WORD, Wanted};
pub use plan::{Due, MOST_RULES, Plan};
pub use rules::{Break, Calls, Fail, MOST_MILLIS, Rule, RuleKind, Stall, read_rule};
pub use tracer::{Palette, Tracer};
pub use watch::Watch;
