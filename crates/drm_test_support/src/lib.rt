//! The common parts of tests: lists in answers, the calls of a part as data, and sources and sinks that return and take
//! bytes in pieces, and fail, end or are interrupted at given places.
#![tactic(auto)]

mod calls;
mod cuts;
mod interruptions;
mod lists;
mod sink;
mod source;

pub use calls::{Call, Difference, Told, check, compare};
pub use cuts::{Cut, sink_of, source_of};
pub use lists::{list_of, page_of, resources_of, row};
pub use sink::CutSink;
pub use source::CutSource;
