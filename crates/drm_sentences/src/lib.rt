//! Explained answers as text: the facts of a denial as sentences.
//!
//! An example is the body of a function that has the runtime `rt`. If memory is refused, it returns.
#![tactic(auto)]

mod sentences;
mod writing;

pub use writing::{lines_of_answer, write_answer};
