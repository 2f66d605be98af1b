//! The lines of a script: the command of each, and the line of each answer.
//!
//! No function of this crate allocates. An example is the body of a function that has the runtime `rt`.
#![tactic(auto)]

mod audits;
mod calls;
mod commands;
mod fields;
mod labels;
mod laws;
mod limits_line;
mod lines;
mod lists;
mod malformations;
mod numbers;
mod openings;
mod reading;
mod splitting;
mod texts;
mod words;

pub use audits::audit_line;
pub use commands::Command;
pub use labels::Label;
pub use laws::{
    answers_take_one_line, reads_limits_lines, reads_the_grammar, refuses_all_other_lines,
    skips_comments_and_blank_lines, words_stand_between_spaces,
};
pub use lines::line_of;
pub use malformations::{Malformation, Malformed, WORD, Wanted};
pub use numbers::u32_of;
pub use reading::{Reading, read_line};
pub use splitting::first_line;
pub use texts::{LINE, LineText, push_number};
pub use words::next_word;
