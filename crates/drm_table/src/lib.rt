//! The calls, answers, rules and row flags of a display device's userspace interface.
//!
//! No function of this crate allocates. An example is the body of a function that has the runtime `rt`.
#![tactic(auto)]

mod answer_kinds;
mod answers;
mod apart;
mod audits;
mod buffer_calls;
mod calls;
mod device_calls;
mod errnos;
mod events;
mod fields;
mod flags;
mod framebuffer_calls;
mod kinds;
mod laws;
mod lease_calls;
mod limits;
mod lists;
mod lookup;
mod master_calls;
mod mode_calls;
mod permits;
mod refusal_rows;
mod rows;
mod rules;
mod share_calls;

pub use answer_kinds::{AnswerKind, Told};
pub use answers::Answer;
pub use apart::Apart;
pub use audits::{AuditKind, AuditPage, AuditRow};
pub use calls::{Call, CallKind};
pub use events::{Event, Opening};
pub use fields::{Field, Fields, Layout, Width};
pub use flags::RowFlags;
pub use laws::{
    answers_by_their_fields, calls_by_their_fields, refusals_by_their_numbers,
    rows_by_their_numbers_and_words,
};
pub use limits::{Limits, are_in_range};
pub use lists::{IdList, ShownList};
pub use lookup::row;
pub use permits::{Standing, permit};
pub use rows::{Family, Row};
pub use rules::Rule;
