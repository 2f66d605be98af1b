//! The reasons for a denial: the rule that failed, the facts of the history that made it fail, and the condition under
//! which it would pass.
#![tactic(auto)]

mod answering;
mod buffers;
mod collecting;
mod context;
mod denials;
mod facts;
mod leasing;
mod publications;
mod remedies;
mod room;
mod rows;
mod screens;
mod searching;
mod sizes;
mod withdrawals;

pub use answering::{Line, explain_answer};
pub use facts::{
    ClientFact, Fact, HandleFact, LeaseFact, LimitFact, MagicFact, ModeObjectFact, PublishedFact,
    Quantity, RequestFact, SizeFact,
};
pub use rows::{AnswerRow, WrittenAnswer};
