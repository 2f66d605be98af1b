//! A finite map from `u32`, whose entries have three marks each.
//!
//! Beside it are the definitions of lists up to their order, in an order, and of numbers, which the crates above cite. An
//! example is the body of a function that has the runtime `rt`.
#![tactic(auto)]

mod array;
mod entry;
mod faults;
mod growth;
mod marks;
mod places;
mod spares;
mod tree;
mod words;

pub use array::IndexArray;
pub use faults::InsertFault;
pub use marks::Mark;
