//! Explanations of a history as rows and as lines: the rights of each client, and the steps that granted them.
#![tactic(auto)]

mod clients;
mod explaining;
mod forms;
mod fronts;
mod leases;
mod lines;
mod names;
mod reasons;
mod rows;

pub use explaining::explain;
pub use forms::{Value, put_form};
pub use lines::{Subject, line_about, lines_of};
pub use names::{Labels, at, label_of};
pub use reasons::closed_at;
pub use rows::{
    At, Authenticated, AuthenticatedBy, ClientRow, DeviceRow, Explanation, FrontRow, HandleRow,
    LeaseRow, LinkRow, Node, PublishedBy, PublishedRow, StandingRow,
};
