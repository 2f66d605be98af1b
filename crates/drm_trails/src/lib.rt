//! The steps of a history: the effect of each, the handles that a client has after them, and the chains of steps by
//! which it obtained them.
//!
//! A history is a slice of steps, the oldest first. Step 1 is the first. A result as of a moment depends only on the
//! steps up to it.
#![tactic(auto)]

mod chains;
mod effects;
mod handles;
mod items;
mod objects;
mod searches;
mod steps;
mod trail;

pub use chains::{ChainEnd, HandleThen, Link, Marks, Origin};
pub use effects::Effect;
pub use handles::{Held, handles_of};
pub use items::with_item;
pub use searches::{LastPublishing, last_publishing};
pub use steps::{Giving, Key, Publishing, Source, Step, step_at};
pub use trail::Trail;
