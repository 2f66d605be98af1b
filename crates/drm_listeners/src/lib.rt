//! Serving the connections of three listeners on one device that they share.
#![tactic(auto)]

mod accepting;
mod class_listeners;
mod connection;
mod listener;
mod listeners;
mod serve_faults;
mod server;
mod serving;
mod until_ended;

pub use class_listeners::{
    CardClass, ClassListener, ListenerClass, Listeners, RenderClass, RootClass,
};
pub use listener::Visitors;
pub use listeners::ByClass;
pub use serve_faults::ServeFault;
pub use serving::{Unserved, serve_all, serve_keeping};
pub use until_ended::{Attended, serve_until_ended};
