//! Scripts: reads lines from a source, makes each step on a device, and writes its answers to a sink. Beside them are
//! the topologies of custom devices as texts.
//!
//! An example is the body of a function that has the runtime `rt`. If memory is refused, it returns.
#![tactic(auto)]

mod causes;
mod devices;
mod interpreter;
mod laws;
mod lists;
mod parts;
mod reader;
mod reading;
mod run;
mod script_lines;
mod stops;
mod words;
mod writing;

pub use causes::Unfit;
pub use devices::{Setup, make_device, test_topology};
pub use interpreter::{Interpreter, LineResult};
pub use laws::scripts_are_answered;
pub use reading::{UnfitLine, read_topology};
pub use run::{Ran, run_on, run_script};
pub use script_lines::ScriptLines;
pub use stops::{ScriptEnd, Stop};
