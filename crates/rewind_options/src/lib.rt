//! The options of a run, from the command line, and the errors that end a run.
#![tactic(auto)]

mod fault;
mod options;

pub use fault::DebugFault;
pub use options::{Options, WordsFault, options_of};
