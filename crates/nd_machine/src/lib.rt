//! The debugger machine: a timeline and breakpoints, which commands change.
#![tactic(auto)]

mod laws;
mod machine;
mod runs;
mod seeds;

pub use laws::{moves_keep_timelines, replies_determine_machines, runs_repeat};
pub use machine::Machine;
pub use runs::run;
