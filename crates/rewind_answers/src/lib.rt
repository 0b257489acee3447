//! The text of the reply to one line of a script, and the state after it. This crate knows nothing
//! of sources or sinks.
#![tactic(auto)]

mod ahead;
mod answer;
mod at_rest;
mod faulty_lines;
mod kept;
mod query;
mod reached;
mod stage;
mod why;

pub use answer::{First, Started, answer_first};
pub use stage::{Answer, Stage, answer_line};
