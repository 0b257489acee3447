//! Replies to commands, and why a command is refused, as data.
#![tactic(auto)]

mod fault;
mod reply;

pub use fault::Fault;
pub use reply::{Ran, Reply, Stop};
