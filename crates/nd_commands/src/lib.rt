//! Commands to the debugger machine, as data.
#![tactic(auto)]

mod command;

pub use command::Command;
