//! Runs of scripts of several clients, each of which drives a session on a thread of its own.
#![tactic(auto)]

mod clients;
mod intake;
mod reader;

pub use clients::{debug_clients, debug_clients_within};
