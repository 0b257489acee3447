//! Runs of scripts of one client: a script of JSON lines is read from a source of bytes, and each line is answered to a
//! sink of bytes.
#![tactic(auto)]

mod driver;
mod run;

pub use driver::{debug, debug_within};
