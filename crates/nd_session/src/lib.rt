//! A session: a debugger machine that many clients drive, with one log of their commands and the replies.
#![tactic(auto)]

mod client;
mod close;
mod fault;
mod laws;
mod receipt;
mod session;
mod shared;
mod state;

pub use client::Client;
pub use close::{CloseFault, CloseWhy, Log};
pub use fault::SessionFault;
pub use laws::logs_determine_machines;
pub use receipt::Receipt;
pub use session::Session;
pub use state::State;
// Commands to a session, and replies.
pub use nd_commands::Command;
pub use nd_replies::Reply;
