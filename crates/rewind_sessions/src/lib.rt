//! What the clients of a script do: the commands that their lines ask for, the session that executes them, and the lines
//! that report the result.
#![tactic(auto)]

mod drive;
mod gated;
mod gather;
mod numbers;
mod order;
mod same;
mod write;

pub use drive::{Driven, drive_session};
pub use order::{Order, OrderFault, order_in};
pub use write::{write_log, write_opening, write_reply, write_version};
