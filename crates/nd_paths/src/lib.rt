//! Pointstamps, and which of them could result in which others.
#![tactic(auto)]

mod arrival;
mod order;
mod paths;
mod point;

pub use arrival::{ArrivalTime, arrival_times_are_listed};
pub use nd_summaries::{Constants, PathFault, Summary};
pub use order::order_is_transitive;
pub use paths::Paths;
pub use point::{Pointstamp, pointstamps_are_listed};
