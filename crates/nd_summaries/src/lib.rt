//! Path summaries and accepted graphs, for both orders of timestamps.
#![tactic(auto)]

mod accept;
mod compose;
mod laws;
mod list;
mod numbers;
mod outgoing;
mod row;
mod shared;
mod summaries;
mod summary;
mod table;

pub use accept::PathFault;
pub use laws::{closed_walks_fail_alike, short_walks_suffice, times_are_ordered};
pub use summaries::Summaries;
pub use summary::{Constants, Summary};
