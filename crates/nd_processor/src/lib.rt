//! One processor of a cluster: the records, requests, tokens, items, counts and unsent changes that it holds.
#![tactic(auto)]

mod key;
mod processor;
mod start;
mod tally;

pub use key::{SinkKey, ValueAt};
pub use processor::Processor;
pub use start::token_point;
pub use tally::CountFault;
