//! The order of the steps does not matter: which moves a cluster has, when it is at rest, and what follows.
#![tactic(auto)]

mod laws;

pub use laws::{order_does_not_matter, rest_is_left_to_users};
