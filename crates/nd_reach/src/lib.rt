//! What can still happen: the shortest list of moves to a state at which a condition holds, or that there is none.
#![tactic(auto)]

mod bytes;
mod entries;
mod fault;
mod form;
mod found;
mod going;
mod laws;
mod node;
mod reached;
mod search;
mod way;
mod writing;

pub use fault::ReachFault;
pub use laws::forms_determine_states;
pub use nd_cluster::Allowed;
pub use reached::{Reached, Steps};
pub use search::reach;
