//! The state of a vertex of a dataflow graph, and what the vertex does on records and notifications.
#![tactic(auto)]

mod edits;
mod effect;
mod fault;
mod key;
mod react;
mod state;

pub use effect::{Effect, Emission, ItemEdit};
pub use fault::VertexFault;
pub use key::ItemKey;
pub use state::VertexState;
