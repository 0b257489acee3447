//! Dataflow graphs: vertices with operators, edges between them, and the arcs that times take.
#![tactic(auto)]

mod arcs;
mod build;
mod check;
mod draft;
mod fault;
mod graph;
mod locations;
mod name;
mod names;
mod op;

pub use arcs::ArcsFrom;
pub use draft::{DraftEdge, GraphDraft};
pub use fault::GraphFault;
pub use graph::{Arc, Edge, Graph, Vertex};
pub use name::Name;
pub use op::{Action, Op, Route};
