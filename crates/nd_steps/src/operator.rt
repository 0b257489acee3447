//! The operator at a location.
ghost use Rattle.std.specs.Prelude.{◌≡◌};
ghost use Rattle.nd_graph.specs.Checked.{IsFaultless};
ghost use Rattle.nd_graph.specs.Graph.{op_at as operator_at};

use nd_graph::{Graph, Op};
use std::alloc::Allocator;

/// Returns the operator at a vertex's location; at an edge's location returns that of a sink.
pub fn op_at<B: Allocator>(graph: &Graph<B>, location: usize) -> Op
    ensures op { result ≡ operator_at graph.now location }
    ensures sound { IsFaultless graph.now }
{
    match graph.vertices().get(location) {
        Some(vertex) => vertex.op,
        None => Op::Sink,
    }
}
