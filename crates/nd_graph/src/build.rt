//! Builds a graph from vertices and edges that were checked.
ghost use Rattle.std.specs.Prelude.{◌≡◌, ◌+◌, ◌++◌, ◌≤◌, IfOk, length, map};
ghost use Rattle.nd_time.specs.Limits.{max_locations};
ghost use Rattle.nd_graph.specs.Graph.{graph_of, depth_past_vertex, arcs_from, action_at};
ghost use Rattle.nd_graph.specs.Checked.{IsFaultless};

use crate::check::edge_depth;
use crate::{Action, Arc, Edge, Graph, Vertex};
use nd_time::TimeOrder;
use std::alloc::{AllocError, Allocator};

// Returns the depth of each location.
fn depths_of<A: Allocator>(
    alloc: A,
    vertices: &[Vertex],
    edges: &[Edge],
) -> Result<Vec<usize, A>, AllocError>
    ensures { IfOk result (λ v. v.items ≡ map (λ v. v.depth) vertices.now
        ++ map (λ e. depth_past_vertex vertices.now e.from) edges.now) }
{
    let mut depths = Vec::new(alloc);
    for vertex in vertices {
        depths.push(vertex.depth as usize)?;
    }
    for edge in edges {
        depths.push(edge_depth(vertices, edge))?;
    }
    Ok(depths)
}

// Returns the action of the vertex that the edge leaves.
fn source_action(vertices: &[Vertex], edge: &Edge) -> Action
    ensures { result ≡ action_at vertices.now edge.now.from }
{
    match vertices.get(edge.from) {
        Some(source) => source.op.action(),
        None => Action::Identity,
    }
}

// Returns the arcs of each edge in turn.
fn arcs_of<A: Allocator>(
    alloc: A,
    vertices: &[Vertex],
    edges: &[Edge],
) -> Result<Vec<Arc, A>, AllocError>
    requires { length vertices.now + length edges.now ≤ max_locations }
    ensures { IfOk result (λ v. v.items
        ≡ arcs_from vertices.now (length vertices.now) edges.now) }
{
    let mut arcs = Vec::new(alloc);
    for (index, edge) in edges.iter().enumerate() {
        let location = vertices.len() + index;
        arcs.push(Arc {
            from: edge.from,
            action: source_action(vertices, edge),
            to: location,
        })?;
        arcs.push(Arc {
            from: location,
            action: Action::Identity,
            to: edge.to,
        })?;
    }
    Ok(arcs)
}

/// Returns the graph of this order and these vertices and edges.
pub(crate) fn built<A: Allocator + Copy>(
    alloc: A,
    order: TimeOrder,
    vertices: Vec<Vertex, A>,
    edges: Vec<Edge, A>,
) -> Result<Graph<A>, AllocError>
    requires { IsFaultless (graph_of order vertices.items edges.items) }
    ensures { IfOk result (λ g. g ≡ graph_of order vertices.items edges.items) }
{
    let depths = depths_of(alloc, &vertices, &edges)?;
    let arcs = arcs_of(alloc, &vertices, &edges)?;
    Ok(Graph::from_parts(order, vertices, edges, depths, arcs))
}
