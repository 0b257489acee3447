//! Checks a graph whose names are resolved: its ports, its depths and its size.
ghost use Rattle.std.specs.Prelude.{◌≡◌, ◌+◌, nat_lt};
ghost use Rattle.std.specs.List.{list_any};
ghost use Rattle.nd_time.specs.declared.order.TimeOrder.{TimeOrder};
ghost use Rattle.nd_graph.specs.Graph.{graph_of, depth_past as past_depth, action_of, depth_past_vertex};
ghost use Rattle.nd_graph.specs.Checked as rule;

use crate::{Action, Edge, GraphFault, Vertex};

#[tactic(auto, unfolding(crate::specs::Checked::has_bad_port))]
fn has_bad_port(vertices: &[Vertex], edge: &Edge) -> bool
    ensures { result ≡ rule.has_bad_port vertices.now edge.now }
{
    let ports_there = match vertices.get(edge.from) {
        Some(source) => source.op.ports(),
        None => 0,
    };
    let enters_input = match vertices.get(edge.to) {
        Some(target) => target.op.is_input(),
        None => false,
    };
    ports_there <= edge.port || enters_input
}

fn is_misplaced(vertex: &Vertex) -> bool
    ensures { result ≡ rule.is_misplaced vertex.now }
{
    let stands_in_loop = match vertex.op.action() {
        Action::Egress | Action::Feedback => true,
        Action::Identity | Action::Ingress => false,
    };
    (vertex.op.is_input() && 0 < vertex.depth) || (stands_in_loop && vertex.depth == 0)
}

// Returns the depth of the edges that leave the vertex.
fn depth_past(vertex: &Vertex) -> usize
    ensures { result ≡ past_depth (action_of vertex.now.op) vertex.now.depth }
{
    let depth = vertex.depth as usize;
    match vertex.op.action() {
        Action::Ingress => depth + 1,
        Action::Egress => depth.saturating_sub(1),
        Action::Identity | Action::Feedback => depth,
    }
}

pub(crate) fn edge_depth(vertices: &[Vertex], edge: &Edge) -> usize
    ensures { result ≡ depth_past_vertex vertices.now edge.now.from }
{
    match vertices.get(edge.from) {
        Some(source) => depth_past(source),
        None => 0,
    }
}

#[tactic(auto, unfolding(crate::specs::Checked::misses_depth))]
fn misses_depth(vertices: &[Vertex], edge: &Edge) -> bool
    ensures { result ≡ rule.misses_depth vertices.now edge.now }
{
    let target_depth = match vertices.get(edge.to) {
        Some(target) => target.depth as usize,
        None => 0,
    };
    edge_depth(vertices, edge) != target_depth
}

fn is_too_deep(most: usize, vertex: &Vertex) -> bool
    ensures { result ≡ rule.is_too_deep most vertex.now }
{
    let depth = vertex.depth as usize;
    let leads_in = match vertex.op.action() {
        Action::Ingress => true,
        Action::Identity | Action::Egress | Action::Feedback => false,
    };
    most < depth || (leads_in && depth == most)
}

#[tactic(auto, unfolding(crate::specs::Checked::leads_too_deep))]
fn leads_too_deep(most: usize, vertices: &[Vertex], edge: &Edge) -> bool
    ensures { result ≡ rule.leads_too_deep most vertices.now edge.now }
{
    most < edge_depth(vertices, edge)
}

fn some_has_bad_port(vertices: &[Vertex], edges: &[Edge]) -> bool
    ensures { result ≡ list_any (rule.has_bad_port vertices.now) edges.now }
{
    edges.iter().any(|edge| has_bad_port(vertices, edge))
}

fn some_is_misplaced(vertices: &[Vertex]) -> bool
    ensures { result ≡ list_any rule.is_misplaced vertices.now }
{
    vertices.iter().any(|vertex| is_misplaced(vertex))
}

fn some_misses_depth(vertices: &[Vertex], edges: &[Edge]) -> bool
    ensures { result ≡ list_any (rule.misses_depth vertices.now) edges.now }
{
    edges.iter().any(|edge| misses_depth(vertices, edge))
}

fn some_is_too_deep(most: usize, vertices: &[Vertex]) -> bool
    ensures { result ≡ list_any (rule.is_too_deep most) vertices.now }
{
    vertices.iter().any(|vertex| is_too_deep(most, vertex))
}

fn some_leads_too_deep(most: usize, vertices: &[Vertex], edges: &[Edge]) -> bool
    ensures { result ≡ list_any (rule.leads_too_deep most vertices.now) edges.now }
{
    edges
        .iter()
        .any(|edge| leads_too_deep(most, vertices, edge))
}

#[tactic(auto, unfolding(crate::specs::Checked::has_depth_mismatch))]
fn has_depth_mismatch(vertices: &[Vertex], edges: &[Edge]) -> bool
    ensures { (order : TimeOrder)
        → result ≡ rule.has_depth_mismatch (graph_of order vertices.now edges.now) }
{
    some_is_misplaced(vertices) || some_misses_depth(vertices, edges)
}

fn are_too_many(many: usize, vertices: usize, edges: usize) -> bool
    ensures { result ≡ nat_lt many (vertices + edges) }
{
    many < vertices || many - vertices < edges
}

#[tactic(auto, unfolding(crate::specs::Checked::is_too_large))]
fn is_too_large(most: usize, many: usize, vertices: &[Vertex], edges: &[Edge]) -> bool
    ensures { (order : TimeOrder)
        → result ≡ rule.is_too_large most many (graph_of order vertices.now edges.now) }
{
    are_too_many(many, vertices.len(), edges.len())
        || some_is_too_deep(most, vertices)
        || some_leads_too_deep(most, vertices, edges)
}

/// Returns the first error of a graph whose names are resolved, if depths may be at most `most`, and locations at most
/// `many`.
#[tactic(auto, unfolding(crate::specs::Checked::fault_of))]
pub(crate) fn fault_of(
    most: usize,
    many: usize,
    vertices: &[Vertex],
    edges: &[Edge],
) -> Option<GraphFault>
    ensures { (order : TimeOrder)
        → result ≡ rule.fault_of most many (graph_of order vertices.now edges.now) }
{
    if some_has_bad_port(vertices, edges) {
        Some(GraphFault::BadPort)
    } else if has_depth_mismatch(vertices, edges) {
        Some(GraphFault::DepthMismatch)
    } else if is_too_large(most, many, vertices, edges) {
        Some(GraphFault::TooLarge)
    } else {
        None
    }
}
