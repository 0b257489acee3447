//! Whether two graphs are equal.
ghost use Rattle.std.specs.Prelude.{◌≡◌, ◌≢◌, MatchBool};

use nd_graph::{Edge, Graph, Vertex};

// Returns whether two vertices are equal.
fn same_vertex(one: &Vertex, other: &Vertex) -> bool
    ensures { MatchBool result (one.now ≡ other.now) (one.now ≢ other.now) }
{
    one.name == other.name && one.op == other.op && one.depth == other.depth
}

// Returns whether two edges are equal.
fn same_edge(one: &Edge, other: &Edge) -> bool
    ensures { MatchBool result (one.now ≡ other.now) (one.now ≢ other.now) }
{
    one.name == other.name
        && one.from == other.from
        && one.port == other.port
        && one.to == other.to
        && one.route == other.route
}

// Returns whether two lists of vertices are equal.
fn same_vertices(one: &[Vertex], other: &[Vertex]) -> bool
    ensures { MatchBool result (one.now ≡ other.now) (one.now ≢ other.now) }
{
    if one.len() != other.len() {
        return false;
    }
    for i in 0..one.len() {
        if !same_vertex(&one[i], &other[i]) {
            return false;
        }
    }
    true
}

// Returns whether two lists of edges are equal.
fn same_edges(one: &[Edge], other: &[Edge]) -> bool
    ensures { MatchBool result (one.now ≡ other.now) (one.now ≢ other.now) }
{
    if one.len() != other.len() {
        return false;
    }
    for i in 0..one.len() {
        if !same_edge(&one[i], &other[i]) {
            return false;
        }
    }
    true
}

/// Returns whether two graphs have the same timestamp order, vertices and edges.
pub fn same_graph(one: &Graph, other: &Graph) -> bool
    ensures { MatchBool result (one.now ≡ other.now) (one.now ≢ other.now) }
{
    one.order() == other.order()
        && same_vertices(one.vertices(), other.vertices())
        && same_edges(one.edges(), other.edges())
}
