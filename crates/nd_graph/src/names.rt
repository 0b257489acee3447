//! The names of a graph, numbered in order of appearance.
ghost use Rattle.std.specs.Prelude.{◌≡◌, ◌++◌, ◌⊎◌, [], ◌∷◌, true, false, Some, None, IfOk, IfErr, OnOk, length, map, take, Ok, Err};
ghost use Rattle.std.specs.List.{list_any};
ghost use Rattle.std.specs.Str.{bytes_eq};
ghost use Rattle.nd_graph.specs.declared.fault.GraphFault.TheVariants.{DoubleName, UnknownName, Memory};
ghost use Rattle.nd_graph.specs.Draft.{every};
ghost use Rattle.nd_graph.specs.Checked as rule;

use crate::{DraftEdge, Edge, GraphFault, Name, Vertex};
use indexmap::IndexSet;
use std::alloc::Allocator;
use std::hash::{BuildHasherDefault, FoldHasher};

type Names<A> = IndexSet<Name, BuildHasherDefault<FoldHasher>, A>;

// Gives `name` the next number. Returns `DoubleName` if the name has a number already.
fn add_name<A: Allocator + Copy>(names: &mut Names<A>, name: &Name) -> Result<(), GraphFault>
    ensures added { OnOk result (names.new.keys ≡ names.old.keys ++ name.now ∷ []) }
    ensures new { OnOk result (list_any (bytes_eq name.now) names.old.keys ≡ false) }
    ensures err { IfErr result (λ e. (e ≡ Memory)
        ⊎ ((e ≡ DoubleName) × (list_any (bytes_eq name.now) names.old.keys ≡ true))) }
{
    let is_new = names.insert(name.copy())?;
    if is_new {
        Ok(())
    } else {
        Err(GraphFault::DoubleName)
    }
}

// Numbers all names in order of appearance: those of the vertices, then those of the edges.
fn numbered<A: Allocator + Copy>(
    alloc: A,
    vertices: &[Vertex],
    edges: &[DraftEdge],
) -> Result<Names<A>, GraphFault>
    ensures all { IfOk result (λ s. s.keys ≡ rule.written_names vertices.now edges.now) }
    ensures once { OnOk result (rule.has_double_name vertices.now edges.now ≡ false) }
    ensures err { IfErr result (λ e. (e ≡ Memory)
        ⊎ ((e ≡ DoubleName) × (rule.has_double_name vertices.now edges.now ≡ true))) }
{
    let mut names = IndexSet::new(alloc);
    for vertex in vertices {
        add_name(&mut names, &vertex.name)?;
    }
    for edge in edges {
        add_name(&mut names, &edge.name)?;
    }
    Ok(names)
}

// Returns the location of the vertex that `end` names, or `None` if no vertex has that name.
#[tactic(auto, unfolding(crate::specs::Checked::end_of))]
fn end_of<A: Allocator>(names: &Names<A>, vertices: &[Vertex], end: &Option<Name>) -> Option<usize>
    requires { take (length vertices.now) names.now.keys ≡ map (λ v. v.name) vertices.now }
    ensures { result ≡ rule.end_of vertices.now end.now }
{
    let name = end.as_ref()?;
    let location = names.get_index_of(name)?;
    if location < vertices.len() {
        Some(location)
    } else {
        None
    }
}

#[tactic(auto, unfolding(crate::specs::Checked::located))]
fn located<A: Allocator>(names: &Names<A>, vertices: &[Vertex], edge: &DraftEdge) -> Option<Edge>
    requires { take (length vertices.now) names.now.keys ≡ map (λ v. v.name) vertices.now }
    ensures { result ≡ rule.located vertices.now edge.now }
{
    let from = end_of(names, vertices, &edge.from)?;
    let to = end_of(names, vertices, &edge.to)?;
    Some(Edge {
        name: edge.name.copy(),
        from,
        port: edge.port,
        to,
        route: edge.route,
    })
}

fn all_located<A: Allocator>(
    alloc: A,
    names: &Names<A>,
    vertices: &[Vertex],
    edges: &[DraftEdge],
) -> Result<Vec<Edge, A>, GraphFault>
    requires { take (length vertices.now) names.now.keys ≡ map (λ v. v.name) vertices.now }
    ensures ok { IfOk result (λ v. every (rule.located vertices.now) edges.now ≡ Some v.items) }
    ensures err { IfErr result (λ e. (e ≡ Memory)
        ⊎ ((e ≡ UnknownName) × (every (rule.located vertices.now) edges.now ≡ None))) }
{
    let mut found = Vec::new(alloc);
    for edge in edges {
        let edge = located(names, vertices, edge).ok_or(GraphFault::UnknownName)?;
        found.push(edge)?;
    }
    Ok(found)
}

/// Replaces the names of the edges' ends by locations. Returns `DoubleName` if two vertices or edges have the same name, and
/// `UnknownName` if an end is not a vertex.
#[tactic(auto, unfolding(crate::specs::Checked::edges_between))]
pub(crate) fn edges_between<A: Allocator + Copy>(
    alloc: A,
    vertices: &[Vertex],
    edges: &[DraftEdge],
) -> Result<Vec<Edge, A>, GraphFault>
    ensures ok { IfOk result (λ v. rule.edges_between vertices.now edges.now ≡ Ok v.items) }
    ensures err { IfErr result (λ e. (e ≡ Memory)
        ⊎ (rule.edges_between vertices.now edges.now ≡ Err e)) }
{
    let names = numbered(alloc, vertices, edges)?;
    all_located(alloc, &names, vertices, edges)
}
