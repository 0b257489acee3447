//! A graph with consistent ends, ports and depths.
ghost use Rattle.std.specs.Prelude.{◌≡◌, ◌<◌, ◌≤◌, Some, All, IfOk, length, slice_get};
ghost use Rattle.nd_time.specs.Limits.{max_depth, max_locations};
ghost use Rattle.nd_graph.specs.Graph.{arcs as arcs_of, depths as depths_of, location_count as count_of, ArcAgrees};

use crate::{Action, Name, Op, Route};
use nd_time::TimeOrder;
use std::alloc::{AllocError, Allocator, Global};
use std::marker::Model;

/// A vertex. Its location is its position among the vertices, in order of appearance.
#[derive(Debug, Drop)]
pub struct Vertex {
    pub name: Name,
    pub op: Op,
    /// The number of loops that enclose the vertex.
    pub depth: u32,
}

impl Vertex {
    /// Returns a copy of the vertex.
    pub fn copy(&self) -> Vertex
        ensures { result ≡ self.now }
    {
        Vertex {
            name: self.name.copy(),
            op: self.op,
            depth: self.depth,
        }
    }
}

/// An edge. Its location is the number of vertices plus its position among the edges, in order of appearance.
#[derive(Debug, Drop)]
pub struct Edge {
    pub name: Name,
    /// The location of the vertex that the edge leaves.
    pub from: usize,
    /// The port of that vertex.
    pub port: u32,
    /// The location of the vertex that the edge enters.
    pub to: usize,
    pub route: Route,
}

impl Edge {
    /// Returns a copy of the edge.
    pub fn copy(&self) -> Edge
        ensures { result ≡ self.now }
    {
        Edge {
            name: self.name.copy(),
            from: self.from,
            port: self.port,
            to: self.to,
            route: self.route,
        }
    }
}

/// One step that a time can take, from one location to the next.
#[derive(Clone, Copy, Debug, Drop, PartialEq, Eq)]
pub struct Arc {
    pub from: usize,
    /// What the step does to the time.
    pub action: Action,
    pub to: usize,
}

/// A dataflow graph (Naiad, SOSP 2013, section 2.1).
pub struct Graph<A: Allocator = Global> {
    order: TimeOrder,
    vertices: Vec<Vertex, A>,
    edges: Vec<Edge, A>,
    depths: Vec<usize, A>,
    arcs: Vec<Arc, A>,
}

impl<A: Allocator> Drop for Graph<A> {
    fn drop(self) {
        let Graph {
            order: _,
            vertices: _,
            edges: _,
            depths: _,
            arcs: _,
        } = self;
    }
}

impl<A: Allocator> Model for Graph<A> {
    ghost use Rattle.nd_graph.specs.Graph.{Dataflow, IsGraph, graph_of};
    ghost use Rattle.nd_graph.specs.Checked.{IsFaultless};

    ghost Value = { Dataflow };

    ghost view = { λ a. graph_of a.order a.vertices.items a.edges.items };

    ghost invariant = { λ a.
        IsGraph (graph_of a.order a.vertices.items a.edges.items) a.depths.items a.arcs.items
        × IsFaultless (graph_of a.order a.vertices.items a.edges.items) };
}

fn copied_vertices<A: Allocator>(
    alloc: A,
    vertices: &[Vertex],
) -> Result<Vec<Vertex, A>, AllocError>
    ensures { IfOk result (λ v. v.items ≡ vertices.now) }
{
    let mut copied = Vec::with_capacity(alloc, vertices.len())?;
    for vertex in vertices {
        copied.push(vertex.copy())?;
    }
    Ok(copied)
}

fn copied_edges<A: Allocator>(alloc: A, edges: &[Edge]) -> Result<Vec<Edge, A>, AllocError>
    ensures { IfOk result (λ v. v.items ≡ edges.now) }
{
    let mut copied = Vec::with_capacity(alloc, edges.len())?;
    for edge in edges {
        copied.push(edge.copy())?;
    }
    Ok(copied)
}

impl<A: Allocator> Graph<A> {
    ghost use Rattle.nd_graph.specs.Graph.{IsGraph, graph_of};
    ghost use Rattle.nd_graph.specs.Checked.{IsFaultless};

    /// Returns the graph of these parts.
    pub(crate) fn from_parts(
        order: TimeOrder,
        vertices: Vec<Vertex, A>,
        edges: Vec<Edge, A>,
        depths: Vec<usize, A>,
        arcs: Vec<Arc, A>,
    ) -> Graph<A>
        requires kept { IsGraph (graph_of order vertices.items edges.items)
            depths.items arcs.items }
        requires sound { IsFaultless (graph_of order vertices.items edges.items) }
        ensures { result ≡ graph_of order vertices.items edges.items }
    {
        Graph {
            order,
            vertices,
            edges,
            depths,
            arcs,
        }
    }

    /// Returns the order of the graph's timestamps.
    pub fn order(&self) -> TimeOrder
        ensures { result ≡ self.now.order }
    {
        self.order
    }

    /// Returns the vertices, in order of appearance.
    pub fn vertices(&self) -> &[Vertex]
        ensures vertices { result.now ≡ self.now.vertices }
        ensures sound { IsFaultless self.now }
    {
        self.vertices.as_slice()
    }

    /// Returns the edges, in order of appearance.
    pub fn edges(&self) -> &[Edge]
        ensures edges { result.now ≡ self.now.edges }
        ensures sound { IsFaultless self.now }
    {
        self.edges.as_slice()
    }

    /// Returns the number of locations: vertices and edges.
    pub fn location_count(&self) -> usize
        ensures count { result ≡ count_of self.now }
        ensures few { count_of self.now ≤ max_locations }
    {
        self.vertices.len() + self.edges.len()
    }

    /// Returns the number of loops that enclose `location`.
    pub fn location_depth(&self, location: usize) -> usize
        requires { location < count_of self.now }
        ensures depth { slice_get (depths_of self.now) location ≡ Some result }
        ensures shallow { result ≤ max_depth }
    {
        self.depths[location]
    }

    /// Returns the number of loops that enclose each location, in the order of locations.
    pub fn depths(&self) -> &[usize]
        ensures depths { result.now ≡ depths_of self.now }
        ensures shallow { All (λ d. d ≤ max_depth) (depths_of self.now) }
        ensures each { length (depths_of self.now) ≡ count_of self.now }
        ensures few { count_of self.now ≤ max_locations }
    {
        self.depths.as_slice()
    }

    /// Returns all arcs: for each edge in turn, the arc into the edge and the arc out of it.
    pub fn all_arcs(&self) -> &[Arc]
        ensures arcs { result.now ≡ arcs_of self.now }
        ensures agree { All (ArcAgrees (depths_of self.now)) (arcs_of self.now) }
        ensures shallow { All (λ d. d ≤ max_depth) (depths_of self.now) }
        ensures few { count_of self.now ≤ max_locations }
    {
        self.arcs.as_slice()
    }

    /// Returns a copy of the graph.
    pub fn copy(&self, alloc: A) -> Result<Graph<A>, AllocError>
    where
        A: Copy,
        ensures { IfOk result (λ g. g ≡ self.now) }
    {
        let vertices = copied_vertices(alloc, &self.vertices)?;
        let edges = copied_edges(alloc, &self.edges)?;
        let depths = Vec::from_slice(alloc, &self.depths)?;
        let arcs = Vec::from_slice(alloc, &self.arcs)?;
        Ok(Graph {
            order: self.order,
            vertices,
            edges,
            depths,
            arcs,
        })
    }
}
