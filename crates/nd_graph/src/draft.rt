//! A graph as it is written, before its names are resolved.
ghost use Rattle.std.specs.Prelude.{◌≡◌, ◌≤◌, ◌⊎◌, IfOk, IfErr, Some, None, ok_or};
ghost use Rattle.std.specs.List.{list_all, list_any};
ghost use Rattle.serde_json.specs.View.{view};
ghost use Rattle.nd_graph.specs.Draft as form;
ghost use Rattle.nd_graph.specs.Name.{is_name_v8};
ghost use Rattle.nd_time.specs.Limits.{max_depth, max_locations};
ghost use Rattle.nd_graph.specs.Checked.{checked, checked_v1, checked_v5, checked_v8, checked_within};
ghost use Rattle.nd_graph.specs.Fault.{IsUnlessMemory};
ghost use Rattle.nd_graph.specs.declared.fault.GraphFault.TheVariants.{Shape, Memory};

use crate::build::built;
use crate::check::fault_of;
use crate::names::edges_between;
use crate::{Graph, GraphFault, Name, Op, Route, Vertex};
use nd_json::{boolean_at, has_keys, integer_at, list_at, small_at, text_at};
use nd_time::TimeOrder;
use nd_time::limits::{
    MAX_DEPTH, MAX_DEPTH_V1, MAX_LOCATIONS, MAX_LOCATIONS_V5, MAX_LOCATIONS_V8, MAX_PORTS,
};
use serde_json::Value;
use std::alloc::{Allocator, Global};
use std::marker::Model;

/// An edge as it is written.
#[derive(Debug, Drop)]
pub struct DraftEdge {
    pub name: Name,
    /// The name of the vertex that the edge leaves; `None` for a text that is not a name.
    pub from: Option<Name>,
    /// The port of that vertex.
    pub port: u32,
    /// The name of the vertex that the edge enters; `None` for a text that is not a name.
    pub to: Option<Name>,
    pub route: Route,
}

/// A graph as it is written: its names, ports and depths are not checked yet.
#[derive(Drop)]
pub struct GraphDraft<A: Allocator = Global> {
    order: TimeOrder,
    vertices: Vec<Vertex, A>,
    edges: Vec<DraftEdge, A>,
}

impl<A: Allocator> Model for GraphDraft<A> {
    ghost use Rattle.nd_graph.specs.Draft.{Draft};

    ghost Value = { Draft };

    ghost view = { λ a.
        record { order = a.order; vertices = a.vertices.items; edges = a.edges.items } };
}

impl<A: Allocator> GraphDraft<A> {
    /// Reads a graph from a JSON value. Returns `Shape` if the value does not have the form of a graph; the only other error is `Memory`.
    #[tactic(auto, unfolding(crate::specs::Draft::draft_of))]
    pub fn from_value(alloc: A, value: &Value) -> Result<GraphDraft<A>, GraphFault>
    where
        A: Copy,
        ensures { IsUnlessMemory (ok_or (form.draft_of (view value.now)) Shape) result }
    {
        let order = order_in(value).ok_or(GraphFault::Shape)?;
        let vertices = vertices_of(alloc, value)?;
        let edges = edges_of(alloc, value)?;
        Ok(GraphDraft {
            order,
            vertices,
            edges,
        })
    }

    /// Does the same for a graph of the versions before 9, which does not name its order, and in which a name has at most
    /// 32 bytes and no space.
    pub fn from_value_v8(alloc: A, value: &Value) -> Result<GraphDraft<A>, GraphFault>
    where
        A: Copy,
        ensures { IsUnlessMemory (ok_or (form.draft_of_v8 (view value.now)) Shape) result }
    {
        if !has_plain_keys(value) {
            return Err(GraphFault::Shape);
        }
        let draft = match GraphDraft::from_value(alloc, value) {
            Ok(draft) => draft,
            Err(fault) => return Err(fault),
        };
        if !are_named_v8(&draft.vertices, &draft.edges) {
            return Err(GraphFault::Shape);
        }
        Ok(draft)
    }

    /// Does the same for a graph of the versions before 6, in which no vertex is opaque.
    pub fn from_value_v5(alloc: A, value: &Value) -> Result<GraphDraft<A>, GraphFault>
    where
        A: Copy,
        ensures { IsUnlessMemory (ok_or (form.draft_of_v5 (view value.now)) Shape) result }
    {
        let draft = match GraphDraft::from_value_v8(alloc, value) {
            Ok(draft) => draft,
            Err(fault) => return Err(fault),
        };
        if some_is_opaque(&draft.vertices) {
            return Err(GraphFault::Shape);
        }
        Ok(draft)
    }

    /// Does the same for a graph of the versions before 5, in which no vertex is a hold or opaque.
    pub fn from_value_v4(alloc: A, value: &Value) -> Result<GraphDraft<A>, GraphFault>
    where
        A: Copy,
        ensures { IsUnlessMemory (ok_or (form.draft_of_v4 (view value.now)) Shape) result }
    {
        let draft = match GraphDraft::from_value_v5(alloc, value) {
            Ok(draft) => draft,
            Err(fault) => return Err(fault),
        };
        if some_holds(&draft.vertices) {
            return Err(GraphFault::Shape);
        }
        Ok(draft)
    }

    /// Checks the graph, and replaces the names of its edges' ends by locations. Of several errors it returns the one with the
    /// least number, and never `Shape`. A graph may have 4,096 locations, each in at most 6 nested loops.
    pub fn check(self, alloc: A) -> Result<Graph<A>, GraphFault>
    where
        A: Copy,
        ensures { IsUnlessMemory (checked self) result }
    {
        self.check_within(alloc, MAX_DEPTH, MAX_LOCATIONS)
    }

    /// Does the same for a graph of the versions 6 to 8, which may have 256 locations.
    pub fn check_v8(self, alloc: A) -> Result<Graph<A>, GraphFault>
    where
        A: Copy,
        ensures { IsUnlessMemory (checked_v8 self) result }
    {
        self.check_within(alloc, MAX_DEPTH, MAX_LOCATIONS_V8)
    }

    /// Does the same for a graph of the versions 2 to 5, which may have 64 locations.
    pub fn check_v5(self, alloc: A) -> Result<Graph<A>, GraphFault>
    where
        A: Copy,
        ensures { IsUnlessMemory (checked_v5 self) result }
    {
        self.check_within(alloc, MAX_DEPTH, MAX_LOCATIONS_V5)
    }

    /// Does the same for a graph of version 1, which may have 64 locations, each in at most 4 nested loops.
    pub fn check_v1(self, alloc: A) -> Result<Graph<A>, GraphFault>
    where
        A: Copy,
        ensures { IsUnlessMemory (checked_v1 self) result }
    {
        self.check_within(alloc, MAX_DEPTH_V1, MAX_LOCATIONS_V5)
    }

    // Checks the graph, if it may have `many` locations, each in at most `most` nested loops.
    #[tactic(auto, unfolding(crate::specs::Checked::checked_within))]
    fn check_within(self, alloc: A, most: usize, many: usize) -> Result<Graph<A>, GraphFault>
    where
        A: Copy,
        requires deep { most ≤ max_depth }
        requires few { many ≤ max_locations }
        ensures { IsUnlessMemory (checked_within most many self) result }
    {
        let GraphDraft {
            order,
            vertices,
            edges: written,
        } = self;
        let edges = edges_between(alloc, &vertices, &written)?;
        if let Some(fault) = fault_of(most, many, &vertices, &edges) {
            return Err(fault);
        }
        Ok(built(alloc, order, vertices, edges)?)
    }
}

// Returns whether the value has the keys of a graph that does not name its order.
fn has_plain_keys(value: &Value) -> bool
    ensures { result ≡ form.has_plain_keys (view value.now) }
{
    has_keys(value, ["edges", "vertices"].as_slice())
}

#[tactic(auto, unfolding(crate::specs::Draft::order_in))]
fn order_in(value: &Value) -> Option<TimeOrder>
    ensures { result ≡ form.order_in (view value.now) }
{
    if has_plain_keys(value) {
        Some(TimeOrder::Lexicographic)
    } else if has_keys(value, ["edges", "order", "vertices"].as_slice()) {
        order_of(text_at(value, "order")?)
    } else {
        None
    }
}

#[tactic(auto, unfolding(crate::specs::Draft::order_of))]
fn order_of(text: &str) -> Option<TimeOrder>
    ensures { result ≡ form.order_of text.now }
{
    match text {
        "lexicographic" => Some(TimeOrder::Lexicographic),
        "product" => Some(TimeOrder::Product),
        _ => None,
    }
}

fn vertices_of<A: Allocator>(alloc: A, value: &Value) -> Result<Vec<Vertex, A>, GraphFault>
    ensures ok { IfOk result (λ v. form.vertices_in (view value.now) ≡ Some v.items) }
    ensures err { IfErr result (λ e. (e ≡ Memory)
        ⊎ ((e ≡ Shape) × (form.vertices_in (view value.now) ≡ None))) }
{
    let values = list_at(value, "vertices").ok_or(GraphFault::Shape)?;
    let mut vertices = Vec::new(alloc);
    for value in values {
        let vertex = vertex_of(value).ok_or(GraphFault::Shape)?;
        vertices.push(vertex)?;
    }
    Ok(vertices)
}

fn edges_of<A: Allocator>(alloc: A, value: &Value) -> Result<Vec<DraftEdge, A>, GraphFault>
    ensures ok { IfOk result (λ v. form.edges_in (view value.now) ≡ Some v.items) }
    ensures err { IfErr result (λ e. (e ≡ Memory)
        ⊎ ((e ≡ Shape) × (form.edges_in (view value.now) ≡ None))) }
{
    let values = list_at(value, "edges").ok_or(GraphFault::Shape)?;
    let mut edges = Vec::new(alloc);
    for value in values {
        let edge = edge_of(value).ok_or(GraphFault::Shape)?;
        edges.push(edge)?;
    }
    Ok(edges)
}

#[tactic(auto, unfolding(crate::specs::Draft::vertex_of))]
fn vertex_of(value: &Value) -> Option<Vertex>
    ensures { result ≡ form.vertex_of (view value.now) }
{
    let name = name_in(value)?;
    let op = op_of(value)?;
    let depth = small_at(value, "depth")?;
    Some(Vertex { name, op, depth })
}

#[tactic(auto, unfolding(crate::specs::Draft::edge_of))]
fn edge_of(value: &Value) -> Option<DraftEdge>
    ensures { result ≡ form.edge_of (view value.now) }
{
    if !has_keys(value, ["from", "name", "port", "route", "to"].as_slice()) {
        return None;
    }
    let name = name_in(value)?;
    let from = text_at(value, "from")?;
    let port = small_at(value, "port")?;
    let to = text_at(value, "to")?;
    let route = route_of(text_at(value, "route")?)?;
    Some(DraftEdge {
        name,
        from: name_of(from),
        port,
        to: name_of(to),
        route,
    })
}

fn vertices_are_named_v8(vertices: &[Vertex]) -> bool
    ensures { result ≡ list_all (λ v. is_name_v8 v.name) vertices.now }
{
    vertices.iter().all(|vertex| vertex.name.is_in_version_8())
}

fn edges_are_named_v8(edges: &[DraftEdge]) -> bool
    ensures { result ≡ list_all (λ e. is_name_v8 e.name) edges.now }
{
    edges.iter().all(|edge| edge.name.is_in_version_8())
}

// Returns whether the versions before 9 have each name of a vertex or an edge.
fn are_named_v8(vertices: &[Vertex], edges: &[DraftEdge]) -> bool
    ensures { result ≡ form.are_named_v8 vertices.now edges.now }
{
    vertices_are_named_v8(vertices) && edges_are_named_v8(edges)
}

fn is_opaque(op: Op) -> bool
    ensures { result ≡ form.is_opaque op }
{
    matches!(op, Op::Opaque { .. })
}

fn some_is_opaque(vertices: &[Vertex]) -> bool
    ensures { result ≡ list_any (λ v. form.is_opaque v.op) vertices.now }
{
    vertices.iter().any(|vertex| is_opaque(vertex.op))
}

fn is_hold(op: Op) -> bool
    ensures { result ≡ form.is_hold op }
{
    matches!(op, Op::Hold)
}

fn some_holds(vertices: &[Vertex]) -> bool
    ensures { result ≡ list_any (λ v. form.is_hold v.op) vertices.now }
{
    vertices.iter().any(|vertex| is_hold(vertex.op))
}

fn name_of(text: &str) -> Option<Name>
    ensures { result ≡ form.name_of text.now }
{
    Name::new(text)
}

#[tactic(auto, unfolding(crate::specs::Draft::name_in))]
fn name_in(value: &Value) -> Option<Name>
    ensures { result ≡ form.name_in (view value.now) }
{
    text_at(value, "name").and_then(name_of)
}

#[tactic(auto, unfolding(crate::specs::Draft::op_of))]
fn op_of(value: &Value) -> Option<Op>
    ensures { result ≡ form.op_of (view value.now) }
{
    if has_keys(value, ["depth", "name", "op"].as_slice()) {
        plain_op(text_at(value, "op")?)
    } else if has_keys(value, ["depth", "k", "name", "op"].as_slice()) {
        numbered_op(text_at(value, "op")?, integer_at(value, "k")?)
    } else if has_keys(value, ["depth", "name", "op", "ports"].as_slice()) {
        opaque_op(text_at(value, "op")?, small_at(value, "ports")?, false)
    } else if has_keys(value, ["depth", "name", "op", "ports", "starts"].as_slice()) {
        let starts = boolean_at(value, "starts")?;
        opaque_op(text_at(value, "op")?, small_at(value, "ports")?, starts)
    } else {
        None
    }
}

#[tactic(auto, unfolding(crate::specs::Draft::plain_op))]
fn plain_op(text: &str) -> Option<Op>
    ensures { result ≡ form.plain_op text.now }
{
    match text {
        "input" => Some(Op::Input),
        "ingress" => Some(Op::Ingress),
        "egress" => Some(Op::Egress),
        "feedback" => Some(Op::Feedback),
        "sum" => Some(Op::Sum),
        "distinct" => Some(Op::Distinct),
        "hold" => Some(Op::Hold),
        "sink" => Some(Op::Sink),
        _ => None,
    }
}

#[tactic(auto, unfolding(crate::specs::Draft::numbered_op))]
fn numbered_op(text: &str, k: i64) -> Option<Op>
    ensures { result ≡ form.numbered_op text.now k }
{
    match text {
        "add" => Some(Op::Add(k)),
        "mul" => Some(Op::Mul(k)),
        "below" => Some(Op::Below(k)),
        "split" => Some(Op::Split(k)),
        _ => None,
    }
}

#[tactic(auto, unfolding(crate::specs::Draft::opaque_op))]
fn opaque_op(text: &str, ports: u32, starts: bool) -> Option<Op>
    ensures { result ≡ form.opaque_op text.now ports starts }
{
    if text == "opaque" && ports <= MAX_PORTS {
        Some(Op::Opaque { ports, starts })
    } else {
        None
    }
}

#[tactic(auto, unfolding(crate::specs::Draft::route_of))]
fn route_of(text: &str) -> Option<Route>
    ensures { result ≡ form.route_of text.now }
{
    match text {
        "local" => Some(Route::Local),
        "exchange" => Some(Route::Exchange),
        _ => None,
    }
}
