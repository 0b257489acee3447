//! A cluster from its parts, for tests and laws: whether the keys of its maps fit its graph.
ghost use Rattle.std.specs.Prelude.{◌≡◌, ◌≢◌, ◌<◌, ◌↔◌, ℕ, pos, All, IfSome, IsNone, IsTrue, length};
ghost use Rattle.std.specs.FinMap as fin;
ghost use Rattle.nd_map.specs.Counts.{entries as counts_of};
ghost use Rattle.nd_delta.specs.Delta.{entries as entries_of};
ghost use Rattle.nd_processor.specs.State.{items_at};
ghost use Rattle.nd_cluster.specs.Parts.{IsToken, IsSink, IsRecordKey, IsItem, IsSinkKey, ItemsFit, RowFits, RowIsWithin};
ghost use Rattle.nd_protocol.specs.Seen.{seen};
ghost use Rattle.nd_mesh.specs.Mesh.{queue};
ghost use Rattle.nd_view.specs.Kept.{Kept, IsFor};
ghost use Rattle.nd_protocol.specs.Ranges.{IsValue};
ghost use Rattle.nd_protocol.specs.Fitting.{IsAtVertex, IsAtEdge, IsAtLocation, DeltaFits, DeltaIsWithin, ProcessorFits, ProcessorIsWithin, IsState};

use crate::Cluster;
use nd_delta::{Delta, LargeDelta};
use nd_graph::{Graph, Op};
use nd_mesh::Mesh;
use nd_paths::{Paths, Pointstamp};
use nd_processor::{Processor, SinkKey, ValueAt, token_point};
use nd_protocol::{Parts, times_are_small};
use nd_steps::op_at;
use nd_time::limits::MAX_PROCESSORS;
use nd_vertex::{ItemKey, VertexState};
use nd_view::View;
use std::alloc::Allocator;

// Returns whether a pointstamp is one of a vertex.
fn is_at_vertex<A: Allocator>(graph: &Graph<A>, point: &Pointstamp) -> bool
    ensures { IsTrue result ↔ IsAtVertex graph.now point.now }
{
    times_are_small(&point.time);
    point.location < graph.vertices().len() && point.fits(graph)
}

// Returns whether a pointstamp is one of an edge.
fn is_at_edge<A: Allocator>(graph: &Graph<A>, point: &Pointstamp) -> bool
    ensures { IsTrue result ↔ IsAtEdge graph.now point.now }
{
    times_are_small(&point.time);
    point.location >= graph.vertices().len() && point.fits(graph)
}

// Returns whether a pointstamp is one of the graph.
fn is_at_location<A: Allocator>(graph: &Graph<A>, point: &Pointstamp) -> bool
    ensures { IsTrue result ↔ IsAtLocation graph.now point.now }
{
    times_are_small(&point.time);
    point.fits(graph)
}

// Proves that a value is in the range of its type.
fn is_value(value: i64)
    ensures { IsValue value }
{
    let _value = value;
}

// Returns whether an input vertex may have a token at an epoch.
fn token_fits<A: Allocator>(graph: &Graph<A>, vertex: usize, epoch: u32) -> bool
    ensures { IsTrue result ↔ IsToken graph.now vertex epoch }
{
    matches!(op_at(graph, vertex), Op::Input) && is_at_vertex(graph, &token_point(vertex, epoch))
}

// Returns whether a vertex is a sink.
fn is_sink<A: Allocator>(graph: &Graph<A>, vertex: usize) -> bool
    ensures { IsTrue result ↔ IsSink graph.now vertex }
{
    vertex < graph.vertices().len() && matches!(op_at(graph, vertex), Op::Sink)
}

// Returns whether a record may have a count. Any may have the count 0.
fn record_fits<A: Allocator>(graph: &Graph<A>, key: &ValueAt, count: &u64) -> bool
    ensures { IsTrue result ↔ (count.now ≢ 0 → IsRecordKey graph.now key.now) }
{
    is_value(key.value);
    *count == 0 || is_at_edge(graph, &key.point)
}

// Returns whether a sink vertex may have a count of a value. Any may have the count 0.
fn sink_fits<A: Allocator>(graph: &Graph<A>, key: &SinkKey, count: &u64) -> bool
    ensures { IsTrue result ↔ (count.now ≢ 0 → IsSinkKey graph.now key.now) }
{
    is_value(key.value);
    *count == 0 || is_sink(graph, key.vertex)
}

// Returns whether a vertex may have a number for an item at a time. Any vertex may have 0.
fn item_fits<A: Allocator>(graph: &Graph<A>, vertex: usize, key: &ItemKey, number: &i64) -> bool
    ensures { IsTrue result ↔ (number.now ≢ pos 0 → IsItem graph.now vertex key.now number.now) }
{
    is_value(key.item);
    is_value(*number);
    let point = Pointstamp {
        location: vertex,
        time: key.time.copy(),
    };
    *number == 0 || is_at_vertex(graph, &point)
}

// Returns whether the records of a processor are on edges.
fn records_fit<A: Allocator + Copy>(graph: &Graph<A>, processor: &Processor<A>) -> bool
    ensures { IsTrue result ↔ All (λ e. e.1 ≢ 0
        → IsRecordKey graph.now e.0) (counts_of processor.now.records) }
{
    processor
        .records()
        .all(|e: (&ValueAt, &u64)| record_fits(graph, e.0, e.1))
}

// Returns whether the requests of a processor are at vertices.
fn requests_fit<A: Allocator + Copy>(graph: &Graph<A>, processor: &Processor<A>) -> bool
    ensures { IsTrue result
        ↔ All (λ e. IsAtVertex graph.now e.0) (fin.entries processor.now.requests) }
{
    processor
        .requests()
        .all(|e: (&Pointstamp, &())| is_at_vertex(graph, e.0))
}

// Returns whether the tokens of a processor are those of input vertices.
fn tokens_fit<A: Allocator + Copy>(graph: &Graph<A>, processor: &Processor<A>) -> bool
    ensures { IsTrue result
        ↔ All (λ e. IsToken graph.now e.0 e.1) (fin.entries processor.now.tokens) }
{
    processor
        .tokens()
        .iter()
        .all(|e: &(usize, u32)| token_fits(graph, e.0, e.1))
}

// Returns whether the sink counts of a processor are those of sink vertices.
fn sinks_fit<A: Allocator + Copy>(graph: &Graph<A>, processor: &Processor<A>) -> bool
    ensures { IsTrue result ↔ All (λ e. e.1 ≢ 0
        → IsSinkKey graph.now e.0) (counts_of processor.now.sinks) }
{
    processor
        .sinks()
        .all(|e: (&SinkKey, &u64)| sink_fits(graph, e.0, e.1))
}

// Returns whether a vertex may have each of its items.
fn state_fits<A: Allocator + Copy>(graph: &Graph<A>, vertex: usize, state: &VertexState<A>) -> bool
    ensures { IsTrue result ↔ ItemsFit graph.now vertex state.now }
{
    state
        .entries()
        .all(|e: (&ItemKey, &i64)| item_fits(graph, vertex, e.0, e.1))
}

// Returns whether each vertex of a processor may have each of its items.
fn items_fit<A: Allocator + Copy>(graph: &Graph<A>, processor: &Processor<A>) -> bool
    ensures { IsTrue result ↔ ((v : ℕ) → v < length processor.now.items
        → ItemsFit graph.now v (items_at processor.now v)) }
{
    for vertex in 0..processor.vertex_count() {
        if !state_fits(graph, vertex, processor.vertex_state(vertex)) {
            return false;
        }
    }
    true
}

// Returns whether the pointstamps of entries fit the graph.
fn entries_fit<A: Allocator>(graph: &Graph<A>, entries: &[(Pointstamp, i64)]) -> bool
    ensures { IsTrue result ↔ All (λ e. IsAtLocation graph.now e.0) entries.now }
{
    entries
        .iter()
        .all(|e: &(Pointstamp, i64)| is_at_location(graph, &e.0))
}

// Returns whether a change has entries only at pointstamps of the graph.
fn change_fits<A: Allocator>(graph: &Graph<A>, change: &Delta<A>) -> bool
    ensures fits { IsTrue result ↔ DeltaFits graph.now change.now }
    ensures within { DeltaIsWithin change.now }
{
    entries_fit(graph, change.entries())
}

// Returns whether the entries of a change that may be large are only at pointstamps of the graph.
fn counts_fit<A: Allocator>(graph: &Graph<A>, counts: &LargeDelta<A>) -> bool
    ensures fits { IsTrue result
        ↔ All (λ e. IsAtLocation graph.now e.0) (entries_of counts.now) }
    ensures within { DeltaIsWithin counts.now }
{
    counts
        .iter()
        .all(|e: (&Pointstamp, &i64)| is_at_location(graph, e.0))
}

// Proves that the counts of a processor are within their limits, by their types.
fn is_within<A: Allocator + Copy>(processor: &Processor<A>)
    ensures { ProcessorIsWithin processor.now }
{
    let _ = processor.records();
    let _ = processor.sinks();
    let _ = processor.unsent().iter();
}

// Returns whether each key of a processor is one of the graph.
fn processor_fits<A: Allocator + Copy>(graph: &Graph<A>, processor: &Processor<A>) -> bool
    ensures { IsTrue result ↔ ProcessorFits graph.now processor.now }
{
    if processor.vertex_count() != graph.vertices().len() {
        return false;
    }
    if !records_fit(graph, processor) {
        return false;
    }
    if !requests_fit(graph, processor) {
        return false;
    }
    if !tokens_fit(graph, processor) {
        return false;
    }
    if !items_fit(graph, processor) {
        return false;
    }
    if !sinks_fit(graph, processor) {
        return false;
    }
    counts_fit(graph, processor.unsent())
}

// Returns whether each key of some processors is one of the graph.
fn processors_fit<A: Allocator + Copy>(graph: &Graph<A>, processors: &[Processor<A>]) -> bool
    ensures fits { IsTrue result ↔ All (ProcessorFits graph.now) processors.now }
    ensures within { IsTrue result → All ProcessorIsWithin processors.now }
{
    for processor in processors {
        is_within(processor);
        if !processor_fits(graph, processor) {
            return false;
        }
    }
    true
}

// Returns whether a view has entries only at pointstamps of the graph.
fn view_fits<A: Allocator + Copy>(graph: &Graph<A>, view: &View<A>) -> bool
    ensures fits { IsTrue result ↔ DeltaFits graph.now view.now.map }
    ensures within { DeltaIsWithin view.now.map }
{
    counts_fit(graph, view.counts())
}

// Returns whether all views have entries only at pointstamps of the graph.
fn views_fit<A: Allocator + Copy>(graph: &Graph<A>, views: &[View<A>]) -> bool
    ensures fits { IsTrue result ↔ All (λ (v : Kept). DeltaFits graph.now v.map) views.now }
    ensures within { IsTrue result → All (λ (v : Kept). DeltaIsWithin v.map) views.now }
{
    for view in views {
        if !view_fits(graph, view) {
            return false;
        }
    }
    true
}

// Returns whether the changes of a queue have entries only at pointstamps of the graph.
fn queue_fits<A: Allocator + Copy>(graph: &Graph<A>, mesh: &Mesh<A>, from: usize, to: usize) -> bool
    requires sender { from < length mesh.now }
    requires receiver { to < length mesh.now }
    ensures fits { IsTrue result ↔ All (DeltaFits graph.now) (queue mesh.now from to) }
    ensures within { IsTrue result → All DeltaIsWithin (queue mesh.now from to) }
{
    for i in 0..mesh.len(from, to) {
        let change = mesh.get(from, to, i).unwrap();
        if !change_fits(graph, change) {
            return false;
        }
    }
    true
}

// Returns whether the changes of all queues from a processor have entries only at pointstamps of the graph.
fn row_fits<A: Allocator + Copy>(graph: &Graph<A>, mesh: &Mesh<A>, from: usize) -> bool
    requires { from < length mesh.now }
    ensures fits { IsTrue result ↔ RowFits graph.now mesh.now from }
    ensures within { IsTrue result → RowIsWithin mesh.now from }
{
    for to in 0..mesh.n() {
        if !queue_fits(graph, mesh, from, to) {
            return false;
        }
    }
    true
}

// Returns whether the changes of all queues have entries only at pointstamps of the graph.
fn mesh_fits<A: Allocator + Copy>(graph: &Graph<A>, mesh: &Mesh<A>) -> bool
    ensures fits { IsTrue result ↔ ((p : ℕ) → p < length mesh.now → RowFits graph.now mesh.now p) }
    ensures within { IsTrue result → (p : ℕ) → p < length mesh.now → RowIsWithin mesh.now p }
{
    for from in 0..mesh.n() {
        if !row_fits(graph, mesh, from) {
            return false;
        }
    }
    true
}

// Returns whether parts are those of a state that a cluster may be in.
fn parts_fit<A: Allocator + Copy>(parts: &Parts<A>) -> bool
    ensures { IsTrue result ↔ IsState parts.now }
{
    let graph = parts.paths().graph();
    // The clauses of these two say that edges join vertices, and that depths agree along the arcs.
    let _ = graph.vertices();
    let _ = graph.all_arcs();
    let views = parts.views();
    let mesh = parts.mesh();
    let n = parts.n();
    if n == 0 || n > MAX_PROCESSORS {
        return false;
    }
    if views.len() != n || mesh.n() != n {
        return false;
    }
    if !processors_fit(graph, parts.processors()) {
        return false;
    }
    if !views_fit(graph, views) {
        return false;
    }
    mesh_fits(graph, mesh)
}

impl<A: Allocator + Copy> Cluster<A> {
    /// Returns the cluster of these parts, or `None` if their sizes, keys, counts or depths do not fit.
    pub fn of_parts(
        alloc: A,
        graph: &Graph<A>,
        paths: Paths<A>,
        processors: Vec<Processor<A>, A>,
        views: Vec<View<A>, A>,
        mesh: Mesh<A>,
    ) -> Option<Cluster<A>>
        requires paths { paths ≡ graph.now }
        requires views { All (IsFor graph.now) views.items }
        ensures some { IfSome result (λ c. c ≡ seen graph.now processors.items views.items mesh) }
        ensures state { IfSome result IsState }
        ensures none { IsNone result
            → ¬ IsState (seen graph.now processors.items views.items mesh) }
    {
        let _ = graph;
        let parts = Parts::new(paths, processors, views, mesh);
        if !parts_fit(&parts) {
            return None;
        }
        Some(Cluster { alloc, parts })
    }
}
