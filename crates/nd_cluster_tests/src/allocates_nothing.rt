//! Calls that take no memory, made while every request for memory is refused.

ghost use Rattle.nd_delta.specs.Delta.{IsPartOf};
ghost use Rattle.nd_view.specs.Kept.{IsFor};

use crate::refused::{Heap, many};
use nd_cluster::{Cluster, Next};
use nd_delta::Delta;
use nd_examples::{
    DISTINCT, LINE, StepLine, change, graph_of, item, len, move_token, paths_of, point, pop, push,
    reach, set, set_item, step_of, time, unpush, values_of, view,
};
use nd_graph::{Graph, Op};
use nd_mesh::Mesh;
use nd_paths::Paths;
use nd_processor::{Processor, ValueAt};
use nd_testing::{Refusing, unasked};
use nd_time::Timestamp;
use nd_vertex::VertexState;
use nd_view::View;
use std::alloc::{Allocator, Global};

/// Returns whether a change of -1 at a and 2 at z has these entries, and accepts what is added at a.
fn change_tells<A: Allocator + Copy>(paths: &Paths<A>, change: &mut Delta<A>) -> Option<bool> {
    let graph = paths.graph();
    let (a, az) = (point(graph, "a", &[0])?, point(graph, "az", &[0])?);
    let is_told = (change.get(&a), change.get(&az), change.len()) == (-1, 0, 2)
        && change.entries().len() == 2
        && change.unsupported(paths) == None;
    change.add(&a, 2).ok()?;
    let is_more = change.unsupported_by(paths, &[az.copy()]) == change.unsupported(paths);
    change.add(&a, -1).ok()?;
    change.add(&az, 0).ok()?;
    Some(is_told && is_more && change.len() == 1)
}

fn changes_tell<A: Allocator + Copy>(heap: &Heap, alloc: A, json: Global) -> Option<bool> {
    let paths = paths_of(json, alloc, LINE)?;
    let mut change = change(alloc, paths.graph(), &[("a", 0, -1), ("z", 0, 2)])?;
    let is_told = unasked!(heap: change_tells(&paths, &mut change)?);
    let part = unasked!(heap: change.part(alloc, &[]).ok()?);
    Some(is_told && part.len() == 0)
}

/// Returns whether a view of 3 at a and -1 at az reports what it holds.
fn view_tells<A: Allocator + Copy>(paths: &Paths<A>, view: &View<A>) -> Option<bool>
    requires { IsFor paths.now view.now }
{
    let graph = paths.graph();
    let (a, z) = (point(graph, "a", &[0])?, point(graph, "z", &[0])?);
    Some(
        (view.get(&a), view.counts().len(), view.entries().count()) == (3, 2, 2)
            && !view.passed(paths, &z)
            && view.blocker_before(paths, &a) == None
            && view.precursors(paths, &z) == 1
            && (view.kept(&a), view.kept(&z)) == (Some(0), None)
            && view.blocker(paths, &z) == Some(a),
    )
}

fn held_tells<A: Allocator + Copy>(heap: &Heap, alloc: A, paths: &Paths<A>) -> Option<bool> {
    let entries = change(alloc, paths.graph(), &[("a", 0, 3), ("az", 0, -1)])?;
    let held = view(alloc, paths, &entries)?;
    Some(unasked!(heap: view_tells(paths, &held)?))
}

/// Returns whether a view of -1 at a has an empty frontier.
fn less_tells<A: Allocator + Copy>(heap: &Heap, alloc: A, paths: &Paths<A>) -> Option<bool> {
    let entry = change(alloc, paths.graph(), &[("a", 0, -1)])?;
    let less = view(alloc, paths, &entry)?;
    let frontier = unasked!(heap: less.frontier(alloc, paths).ok()?);
    Some(frontier.len() == 0)
}

fn views_tell<A: Allocator + Copy>(heap: &Heap, alloc: A, json: Global) -> Option<bool> {
    let paths = paths_of(json, alloc, LINE)?;
    Some(held_tells(heap, alloc, &paths)? && less_tells(heap, alloc, &paths)?)
}

/// Gives items other numbers, from item 0 on, then removes them, and returns how many are left.
fn left_of<A: Allocator + Copy>(
    state: &mut VertexState<A>,
    time: &Timestamp,
    count: i64,
) -> Option<usize> {
    for number in [Some(2), None] {
        for item in 0..count {
            set(state, time, item, number)?.ok()?;
        }
    }
    Some(state.entries().count())
}

fn vertices_tell<A: Allocator + Copy>(heap: &Heap, alloc: A) -> Option<bool> {
    let mut state = many(alloc, 100)?;
    let time = time(&[0])?;
    let left = unasked!(heap: left_of(&mut state, &time, 100)?);
    Some(left == 0)
}

/// Returns whether the items that an effect takes out are removed, and the one that another adds.
fn edits_tell<A: Allocator + Copy>(heap: &Heap, alloc: A) -> Option<bool> {
    let time = time(&[0])?;
    let mut full = many(alloc, 12)?;
    let removes = full.on_notice(alloc, Op::Distinct, &time).ok()?;
    let is_removed = unasked!(heap: full.commit(&removes).is_ok());
    let mut state = VertexState::new(alloc);
    let adds = state.on_record(alloc, Op::Distinct, &time, 9).ok()?;
    state.commit(&adds).ok()?;
    let is_undone = unasked!(heap: state.revert(&adds).is_ok());
    Some(is_removed && is_undone)
}

/// Returns whether two queues from processor 1, each with the same change twice, return it at both
/// ends.
fn queues_give<A: Allocator + Copy>(mesh: &mut Mesh<A>) -> Option<bool> {
    let is_there = len(mesh, 1, 0) == Some(2);
    let oldest = pop(mesh, 1, 0)?;
    let is_newest = unpush(mesh, 1)?;
    let is_empty = !unpush(mesh, 1)? && pop(mesh, 1, 0).is_none();
    Some(oldest.len() == 2 && is_there && is_newest && is_empty && len(mesh, 1, 1) == Some(1))
}

fn queues_tell<A: Allocator + Copy>(heap: &Heap, alloc: A, json: Global) -> Option<bool> {
    let graph = graph_of(json, alloc, LINE)?;
    let change = change(alloc, &graph, &[("a", 0, 1), ("z", 0, 1)])?;
    let mut mesh = Mesh::new(alloc, 2).ok()?;
    push(&mut mesh, 1, &change)?.ok()?;
    push(&mut mesh, 1, &change)?.ok()?;
    unasked!(heap: queues_give(&mut mesh))
}

/// Adds a record, a request, an item, a count of a sink and an unsent entry, and moves the token.
fn adds<A: Allocator + Copy>(processor: &mut Processor<A>, key: &ValueAt) -> Option<()> {
    processor.add_records(key, 1).ok()?;
    processor.add_request(&key.point).ok()?;
    set_item(processor, Some(3))?.ok()?;
    processor.add_sink(2, 7, 1).ok()?;
    processor.add_unsent(&key.point, -1).ok()?;
    move_token(processor, Some(1)).ok()
}

/// Returns a processor with a record, a request, an item, a count of a sink and two unsent entries.
pub fn holding<A: Allocator + Copy>(
    alloc: A,
    graph: &Graph<A>,
    key: &ValueAt,
) -> Option<Processor<A>> {
    let mut processor = Processor::start(alloc, graph).ok()?;
    adds(&mut processor, key)?;
    processor.add_unsent(&point(graph, "z", &[0])?, 2).ok()?;
    Some(processor)
}

/// Returns whether a processor reports that it holds these, with two records and a count of two.
fn processor_tells<A: Allocator + Copy>(processor: &Processor<A>, key: &ValueAt) -> bool {
    let counts = (
        processor.records().count(),
        processor.requests().count(),
        processor.sinks().count(),
        processor.tokens().len(),
        processor.unsent().len(),
        processor.vertex_count(),
    );
    counts == (1, 1, 1, 1, 2, 3)
        && processor.records_at(&key.point) == 2
        && processor.has_request(&key.point)
        && (processor.token(0), item(processor)) == (Some(1), Some(3))
}

/// Removes all of it, and returns whether nothing is left except one entry of what is unsent.
fn gives_up<A: Allocator + Copy>(
    processor: &mut Processor<A>,
    key: &ValueAt,
    part: &Delta<A>,
) -> Option<bool>
    requires { IsPartOf part.now processor.old.unsent }
{
    processor.take_part(part);
    if processor.count_of(key) != 2 || processor.sink_count(2, 7) != 2 {
        return None;
    }
    processor.take_records(key, 2);
    processor.take_sink(2, 7, 2);
    processor.drop_request(&key.point);
    set_item(processor, None)?.ok()?;
    move_token(processor, None).ok()?;
    move_token(processor, Some(0)).ok()?;
    Some(processor.records().count() == 0 && processor.unsent().len() == 1)
}

#[tactic(auto, using(crate::proofs::Parts::is_part))]
fn processors_tell<A: Allocator + Copy>(heap: &Heap, alloc: A, json: Global) -> Option<bool> {
    let graph = graph_of(json, alloc, DISTINCT)?;
    let point = point(&graph, "ad", &[0])?;
    let key = ValueAt { point, value: 7 };
    let mut processor = holding(alloc, &graph, &key)?;
    unasked!(heap: adds(&mut processor, &key)?);
    let is_told = unasked!(heap: processor_tells(&processor, &key));
    let Ok(part) = processor.unsent().part(alloc, &[key.point.copy()]) else {
        return None;
    };
    let is_given = unasked!(heap: gives_up(&mut processor, &key, &part)?);
    Some(is_told && is_given)
}

/// Returns whether three values to feed, made and copied, take no memory and stand in their order.
fn values_tell<A: Allocator + Copy>(heap: &Heap, alloc: A) -> Option<bool> {
    let three = unasked!(heap: values_of(alloc, &[7, 5, 7])?.copy(alloc).ok()?);
    Some(three.as_slice() == [7, 5, 7].as_slice())
}

#[test]
fn three_values_take_none(rt: HostRuntime) {
    let heap = Refusing::new(rt.alloc());
    assert!(rt; values_tell(&heap, &heap) == Some(true));
    assert!(rt; heap.live() == 0);
}

#[test]
fn calls_that_take_none(rt: HostRuntime) {
    let heap = Refusing::new(rt.alloc());
    let json = rt.alloc();
    assert!(rt; changes_tell(&heap, &heap, json) == Some(true));
    assert!(rt; views_tell(&heap, &heap, json) == Some(true));
    assert!(rt; vertices_tell(&heap, &heap) == Some(true));
    assert!(rt; edits_tell(&heap, &heap) == Some(true));
    assert!(rt; queues_tell(&heap, &heap, json) == Some(true));
    assert!(rt; processors_tell(&heap, &heap, json) == Some(true));
    assert!(rt; heap.live() == 0);
}

/// A line that is fed, taken from and broadcast.
static STEPS: [StepLine; 3] = [
    StepLine::Feed(0, "a", &[5, 7], Next::Close),
    StepLine::Take(0, "az", &[0], 7),
    StepLine::All(0),
];

/// Returns whether a cluster reports what there is after these steps.
fn tells<A: Allocator + Copy>(cluster: &Cluster<A>) -> Option<bool> {
    let az = point(cluster.graph(), "az", &[0])?;
    let z = point(cluster.paths().graph(), "z", &[0])?;
    let _ = cluster.n();
    let counts = (
        cluster.view(0).counts().len(),
        cluster.queue_len(0, 0),
        cluster.processor(0).vertex_count(),
    );
    Some(
        counts == (1, 1, 2)
            && (cluster.count(&az), cluster.sink_count(1, 7)) == (1, 1)
            && !cluster.passed(0, &z)
            && cluster.blocker(0, &z).is_some()
            && cluster.queued(0, 0, 0).is_some()
            && cluster.queued(0, 0, 1).is_none(),
    )
}

/// Returns whether it does so while every request for memory is refused, and whether the record of a step lists its
/// entries.
fn reads<A: Allocator + Copy>(heap: &Heap, json: Global, alloc: A) -> Option<bool> {
    let cluster = reach(json, alloc, LINE, 1, &STEPS)?;
    let step = step_of(alloc, cluster.graph(), &StepLine::Receive(0, 0))?;
    let record = cluster.plan(&step).ok()?;
    let entries = unasked!(heap: record.entries());
    Some(unasked!(heap: tells(&cluster)?) && entries > 0)
}

#[test]
fn readers_take_no_memory(rt: HostRuntime) {
    let heap = Refusing::new(rt.alloc());
    assert!(rt; reads(&heap, rt.alloc(), &heap) == Some(true));
    assert!(rt; heap.live() == 0);
}
