//! Each request for memory of the parts of a cluster refused in turn: the call that meets the refusal returns out of
//! memory. What else it leaves and may return is in its clauses.

ghost use Rattle.nd_vertex.specs.Edits.{CanEdit};
ghost use Rattle.nd_view.specs.Kept.{IsFor};

use crate::allocates_nothing::holding;
use nd_delta::{Delta, LargeDelta};
use nd_examples::{
    DISTINCT, LINE, LOOP, change, graph_of, paths_of, point, push, set, take_all, time, unpop, view,
};
use nd_graph::{Graph, GraphDraft, Op};
use nd_mesh::Mesh;
use nd_paths::{Paths, Pointstamp};
use nd_processor::{Processor, ValueAt};
use nd_testing::{Refusing, in_turn};
use nd_vertex::{Effect, VertexState};
use nd_view::View;
use serde_json::Value;
use std::alloc::{Allocator, Global};

/// The allocator of these tests.
pub type Heap = Refusing<Global>;

/// What takes memory.
#[derive(Drop)]
enum Part {
    Graphs,
    Paths,
    Changes,
    LargeChanges,
    Views,
    LargeViews,
    Queues,
    Vertices,
    FullVertices,
    Processors,
    Parts,
}

static PARTS: [Part; 11] = [
    Part::Graphs,
    Part::Paths,
    Part::Changes,
    Part::LargeChanges,
    Part::Views,
    Part::LargeViews,
    Part::Queues,
    Part::Vertices,
    Part::FullVertices,
    Part::Processors,
    Part::Parts,
];

/// Reads and checks a graph in each version.
fn graphs<A: Allocator + Copy>(alloc: A, json: Global) -> Option<()> {
    let value = Value::from_str(json, LOOP).ok()?;
    let draft = GraphDraft::from_value_v4(alloc, &value).ok()?;
    draft.check_v1(alloc).ok()?;
    let draft = GraphDraft::from_value_v5(alloc, &value).ok()?;
    draft.check_v5(alloc).ok()?;
    let draft = GraphDraft::from_value_v8(alloc, &value).ok()?;
    draft.check_v8(alloc).ok()?;
    let draft = GraphDraft::from_value(alloc, &value).ok()?;
    draft.check(alloc).ok()?;
    Some(())
}

/// Copies a graph and its paths.
fn paths<A: Allocator + Copy>(alloc: A, json: Global) -> Option<()> {
    let paths = paths_of(json, alloc, LOOP)?;
    paths.graph().copy(alloc).ok()?;
    paths.copy().ok()?;
    Some(())
}

/// Combines two changes, takes a part of one, and adds to its copy, which has room for no more entries.
fn combine<A: Allocator + Copy>(
    alloc: A,
    one: &Delta<A>,
    other: &Delta<A>,
    az: &Pointstamp,
) -> Option<()> {
    one.plus(alloc, other).ok()?;
    one.minus(alloc, other).ok()?;
    other.part(alloc, &[az.copy()]).ok()?;
    one.copy(alloc).ok()?.add(az, 1).ok()
}

fn changes<A: Allocator + Copy>(alloc: A, graph: &Graph<A>) -> Option<()> {
    let one = change(alloc, graph, &[("a", 0, 1), ("z", 0, 1)])?;
    let other = change(alloc, graph, &[("az", 0, 1)])?;
    combine(alloc, &one, &other, &point(graph, "az", &[0])?)
}

fn large_changes<A: Allocator + Copy>(alloc: A, graph: &Graph<A>) -> Option<()> {
    let other = change(alloc, graph, &[("az", 0, 1)])?;
    let mut large = LargeDelta::new(alloc);
    large.add(&point(graph, "a", &[0])?, 1).ok()?;
    large.combine(alloc, &other, false).ok()?;
    Some(())
}

/// Returns a change of more entries than are added to a view one by one.
fn many_entries<A: Allocator + Copy>(alloc: A, graph: &Graph<A>) -> Option<Delta<A>> {
    let mut made = Delta::new(alloc);
    for epoch in 0..201 {
        made.add(&point(graph, "z", &[epoch])?, 1).ok()?;
    }
    Some(made)
}

/// Applies a change to a view and undoes it, and copies the view and its frontier.
fn change_view<A: Allocator + Copy>(
    alloc: A,
    paths: &Paths<A>,
    view: &mut View<A>,
    change: &Delta<A>,
) -> Option<()>
    requires { IsFor paths.now view.old }
{
    view.unapply(paths, change).ok()?;
    view.apply(paths, change).ok()?;
    view.apply(paths, change).ok()?;
    view.frontier(alloc, paths).ok()?;
    view.copy(alloc).ok()?;
    Some(())
}

fn views<A: Allocator + Copy>(alloc: A, paths: &Paths<A>) -> Option<()> {
    let few = change(
        alloc,
        paths.graph(),
        &[("a", 0, -2), ("z", 1, 1), ("az", 2, 1)],
    )?;
    let mut view = view(alloc, paths, &few)?;
    change_view(alloc, paths, &mut view, &few)
}

fn large_views<A: Allocator + Copy>(alloc: A, paths: &Paths<A>) -> Option<()> {
    let many = many_entries(alloc, paths.graph())?;
    view(alloc, paths, &many)?;
    Some(())
}

fn queues<A: Allocator + Copy>(alloc: A, graph: &Graph<A>) -> Option<()> {
    let change = change(alloc, graph, &[("a", 0, 1), ("z", 0, 1)])?;
    let mut mesh = Mesh::new(alloc, 2).ok()?;
    push(&mut mesh, 0, &change)?.ok()?;
    unpop(&mut mesh, 1, 0, change)?.ok()?;
    mesh.copy(alloc).ok()?;
    Some(())
}

/// Returns the state of a vertex with the items below `count` at epoch 0; 12 are more than one node of a tree holds.
pub fn many<A: Allocator + Copy>(alloc: A, count: i64) -> Option<VertexState<A>> {
    let mut state = VertexState::new(alloc);
    let time = time(&[0])?;
    for item in 0..count {
        set(&mut state, &time, item, Some(1))?.ok()?;
    }
    Some(state)
}

/// Applies the edits of an effect, and undoes them in a copy.
fn edit<A: Allocator + Copy>(alloc: A, state: &mut VertexState<A>, effect: &Effect<A>) -> Option<()>
    requires { CanEdit state.old effect.now.items.items }
{
    state.commit(effect).ok()?;
    state.copy(alloc).ok()?.revert(effect).ok()
}

/// Has a vertex act on a record, which adds an item.
fn vertices<A: Allocator + Copy>(alloc: A) -> Option<()> {
    let mut state = VertexState::new(alloc);
    let effect = state.on_record(alloc, Op::Distinct, &time(&[0])?, 9).ok()?;
    edit(alloc, &mut state, &effect)
}

/// Has a vertex act on a notification, which removes its items.
fn full_vertices<A: Allocator + Copy>(alloc: A) -> Option<()> {
    let mut state = many(alloc, 12)?;
    let effect = state.on_notice(alloc, Op::Distinct, &time(&[0])?).ok()?;
    edit(alloc, &mut state, &effect)
}

/// Copies a processor to which something of each kind is added, and the points of its tokens.
fn processors<A: Allocator + Copy>(alloc: A, graph: &Graph<A>) -> Option<()> {
    let point = point(graph, "ad", &[0])?;
    let processor = holding(alloc, graph, &ValueAt { point, value: 7 })?;
    processor.token_points(alloc).ok()?;
    processor.copy(alloc).ok()?;
    Some(())
}

/// Removes what is unsent, more entries than one node of a tree holds, and puts it back in a copy.
fn parts<A: Allocator + Copy>(alloc: A, graph: &Graph<A>) -> Option<()> {
    let mut processor = Processor::start(alloc, graph).ok()?;
    for epoch in 0..40 {
        processor.add_unsent(&point(graph, "z", &[epoch])?, 2).ok()?;
    }
    put_back(alloc, &mut processor)
}

fn put_back<A: Allocator + Copy>(alloc: A, processor: &mut Processor<A>) -> Option<()> {
    let part = take_all(processor, alloc)?;
    let Ok(mut left) = processor.copy(alloc) else {
        return None;
    };
    left.put_part(&part).ok()
}

/// Makes the calls on a part: `None` if one of them runs out of memory.
fn ask<A: Allocator + Copy>(alloc: A, json: Global, part: &Part) -> Option<()> {
    match part {
        Part::Graphs => graphs(alloc, json),
        Part::Paths => paths(alloc, json),
        Part::Changes => changes(alloc, &graph_of(json, alloc, LINE)?),
        Part::LargeChanges => large_changes(alloc, &graph_of(json, alloc, LINE)?),
        Part::Views => views(alloc, &paths_of(json, alloc, LINE)?),
        Part::LargeViews => large_views(alloc, &paths_of(json, alloc, LINE)?),
        Part::Queues => queues(alloc, &graph_of(json, alloc, LINE)?),
        Part::Vertices => vertices(alloc),
        Part::FullVertices => full_vertices(alloc),
        Part::Processors => processors(alloc, &graph_of(json, alloc, DISTINCT)?),
        Part::Parts => parts(alloc, &graph_of(json, alloc, DISTINCT)?),
    }
}

/// Returns how many requests of these calls were refused before they met none.
fn refused<A: Allocator + Copy>(heap: &Heap, alloc: A, json: Global, part: &Part) -> Option<u64> {
    in_turn!(heap: ask(alloc, json, part))
}

#[test]
fn each_request_refused(rt: HostRuntime) {
    let heap = Refusing::new(rt.alloc());
    for (i, part) in PARTS.iter().enumerate() {
        let count = refused(&heap, &heap, rt.alloc(), part);
        assert!(rt; matches!(count, Some(n) if n > 0), "in row {i}");
        assert!(rt; heap.live() == 0, "in row {i}");
    }
}
