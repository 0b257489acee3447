//! The worked examples of calls that no line of a script makes, by their names.

use nd_cluster::{Allowed, Next};
use nd_delta::{Delta, DeltaFault, LargeDelta};
use nd_examples::{
    Entry, HELD, LINE, LOOP, Script, StepLine, TWO_WAYS, are_entries, change, graph_of, len,
    paths_of, point, pop, processors_of, push, reach, unpop, unpush,
};
use nd_graph::Graph;
use nd_mesh::{Mesh, PushFault};
use nd_paths::{Constants, Paths, Summary};
use nd_time::limits::MAX_QUEUE;
use std::alloc::Global;

/// Builds a summary, or returns `None` if there are too many constants.
fn summary(keep: usize, add: u32, constants: &[u32]) -> Option<Summary> {
    Some(Summary {
        keep,
        add,
        constants: Constants::new(constants)?,
    })
}

/// Returns whether the summaries from one location to another are `wanted`.
fn are_summaries(paths: &Paths, from: &str, to: &str, wanted: &[Summary]) -> Option<bool> {
    let graph = paths.graph();
    let (from, to) = (graph.location_of(from)?, graph.location_of(to)?);
    if from >= graph.location_count() || to >= graph.location_count() {
        return None;
    }
    let found = paths.summaries(from, to);
    Some(found == wanted)
}

/// Returns whether the summaries of *loop* and of *two-ways* are as the examples say: of a path into the loop, of one
/// around it, and of two ways, one that keeps the counter and one that drops it.
fn are_all(alloc: Global) -> Option<bool> {
    let enters = summary(0, 0, &[1])?;
    let stays = summary(1, 0, &[])?;
    let one = paths_of(alloc, alloc, LOOP)?;
    let two = paths_of(alloc, alloc, TWO_WAYS)?;
    Some(
        are_summaries(&one, "a", "fm", &[enters.copy()])?
            && are_summaries(&one, "f", "f", &[stays.copy()])?
            && are_summaries(&two, "x", "z", &[stays, enters])?,
    )
}

/// Checks the worked examples *summaries-of-the-loop* and *two-summaries*.
#[test]
fn summaries(rt: HostRuntime) {
    assert!(rt; are_all(rt.alloc()) == Some(true));
}

/// Returns whether what is added at a point is kept up to the limit.
fn is_limited(alloc: Global) -> Option<bool> {
    let graph = graph_of(alloc, alloc, LINE)?;
    let p = point(&graph, "a", &[0])?;
    let mut delta = Delta::new(alloc);
    delta.add(&p, 1_099_511_627_776).ok()?;
    let is_full = delta.add(&p, 1) == Err(DeltaFault::DeltaFull);
    let is_kept = delta.get(&p) == 1_099_511_627_776;
    delta.add(&p, -1_099_511_627_776).ok()?;
    Some(is_full && is_kept && delta.len() == 0)
}

/// Returns the sum of 2 at a and a change, or the difference, by way of a large change.
fn by_large(alloc: Global, graph: &Graph, other: &Delta, is_minus: bool) -> Option<Delta> {
    let mut large = LargeDelta::new(alloc);
    large.put(&point(graph, "a", &[0])?, 2).ok()?;
    large
        .combine(alloc, other, is_minus)
        .ok()?
        .whole(alloc)
        .ok()
}

/// Returns the sum of 2 at a and a change, or the difference.
fn directly(alloc: Global, graph: &Graph, other: &Delta, is_minus: bool) -> Option<Delta> {
    let one = change(alloc, graph, &[("a", 0, 2)])?;
    if is_minus {
        one.minus(alloc, other).ok()
    } else {
        one.plus(alloc, other).ok()
    }
}

/// Returns whether both have these entries.
fn are_both(
    alloc: Global,
    graph: &Graph,
    other: &Delta,
    is_minus: bool,
    wanted: &[Entry],
) -> Option<bool> {
    let large = by_large(alloc, graph, other, is_minus)?;
    let small = directly(alloc, graph, other, is_minus)?;
    Some(are_entries(graph, large.entries(), wanted) && are_entries(graph, small.entries(), wanted))
}

/// Returns whether the part of a change at z, which is named twice, is the entry there.
fn is_part(alloc: Global, graph: &Graph, other: &Delta) -> Option<bool> {
    let z = point(graph, "z", &[0])?;
    let part = other.part(alloc, &[z.copy(), z]).ok()?;
    Some(are_entries(graph, part.entries(), &[("z", 0, 1)]))
}

/// Returns whether the sum, the difference and the part of two changes are what they should be.
fn sums(alloc: Global) -> Option<bool> {
    let graph = graph_of(alloc, alloc, LINE)?;
    let other = change(alloc, &graph, &[("a", 0, -2), ("z", 0, 1)])?;
    let sum = are_both(alloc, &graph, &other, false, &[("z", 0, 1)])?;
    let left = &[("a", 0, 4), ("z", 0, -1)];
    let difference = are_both(alloc, &graph, &other, true, left)?;
    Some(sum && difference && is_part(alloc, &graph, &other)?)
}

#[test]
fn change_limits(rt: HostRuntime) {
    assert!(rt; is_limited(rt.alloc()) == Some(true));
    assert!(rt; sums(rt.alloc()) == Some(true));
}

/// Pushes the change until the queue refuses it: how often it took it, if it is full then.
fn pushed(mesh: &mut Mesh, change: &Delta) -> Option<usize> {
    for n in 0..=MAX_QUEUE {
        match push(mesh, 0, change)? {
            Ok(()) => {}
            Err(PushFault::QueueFull) => return Some(n),
            Err(_) => return None,
        }
    }
    None
}

/// Returns whether a queue takes changes up to the limit, and one more once one is out.
fn is_full_at_the_limit(alloc: Global) -> Option<bool> {
    let graph = graph_of(alloc, alloc, LINE)?;
    let change = change(alloc, &graph, &[("a", 0, 1)])?;
    let mut mesh = Mesh::new(alloc, 1).ok()?;
    let is_full = pushed(&mut mesh, &change)? == MAX_QUEUE;
    pop(&mut mesh, 0, 0)?;
    Some(is_full && push(&mut mesh, 0, &change)?.is_ok())
}

#[test]
fn queue_ends(rt: HostRuntime) {
    assert!(rt; is_full_at_the_limit(rt.alloc()) == Some(true));
}

/// Returns whether a change passes through new queues of one processor, and back.
fn goes_through(alloc: Global, change: &Delta) -> Option<bool> {
    let mut mesh = Mesh::new(alloc, 1).ok()?;
    let is_new = pop(&mut mesh, 0, 0).is_none() && !unpush(&mut mesh, 0)?;
    push(&mut mesh, 0, change)?.ok()?;
    let popped = pop(&mut mesh, 0, 0)?;
    let is_same = popped.entries() == change.entries();
    unpop(&mut mesh, 0, 0, popped)?.ok()?;
    let is_put = len(&mesh, 0, 0) == Some(1) && unpush(&mut mesh, 0)?;
    Some(is_new && is_same && is_put && len(&mesh, 0, 0) == Some(0))
}

/// Does the same for a change of two entries.
fn two_go_through(alloc: Global) -> Option<bool> {
    let graph = graph_of(alloc, alloc, LINE)?;
    goes_through(alloc, &change(alloc, &graph, &[("a", 0, -1), ("z", 0, 2)])?)
}

#[test]
fn queue_ends_when_new(rt: HostRuntime) {
    assert!(rt; two_go_through(rt.alloc()) == Some(true));
}

/// A script, the steps of users that are allowed, and how many candidates and moves there are then.
type Row = (Script, Allowed, usize, usize);

const FEEDS: Allowed = Allowed {
    feeds: true,
    releases: false,
};

const RELEASES: Allowed = Allowed {
    feeds: false,
    releases: true,
};

/// A processor that can take a record and broadcast, and holds a capability, of which no notice comes. Its input is closed.
const HOLDING: Script = (
    HELD,
    1,
    &[
        StepLine::Feed(0, "a", &[7], Next::Close),
        StepLine::Take(0, "ah", &[0], 7),
    ],
);

static ROWS: [Row; 4] = [
    ((LINE, 1, &[]), RELEASES, 0, 0),
    ((LINE, 1, &[]), FEEDS, 0, 2),
    (HOLDING, FEEDS, 3, 2),
    (HOLDING, RELEASES, 3, 3),
];

/// Returns whether a row has so many candidates and moves, and whether each lot chooses a candidate, if there is one.
fn has_moves(alloc: Global, row: &Row) -> Option<bool> {
    let ((text, n, steps), allowed, candidates, moves) = row;
    let cluster = reach(alloc, alloc, text, *n, steps)?;
    let only = Some(processors_of(alloc, &[0])?);
    let count = cluster.all_candidates(only.as_ref()).ok()?.len();
    let drawn = cluster.drawn_planned(u64::MAX, only.as_ref()).ok()?;
    let found = cluster.moves(*allowed).ok()?.len();
    Some((count, found) == (*candidates, *moves) && drawn.is_some() == (count > 0))
}

#[test]
fn moves(rt: HostRuntime) {
    for (i, row) in ROWS.iter().enumerate() {
        assert!(rt; has_moves(rt.alloc(), row) == Some(true), "in row {i}");
    }
}
