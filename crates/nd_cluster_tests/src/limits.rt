//! Clusters built from their parts, while every request for memory is refused: steps at the limits of
//! numbers.
ghost use Rattle.std.specs.Prelude.{◌≡◌, All, IfSome};
ghost use Rattle.nd_view.specs.Kept.{IsFor};

use crate::refused::Heap;
use nd_cluster::{Cluster, Next};
use nd_examples::{HELD, LINE, LOOP, Sent, StepLine, TRACED, graph_of, is_state, point, step_of};
use nd_graph::Graph;
use nd_mesh::Mesh;
use nd_paths::Paths;
use nd_processor::{Processor, ValueAt};
use nd_testing::{Refusing, unasked};
use nd_view::View;
use std::alloc::{Allocator, Global};

/// The maximum of a count or an entry.
const MOST: i64 = 1_099_511_627_776;

/// What is unsent at a location and an epoch.
type Unsent = (&'static str, u32, i64);

/// The token's epoch, how many records of 5 are on az at epoch 0, what is unsent, the values that are fed, what becomes
/// of the token, and the number of the refusal, 0 if the feed is executed.
type Feed = (u32, u64, Unsent, &'static [i64], Next, u64);

const FULL: u64 = 1_099_511_627_776;

/// That an epoch is not greater than the token's comes after all other refusals of a feed to it.
static FEEDS: [Feed; 11] = [
    (u32::MAX, 0, ("a", 0, 0), &[], Next::Close, 0),
    (u32::MAX, 0, ("a", 0, 0), &[], Next::Next, 7),
    (0, FULL, ("a", 0, 0), &[5], Next::Close, 13),
    (0, FULL - 1, ("a", 0, 0), &[5], Next::Close, 0),
    (0, FULL, ("a", 0, 0), &[5], Next::To(0), 13),
    (0, 0, ("az", 0, MOST), &[5], Next::To(0), 14),
    (5, 0, ("a", 5, -MOST), &[], Next::To(4), 14),
    (5, 0, ("a", 4, MOST), &[], Next::To(4), 14),
    (5, 0, ("a", 6, MOST), &[], Next::To(6), 14),
    (5, 0, ("a", 5, -MOST), &[], Next::To(5), 54),
    (5, 0, ("a", 0, 0), &[7], Next::To(6), 0),
];

/// The epochs of requests of a vertex, what is unsent there at two epochs, a step there, and the number of its refusal.
type AtVertex = (&'static [u32], [(u32, i64); 2], StepLine, u64);

/// The same of a time that is not later. Nothing is added at the same time, or at a time with a request.
static AT_HOLD: [AtVertex; 11] = [
    (&[3], [(3, -MOST), (9, 0)], DROPPED, 14),
    (&[3], [(3, -MOST), (9, 0)], MOVED_BACK, 14),
    (&[3], [(2, MOST), (9, 0)], MOVED_BACK, 14),
    (&[3], [(4, MOST), (9, 0)], MOVED, 14),
    (&[3], [(3, -MOST), (9, 0)], UNMOVED, 54),
    (&[3, 4], [(4, MOST), (9, 0)], MOVED, 0),
    (&[2, 3], [(2, MOST), (9, 0)], MOVED_BACK, 54),
    (&[3], [(3, 1 - MOST), (4, MOST - 1)], MOVED, 0),
    (&[3], [(3, -MOST), (9, 0)], NOTICED, 14),
    (&[3], [(3, 1 - MOST), (9, 0)], NOTICED, 53),
    (
        &[3],
        [(4, MOST), (9, 0)],
        StepLine::Keep(0, "h", &[3], &[4]),
        9,
    ),
];

/// The same at an opaque vertex, of capabilities that are kept. Nothing is taken away.
static AT_OPAQUE: [AtVertex; 5] = [
    (&[3], [(4, MOST), (9, 0)], KEPT, 14),
    (&[3], [(3, -MOST), (9, 0)], KEPT, 0),
    (&[3, 4], [(4, MOST), (9, 0)], KEPT, 0),
    (
        &[3],
        [(2, MOST), (9, 0)],
        StepLine::Keep(0, "x", &[3], &[2]),
        14,
    ),
    (
        &[3],
        [(3, MOST), (9, 0)],
        StepLine::Keep(0, "x", &[3], &[3]),
        54,
    ),
];

const KEPT: StepLine = StepLine::Keep(0, "x", &[3], &[4]);

/// An epoch, how many records of 5 are on xy and what is unsent there at that epoch, the time and the port of the 5 that x
/// sends, which holds a capability at epoch 3, and the number of the refusal.
type Sending = (u32, u64, i64, Option<&'static [u32]>, u32, u64);

/// That there is no such port, and that the time is too early, come after all other refusals.
static SENDS: [Sending; 8] = [
    (3, FULL, MOST, None, 0, 13),
    (3, FULL - 1, 0, None, 0, 0),
    (3, 0, MOST, None, 0, 14),
    (2, FULL, 0, Some(&[2]), 0, 13),
    (2, 0, MOST, Some(&[2]), 0, 14),
    (2, 0, 0, Some(&[2]), 0, 56),
    (2, FULL, MOST, Some(&[2]), 2, 55),
    (4, FULL, MOST, Some(&[5]), 0, 0),
];

const DROPPED: StepLine = StepLine::Release(0, "h", &[3], None);

const MOVED: StepLine = StepLine::Release(0, "h", &[3], Some(&[4]));

const MOVED_BACK: StepLine = StepLine::Release(0, "h", &[3], Some(&[2]));

const UNMOVED: StepLine = StepLine::Release(0, "h", &[3], Some(&[3]));

const NOTICED: StepLine = StepLine::Notice(0, "h", &[3]);

/// Adds records of 5 at a point.
fn add_records<A: Allocator + Copy>(
    processor: &mut Processor<A>,
    graph: &Graph<A>,
    name: &str,
    list: &[u32],
    n: u64,
) -> Option<()> {
    let point = point(graph, name, list)?;
    processor.add_records(&ValueAt { point, value: 5 }, n).ok()
}

/// Adds to what is unsent.
fn add_unsent<A: Allocator + Copy>(
    processor: &mut Processor<A>,
    graph: &Graph<A>,
    entry: &Unsent,
) -> Option<()> {
    let (name, epoch, n) = entry;
    processor
        .add_unsent(&point(graph, name, &[*epoch])?, *n)
        .ok()
}

/// Returns a processor as a row has it before its feed.
fn before_feed<A: Allocator + Copy>(
    alloc: A,
    graph: &Graph<A>,
    row: &Feed,
) -> Option<Processor<A>> {
    let mut processor = Processor::start(alloc, graph).ok()?;
    let old = processor.token(0);
    processor.move_token(0, old, Some(row.0)).ok()?;
    add_records(&mut processor, graph, "az", &[0], row.1)?;
    add_unsent(&mut processor, graph, &row.2)?;
    Some(processor)
}

/// Returns a processor as a row has it before its step at a vertex.
fn before_step<A: Allocator + Copy>(
    alloc: A,
    graph: &Graph<A>,
    name: &'static str,
    row: &AtVertex,
) -> Option<Processor<A>> {
    let mut processor = Processor::start(alloc, graph).ok()?;
    for epoch in row.0 {
        processor.add_request(&point(graph, name, &[*epoch])?).ok()?;
    }
    for (epoch, n) in row.1 {
        add_unsent(&mut processor, graph, &(name, epoch, n))?;
    }
    Some(processor)
}

/// Returns a processor as a row has it before its send.
fn before_send<A: Allocator + Copy>(
    alloc: A,
    graph: &Graph<A>,
    row: &Sending,
) -> Option<Processor<A>> {
    let mut processor = Processor::start(alloc, graph).ok()?;
    processor.add_request(&point(graph, "x", &[3])?).ok()?;
    add_records(&mut processor, graph, "xy", &[row.0], row.1)?;
    add_unsent(&mut processor, graph, &("xy", row.0, row.2))?;
    Some(processor)
}

/// Returns the order of a graph.
fn paths_of<A: Allocator + Copy>(alloc: A, graph: &Graph<A>) -> Option<Paths<A>>
    ensures { IfSome result (λ p. p ≡ graph.now) }
{
    match Paths::of(alloc, graph) {
        Ok(paths) => Some(paths),
        Err(_) => None,
    }
}

/// Returns the view without entries.
fn unseen<A: Allocator + Copy>(alloc: A, paths: &Paths<A>) -> View<A>
    ensures { IsFor paths.now result }
{
    let _ = paths;
    View::new(alloc)
}

/// Returns the list of one view.
fn one<A: Allocator + Copy>(alloc: A, paths: &Paths<A>, view: View<A>) -> Option<Vec<View<A>, A>>
    requires { IsFor paths.now view }
    ensures { IfSome result (λ v. All (IsFor paths.now) v.items) }
{
    let _ = paths;
    let mut views = Vec::new(alloc);
    let Ok(()) = views.push(view) else {
        return None;
    };
    Some(views)
}

/// Returns the list of one view without entries.
fn views_of<A: Allocator + Copy>(
    alloc: A,
    graph: &Graph<A>,
    paths: &Paths<A>,
) -> Option<Vec<View<A>, A>>
    requires { paths.now ≡ graph.now }
    ensures { IfSome result (λ v. All (IsFor graph.now) v.items) }
{
    let _ = graph;
    one(alloc, paths, unseen(alloc, paths))
}

/// Returns the empty queue of one processor.
fn queue_of<A: Allocator + Copy>(alloc: A) -> Option<Mesh<A>> {
    Mesh::new(alloc, 1).ok()
}

/// Returns the cluster of a processor. It is built from its parts while every request for memory is refused.
fn cluster_of<A: Allocator + Copy>(
    heap: &Heap,
    alloc: A,
    graph: &Graph<A>,
    processor: Processor<A>,
) -> Option<Cluster<A>> {
    let paths = paths_of(alloc, graph)?;
    let mut processors = Vec::new(alloc);
    processors.push(processor).ok()?;
    let views = views_of(alloc, graph, &paths)?;
    let mesh = queue_of(alloc)?;
    unasked!(heap: Cluster::of_parts(alloc, graph, paths, processors, views, mesh))
}

/// Returns the number of the refusal of a step, 0 if it is executed.
fn number_of<A: Allocator + Copy>(
    alloc: A,
    cluster: &mut Cluster<A>,
    told: &StepLine,
) -> Option<u64> {
    let step = step_of(alloc, cluster.graph(), told)?;
    match cluster.plan(&step) {
        Ok(record) => {
            cluster.commit(&record).ok()?;
            Some(0)
        }
        Err(refusal) => Some(refusal.code().number()),
    }
}

/// Returns the number of the refusal of a feed, and whether the last epoch of the input is closed.
fn of_feed<A: Allocator + Copy>(
    heap: &Heap,
    json: Global,
    alloc: A,
    row: &Feed,
) -> Option<(u64, bool)> {
    let graph = graph_of(json, alloc, LINE)?;
    let mut cluster = cluster_of(heap, alloc, &graph, before_feed(alloc, &graph, row)?)?;
    let number = number_of(alloc, &mut cluster, &StepLine::Feed(0, "a", row.3, row.4))?;
    let closed =
        "{\"processors\":[{\"items\":[],\"records\":[],\"requests\":[],\"sinks\":[],\"tokens\":[],\
         \"unsent\":[[\"a\",[4294967295],-1]],\"view\":[]}],\"queues\":[[[]]]}";
    Some((number, is_state(json, &cluster, closed)))
}

/// Returns the number of the refusal of a step at a vertex of a graph.
fn of_step<A: Allocator + Copy>(
    heap: &Heap,
    json: Global,
    alloc: A,
    at: (&'static str, &'static str),
    row: &AtVertex,
) -> Option<u64> {
    let (text, name) = at;
    let graph = graph_of(json, alloc, text)?;
    let mut cluster = cluster_of(heap, alloc, &graph, before_step(alloc, &graph, name, row)?)?;
    number_of(alloc, &mut cluster, &row.2)
}

/// Returns the number of the refusal of a send.
fn of_send<A: Allocator + Copy>(heap: &Heap, json: Global, alloc: A, row: &Sending) -> Option<u64> {
    let graph = graph_of(json, alloc, TRACED)?;
    let mut cluster = cluster_of(heap, alloc, &graph, before_send(alloc, &graph, row)?)?;
    let sent = Sent {
        time: &[3],
        at: row.3,
        port: row.4,
        values: &[5],
        dest: None,
    };
    number_of(alloc, &mut cluster, &StepLine::Send(0, "x", sent))
}

/// Returns the number of the refusal of a record that goes around once more at the last counter.
fn of_round<A: Allocator + Copy>(heap: &Heap, json: Global, alloc: A) -> Option<u64> {
    let graph = graph_of(json, alloc, LOOP)?;
    let mut processor = Processor::start(alloc, &graph).ok()?;
    add_records(&mut processor, &graph, "sf", &[0, u32::MAX], 1)?;
    let mut cluster = cluster_of(heap, alloc, &graph, processor)?;
    number_of(
        alloc,
        &mut cluster,
        &StepLine::Take(0, "sf", &[0, u32::MAX], 5),
    )
}

/// Checks the worked example *number-limits*, and the limits of feeds to an epoch, releases, notices and sends.
#[test]
fn number_limits(rt: HostRuntime) {
    let heap = Refusing::new(rt.alloc());
    assert!(rt; of_round(&heap, rt.alloc(), &heap) == Some(11));
    for (i, row) in FEEDS.iter().enumerate() {
        let found = of_feed(&heap, rt.alloc(), &heap, row);
        assert!(rt; found == Some((row.5, i == 0)), "in row {i}");
    }
    for (i, row) in AT_HOLD.iter().enumerate() {
        let number = of_step(&heap, rt.alloc(), &heap, (HELD, "h"), row);
        assert!(rt; number == Some(row.3), "in row {i} of steps at h");
    }
    for (i, row) in AT_OPAQUE.iter().enumerate() {
        let number = of_step(&heap, rt.alloc(), &heap, (TRACED, "x"), row);
        assert!(rt; number == Some(row.3), "in row {i} of steps at x");
    }
    for (i, row) in SENDS.iter().enumerate() {
        let number = of_send(&heap, rt.alloc(), &heap, row);
        assert!(rt; number == Some(row.5), "in row {i} of sends");
    }
    assert!(rt; heap.live() == 0);
}
