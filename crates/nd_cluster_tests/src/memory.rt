//! Each request for memory of the calls of clusters refused in turn: the call that meets the refusal returns out of
//! memory. What else it leaves and may return is in its clauses.

use crate::copies::go;
use crate::refused::Heap;
use nd_cluster::{Allowed, Cluster, Extent, Next, Question, Step};
use nd_examples::{
    HELD, HELD_MOVED, LINE, LOOP, SUM_NOTIFIED, Script, Sent, StepLine, TRACED, point,
    processors_of, start, step_of, values_of,
};
use nd_testing::{Refusing, in_turn};
use std::alloc::{Allocator, Global};

/// The graph of an opaque vertex that starts with a capability, and a sink.
const SOURCE: &str =
    r#"{"vertices":[{"name":"x","op":"opaque","depth":0,"ports":1,"starts":true},{"name":"z","op":"sink","depth":0}],"edges":[{"name":"xz","from":"x","port":0,"to":"z","route":"exchange"}]}"#;

/// Steps of each kind, with lists that take memory, and states with candidates of each kind.
static RUNS: [Script; 9] = [
    (
        LINE,
        2,
        &[
            StepLine::Feed(1, "a", &[5, 7, 5, 8], Next::Next),
            StepLine::All(1),
            StepLine::Feed(0, "a", &[5, 4, 5], Next::Next),
        ],
    ),
    (LINE, 1, &[StepLine::Feed(0, "a", &[5], Next::Stay)]),
    SUM_NOTIFIED,
    (
        LOOP,
        1,
        &[
            StepLine::Feed(0, "a", &[1], Next::Next),
            StepLine::Take(0, "ai", &[0], 1),
            StepLine::Take(0, "im", &[0, 0], 1),
            StepLine::Take(0, "ms", &[0, 0], 2),
        ],
    ),
    (
        LINE,
        2,
        &[
            StepLine::Feed(0, "a", &[5], Next::Next),
            StepLine::Points(0, &[("az", &[0]), ("az", &[0])]),
            StepLine::All(0),
            StepLine::Receive(0, 1),
        ],
    ),
    HELD_MOVED,
    (
        HELD,
        1,
        &[
            StepLine::Feed(0, "a", &[7], Next::Close),
            StepLine::Take(0, "ah", &[0], 7),
            StepLine::Take(0, "hz", &[0], 7),
            StepLine::All(0),
            StepLine::Receive(0, 0),
            StepLine::Release(0, "h", &[0], None),
        ],
    ),
    (
        TRACED,
        1,
        &[
            StepLine::Feed(0, "a", &[7], Next::Close),
            StepLine::Take(0, "ax", &[0], 7),
            StepLine::Send(
                0,
                "x",
                Sent {
                    time: &[0],
                    at: Some(&[1]),
                    port: 0,
                    values: &[1, 2, 3, 4],
                    dest: Some(0),
                },
            ),
            StepLine::Points(0, &[("a", &[0]), ("x", &[0])]),
            StepLine::Keep(0, "x", &[0], &[3]),
        ],
    ),
    (
        SOURCE,
        2,
        &[
            StepLine::Send(
                0,
                "x",
                Sent {
                    time: &[0],
                    at: None,
                    port: 0,
                    values: &[5],
                    dest: Some(1),
                },
            ),
            StepLine::Take(1, "xz", &[0], 5),
            StepLine::Release(0, "x", &[0], None),
            StepLine::All(0),
            StepLine::Receive(0, 1),
        ],
    ),
];

/// Copies a step and its record.
fn copy<A: Allocator + Copy>(alloc: A, cluster: &Cluster<A>, step: &Step<A>) -> Option<()> {
    step.copy(alloc).ok()?;
    cluster.plan(step).ok()?.copy(alloc).ok()?;
    Some(())
}

/// Lists the candidates and the moves, and chooses a step by lot, of each kind and of processor 0.
fn choose<A: Allocator + Copy>(alloc: A, cluster: &Cluster<A>) -> Option<()> {
    let only = Some(processors_of(alloc, &[0])?);
    cluster.all_candidates(only.as_ref()).ok()?;
    cluster.drawn_planned(1, only.as_ref()).ok()?;
    let allowed = Allowed {
        feeds: true,
        releases: true,
    };
    cluster.moves(allowed).ok()?;
    Some(())
}

/// Asks each question about a cluster, and copies it.
fn ask<A: Allocator + Copy>(alloc: A, cluster: &Cluster<A>) -> Option<()> {
    let z = point(cluster.graph(), "z", &[1])?;
    if cluster.n() == 0 {
        return None;
    }
    cluster.candidates().ok()?;
    choose(alloc, cluster)?;
    cluster.frontier_at(alloc, 0, z.location).ok()?;
    for extent in [Extent::AtOrBefore, Extent::StrictlyBefore] {
        let asked = Question {
            q: 0,
            point: z.copy(),
            extent,
        };
        cluster.why(alloc, &asked).ok()?;
    }
    cluster.copy(alloc).ok()?;
    Some(())
}

/// Executes the steps of a script, each after it was undone once, and asks the questions before each.
fn run<A: Allocator + Copy>(alloc: A, json: Global, script: &Script) -> Option<()> {
    let (text, n, steps) = script;
    let mut cluster = start(json, alloc, text, *n)?;
    for told in *steps {
        let step = step_of(alloc, cluster.graph(), told)?;
        copy(alloc, &cluster, &step)?;
        ask(alloc, &cluster)?;
        go(&mut cluster, &step)?;
    }
    ask(alloc, &cluster)
}

/// Returns how many requests of such a run were refused before it met none.
fn refused<A: Allocator + Copy>(
    heap: &Heap,
    alloc: A,
    json: Global,
    script: &Script,
) -> Option<u64> {
    in_turn!(heap: run(alloc, json, script))
}

#[test]
fn runs_out_of_memory(rt: HostRuntime) {
    let heap = Refusing::new(rt.alloc());
    for (i, script) in RUNS.iter().enumerate() {
        let count = refused(&heap, &heap, rt.alloc(), script);
        assert!(rt; matches!(count, Some(n) if n > 0), "in row {i}");
        assert!(rt; heap.live() == 0, "in row {i}");
    }
}

/// Makes lists of values and of processors, copies them, and adds to the copies.
fn lists<A: Allocator + Copy>(alloc: A) -> Option<()> {
    let mut values = values_of(alloc, &[1, 2, 3])?.copy(alloc).ok()?;
    values.push(4).ok()?;
    let mut only = processors_of(alloc, &[0, 1])?.copy(alloc).ok()?;
    only.push(1).ok()
}

/// Returns how many requests of these calls were refused before they met none.
fn lists_refused<A: Allocator + Copy>(heap: &Heap, alloc: A) -> Option<u64> {
    in_turn!(heap: lists(alloc))
}

#[test]
fn lists_out_of_memory(rt: HostRuntime) {
    let heap = Refusing::new(rt.alloc());
    assert!(rt; matches!(lists_refused(&heap, &heap), Some(n) if n > 0));
    assert!(rt; heap.live() == 0);
}
