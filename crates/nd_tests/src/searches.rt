//! Searches of snapshots by several workers: how the pieces are claimed, and each request for memory refused in turn.

use crate::opened::only;
use crate::timelines::memory::Heap;
use nd_breaks::{Atom, Condition};
use nd_cluster::Next;
use nd_examples::{LINE, StepLine, point, start, step_of};
use nd_history::{Gate, OpenGate, SearchFault, Snapshot, search};
use nd_testing::{MANY, Refusing, Sign};
use nd_timeline::Timeline;
use std::alloc::{Allocator, Global};
use std::rt::Clock;
use std::sync::atomic::{AtomicU64, Ordering};
use std::thread::Threads;

/// A feed of nothing.
static NOTHING: StepLine = StepLine::Feed(0, "a", &[], Next::Next);

/// Returns a snapshot of a line that keeps this many feeds of nothing, the cursor at this position.
fn fed<A: Allocator + Copy>(json: Global, alloc: A, times: u64, at: u64) -> Option<Snapshot<A>> {
    let mut timeline = Timeline::new(alloc, start(json, alloc, LINE, 1)?).ok()?;
    let step = step_of(alloc, timeline.cluster().graph(), &NOTHING)?;
    for _ in 0..times {
        timeline.forward(&step).ok()?;
    }
    timeline.jump(at).ok()?;
    Snapshot::of(alloc, &timeline, 0).ok()
}

/// Returns the condition that holds if a location has a count of at least 1 at an epoch.
fn count<A: Allocator + Copy>(snapshot: &Snapshot<A>, name: &str, epoch: u32) -> Option<Condition> {
    Some(only(Atom::Count {
        point: point(snapshot.cluster().graph(), name, &[epoch])?,
        at_least: 1,
    }))
}

/// Holds whoever has piece 0 until another comes with piece 1.
#[derive(Drop)]
struct Held<'a, R: Clock>(Sign<'a, R>);

impl<R: Clock + Sync> Gate for Held<'_, R> {
    fn call(&self, _who: u64, piece: u64) {
        if piece == 1 {
            self.0.give();
        } else {
            self.0.wait();
        }
    }
}

/// Returns whether two workers were in pieces at the same time, and found nothing.
fn are_at_the_same_time<R: Threads + Sync + Clock>(rt: &R, alloc: Global) -> Option<bool> {
    let snapshot = fed(alloc, alloc, 31, 31)?;
    let nowhere = count(&snapshot, "az", 0)?;
    let gate = Held(Sign::new(rt));
    let found = search(rt, alloc, &snapshot, &nowhere, 0, 31, 2, &gate).ok()?;
    Some(found.is_none() && gate.0.came())
}

#[test]
fn at_the_same_time(rt: HostRuntime) {
    assert!(rt; are_at_the_same_time(&rt, rt.alloc()) == Some(true));
}

/// Counts the calls.
#[derive(Drop)]
struct Counted(AtomicU64);

impl Gate for Counted {
    fn call(&self, _who: u64, _piece: u64) {
        self.0.fetch_add(1, Ordering::SeqCst);
    }
}

/// The range of a search for the token at epoch 39, how many pieces the range has, and the hit.
type Row = (u64, u64, u64, Option<u64>);

/// Of 40 feeds of nothing, the one that leads to position 39 moves the token to epoch 39.
static ROWS: [Row; 7] = [
    (0, 40, 3, Some(39)),
    (25, 40, 1, Some(39)),
    (24, 40, 2, Some(39)),
    (0, 38, 3, None),
    (40, 40, 1, None),
    (39, 39, 1, Some(39)),
    (7, 22, 1, None),
];

/// Returns whether a search by `workers` workers finds the hit of its row, and calls the gate once for
/// each piece.
fn hits<R: Threads + Sync>(rt: &R, alloc: Global, row: &Row, workers: u64) -> Option<bool> {
    let snapshot = fed(alloc, alloc, 40, 40)?;
    let (lo, hi, pieces, wanted) = *row;
    let condition = count(&snapshot, "a", 39)?;
    let gate = Counted(AtomicU64::new(0));
    let found = search(rt, alloc, &snapshot, &condition, lo, hi, workers, &gate).ok()?;
    Some(found == wanted && gate.0.load(Ordering::SeqCst) == pieces)
}

#[test]
fn least_of_all_hits(rt: HostRuntime) {
    for workers in [1, 2, 3, 8, 65, u64::MAX] {
        for (i, row) in ROWS.iter().enumerate() {
            let hits = hits(&rt, rt.alloc(), row, workers);
            assert!(rt; hits == Some(true), "in row {i}, {workers} workers");
        }
    }
}

/// Searches with two workers and one request refused, and returns whether the search met it, and whether a worker did.
///
/// Returns `None` if the search runs out of memory without a refusal. What else it may return is in its clauses.
fn searched<A: Allocator + Copy + Send + Sync, R: Threads + Sync>(
    rt: &R,
    heap: &Heap,
    alloc: A,
    asked: (&Snapshot<A>, &Condition),
    n: u64,
) -> Option<(bool, bool)> {
    let (snapshot, condition) = asked;
    heap.refuse(n);
    let fault = search(rt, alloc, snapshot, condition, 0, 31, 2, &OpenGate).err();
    let met = heap.relent(n);
    if fault.is_some() && !met {
        return None;
    }
    Some((met, matches!(fault, Some(SearchFault::Missing { .. }))))
}

/// Searches with each request refused in turn, and returns how often one was refused in a walk.
fn searched_in_turn<A: Allocator + Copy + Send + Sync, R: Threads + Sync>(
    rt: &R,
    heap: &Heap,
    alloc: A,
    asked: (&Snapshot<A>, &Condition),
) -> Option<u64> {
    let mut walks: u64 = 0;
    for n in 0..MANY {
        let (met, is_missing) = searched(rt, heap, alloc, asked, n)?;
        if !met {
            return Some(walks);
        }
        walks = walks.saturating_add(u64::from(is_missing));
    }
    None
}

/// Returns whether a search from either end of the kept steps answers as it may, and whether the walks from the start met
/// refusals.
fn searches_in_turn<A: Allocator + Copy + Send + Sync, R: Threads + Sync>(
    rt: &R,
    heap: &Heap,
    json: Global,
    alloc: A,
) -> Option<bool> {
    let end = fed(json, alloc, 31, 31)?;
    let begin = fed(json, alloc, 31, 0)?;
    let nowhere = count(&end, "az", 0)?;
    let late = count(&end, "a", 20)?;
    searched_in_turn(rt, heap, alloc, (&end, &nowhere))?;
    searched_in_turn(rt, heap, alloc, (&begin, &late))?;
    Some(searched_in_turn(rt, heap, alloc, (&begin, &nowhere))? > 0)
}

#[test]
fn search_out_of_memory(rt: HostRuntime) {
    let heap = Refusing::new(rt.alloc());
    assert!(rt; searches_in_turn(&rt, &heap, rt.alloc(), &heap) == Some(true));
    assert!(rt; heap.live() == 0);
}

/// Refuses the next request for memory when the gate is called for piece 0.
#[derive(Drop)]
struct Refuses<'a>(&'a Heap);

impl Gate for Refuses<'_> {
    fn call(&self, _who: u64, piece: u64) {
        if piece == 0 {
            self.0.refuse(0);
        }
    }
}

/// Returns whether piece 0 has no result if the first request for memory after the gate's call is refused: its walk had not
/// begun at the call.
fn stops_at_the_gate<A: Allocator + Copy + Send + Sync, R: Threads + Sync>(
    rt: &R,
    heap: &Heap,
    json: Global,
    alloc: A,
) -> Option<bool> {
    let snapshot = fed(json, alloc, 31, 0)?;
    let nowhere = count(&snapshot, "az", 0)?;
    let fault = search(rt, alloc, &snapshot, &nowhere, 0, 31, 1, &Refuses(heap)).err();
    let met = heap.relent(0);
    Some(met && matches!(fault, Some(SearchFault::Missing { piece: 0, .. })))
}

#[test]
fn the_gate_is_called_before_the_walk(rt: HostRuntime) {
    let heap = Refusing::new(rt.alloc());
    assert!(rt; stops_at_the_gate(&rt, &heap, rt.alloc(), &heap) == Some(true));
    assert!(rt; heap.live() == 0);
}
