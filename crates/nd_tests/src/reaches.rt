//! What can still happen: searches for a state with ample memory, and with each request refused in turn: the search that
//! meets the refusal returns out of memory. It only reads the cluster, so the next search begins at the same state.

use crate::opened::only;
use crate::timelines::memory::Heap;
use nd_breaks::{Atom, Condition};
use nd_cluster::{Allowed, Cluster, Next, Step};
use nd_examples::{HELD, LINE, StepLine, make, point, reach as cluster_of, start, step_of};
use nd_reach::{ReachFault, Reached, reach};
use nd_testing::{Refusing, in_turn};
use std::alloc::{Allocator, Global};

/// What a search returns.
#[derive(Drop)]
enum Wanted {
    /// A way of so many steps.
    Way(usize),
    /// That so many states were looked at, and whether these are all.
    Nowhere(u64, bool),
}

/// A graph and steps of one processor, the steps of users that are allowed, how many states are looked at, and what a search
/// returns.
type Row = (&'static str, &'static [StepLine], Allowed, u64, Wanted);

const NONE: Allowed = Allowed {
    feeds: false,
    releases: false,
};

const FEEDS: Allowed = Allowed {
    feeds: true,
    releases: false,
};

const RELEASES: Allowed = Allowed {
    feeds: false,
    releases: true,
};

const NOTHING: &[StepLine] = &[];

/// A record on an edge.
const FED: &[StepLine] = &[StepLine::Feed(0, "a", &[5], Next::Close)];

/// A processor that holds a capability, and has nothing else to do.
const HOLDING: &[StepLine] = &[
    StepLine::Feed(0, "a", &[7], Next::Close),
    StepLine::Take(0, "ah", &[0], 7),
    StepLine::Take(0, "hz", &[0], 7),
    StepLine::All(0),
    StepLine::Receive(0, 0),
];

static ROWS: [Row; 6] = [
    (LINE, FED, NONE, 1000, Wanted::Way(3)),
    (LINE, NOTHING, NONE, 10, Wanted::Nowhere(1, true)),
    (LINE, NOTHING, FEEDS, 10, Wanted::Way(3)),
    (LINE, NOTHING, FEEDS, 1, Wanted::Nowhere(1, false)),
    (HELD, HOLDING, NONE, 1000, Wanted::Nowhere(1, true)),
    (HELD, HOLDING, RELEASES, 1000, Wanted::Way(3)),
];

/// Returns the condition that the view of processor 0 has passed an epoch at z.
fn passed<A: Allocator + Copy>(cluster: &Cluster<A>, epoch: u32) -> Option<Condition> {
    let point = point(cluster.graph(), "z", &[epoch])?;
    Some(only(Atom::Passed { q: 0, point }))
}

/// Returns whether this was found.
fn is_found<A: Allocator>(found: &Reached<A>, wanted: &Wanted) -> bool {
    match (found, wanted) {
        (Reached::Way(steps), Wanted::Way(count)) => steps.as_slice().len() == *count,
        (Reached::Nowhere { states, whole }, Wanted::Nowhere(count, is_all)) => {
            states == count && whole == is_all
        }
        _ => false,
    }
}

/// Makes the search of a row from its cluster: `None` if it runs out of memory, or does not return what is wanted.
fn search<A: Allocator + Copy>(
    alloc: A,
    cluster: &Cluster<A>,
    when: &Condition,
    row: &Row,
) -> Option<()> {
    let (_, _, allowed, limit, wanted) = row;
    let found = reach(alloc, cluster, *allowed, when, *limit).ok()?;
    if is_found(&found, wanted) {
        Some(())
    } else {
        None
    }
}

/// Returns how many requests of the search of a row, from a cluster to one that has passed the epoch at z, were refused before
/// it met none.
fn refused_from<A: Allocator + Copy>(
    heap: &Heap,
    alloc: A,
    cluster: &Cluster<A>,
    epoch: u32,
    row: &Row,
) -> Option<u64> {
    let when = passed(cluster, epoch)?;
    in_turn!(heap: search(alloc, cluster, &when, row))
}

/// The same from the cluster of the row to one that has passed epoch 0.
fn refused<A: Allocator + Copy>(heap: &Heap, json: Global, alloc: A, row: &Row) -> Option<u64> {
    let (text, steps, _, _, _) = row;
    let cluster = cluster_of(json, alloc, text, 1, steps)?;
    refused_from(heap, alloc, &cluster, 0, row)
}

#[test]
fn searches_out_of_memory(rt: HostRuntime) {
    let heap = Refusing::new(rt.alloc());
    for (i, row) in ROWS.iter().enumerate() {
        let count = refused(&heap, rt.alloc(), &heap, row);
        assert!(rt; matches!(count, Some(n) if n > 0), "in row {i}");
        assert!(rt; heap.live() == 0, "in row {i}");
    }
}

/// Two steps that put a change into the queue of a processor.
const QUEUEING: &[StepLine] = &[StepLine::Feed(0, "a", &[], Next::Next), StepLine::All(0)];

/// How many processors there are, the changes that the first puts into each queue, and how many it then receives from itself.
type Queues = (u32, u32, u32);

/// Returns a cluster with such queues.
fn queued<A: Allocator + Copy>(json: Global, alloc: A, queues: Queues) -> Option<Cluster<A>> {
    let (n, count, received) = queues;
    let mut cluster = start(json, alloc, LINE, n)?;
    for _ in 0..count {
        for told in QUEUEING {
            let step = step_of(alloc, cluster.graph(), told)?;
            make(&mut cluster, &step)?;
        }
    }
    for _ in 0..received {
        make(&mut cluster, &Step::Receive { from: 0, to: 0 })?;
    }
    Some(cluster)
}

/// Queues, and the search for a state in which processor 0 has passed the last epoch that is fed.
type Along = (Queues, Row);

/// The search along so long a way that a state on it is saved: each receive leads to the only next state.
static LONG: Along = ((1, 130, 0), (LINE, NOTHING, NONE, 1000, Wanted::Way(130)));

/// The search of all orders of one receive of processor 0 and 19 of processor 1, where a state and the next are farther
/// apart than a walk goes. The walker is brought there from the start.
static APART: Along = (
    (2, 20, 19),
    (LINE, NOTHING, NONE, 1000, Wanted::Nowhere(42, true)),
);

/// The same with 139 receives of processor 1, so that the walker is brought there from a saved state.
static FAR_APART: Along = (
    (2, 140, 139),
    (LINE, NOTHING, NONE, 1000, Wanted::Nowhere(282, true)),
);

fn refused_along<A: Allocator + Copy>(
    heap: &Heap,
    json: Global,
    alloc: A,
    along: &Along,
) -> Option<u64> {
    let (queues, row) = along;
    let cluster = queued(json, alloc, *queues)?;
    refused_from(heap, alloc, &cluster, queues.1.saturating_sub(1), row)
}

#[test]
fn long_ways_out_of_memory(rt: HostRuntime) {
    let heap = Refusing::new(rt.alloc());
    for along in [&LONG, &APART] {
        let count = refused_along(&heap, rt.alloc(), &heap, along);
        assert!(rt; matches!(count, Some(n) if n > 130));
        assert!(rt; heap.live() == 0);
    }
}

/// Returns whether a search with ample memory returns what is wanted.
fn is_found_along(alloc: Global, along: &Along) -> Option<()> {
    let (queues, row) = along;
    let cluster = queued(alloc, alloc, *queues)?;
    search(alloc, &cluster, &passed(&cluster, 0)?, row)
}

#[test]
fn far_states(rt: HostRuntime) {
    assert!(rt; is_found_along(rt.alloc(), &FAR_APART).is_some());
}

/// Returns whether a search of so many states is refused before it begins, without a request for memory.
fn is_refused(alloc: Global, limit: u64) -> Option<bool> {
    let cluster = start(alloc, alloc, LINE, 1)?;
    let fault = reach(alloc, &cluster, NONE, &passed(&cluster, 0)?, limit).err()?;
    Some(fault == ReachFault::BadRange && fault.code().number() == 50)
}

#[test]
fn limits(rt: HostRuntime) {
    for limit in [0, 1_000_001, u64::MAX] {
        assert!(rt; is_refused(rt.alloc(), limit) == Some(true), "of {limit}");
    }
}
