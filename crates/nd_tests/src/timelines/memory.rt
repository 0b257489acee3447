//! Each request for memory of the moves of a timeline, of walks over it and of what is listed of it, refused in turn:
//! the call that meets the refusal returns out of memory. What else it leaves and may return is in its clauses.

use crate::opened::{Asked, command_of, only};
use crate::timelines::run_all;
use nd_breaks::{Atom, Breaks};
use nd_cluster::Next;
use nd_examples::{
    EXCHANGE, HELD_MOVED, LINE, SUM_NOTIFIED, Script, Sent, StepLine, TRACED, point, processors_of,
    start, step_of,
};
use nd_history::{Snapshot, changes, effect, turns};
use nd_machine::run;
use nd_testing::{Refusing, in_turn};
use nd_timeline::Timeline;
use std::alloc::{Allocator, Global};

/// The allocator of these tests.
pub type Heap = Refusing<Global>;

/// Two processors take the records that they exchange, and receive each other's updates.
const EXCHANGED: Script = (
    EXCHANGE,
    2,
    &[
        StepLine::Feed(0, "a", &[5, 7], Next::Close),
        StepLine::Feed(1, "a", &[5], Next::Close),
        StepLine::All(0),
        StepLine::Receive(0, 1),
        StepLine::Take(1, "az", &[0], 5),
        StepLine::All(1),
        StepLine::Receive(0, 0),
        StepLine::Receive(1, 0),
        StepLine::Take(1, "az", &[0], 5),
        StepLine::Take(1, "az", &[0], 7),
        StepLine::All(1),
        StepLine::Receive(1, 0),
        StepLine::Receive(1, 1),
        StepLine::Receive(1, 1),
    ],
);

/// A record that a run takes, broadcasts and receives.
pub static ONE: Script = (LINE, 1, &[StepLine::Feed(0, "a", &[5], Next::Close)]);

/// The steps of a run on it.
pub const ALL: Script = (
    LINE,
    1,
    &[
        StepLine::Feed(0, "a", &[5], Next::Close),
        StepLine::Take(0, "az", &[0], 5),
        StepLine::All(0),
        StepLine::Receive(0, 0),
    ],
);

/// Values that an opaque vertex sends, a capability that it keeps, and one that it drops.
const SENT: Script = (
    TRACED,
    1,
    &[
        StepLine::Feed(0, "a", &[7], Next::Close),
        StepLine::Take(0, "ax", &[0], 7),
        StepLine::Send(
            0,
            "x",
            Sent {
                time: &[0],
                at: Some(&[2]),
                port: 1,
                values: &[5, 6, 7, 8],
                dest: Some(0),
            },
        ),
        StepLine::Keep(0, "x", &[0], &[3]),
        StepLine::Release(0, "x", &[0], None),
        StepLine::All(0),
        StepLine::Receive(0, 0),
    ],
);

static SCRIPTS: [Script; 5] = [ALL, SUM_NOTIFIED, HELD_MOVED, EXCHANGED, SENT];

/// Returns the timeline that keeps the steps of a script.
pub fn kept<A: Allocator + Copy>(json: Global, alloc: A, script: &Script) -> Option<Timeline<A>> {
    let (text, n, steps) = script;
    let mut timeline = Timeline::new(alloc, start(json, alloc, text, *n)?).ok()?;
    for told in *steps {
        let step = step_of(alloc, timeline.cluster().graph(), told)?;
        timeline.forward(&step).ok()?;
    }
    Some(timeline)
}

/// Goes from the end to the start and back.
fn jump<A: Allocator + Copy>(timeline: &mut Timeline<A>) -> Option<()> {
    let end = timeline.kept();
    timeline.back().ok()?;
    timeline.redo().ok()?;
    timeline.jump(0).ok()?;
    timeline.jump(end).ok()
}

/// Runs all processors, then the first, and then the first by a seed, from the first position.
fn run_thrice<A: Allocator + Copy>(alloc: A, timeline: &mut Timeline<A>) -> Option<()> {
    let breaks = Breaks::new(alloc).ok()?;
    timeline.jump(1).ok()?;
    run_all(timeline, 10, &breaks).ok()?;
    timeline.jump(1).ok()?;
    let only = Some(processors_of(alloc, &[0, 0])?);
    run(timeline, 10, only.as_ref(), None, &breaks).ok()?;
    timeline.jump(1).ok()?;
    run(timeline, 10, only.as_ref(), Some(1), &breaks).ok()?;
    Some(())
}

/// Copies a timeline, a snapshot of it and a command.
fn copy<A: Allocator + Copy>(alloc: A, timeline: &Timeline<A>) -> Option<()> {
    timeline.copy(alloc).ok()?;
    Snapshot::of(alloc, timeline, 7).ok()?.copy(alloc).ok()?;
    let asked = Asked::RunOnly(10, &[0, 0]);
    command_of(alloc, timeline.cluster().graph(), &asked)?
        .copy(alloc)
        .ok()?;
    Some(())
}

/// Walks from the start to the end and back.
fn walk<A: Allocator + Copy>(alloc: A, timeline: &Timeline<A>) -> Option<()> {
    let Ok(mut walk) = timeline.walk_near(alloc, 0) else {
        return None;
    };
    timeline.walk_to(&mut walk, timeline.kept()).ok()?;
    timeline.walk_to(&mut walk, 0).ok()
}

/// Lists the changes of a view and the turns of a condition, and the effect of each step.
fn list<A: Allocator + Copy>(alloc: A, timeline: &Timeline<A>) -> Option<()> {
    let end = timeline.kept();
    let a = point(timeline.cluster().graph(), "a", &[0])?;
    changes(alloc, timeline, 0, &a, 0, end).ok()?;
    let queued = Atom::Queue {
        from: 0,
        to: 0,
        at_least: 1,
    };
    turns(alloc, timeline, &only(queued), 0, end).ok()?;
    for before in 0..end {
        effect(alloc, timeline, before.saturating_add(1)).ok()?;
    }
    Some(())
}

/// Makes all these calls: `None` if one of them runs out of memory.
fn ask<A: Allocator + Copy>(json: Global, alloc: A, script: &Script) -> Option<()> {
    let mut timeline = kept(json, alloc, script)?;
    copy(alloc, &timeline)?;
    walk(alloc, &timeline)?;
    list(alloc, &timeline)?;
    jump(&mut timeline)?;
    run_thrice(alloc, &mut timeline)
}

/// Returns how many requests were refused before the calls met none.
fn refused<A: Allocator + Copy>(
    heap: &Heap,
    json: Global,
    alloc: A,
    script: &Script,
) -> Option<u64> {
    in_turn!(heap: ask(json, alloc, script))
}

#[test]
fn moves_out_of_memory(rt: HostRuntime) {
    let heap = Refusing::new(rt.alloc());
    for (i, script) in SCRIPTS.iter().enumerate() {
        let count = refused(&heap, rt.alloc(), &heap, script);
        assert!(rt; matches!(count, Some(n) if n > 0), "in row {i}");
        assert!(rt; heap.live() == 0, "in row {i}");
    }
}
