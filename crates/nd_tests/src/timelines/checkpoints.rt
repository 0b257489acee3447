//! Checkpoints of long runs: far jumps while memory is refused, and how many checkpoints there are.

use crate::timelines::memory::Heap;
use crate::timelines::run_all;
use nd_breaks::Breaks;
use nd_cluster::{Next, Step, Values};
use nd_examples::{ENDLESS, StepLine, is_state, start, state_text, step_of};
use nd_testing::{MANY, Refusing};
use nd_timeline::Timeline;
use std::alloc::{Allocator, Global};

/// Returns a timeline on a loop that never ends, with a record in it.
fn looped<A: Allocator + Copy>(json: Global, alloc: A) -> Option<Timeline<A>> {
    let mut timeline = Timeline::new(alloc, start(json, alloc, ENDLESS, 1)?).ok()?;
    for value in [&[1_i64], &[2]] {
        let told = StepLine::Feed(0, "a", value, Next::Next);
        let step = step_of(alloc, timeline.cluster().graph(), &told)?;
        timeline.forward(&step).ok()?;
    }
    Some(timeline)
}

/// Returns whether a run over a position where a checkpoint is due met the refused request, and whether the run continued.
fn meets_run<A: Allocator + Copy>(
    heap: &Heap,
    json: Global,
    alloc: A,
    n: u64,
) -> Option<(bool, bool)> {
    let mut timeline = looped(json, alloc)?;
    let breaks = Breaks::new(alloc).ok()?;
    run_all(&mut timeline, 1020, &breaks).ok()?;
    heap.refuse(n);
    let goes_on = run_all(&mut timeline, 10, &breaks).is_ok();
    Some((heap.relent(n), goes_on))
}

/// Returns whether a timeline is in the state in which another is after a jump to the same position.
fn is_same<A: Allocator + Copy>(
    json: Global,
    timeline: &Timeline<A>,
    other: &mut Timeline<A>,
) -> Option<bool> {
    other.jump(timeline.at()).ok()?;
    let text = state_text(json, other.cluster())?;
    Some(is_state(json, timeline.cluster(), text.as_str()))
}

/// Does the same for a jump over 1,500 steps, which begins at a checkpoint. Where the jump stops, the state is that of a
/// timeline to which no request is refused.
fn meets_jump<A: Allocator + Copy>(
    heap: &Heap,
    json: Global,
    timeline: &mut Timeline<A>,
    other: &mut Timeline<A>,
    n: u64,
) -> Option<(bool, bool)> {
    timeline.jump(2600).ok()?;
    heap.refuse(n);
    let goes_on = timeline.jump(1100).is_ok();
    let met = heap.relent(n);
    if is_same(json, timeline, other)? {
        Some((met, goes_on))
    } else {
        None
    }
}

/// Returns how many refusals were unnoticed before the first of such runs that met none.
fn unnoticed_in_runs<A: Allocator + Copy>(heap: &Heap, json: Global, alloc: A) -> Option<u64> {
    let mut count: u64 = 0;
    for n in 0..MANY {
        let (met, goes_on) = meets_run(heap, json, alloc, n)?;
        if !met {
            return if goes_on { Some(count) } else { None };
        }
        count = count.saturating_add(u64::from(goes_on));
    }
    None
}

/// Does the same for such jumps in one timeline.
fn unnoticed_in_jumps<A: Allocator + Copy>(heap: &Heap, json: Global, alloc: A) -> Option<u64> {
    let mut timeline = looped(json, alloc)?;
    run_all(&mut timeline, 2598, &Breaks::new(alloc).ok()?).ok()?;
    let mut other = timeline.copy(alloc).ok()?;
    let mut count: u64 = 0;
    for n in 0..MANY {
        let (met, goes_on) = meets_jump(heap, json, &mut timeline, &mut other, n)?;
        if !met {
            return if goes_on { Some(count) } else { None };
        }
        count = count.saturating_add(u64::from(goes_on));
    }
    None
}

#[test]
fn checkpoints_out_of_memory(rt: HostRuntime) {
    let heap = Refusing::new(rt.alloc());
    let count = unnoticed_in_runs(&heap, rt.alloc(), &heap);
    assert!(rt; matches!(count, Some(n) if n > 3));
    assert!(rt; heap.live() == 0);
}

#[test]
fn far_jumps_out_of_memory(rt: HostRuntime) {
    let heap = Refusing::new(rt.alloc());
    let count = unnoticed_in_jumps(&heap, rt.alloc(), &heap);
    assert!(rt; matches!(count, Some(n) if n > 3));
    assert!(rt; heap.live() == 0);
}

/// Feeds `count` different values at once, all at epoch 0.
fn fill<A: Allocator + Copy>(alloc: A, timeline: &mut Timeline<A>, count: i64) -> Option<()> {
    let mut values = Values::new(alloc);
    for value in 0..count {
        values.push(value).ok()?;
    }
    let step = Step::Feed {
        p: 0,
        vertex: 0,
        values,
        next: Next::Stay,
    };
    timeline.forward(&step).ok()
}

/// Returns how many blocks of memory the checkpoints of a run of 20,000 steps take, and how many the state saved at its end
/// takes, with this many records in the loop.
fn blocks<A: Allocator + Copy>(
    heap: &Heap,
    json: Global,
    alloc: A,
    records: i64,
) -> Option<(u64, u64)> {
    let mut timeline = Timeline::new(alloc, start(json, alloc, ENDLESS, 1)?).ok()?;
    fill(alloc, &mut timeline, records)?;
    run_all(&mut timeline, 20_000, &Breaks::new(alloc).ok()?).ok()?;
    let with = heap.live();
    let saved = timeline.cluster().saved(alloc).ok()?;
    let one = heap.live().saturating_sub(with);
    drop(saved);
    let copy = timeline.copy(alloc).ok()?;
    drop(timeline);
    let without = heap.live();
    drop(copy);
    Some((with.saturating_sub(without), one))
}

/// Returns whether there are this many checkpoints, judged by their blocks, or one more or less.
fn has_about<A: Allocator + Copy>(
    heap: &Heap,
    json: Global,
    alloc: A,
    records: i64,
    count: u64,
) -> Option<bool> {
    let (all, one) = blocks(heap, json, alloc, records)?;
    let least = one.saturating_mul(count.saturating_sub(1));
    let most = one.saturating_mul(count.saturating_add(1));
    Some(one > 0 && least <= all && all <= most)
}

#[test]
fn checkpoints_are_few(rt: HostRuntime) {
    let heap = Refusing::new(rt.alloc());
    for (records, count) in [(2, 19), (300, 9), (1000, 4)] {
        let has = has_about(&heap, rt.alloc(), &heap, records, count);
        assert!(rt; has == Some(true), "with {records} records");
    }
    assert!(rt; heap.live() == 0);
}
