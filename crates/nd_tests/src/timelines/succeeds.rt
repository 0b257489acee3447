//! Calls of timelines that take no memory, made while every request is refused; and copies, which grow in their own
//! memory.

use crate::timelines::memory::{ALL, Heap, ONE, kept};
use crate::timelines::run_all;
use nd_breaks::Breaks;
use nd_examples::{StepLine, point, step_of};
use nd_testing::{Refusing, unasked};
use nd_timeline::Timeline;
use std::alloc::{Allocator, Global};

/// Returns whether a timeline of four steps, of which the last lets z pass, reports where it is, and stays there.
fn tells<A: Allocator + Copy>(
    timeline: &mut Timeline<A>,
    breaks: &Breaks<A>,
    at: u64,
) -> Option<bool> {
    let z = point(timeline.base().graph(), "z", &[0])?;
    timeline.jump(at).ok()?;
    run_all(timeline, 0, breaks).ok()?;
    let has_steps = timeline.step(3).is_some() && timeline.step(4).is_none();
    let is_there = (timeline.at(), timeline.kept()) == (at, 4);
    let _ = timeline.cluster().n();
    Some(has_steps && is_there && timeline.passed(0, &z) == (at == 4))
}

/// Returns whether it does so at a position while every request for memory is refused.
fn stays<A: Allocator + Copy>(heap: &Heap, json: Global, alloc: A, at: u64) -> Option<bool> {
    let mut timeline = kept(json, alloc, &ALL)?;
    let breaks = Breaks::new(alloc).ok()?;
    timeline.jump(at).ok()?;
    Some(unasked!(heap: tells(&mut timeline, &breaks, at)?))
}

#[test]
fn staying_takes_no_memory(rt: HostRuntime) {
    let heap = Refusing::new(rt.alloc());
    for at in 0..5 {
        assert!(rt;
            stays(&heap, rt.alloc(), &heap, at) == Some(true),
            "at {at}"
        );
    }
    assert!(rt; heap.live() == 0);
}

/// Returns a copy of a timeline that has run forward, gone back and forward, and then taken other steps.
fn more<A: Allocator + Copy>(alloc: A, base: &Timeline<A>) -> Option<Timeline<A>> {
    let mut copy = base.copy(alloc).ok()?;
    run_all(&mut copy, 10, &Breaks::new(alloc).ok()?).ok()?;
    copy.jump(0).ok()?;
    copy.jump(2).ok()?;
    copy.back().ok()?;
    copy.redo().ok()?;
    let step = step_of(alloc, copy.cluster().graph(), &StepLine::All(0))?;
    copy.forward(&step).ok()?;
    Some(copy)
}

/// Returns whether a timeline in the first heap is copied, and the copy moves without that heap.
fn is_apart<A: Allocator + Copy>(first: &Heap, here: A, there: A, json: Global) -> Option<bool> {
    let base = kept(json, here, &ONE)?;
    let copy = unasked!(first: more(there, &base)?);
    Some((copy.at(), copy.kept()) == (3, 3))
}

#[test]
fn copies_have_their_own_memory(rt: HostRuntime) {
    let (first, second) = (Refusing::new(rt.alloc()), Refusing::new(rt.alloc()));
    let is_apart = is_apart(&first, &first, &second, rt.alloc());
    assert!(rt; is_apart == Some(true));
    assert!(rt; (first.live(), second.live()) == (0, 0));
}
