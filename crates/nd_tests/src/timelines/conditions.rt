//! Conditions and breakpoints: the ids of breakpoints, how many literals a condition has, that testing and setting
//! conditions takes no memory, and how large a command is.

use crate::opened::only;
use crate::timelines::memory::Heap;
use nd_breaks::{Atom, Breaks, Condition, Literal, NoBreak, TooManyBreaks, TooManyLiterals};
use nd_cluster::{Cluster, Step};
use nd_commands::Command;
use nd_examples::{LINE, start};
use nd_testing::{Refusing, unasked};
use std::alloc::{Allocator, Global};
use std::mem::size_of;

/// Returns the atom that the queue from processor 0 to itself has at least this many changes.
fn queued(at_least: u64) -> Atom {
    Atom::Queue {
        from: 0,
        to: 0,
        at_least,
    }
}

/// Returns a breakpoint that holds of each cluster.
fn always() -> Condition {
    only(queued(0))
}

/// Returns whether each breakpoint gets the least free number, and none a number when 32 are set.
fn are_numbered<A: Allocator>(alloc: A) -> Option<bool> {
    let mut breaks = Breaks::new(alloc).ok()?;
    for id in 0..32 {
        if breaks.set(always()) != Ok(id) {
            return Some(false);
        }
    }
    let is_full = breaks.set(always()) == Err(TooManyBreaks);
    let is_cleared = breaks.clear(3) == Ok(());
    let is_reused = breaks.set(always()) == Ok(3);
    Some(is_full && is_cleared && is_reused && breaks.clear(32) == Err(NoBreak))
}

#[test]
fn breakpoint_ids(rt: HostRuntime) {
    assert!(rt; are_numbered(rt.alloc()) == Some(true));
}

/// Returns whether a condition takes eight literals and no more.
fn takes_eight() -> Option<bool> {
    let mut condition = only(queued(0));
    for _ in 1..8 {
        condition.push(Literal::Not(queued(1))).ok()?;
    }
    let is_full = condition.push(Literal::Is(queued(0))) == Err(TooManyLiterals);
    Some(is_full && condition.literals().len() == 8)
}

#[test]
fn eight_literals(rt: HostRuntime) {
    assert!(rt; takes_eight() == Some(true));
}

/// Returns whether a condition is made, copied, set, hit and cleared.
fn tells<A: Allocator + Copy>(cluster: &Cluster<A>, breaks: &mut Breaks<A>) -> Option<bool> {
    let mut condition = only(queued(0));
    condition.push(Literal::Not(queued(1))).ok()?;
    let id = breaks.set(condition.copy()).ok()?;
    let is_hit = breaks.first_hit(cluster) == Some(id);
    let is_same = breaks.get(u64::from(id))?.same(&condition);
    breaks.clear(u64::from(id)).ok()?;
    Some(is_hit && is_same && breaks.first_hit(cluster) == None)
}

/// Returns whether this works while every request for memory is refused.
fn tells_unasked<A: Allocator + Copy>(heap: &Heap, json: Global, alloc: A) -> Option<bool> {
    let cluster = start(json, alloc, LINE, 1)?;
    let mut breaks = Breaks::new(alloc).ok()?;
    Some(unasked!(heap: tells(&cluster, &mut breaks)?))
}

#[test]
fn conditions_take_no_memory(rt: HostRuntime) {
    let heap = Refusing::new(rt.alloc());
    assert!(rt; tells_unasked(&heap, rt.alloc(), &heap) == Some(true));
    assert!(rt; heap.live() == 0);
}

#[test]
fn commands_stay_small(rt: HostRuntime) {
    assert!(rt; size_of::<Command>() <= size_of::<Step>() + 8);
}
