//! Tests of timelines and breakpoints: each request for memory of a move and of a walk refused in turn, calls that
//! take no memory, copies, and far jumps.

mod checkpoints;
mod conditions;
pub mod memory;
mod succeeds;

use nd_breaks::Breaks;
use nd_machine::run;
use nd_protocol::Processors;
use nd_replies::{Fault, Ran};
use nd_timeline::Timeline;
use std::alloc::Allocator;

/// Runs all processors of a timeline.
pub fn run_all<A: Allocator + Copy>(
    timeline: &mut Timeline<A>,
    limit: u64,
    breaks: &Breaks<A>,
) -> Result<Ran, Fault> {
    let all: Option<Processors<A>> = None;
    run(timeline, limit, all.as_ref(), None, breaks)
}
