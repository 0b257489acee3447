//! Whether anything outstanding is before a pointstamp.
ghost use Rattle.std.specs.Prelude.{◌↔◌, IsTrue};
ghost use Rattle.nd_processor.specs.State.{held};
ghost use Rattle.nd_why.specs.Why.{HasBefore, RecordBefore, RequestBefore, TokenBefore, IsFinishedBefore};

use nd_paths::{Paths, Pointstamp};
use nd_processor::{Processor, ValueAt, token_point};
use nd_protocol::Parts;
use nd_view::{Extent, is_before};
use std::alloc::Allocator;

// Returns whether a processor has a record before `point`.
fn has_record<A: Allocator + Copy>(
    paths: &Paths<A>,
    processor: &Processor<A>,
    point: &Pointstamp,
    extent: Extent,
) -> bool
    ensures { IsTrue result ↔ RecordBefore paths.now extent point.now processor.now }
{
    processor.records().any(|e: (&ValueAt, &u64)| is_before(&e.0.point, paths, point, extent))
}

// Returns whether a processor has a request before `point`.
fn has_request<A: Allocator + Copy>(
    paths: &Paths<A>,
    processor: &Processor<A>,
    point: &Pointstamp,
    extent: Extent,
) -> bool
    ensures { IsTrue result ↔ RequestBefore paths.now extent point.now processor.now }
{
    processor.requests().any(|e: (&Pointstamp, &())| is_before(e.0, paths, point, extent))
}

// Returns whether a processor has a token before `point`.
fn has_token<A: Allocator + Copy>(
    paths: &Paths<A>,
    processor: &Processor<A>,
    point: &Pointstamp,
    extent: Extent,
) -> bool
    ensures { IsTrue result ↔ TokenBefore paths.now extent point.now processor.now }
{
    processor.tokens().iter().any(|e: &(usize, u32)| is_before(
        &token_point(e.0, e.1),
        paths,
        point,
        extent,
    ))
}

// Returns whether a processor has anything outstanding before `point`.
fn holds_before<A: Allocator + Copy>(
    paths: &Paths<A>,
    processor: &Processor<A>,
    point: &Pointstamp,
    extent: Extent,
) -> bool
    ensures { IsTrue result ↔ HasBefore paths.now extent point.now (held processor.now) }
{
    let record = has_record(paths, processor, point, extent);
    let request = has_request(paths, processor, point, extent);
    let token = has_token(paths, processor, point, extent);
    record | request | token
}

/// Returns whether a cluster has nothing outstanding before `point`.
pub fn finished<A: Allocator + Copy>(parts: &Parts<A>, point: &Pointstamp, extent: Extent) -> bool
    ensures { IsTrue result ↔ IsFinishedBefore parts.now extent point.now }
{
    for processor in parts.processors() {
        if holds_before(parts.paths(), processor, point, extent) {
            return false;
        }
    }
    true
}
