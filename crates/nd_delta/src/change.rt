//! What both stores of changes share: sums, differences and parts, by looking integers up.
ghost use Rattle.std.specs.Prelude.{◌≡◌, ◌≢◌, [], ◌↔◌, ◌≤◌, ◌*◌, unsigned_abs, OnErr, IfOk, IsTrue};
ghost use Rattle.nd_time.specs.Limits.{max_count};
ghost use Rattle.nd_delta.specs.Delta.{DeltaValue, at, combined, part, IsTooLarge, IsWithin};

use crate::{Delta, LargeDelta, passes_limit};
use nd_paths::Pointstamp;
use std::alloc::{AllocError, Allocator};

// A stored change, in which integers are looked up.
pub(crate) trait Change {
    ghost change: { Self → DeltaValue };

    // Returns the integer of a pointstamp, 0 if it has none.
    fn integer(&self, point: &Pointstamp) -> i64
        ensures value { result ≡ at (change self.now) point.now }
        ensures within { unsigned_abs result ≤ max_count };
}

impl<A: Allocator> Change for Delta<A> {
    ghost change = { λ d. d };

    fn integer(&self, point: &Pointstamp) -> i64 {
        self.get(point)
    }
}

impl<A: Allocator> Change for LargeDelta<A> {
    ghost change = { λ d. d };

    fn integer(&self, point: &Pointstamp) -> i64 {
        self.get(point)
    }
}

// Returns the integer of a pointstamp in the difference of two changes, or in their sum.
pub(crate) fn combined_at<C: Change, A: Allocator>(
    change: &C,
    other: &Delta<A>,
    minus: bool,
    point: &Pointstamp,
) -> i64
    ensures value { result ≡ at (combined minus (C.change change.now) other.now) point.now }
    ensures fits { unsigned_abs result ≤ 2 * max_count }
{
    let here = change.integer(point);
    let there = other.get(point);
    if minus { here - there } else { here + there }
}

// Returns whether some entry of the difference, or of the sum, exceeds `MAX_COUNT`.
pub(crate) fn exceeds_limit<C: Change, A: Allocator>(
    change: &C,
    other: &Delta<A>,
    minus: bool,
) -> bool
    requires { IsWithin (C.change change.now) }
    ensures passes { IsTrue result ↔ IsTooLarge (combined minus (C.change change.now) other.now) }
    ensures within { IsWithin other.now }
{
    other.entries().iter().any(|entry: &(Pointstamp, i64)| passes_limit(combined_at(
        change, other, minus, &entry.0,
    )))
}

// Returns the entries at these pointstamps. It takes no memory if there are no pointstamps.
pub(crate) fn part_of<C: Change, A: Allocator>(
    change: &C,
    alloc: A,
    points: &[Pointstamp],
) -> Result<Delta<A>, AllocError>
    ensures ok { IfOk result (λ d. d ≡ part (C.change change.now) points.now) }
    ensures some { OnErr result (points.now ≢ []) }
{
    let mut kept = Delta::new(alloc);
    for point in points {
        kept.put(point, change.integer(point))?;
    }
    Ok(kept)
}
