//! Tests of pointstamps at two locations: what is known of the locations decides most of them.

ghost use Rattle.std.specs.Prelude.{◌≡◌, ◌≢◌, ◌↔◌, ◌≤◌, ◌<◌, ◌+◌, [], length, IsTrue};
ghost use Rattle.nd_map.specs.Listed.{IsListed};
ghost use Rattle.nd_paths.specs.Order.{IsStrictlyBefore};
ghost use Rattle.nd_paths.specs.Point.{point_cmp};
ghost use Rattle.nd_view.specs.Links.{HasLater, IsCut, IsEpochal, IsRun, AreSmaller, AreNotSmaller};

use nd_paths::{Paths, Pointstamp};
use std::alloc::Allocator;

/// Returns whether a walk leads from the location of `first` to that of `second` and the epochs do not fall.
#[inline(always)]
pub fn leads<B: Allocator>(paths: &Paths<B>, first: &Pointstamp, second: &Pointstamp) -> bool
    ensures { (IsTrue result → ⊥) → IsCut paths.now first.now second.now }
{
    let count = paths.graph().location_count();
    first.time.epoch() <= second.time.epoch()
        && first.location < count
        && second.location < count
        && paths.leads(first.location, second.location)
}

/// Returns whether a pointstamp has no counters.
#[inline(always)]
pub fn is_outside(point: &Pointstamp) -> bool
    ensures { IsTrue result ↔ (point.now.time.counters ≡ []) }
{
    point.time.depth() == 0
}

/// Returns whether epochs alone decide between times outside all loops at the locations of two pointstamps.
/// They do if both pointstamps have no counters and the first could result in the second.
pub fn is_epochal<B: Allocator>(paths: &Paths<B>, first: &Pointstamp, second: &Pointstamp) -> bool
    ensures epochal { IsTrue result → IsEpochal paths.now first.now.location second.now.location }
    ensures outside { IsTrue result → first.now.time.counters ≡ [] }
{
    is_outside(first) && is_outside(second) && paths.before(first, second)
}

// Returns whether two pointstamps with no counters differ.
#[inline(always)]
fn differ(first: &Pointstamp, second: &Pointstamp) -> bool
    requires first { first.now.time.counters ≡ [] }
    requires second { second.now.time.counters ≡ [] }
    ensures { IsTrue result ↔ (first.now ≢ second.now) }
{
    first.time.epoch() != second.time.epoch() || first.location != second.location
}

/// Returns whether the first pointstamp is strictly before the second.
#[inline(always)]
pub fn is_strictly_before<B: Allocator>(
    paths: &Paths<B>,
    is_epochal: bool,
    first: &Pointstamp,
    second: &Pointstamp,
) -> bool
    requires { IsTrue is_epochal → IsEpochal paths.now first.now.location second.now.location }
    ensures { IsTrue result ↔ IsStrictlyBefore paths.now first.now second.now }
{
    if second.time.epoch() < first.time.epoch() {
        return false;
    }
    if is_epochal && is_outside(first) && is_outside(second) {
        return differ(first, second);
    }
    paths.strictly_before(first, second)
}

/// Returns the index of the first entry of a row whose epoch is not less than `epoch`, in time logarithmic
/// in the number of entries.
#[inline(always)]
pub fn epoch_from<V>(row: &[(Pointstamp, V)], epoch: u32) -> usize
    requires listed { IsListed point_cmp row.now }
    requires run { IsRun row.now 0 (length row.now) }
    ensures upto { result ≤ length row.now }
    ensures smaller { AreSmaller row.now 0 result epoch }
    ensures others { AreNotSmaller row.now result (length row.now) epoch }
{
    let mut low = 0;
    let mut high = row.len();
    while low < high {
        let middle = low + (high - low) / 2;
        if row[middle].0.time.epoch() < epoch {
            low = middle + 1;
        } else {
            high = middle;
        }
    }
    low
}

/// Returns the index after the first entry of a row from `start` on with a greater epoch than `epoch` and no
/// counters. If there is none, or `is_epochal` is false, it returns the number of entries.
#[inline(always)]
pub fn later_from(row: &[(Pointstamp, u64)], start: usize, is_epochal: bool, epoch: u32) -> usize
    requires listed { IsListed point_cmp row.now }
    requires run { IsRun row.now 0 (length row.now) }
    requires start { start ≤ length row.now }
    ensures from { start ≤ result }
    ensures upto { result ≤ length row.now }
    ensures epochal { result < length row.now → IsTrue is_epochal }
    ensures later { AreNotSmaller row.now result (length row.now) (epoch + 1) }
    ensures one { result < length row.now → HasLater row.now result epoch }
{
    if !is_epochal {
        return row.len();
    }
    for k in start..row.len() {
        let first = &row[k].0;
        if first.time.epoch() > epoch && is_outside(first) {
            return k + 1;
        }
    }
    row.len()
}
