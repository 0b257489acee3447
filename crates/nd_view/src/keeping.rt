//! Precursor counts: counted again, or adjusted when a pointstamp became positive or ceased to be.

ghost use Rattle.std.specs.Prelude.{◌≡◌, ◌↔◌, ◌≤◌, ◌+◌, ◌<◌, ◌<ℤ◌, ◌^◌, pos, Contains, IsTrue, IfOk, IfSome};
ghost use Rattle.nd_map.specs.Listed.{IsListed};
ghost use Rattle.nd_paths.specs.Point.{point_cmp};
ghost use Rattle.nd_delta.specs.Delta.{at};
ghost use Rattle.nd_view.specs.View.{IsPrecursor, IsCount};
ghost use Rattle.nd_view.specs.Counting.{AreCounted, AreEarlier, ArePositive, AreReady};
ghost use Rattle.nd_view.specs.Kept.{AreKept, IsNear, IsFor, kept_of, moved};
ghost use Rattle.nd_view.specs.Rows.{joined};

use crate::links::{epoch_from, is_epochal, is_outside, is_strictly_before, later_from, leads};
use crate::precursor_counts::PrecursorCounts;
use nd_delta::LargeDelta;
use nd_paths::{Paths, Pointstamp};
use std::alloc::{AllocError, Allocator};

// The number of precursors of a pointstamp whose epochs are less than `below`.
#[derive(Drop)]
struct Known {
    below: u32,
    count: u64,
}

// Returns whether `first` is at the location of `point` with a smaller epoch, and neither has counters.
fn is_near(first: &Pointstamp, point: &Pointstamp) -> bool
    ensures { IsTrue result ↔ IsNear first.now point.now }
{
    first.location == point.location
        && first.time.epoch() < point.time.epoch()
        && is_outside(first)
        && is_outside(point)
}

// Returns the last positive entry with a smaller epoch than `point`, if it is near.
fn nearest<'a>(kept: &'a [(Pointstamp, u64)], point: &Pointstamp) -> Option<&'a (Pointstamp, u64)>
    ensures { IfSome result (λ e. Contains kept.now e.now × IsNear e.now.0 point.now) }
{
    let epoch = point.time.epoch();
    let after = kept.partition_point(|entry: &(Pointstamp, u64)| -> bool {
        entry.0.time.epoch() < epoch
    });
    if after == 0 {
        return None;
    }
    let last = &kept[after - 1];
    if is_near(&last.0, point) {
        Some(last)
    } else {
        None
    }
}

// Returns what the count of the nearest positive entry says of `point`: up to the epoch of that entry both
// have the same precursors, except for the entry itself.
fn known_before<A: Allocator, B: Allocator>(
    counts: &LargeDelta<A>,
    kept: &[(Pointstamp, u64)],
    paths: &Paths<B>,
    point: &Pointstamp,
) -> Known
    requires listed { IsListed point_cmp kept.now }
    requires kept { AreKept paths.now counts.now kept.now }
    ensures { AreEarlier paths.now counts.now point.now result.below result.count }
{
    // No count is greater than the number of entries, which is a `usize`.
    let _ = counts.len();
    let Some(near) = nearest(kept, point) else {
        return Known { below: 0, count: 0 };
    };
    // Its epoch is smaller than this one, which is a `u32`.
    let _ = point.time.epoch();
    let below = near.0.time.epoch() + 1;
    if paths.strictly_before(&near.0, point) {
        Known {
            below,
            count: near.1 + 1,
        }
    } else {
        Known {
            below,
            count: near.1,
        }
    }
}

// Returns the number of positive pointstamps strictly before one. It adds those whose epochs are not below
// `known.below` to the known number.
fn count_from<A: Allocator + Copy, B: Allocator>(
    counts: &LargeDelta<A>,
    positive: &PrecursorCounts<A>,
    paths: &Paths<B>,
    point: &Pointstamp,
    known: &Known,
) -> u64
    requires known { AreEarlier paths.now counts.now point.now known.now.below known.now.count }
    requires positive { ArePositive counts.now (joined positive.now) }
    ensures { IsCount (IsPrecursor paths.now counts.now point.now) counts.now result }
{
    // No count is greater than the number of entries, which is a `usize`.
    let _ = counts.len();
    let mut count = known.count;
    for r in 0..positive.len() {
        let row = positive.row(r);
        if row.len() > 0 && leads(paths, &row[0].0, point) {
            let is_epochal = is_epochal(paths, &row[0].0, point);
            let start = epoch_from(row, known.below);
            for k in start..row.len() {
                let first = &row[k].0;
                if point.time.epoch() < first.time.epoch() {
                    break;
                }
                if is_strictly_before(paths, is_epochal, first, point) {
                    count += 1;
                }
            }
        }
    }
    count
}

/// Returns the number of positive pointstamps strictly before `point`. Each entry of `near` has its count.
///
/// If the last entry of `near` before `point` is at the same location, and neither has counters, its count
/// holds up to its epoch. Each location from which a walk leads to `point` then takes time logarithmic in
/// its number of entries, and a test for each entry between the two epochs. Otherwise each positive
/// pointstamp whose epoch is not greater is tested.
pub fn count_before<A: Allocator + Copy, B: Allocator>(
    counts: &LargeDelta<A>,
    positive: &PrecursorCounts<A>,
    near: &[(Pointstamp, u64)],
    paths: &Paths<B>,
    point: &Pointstamp,
) -> u64
    requires listed { IsListed point_cmp near.now }
    requires kept { AreKept paths.now counts.now near.now }
    requires positive { ArePositive counts.now (joined positive.now) }
    ensures { IsCount (IsPrecursor paths.now counts.now point.now) counts.now result }
{
    let known = known_before(counts, near, paths, point);
    count_from(counts, positive, paths, point, &known)
}

// Returns one more or one less.
fn moved_by_one(n: u64, up: bool) -> u64
    requires room { IsTrue up → n + 1 < 2 ^ 64 }
    requires some { (IsTrue up → ⊥) → 1 ≤ n }
    ensures { result ≡ moved up n }
{
    if up { n + 1 } else { n - 1 }
}

/// Adjusts the precursor counts of the positive pointstamps after one that became positive or ceased to be.
/// It takes no memory.
///
/// At each location to which a walk leads it skips the entries with smaller epochs, in time logarithmic in
/// their number. Outside loops it adjusts those with greater epochs; it tests each of the others first.
pub fn shift<A: Allocator + Copy, B: Allocator>(
    precursor_counts: &mut PrecursorCounts<A>,
    counts: &LargeDelta<A>,
    paths: &Paths<B>,
    point: &Pointstamp,
    up: bool,
)
    requires ready { AreReady paths.now counts.now point.now up (joined precursor_counts.old) }
    requires up { IsTrue up → pos 0 <ℤ at counts.now point.now }
    ensures listed { IsListed point_cmp (joined precursor_counts.new) }
    ensures kept { AreCounted paths.now counts.now (joined precursor_counts.new) }
{
    // No count is greater than the number of entries, which is a `usize`.
    let _ = counts.len();
    for r in 0..precursor_counts.len() {
        let row = precursor_counts.row(r);
        let end = row.len();
        if end > 0 && leads(paths, point, &row[end - 1].0) {
            let is_epochal = is_epochal(paths, point, &row[end - 1].0);
            let start = epoch_from(row, point.time.epoch());
            let later = later_from(row, start, is_epochal, point.time.epoch());
            for k in start..later {
                let entry = &precursor_counts.row(r)[k];
                if is_strictly_before(paths, is_epochal, point, &entry.0) {
                    let n = moved_by_one(entry.1, up);
                    precursor_counts.put_at(r, k, n);
                }
            }
            // An entry before these is later, too, so no number was 0 or is.
            for k in later..end {
                let entry = &precursor_counts.row(r)[k];
                if is_outside(&entry.0) {
                    let n = moved_by_one(entry.1, up);
                    precursor_counts.put_off_frontier(r, k, n);
                }
            }
        }
    }
}

// Returns the positive pointstamps, each with the number 1.
fn positive_points<A: Allocator + Copy>(
    alloc: A,
    counts: &LargeDelta<A>,
) -> Result<PrecursorCounts<A>, AllocError>
    ensures { IfOk result (λ rows. ArePositive counts.now (joined rows)) }
{
    let mut positive = PrecursorCounts::new(alloc);
    for (point, n) in counts.iter() {
        if *n > 0 {
            positive.put(point, 1, counts.len())?;
        }
    }
    Ok(positive)
}

// Sets the number of each positive pointstamp to the number of positive ones strictly before it.
fn count_all<A: Allocator + Copy, B: Allocator>(
    made: &mut PrecursorCounts<A>,
    counts: &LargeDelta<A>,
    paths: &Paths<B>,
)
    requires { ArePositive counts.now (joined made.old) }
    ensures listed { IsListed point_cmp (joined made.new) }
    ensures counted { AreCounted paths.now counts.now (joined made.new) }
{
    for r in 0..made.len() {
        for k in 0..made.row(r).len() {
            let row = made.row(r);
            let count = count_before(counts, made, &row[..k], paths, &row[k].0);
            made.put_at(r, k, count);
        }
    }
}

/// Returns for each positive pointstamp the number of positive ones strictly before it.
pub fn counted_anew<A: Allocator + Copy, B: Allocator>(
    alloc: A,
    counts: &LargeDelta<A>,
    paths: &Paths<B>,
) -> Result<PrecursorCounts<A>, AllocError>
    ensures { IfOk result (λ rows. IsFor paths.now (kept_of counts.now (joined rows))) }
{
    let mut made = positive_points(alloc, counts)?;
    count_all(&mut made, counts, paths);
    Ok(made)
}
