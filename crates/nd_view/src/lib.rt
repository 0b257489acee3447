//! Views: the counts of pointstamps that a processor knows of, and for each positive pointstamp the
//! number of positive ones strictly before it (Naiad, SOSP 2013, section 3.3).
#![tactic(auto)]

mod adding;
mod arrivals;
mod entry_tests;
mod extent;
mod keeping;
mod links;
mod precursor_counts;
mod rows;

ghost use Rattle.std.specs.Prelude.{◌≡◌, ◌↔◌, ◌≤◌, ◌<◌, ◌^◌, ℤ, length, unsigned_abs, OnOk, OnErr, IfOk, IfSome, IsNone, IsTrue, Err};
ghost use Rattle.std.specs.Map.Iter.{ShowsInOrder, deref_pair};
ghost use Rattle.nd_time.specs.Limits.{max_count};
ghost use Rattle.nd_graph.specs.Graph.{Dataflow};
ghost use Rattle.nd_paths.specs.declared.point.Pointstamp.{Pointstamp};
ghost use Rattle.nd_delta.specs.declared.DeltaFault.{DeltaFault};
ghost use Rattle.nd_delta.specs.Delta.{none, at, plus, minus, combined, IsTooLarge, IsWithin, entries as listed};
ghost use Rattle.nd_delta.specs.Least.{IsLeast};
ghost use Rattle.nd_view.specs.View.{IsPassed, IsBlocker, IsPrecursor, IsOnFrontier, IsCount, IsPartWhere, IsPositiveBefore, FrontierCovers};
ghost use Rattle.nd_view.specs.Kept.{Kept, IsKeptAt, IsFor};

use entry_tests::any_before;
pub use entry_tests::is_before;
pub use extent::Extent;
use keeping::counted_anew;
use nd_delta::{Delta, DeltaFault, LargeDelta};
use nd_map::Iter;
use nd_paths::{Paths, Pointstamp};
use precursor_counts::PrecursorCounts;
use std::alloc::{AllocError, Allocator, Global};
use std::marker::Model;

// A change with more entries rebuilds the complete view: a copy of the counts is changed, and each
// precursor count is counted once. `add` calls itself once for each entry, so this also limits its depth.
const MANY: usize = 200;

/// A finite map from pointstamps to counts other than 0, which may be negative for a while, and for each
/// positive pointstamp its precursor count: the number of positive ones strictly before it.
#[derive(Drop)]
pub struct View<A: Allocator + Copy = Global> {
    counts: LargeDelta<A>,
    precursor_counts: PrecursorCounts<A>,
    alloc: A,
}

impl<A: Allocator + Copy> Model for View<A> {
    ghost use Rattle.nd_view.specs.Kept.{Kept, kept_code};
    ghost use Rattle.nd_view.specs.Rows.{joined};

    ghost Value = { Kept };

    ghost coded = { kept_code };

    ghost view = { λ a. record { map = a.counts; counts = joined a.precursor_counts } };
}

impl<A: Allocator + Copy> View<A> {
    /// Returns the view with no entry, for any paths. It takes no memory.
    pub fn new(alloc: A) -> View<A>
        ensures value { result.map ≡ none }
        ensures for_all { (g : Dataflow) → IsFor g result }
    {
        View {
            counts: LargeDelta::new(alloc),
            precursor_counts: PrecursorCounts::new(alloc),
            alloc,
        }
    }

    /// Returns the count of a pointstamp, 0 if it has none.
    pub fn get(&self, point: &Pointstamp) -> i64
        ensures value { result ≡ at self.now.map point.now }
        ensures within { unsigned_abs result ≤ max_count }
    {
        self.counts.get(point)
    }

    /// Returns the counts.
    pub fn counts(&self) -> &LargeDelta<A>
        ensures { result.now ≡ self.now.map }
    {
        &self.counts
    }

    /// Returns an iterator over the entries in the order of listing.
    pub fn entries(&self) -> Iter<'_, Pointstamp, i64>
        ensures rest { result ≡ listed self.now.map }
        ensures runs { ShowsInOrder (deref_pair {K = Pointstamp} {X = ℤ}) }
        ensures fits { length (listed self.now.map) < 2 ^ 63 }
        ensures within { IsWithin self.now.map }
    {
        self.counts.iter()
    }

    /// Returns the precursor count of a positive pointstamp by the paths of the earlier calls, and `None` for
    /// one that is not positive.
    pub fn kept(&self, point: &Pointstamp) -> Option<u64>
        ensures { (g : Dataflow) → IsFor g self.now → IsKeptAt g self.now.map point.now result }
    {
        self.precursor_counts.get(point)
    }

    /// States that the map determines the precursor counts: two views of one order are equal if their maps
    /// are.
    pub fn is_settled(&self)
        ensures { (g : Dataflow) (v : Kept) → IsFor g v → IsFor g self.now
            → v.map ≡ self.now.map → v ≡ self.now }
    {
        let _ = &self.counts;
    }

    /// Returns an equal view.
    pub fn copy(&self, alloc: A) -> Result<View<A>, AllocError>
        ensures { IfOk result (λ v. v ≡ self.now) }
    {
        Ok(View {
            counts: self.counts.copy(alloc)?,
            precursor_counts: self.precursor_counts.copy(alloc)?,
            alloc,
        })
    }

    // Adds a change or, if `minus`, subtracts it, and rebuilds the complete view.
    fn change_anew<B: Allocator>(
        &mut self,
        paths: &Paths<B>,
        delta: &Delta<A>,
        minus: bool,
    ) -> Result<(), DeltaFault>
        requires { IsFor paths.now self.old }
        ensures paths { IsFor paths.now self.new }
        ensures ok { OnOk result (self.new.map ≡ combined minus self.old.map delta.now) }
        ensures err { OnErr result (self.new ≡ self.old) }
        ensures full { (result ≡ Err (DeltaFault.DeltaFull))
            ↔ IsTooLarge (combined minus self.old.map delta.now) }
    {
        let counts = self.counts.combine(self.alloc, delta, minus)?;
        let Ok(precursor_counts) = counted_anew(self.alloc, &counts, paths) else {
            return Err(DeltaFault::Memory);
        };
        self.counts = counts;
        self.precursor_counts = precursor_counts;
        Ok(())
    }

    // Adds a change or, if `minus`, subtracts it.
    fn change<B: Allocator>(
        &mut self,
        paths: &Paths<B>,
        delta: &Delta<A>,
        minus: bool,
    ) -> Result<(), DeltaFault>
        requires { IsFor paths.now self.old }
        ensures paths { IsFor paths.now self.new }
        ensures ok { OnOk result (self.new.map ≡ combined minus self.old.map delta.now) }
        ensures err { OnErr result (self.new ≡ self.old) }
        ensures full { (result ≡ Err (DeltaFault.DeltaFull))
            ↔ IsTooLarge (combined minus self.old.map delta.now) }
    {
        if delta.len() > MANY {
            return self.change_anew(paths, delta, minus);
        }
        if !self.add(paths, delta.entries(), minus) {
            return Err(self.refusal(delta, minus));
        }
        // The entries are within the limit.
        let _ = self.entries();
        Ok(())
    }

    /// Adds a change. The paths are those of the earlier calls.
    pub fn apply<B: Allocator>(
        &mut self,
        paths: &Paths<B>,
        delta: &Delta<A>,
    ) -> Result<(), DeltaFault>
        requires { IsFor paths.now self.old }
        ensures paths { IsFor paths.now self.new }
        ensures ok { OnOk result (self.new.map ≡ plus self.old.map delta.now) }
        ensures undone { OnOk result (minus self.new.map delta.now ≡ self.old.map) }
        ensures err { OnErr result (self.new ≡ self.old) }
        ensures full { (result ≡ Err (DeltaFault.DeltaFull))
            ↔ IsTooLarge (plus self.old.map delta.now) }
    {
        self.change(paths, delta, false)
    }

    /// Subtracts a change. The paths are those of the earlier calls.
    pub fn unapply<B: Allocator>(
        &mut self,
        paths: &Paths<B>,
        delta: &Delta<A>,
    ) -> Result<(), DeltaFault>
        requires { IsFor paths.now self.old }
        ensures paths { IsFor paths.now self.new }
        ensures ok { OnOk result (self.new.map ≡ minus self.old.map delta.now) }
        ensures undone { OnOk result (plus self.new.map delta.now ≡ self.old.map) }
        ensures err { OnErr result (self.new ≡ self.old) }
        ensures full { (result ≡ Err (DeltaFault.DeltaFull))
            ↔ IsTooLarge (minus self.old.map delta.now) }
    {
        self.change(paths, delta, true)
    }

    // Returns whether something positive is before `point`. It looks only at the frontier.
    fn is_hindered<B: Allocator>(
        &self,
        paths: &Paths<B>,
        point: &Pointstamp,
        extent: Extent,
    ) -> bool
        requires { IsFor paths.now self.now }
        ensures { IsTrue result ↔ ((x : Pointstamp)
            × IsPositiveBefore paths.now self.now.map extent point.now x) }
    {
        paths.order_is_partial();
        any_before(self.precursor_counts.frontier(), paths, point, extent)
    }

    // Returns the least positive pointstamp before `point`.
    fn least_before<B: Allocator>(
        &self,
        paths: &Paths<B>,
        point: &Pointstamp,
        extent: Extent,
    ) -> Option<Pointstamp>
        requires { IsFor paths.now self.now }
        ensures nothing { IsNone result ↔ ((x : _)
            → IsPositiveBefore paths.now self.now.map extent point.now x → ⊥) }
        ensures least { IfSome result
            (IsLeast (IsPositiveBefore paths.now self.now.map extent point.now)) }
    {
        if !self.is_hindered(paths, point, extent) {
            return None;
        }
        for (first, n) in self.entries() {
            if *n > 0 && is_before(first, paths, point, extent) {
                return Some(first.copy());
            }
        }
        None
    }

    /// Returns whether nothing positive is at or before `point`. Negative entries do not matter.
    pub fn passed<B: Allocator>(&self, paths: &Paths<B>, point: &Pointstamp) -> bool
        requires { IsFor paths.now self.now }
        ensures { IsTrue result ↔ IsPassed paths.now self.now.map point.now }
    {
        !self.is_hindered(paths, point, Extent::AtOrBefore)
    }

    /// Returns the least positive pointstamp at or before `point`.
    pub fn blocker<B: Allocator>(&self, paths: &Paths<B>, point: &Pointstamp) -> Option<Pointstamp>
        requires { IsFor paths.now self.now }
        ensures passed { IsNone result ↔ IsPassed paths.now self.now.map point.now }
        ensures least { IfSome result (IsLeast (IsBlocker paths.now self.now.map point.now)) }
    {
        self.least_before(paths, point, Extent::AtOrBefore)
    }

    /// Returns the least positive pointstamp strictly before `point`.
    pub fn blocker_before<B: Allocator>(
        &self,
        paths: &Paths<B>,
        point: &Pointstamp,
    ) -> Option<Pointstamp>
        requires { IsFor paths.now self.now }
        ensures nothing { IsNone result
            ↔ ((x : _) → IsPrecursor paths.now self.now.map point.now x → ⊥) }
        ensures least { IfSome result (IsLeast (IsPrecursor paths.now self.now.map point.now)) }
    {
        self.least_before(paths, point, Extent::StrictlyBefore)
    }

    /// Returns the number of positive pointstamps strictly before `point`. The number is stored if `point` is
    /// positive.
    pub fn precursors<B: Allocator>(&self, paths: &Paths<B>, point: &Pointstamp) -> u64
        requires { IsFor paths.now self.now }
        ensures { IsCount (IsPrecursor paths.now self.now.map point.now) self.now.map result }
    {
        match self.kept(point) {
            Some(n) => n,
            None => self.count_before(paths, point),
        }
    }

    /// Returns the part of the view at its positive pointstamps with nothing positive strictly before them.
    /// It takes no memory if there are none. What is positive has one of them at or before it.
    pub fn frontier<B: Allocator>(&self, alloc: A, paths: &Paths<B>) -> Result<Delta<A>, AllocError>
        requires { IsFor paths.now self.now }
        ensures value { IfOk result
            (IsPartWhere (IsOnFrontier paths.now self.now.map) self.now.map) }
        ensures some { OnErr result ((x : Pointstamp) × IsOnFrontier paths.now self.now.map x) }
        ensures covers { FrontierCovers paths.now self.now.map }
    {
        paths.order_is_partial();
        self.counts.part(alloc, self.precursor_counts.frontier())
    }
}
