//! Changes: finite maps from pointstamps to integers other than 0 (Naiad, SOSP 2013, section 3.3).
//! A `Delta` stores them in a sorted list, a `LargeDelta` in a map that becomes a tree as it grows.
#![tactic(auto)]

ghost use Rattle.std.specs.Prelude.{◌≡◌, ◌≢◌, [], ◌↔◌, ◌<◌, ◌≤◌, ◌+ℤ◌, ◌<ℤ◌, pos, unsigned_abs, length, ◌⊎◌, OnOk, OnErr, IfOk, IfSome, IsSomeAnd, IsNone, IsTrue, Err, Any, Contains};
ghost use Rattle.nd_time.specs.Limits.{max_count};
ghost use Rattle.nd_paths.specs.Order.{CouldResultIn, IsStrictlyBefore};
ghost use Rattle.nd_paths.specs.declared.point.Pointstamp.{Pointstamp};
ghost use Rattle.nd_delta.specs.Upright.{IsSupported, IsUnsupported, IsUpright};
ghost use Rattle.nd_delta.specs.Least.{IsLeast};
ghost use Rattle.nd_delta.specs.declared.DeltaFault.TheVariants.{Memory};
ghost use Rattle.nd_delta.specs.Delta.{none, at, set, size, plus, minus, part, combined, IsTooLarge, IsWithin, entries as listed};

mod change;
mod large;

use change::{combined_at, exceeds_limit, part_of};
pub use large::LargeDelta;
use nd_map::SortedMap;
use nd_paths::{Paths, Pointstamp};
use nd_time::limits::MAX_COUNT;
use std::alloc::{AllocError, Allocator, Global};
use std::marker::Model;

/// Why a delta was not changed.
#[derive(Debug, Clone, Copy, PartialEq, Eq)]
pub enum DeltaFault {
    /// An entry would exceed `MAX_COUNT` in absolute value.
    DeltaFull,
    /// Out of memory.
    Memory,
}

impl From<AllocError> for DeltaFault {
    ghost from_gives = { λ _ e. e ≡ Memory };

    fn from(_error: AllocError) -> Self {
        DeltaFault::Memory
    }
}

/// A finite map from pointstamps to integers other than 0, each at most `MAX_COUNT` in absolute value.
#[derive(Drop)]
pub struct Delta<A: Allocator = Global> {
    map: SortedMap<Pointstamp, i64, A>,
}

impl<A: Allocator> Model for Delta<A> {
    ghost use Rattle.nd_delta.specs.Delta.{DeltaValue, delta_code, of_entries};
    ghost use Rattle.nd_delta.specs.Kept.{IsKept};

    ghost Value = { DeltaValue };

    ghost coded = { delta_code };

    ghost view = { λ a. of_entries a.map };

    ghost invariant = { λ a. IsKept a.map };
}

// Returns whether a number is greater than `MAX_COUNT` in absolute value.
fn passes_limit(n: i64) -> bool
    ensures { IsTrue result ↔ (max_count < unsigned_abs n) }
{
    n.unsigned_abs() > MAX_COUNT
}

// Returns the sum of two integers, or `None` if it exceeds `MAX_COUNT`.
fn sum_within(held: i64, n: i64) -> Option<i64>
    ensures none { IsNone result ↔ (max_count < unsigned_abs (held +ℤ n)) }
    ensures some { IfSome result (λ sum. sum ≡ held +ℤ n) }
{
    let sum = held.checked_add(n)?;
    if passes_limit(sum) { None } else { Some(sum) }
}

// Returns whether one of the pointstamps is strictly before `point`.
fn any_before<B: Allocator>(points: &[Pointstamp], paths: &Paths<B>, point: &Pointstamp) -> bool
    ensures { IsTrue result ↔ Any (λ x. IsStrictlyBefore paths.now x point.now) points.now }
{
    points
        .iter()
        .any(|one: &Pointstamp| paths.strictly_before(one, point))
}

// Returns whether one of the entries is negative and strictly before `point`.
fn any_negative_before<B: Allocator>(
    entries: &[(Pointstamp, i64)],
    paths: &Paths<B>,
    point: &Pointstamp,
) -> bool
    ensures { IsTrue result
        ↔ Any (λ e. (e.1 <ℤ pos 0) × IsStrictlyBefore paths.now e.0 point.now) entries.now }
{
    entries.iter().any(|entry: &(Pointstamp, i64)| entry.1 < 0
        && paths.strictly_before(&entry.0, point))
}

// Returns whether there is a pointstamp `first` and it is at or before `point`.
fn is_after<B: Allocator>(paths: &Paths<B>, first: Option<&Pointstamp>, point: &Pointstamp) -> bool
    ensures { IsTrue result ↔ IsSomeAnd first.entry (λ x. CouldResultIn paths.now x.now point.now) }
{
    match first {
        Some(x) => paths.before(x, point),
        None => false,
    }
}

// Returns whether the next entry of the first list comes before that of the second.
fn comes_first(
    first: &[(Pointstamp, i64)],
    second: &[(Pointstamp, i64)],
    i: usize,
    j: usize,
) -> bool
    requires { (i < length first.now) ⊎ (j < length second.now) }
    ensures first { IsTrue result → i < length first.now }
    ensures second { (IsTrue result → ⊥) → j < length second.now }
{
    if i >= first.len() {
        return false;
    }
    j >= second.len() || first[i].0 < second[j].0
}

impl<A: Allocator> Delta<A> {
    /// Returns the delta with no entry. It takes no memory.
    pub fn new(alloc: A) -> Delta<A>
        ensures { result ≡ none }
    {
        Delta {
            map: SortedMap::new(alloc),
        }
    }

    /// Returns the integer of a pointstamp, 0 if it has none.
    pub fn get(&self, point: &Pointstamp) -> i64
        ensures value { result ≡ at self.now point.now }
        ensures within { unsigned_abs result ≤ max_count }
    {
        match self.map.get(point) {
            Some(n) => n,
            None => 0,
        }
    }

    /// Returns the entries in the order of listing.
    #[tactic(auto, using(crate::proofs::KeptLemmas::listed, crate::proofs::KeptLemmas::all_within))]
    pub fn entries(&self) -> &[(Pointstamp, i64)]
        ensures listed { result.now ≡ listed self.now }
        ensures within { IsWithin self.now }
    {
        self.map.entries()
    }

    /// Returns the number of entries.
    pub fn len(&self) -> usize
        ensures { result ≡ size self.now }
    {
        self.entries().len()
    }

    /// Sets the integer of a pointstamp to `n`. It takes memory only if the pointstamp has no integer.
    pub fn put(&mut self, point: &Pointstamp, n: i64) -> Result<(), AllocError>
        requires { unsigned_abs n ≤ max_count }
        ensures ok { OnOk result (self.new ≡ set self.old point.now n) }
        ensures err { OnErr result (self.new ≡ self.old) }
        ensures absent { OnErr result (at self.old point.now ≡ pos 0) }
        ensures some { OnErr result (n ≢ pos 0) }
    {
        if n == 0 {
            self.map.remove(point);
            return Ok(());
        }
        self.map.put(point, n)?;
        Ok(())
    }

    /// Adds `n` to the integer of a pointstamp. It takes no memory if the pointstamp has an integer or `n` is 0.
    pub fn add(&mut self, point: &Pointstamp, n: i64) -> Result<(), DeltaFault>
        ensures ok { OnOk result (self.new ≡ set self.old point.now (at self.old point.now +ℤ n)) }
        ensures err { OnErr result (self.new ≡ self.old) }
        ensures full { (result ≡ Err (DeltaFault.DeltaFull))
            ↔ (max_count < unsigned_abs (at self.old point.now +ℤ n)) }
        ensures no_growth { at self.old point.now ≢ pos 0 → result ≢ Err (DeltaFault.Memory) }
        ensures nothing { n ≡ pos 0 → result ≢ Err (DeltaFault.Memory) }
        ensures within { unsigned_abs (at self.old point.now) ≤ max_count }
    {
        let Some(sum) = sum_within(self.get(point), n) else {
            return Err(DeltaFault::DeltaFull);
        };
        self.put(point, sum)?;
        Ok(())
    }

    /// Returns an equal delta.
    pub fn copy(&self, alloc: A) -> Result<Delta<A>, AllocError>
        ensures equal { IfOk result (λ d. d ≡ self.now) }
        ensures within { IsWithin self.now }
    {
        // The entries are within the limit.
        let _ = self.entries();
        Ok(Delta {
            map: self.map.copy(alloc)?,
        })
    }

    // Returns the difference, or the sum, if it fits. It merges the two sorted lists.
    fn combine(&self, alloc: A, other: &Delta<A>, minus: bool) -> Result<Delta<A>, DeltaFault>
        ensures ok { IfOk result (λ d. d ≡ combined minus self.now other.now) }
        ensures full { (result ≡ Err (DeltaFault.DeltaFull))
            ↔ IsTooLarge (combined minus self.now other.now) }
        ensures within { IsWithin self.now × IsWithin other.now }
    {
        let mine = self.entries();
        let others = other.entries();
        if exceeds_limit(self, other, minus) {
            return Err(DeltaFault::DeltaFull);
        }
        let mut made = Delta::new(alloc);
        let mut i = 0;
        let mut j = 0;
        while i < mine.len() || j < others.len() {
            let point = if comes_first(mine, others, i, j) {
                let entry = &mine[i];
                i += 1;
                &entry.0
            } else {
                let entry = &others[j];
                j += 1;
                &entry.0
            };
            made.put(point, combined_at(self, other, minus, point))?;
        }
        Ok(made)
    }

    /// Returns the pointwise sum, without zeros.
    pub fn plus(&self, alloc: A, other: &Delta<A>) -> Result<Delta<A>, DeltaFault>
        ensures ok { IfOk result (λ d. d ≡ plus self.now other.now) }
        ensures full { (result ≡ Err (DeltaFault.DeltaFull))
            ↔ IsTooLarge (plus self.now other.now) }
        ensures within { IsWithin self.now × IsWithin other.now }
    {
        self.combine(alloc, other, false)
    }

    /// Returns the pointwise difference, without zeros.
    pub fn minus(&self, alloc: A, other: &Delta<A>) -> Result<Delta<A>, DeltaFault>
        ensures ok { IfOk result (λ d. d ≡ minus self.now other.now) }
        ensures full { (result ≡ Err (DeltaFault.DeltaFull))
            ↔ IsTooLarge (minus self.now other.now) }
        ensures within { IsWithin self.now × IsWithin other.now }
    {
        self.combine(alloc, other, true)
    }

    /// Returns the entries at these pointstamps. A repeated pointstamp counts once, and one without an entry
    /// adds nothing. It takes no memory if there are no pointstamps.
    pub fn part(&self, alloc: A, points: &[Pointstamp]) -> Result<Delta<A>, AllocError>
        ensures ok { IfOk result (λ d. d ≡ part self.now points.now) }
        ensures within { IsWithin self.now }
        ensures some { OnErr result (points.now ≢ []) }
    {
        // The entries are within the limit.
        let _ = self.entries();
        part_of(self, alloc, points)
    }

    // Returns whether a pointstamp in `held`, or a negative entry, is strictly before `point`.
    fn supports<B: Allocator>(
        &self,
        paths: &Paths<B>,
        held: &[Pointstamp],
        point: &Pointstamp,
    ) -> bool
        ensures { IsTrue result
            ↔ IsSupported (IsStrictlyBefore paths.now) (Contains held.now) (at self.now) point.now }
    {
        any_before(held, paths, point) || any_negative_before(self.entries(), paths, point)
    }

    /// Returns the least pointstamp with a positive integer and no negative entry strictly before it; or
    /// `None` if there is none.
    pub fn unsupported<B: Allocator>(&self, paths: &Paths<B>) -> Option<Pointstamp>
        ensures upright { IsNone result
            ↔ IsUpright (IsStrictlyBefore paths.now) (Contains []) (at self.now) }
        ensures least { IfSome result
            (IsLeast (IsUnsupported (IsStrictlyBefore paths.now) (Contains []) (at self.now))) }
    {
        self.unsupported_by(paths, &[])
    }

    /// Returns the least pointstamp with a positive integer and, strictly before it, neither a negative
    /// entry nor a pointstamp in `held`; or `None` if there is none.
    pub fn unsupported_by<B: Allocator>(
        &self,
        paths: &Paths<B>,
        held: &[Pointstamp],
    ) -> Option<Pointstamp>
        ensures upright { IsNone result
            ↔ IsUpright (IsStrictlyBefore paths.now) (Contains held.now) (at self.now) }
        ensures least { IfSome result
            (IsLeast
            (IsUnsupported (IsStrictlyBefore paths.now) (Contains held.now) (at self.now))) }
    {
        // What supports a pointstamp also supports every pointstamp after it, so most entries need only one
        // comparison.
        paths.order_is_partial();
        let mut supported = None;
        for entry in self.entries() {
            if entry.1 > 0 && !is_after(paths, supported, &entry.0) {
                if !self.supports(paths, held, &entry.0) {
                    return Some(entry.0.copy());
                }
                supported = Some(&entry.0);
            }
        }
        None
    }
}
