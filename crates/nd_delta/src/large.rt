//! Changes stored in maps that may grow large.
ghost use Rattle.std.specs.Prelude.{◌≡◌, ◌≢◌, [], ◌↔◌, ◌<◌, ◌≤◌, ◌^◌, ◌+ℤ◌, ℤ, pos, unsigned_abs, cond, length, OnOk, OnErr, IfOk, IsTrue, Err, Some};
ghost use Rattle.std.specs.Map.Iter.{ShowsInOrder, deref_pair};
ghost use Rattle.nd_time.specs.Limits.{max_count};
ghost use Rattle.nd_map.specs.declared.tree.Edit.TheVariants.{Keep, Put, Remove};
ghost use Rattle.nd_paths.specs.declared.point.Pointstamp.{Pointstamp as Point};
ghost use Rattle.nd_delta.specs.Delta.{none, at, set, size, plus, minus, combined, part, has_point, points_of, IsTooLarge, IsWithin, IsPartOf, IsApart, entries as listed};

use crate::change::{combined_at, exceeds_limit, part_of};
use crate::{Delta, DeltaFault, passes_limit, sum_within};
use nd_map::{Edit, GrowingMap, Iter};
use nd_paths::Pointstamp;
use std::alloc::{AllocError, Allocator, Global};
use std::marker::Model;

/// The same as a [`Delta`], for a change that may have many entries.
///
/// A look-up or an edit takes time logarithmic in the number of entries. A `Delta` moves all entries after
/// one that is added or removed.
#[derive(Drop)]
pub struct LargeDelta<A: Allocator = Global> {
    map: GrowingMap<Pointstamp, i64, A>,
}

impl<A: Allocator> Model for LargeDelta<A> {
    ghost use Rattle.nd_delta.specs.Delta.{DeltaValue, delta_code, of_entries};
    ghost use Rattle.nd_delta.specs.Kept.{IsKept};

    ghost Value = { DeltaValue };

    ghost coded = { delta_code };

    ghost view = { λ a. of_entries a.map };

    ghost invariant = { λ a. IsKept a.map };
}

// Returns the edit to the sum: `Remove` if it is 0, and `Keep` if it exceeds the limit.
fn moved(held: i64, n: i64) -> Edit<i64>
    ensures full { max_count < unsigned_abs (held +ℤ n) → result ≡ Keep }
    ensures none { held +ℤ n ≡ pos 0 → result ≡ Remove }
    ensures some { unsigned_abs (held +ℤ n) ≤ max_count → held +ℤ n ≢ pos 0
        → result ≡ Put (held +ℤ n) }
{
    match sum_within(held, n) {
        None => Edit::Keep,
        Some(0) => Edit::Remove,
        Some(sum) => Edit::Put(sum),
    }
}

// Returns whether the edit keeps the integer that was there.
fn is_kept(said: Option<Edit<i64>>) -> bool
    ensures { IsTrue result ↔ (said ≡ Some Keep) }
{
    match said {
        Some(Edit::Keep) => true,
        Some(Edit::Put(_)) | Some(Edit::Remove) | None => false,
    }
}

impl<A: Allocator> LargeDelta<A> {
    /// Returns the integer of a pointstamp, 0 if it has none.
    pub fn get(&self, point: &Pointstamp) -> i64
        ensures value { result ≡ at self.now point.now }
        ensures within { unsigned_abs result ≤ max_count }
    {
        match self.map.get(point) {
            Some(n) => n,
            None => 0,
        }
    }

    /// Returns an iterator over the entries in the order of listing.
    #[tactic(auto, using(crate::proofs::KeptLemmas::listed, crate::proofs::KeptLemmas::all_within))]
    pub fn iter(&self) -> Iter<'_, Pointstamp, i64>
        ensures rest { result ≡ listed self.now }
        ensures runs { ShowsInOrder (deref_pair {K = Point} {X = ℤ}) }
        ensures fits { length (listed self.now) < 2 ^ 63 }
        ensures within { IsWithin self.now }
    {
        self.map.iter()
    }

    // Removes the integer of a pointstamp.
    fn remove(&mut self, point: &Pointstamp)
        ensures { self.new ≡ set self.old point.now (pos 0) }
    {
        self.map.remove(point);
    }

    // Removes the integers of the pointstamps of these entries.
    fn clear(&mut self, entries: &[(Pointstamp, i64)])
        ensures { (q : Point) → at self.new q
            ≡ cond (has_point q (points_of entries.now)) (pos 0) (at self.old q) }
    {
        for entry in entries {
            self.remove(&entry.0);
        }
    }

    /// Removes the entries of a part. It takes no memory.
    pub fn take_part(&mut self, part: &Delta<A>)
        requires { IsPartOf part.now self.old }
        ensures { self.new ≡ minus self.old part.now }
    {
        self.clear(part.entries());
    }

    /// Returns the number of entries.
    #[tactic(auto, using(crate::proofs::KeptLemmas::listed))]
    pub fn len(&self) -> usize
        ensures { result ≡ size self.now }
    {
        self.map.len()
    }

    /// Returns the entries at these pointstamps. A repeated pointstamp counts once, and one without an entry
    /// adds nothing. It takes no memory if there are no pointstamps.
    pub fn part(&self, alloc: A, points: &[Pointstamp]) -> Result<Delta<A>, AllocError>
        ensures ok { IfOk result (λ d. d ≡ part self.now points.now) }
        ensures within { IsWithin self.now }
        ensures some { OnErr result (points.now ≢ []) }
    {
        // The entries are within the limit.
        let _ = self.iter();
        part_of(self, alloc, points)
    }

    /// Returns whether some entry of the difference, or of the sum, exceeds `MAX_COUNT`.
    pub fn is_overfull(&self, other: &Delta<A>, minus: bool) -> bool
        ensures passes { IsTrue result ↔ IsTooLarge (combined minus self.now other.now) }
        ensures within { IsWithin self.now × IsWithin other.now }
    {
        // The entries are within the limit.
        let _ = self.iter();
        exceeds_limit(self, other, minus)
    }

    /// Returns the change without a part of it.
    pub fn without(&self, alloc: A, part: &Delta<A>) -> Result<Delta<A>, AllocError>
        requires { IsPartOf part.now self.now }
        ensures ok { IfOk result (λ d. d ≡ minus self.now part.now) }
        ensures within { IsWithin self.now }
    {
        let mut made = Delta::new(alloc);
        for (point, n) in self.iter() {
            made.put(point, *n - part.get(point))?;
        }
        Ok(made)
    }
}

impl<A: Allocator + Copy> LargeDelta<A> {
    /// Returns the change with no entry. It takes no memory.
    pub fn new(alloc: A) -> LargeDelta<A>
        ensures { result ≡ none }
    {
        LargeDelta {
            map: GrowingMap::new(alloc),
        }
    }

    /// Returns an equal change as a `Delta`.
    pub fn whole(&self, alloc: A) -> Result<Delta<A>, AllocError>
        ensures equal { IfOk result (λ d. d ≡ self.now) }
        ensures within { IsWithin self.now }
    {
        self.without(alloc, &Delta::new(alloc))
    }

    /// Sets the integer of a pointstamp to `n`. It takes memory only if the pointstamp has no integer.
    pub fn put(&mut self, point: &Pointstamp, n: i64) -> Result<(), AllocError>
        requires { unsigned_abs n ≤ max_count }
        ensures ok { OnOk result (self.new ≡ set self.old point.now n) }
        ensures err { OnErr result (self.new ≡ self.old) }
        ensures absent { OnErr result (at self.old point.now ≡ pos 0) }
        ensures some { OnErr result (n ≢ pos 0) }
    {
        if n == 0 {
            self.remove(point);
            return Ok(());
        }
        self.map.put(point, n)?;
        Ok(())
    }

    /// Adds `n` to the integer of a pointstamp. It takes no memory if the pointstamp has an integer or `n` is 0.
    pub fn add(&mut self, point: &Pointstamp, n: i64) -> Result<(), DeltaFault>
        ensures ok { OnOk result (self.new ≡ set self.old point.now (at self.old point.now +ℤ n)) }
        ensures err { OnErr result (self.new ≡ self.old) }
        ensures full { (result ≡ Err (DeltaFault.DeltaFull))
            ↔ (max_count < unsigned_abs (at self.old point.now +ℤ n)) }
        ensures no_growth { at self.old point.now ≢ pos 0 → result ≢ Err (DeltaFault.Memory) }
        ensures nothing { n ≡ pos 0 → result ≢ Err (DeltaFault.Memory) }
        ensures within { unsigned_abs (at self.old point.now) ≤ max_count }
    {
        // A new entry is `n` itself, if it can be one.
        if n == 0 || passes_limit(n) {
            let Some(sum) = sum_within(self.get(point), n) else {
                return Err(DeltaFault::DeltaFull);
            };
            self.put(point, sum)?;
            return Ok(());
        }
        let said = self.map.put_or_edit(point, n, |held| moved(held, n))?;
        if is_kept(said) {
            return Err(DeltaFault::DeltaFull);
        }
        Ok(())
    }

    /// Adds the entries of another change, at pointstamps that have none: all entries or, if memory runs out,
    /// none.
    pub fn put_part(&mut self, part: &Delta<A>) -> Result<(), AllocError>
        requires { IsApart part.now self.old }
        ensures ok { OnOk result (self.new ≡ plus self.old part.now) }
        ensures err { OnErr result (self.new ≡ self.old) }
    {
        let entries = part.entries();
        for i in 0..entries.len() {
            let entry = &entries[i];
            let Ok(()) = self.put(&entry.0, entry.1) else {
                self.clear(&entries[..i]);
                return Err(AllocError);
            };
        }
        Ok(())
    }

    /// Returns an equal change.
    pub fn copy(&self, alloc: A) -> Result<LargeDelta<A>, AllocError>
        ensures equal { IfOk result (λ d. d ≡ self.now) }
        ensures within { IsWithin self.now }
    {
        // The entries are within the limit.
        let _ = self.iter();
        Ok(LargeDelta {
            map: self.map.copy(alloc)?,
        })
    }

    /// Returns the difference, or the sum, if it fits. It changes a copy at the entries of `other`.
    pub fn combine(
        &self,
        alloc: A,
        other: &Delta<A>,
        minus: bool,
    ) -> Result<LargeDelta<A>, DeltaFault>
        ensures ok { IfOk result (λ d. d ≡ combined minus self.now other.now) }
        ensures full { (result ≡ Err (DeltaFault.DeltaFull))
            ↔ IsTooLarge (combined minus self.now other.now) }
        ensures within { IsWithin self.now × IsWithin other.now }
    {
        if self.is_overfull(other, minus) {
            return Err(DeltaFault::DeltaFull);
        }
        let mut made = self.copy(alloc)?;
        for entry in other.entries() {
            let point = &entry.0;
            made.put(point, combined_at(self, other, minus, point))?;
        }
        Ok(made)
    }
}
