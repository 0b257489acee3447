//! Adding a change to a view entry by entry: the counts and the precursor counts are changed together.

ghost use Rattle.std.specs.Prelude.{◌≡◌, ◌≢◌, ◌∷◌, ◌↔◌, ◌≤◌, ◌<ℤ◌, ◌*◌, ◌+ℤ◌, ◌-ℤ◌, cond, pos, length, unsigned_abs, OnOk, OnErr, IfSome, IsNone, IsTrue};
ghost use Rattle.nd_time.specs.Limits.{max_count};
ghost use Rattle.nd_graph.specs.Graph.{Dataflow};
ghost use Rattle.nd_map.specs.Listed.{IsListed};
ghost use Rattle.nd_paths.specs.Point.{point_cmp};
ghost use Rattle.nd_delta.specs.declared.DeltaFault.{DeltaFault};
ghost use Rattle.nd_delta.specs.Delta.{at, set, combined, IsTooLarge};
ghost use Rattle.nd_view.specs.View.{IsPrecursor, IsCount};
ghost use Rattle.nd_view.specs.Kept.{IsFor};
ghost use Rattle.nd_view.specs.Room.{IsWithinRoom, AreWithin, IsAdded};

use crate::View;
use crate::entry_tests::takes_room;
use crate::keeping::{count_before, shift};
use nd_delta::{Delta, DeltaFault};
use nd_paths::{Paths, Pointstamp};
use nd_time::limits::MAX_COUNT;
use std::alloc::{AllocError, Allocator};

// Returns `old` with `by` added or, if `minus`, subtracted.
fn counted(old: i64, by: i64, minus: bool) -> i64
    requires old { unsigned_abs old ≤ max_count }
    requires by { unsigned_abs by ≤ max_count }
    ensures value { result ≡ cond minus (old -ℤ by) (old +ℤ by) }
    ensures fits { unsigned_abs result ≤ 2 * max_count }
{
    if minus { old - by } else { old + by }
}

// Returns whether a count is within the limit.
fn is_within(n: i64) -> bool
    ensures { IsTrue result ↔ (unsigned_abs n ≤ max_count) }
{
    n.unsigned_abs() <= MAX_COUNT
}

// Returns the first entry and the others, if there are any.
fn first_and_rest<'a>(
    entries: &'a [(Pointstamp, i64)],
) -> Option<(&'a (Pointstamp, i64), &'a [(Pointstamp, i64)])>
    requires listed { IsListed point_cmp entries.now }
    requires within { AreWithin entries.now }
    ensures nothing { IsNone result → length entries.now ≡ 0 }
    ensures parts { IfSome result (λ p. entries.now ≡ p.0.now ∷ p.1.now) }
    ensures listed { IfSome result (λ p. IsListed point_cmp p.1.now) }
    ensures within { IfSome result (λ p. AreWithin p.1.now) }
    ensures first { IfSome result (λ p. unsigned_abs p.0.now.1 ≤ max_count) }
{
    let Some((first, rest)) = entries.split_first() else {
        return None;
    };
    Some((first, rest))
}

impl<A: Allocator + Copy> View<A> {
    // Returns why a change is refused: it exceeds the limit, or memory ran out.
    pub(crate) fn refusal(&self, delta: &Delta<A>, minus: bool) -> DeltaFault
        ensures { (result ≡ DeltaFault.DeltaFull)
            ↔ IsTooLarge (combined minus self.now.map delta.now) }
    {
        if self.counts.is_overfull(delta, minus) {
            DeltaFault::DeltaFull
        } else {
            DeltaFault::Memory
        }
    }

    // Returns the number of positive entries strictly before a pointstamp.
    pub(crate) fn count_before<B: Allocator>(&self, paths: &Paths<B>, point: &Pointstamp) -> u64
        requires { IsFor paths.now self.now }
        ensures { IsCount (IsPrecursor paths.now self.now.map point.now) self.now.map result }
    {
        let near = self.precursor_counts.at_location(point.location);
        count_before(&self.counts, &self.precursor_counts, near, paths, point)
    }

    // Sets the count of a pointstamp, which stays positive or stays not positive.
    fn stay(&mut self, point: &Pointstamp, n: i64) -> Result<(), AllocError>
        requires within { unsigned_abs n ≤ max_count }
        requires sign { (pos 0 <ℤ n) ↔ (pos 0 <ℤ at self.old.map point.now) }
        ensures ok { OnOk result (self.new.map ≡ set self.old.map point.now n) }
        ensures paths { (g : Dataflow) → IsFor g self.old → IsFor g self.new }
        ensures err { OnErr result (self.new ≡ self.old) }
        ensures absent { OnErr result (at self.old.map point.now ≡ pos 0) }
        ensures some { OnErr result (n ≢ pos 0) }
        ensures stored { self.new.counts ≡ self.old.counts }
    {
        self.counts.put(point, n)
    }

    // Sets the count of a pointstamp that becomes positive.
    fn come<B: Allocator>(
        &mut self,
        paths: &Paths<B>,
        point: &Pointstamp,
        n: i64,
    ) -> Result<(), AllocError>
        requires paths { IsFor paths.now self.old }
        requires within { unsigned_abs n ≤ max_count }
        requires was { pos 0 <ℤ at self.old.map point.now → ⊥ }
        requires is { pos 0 <ℤ n }
        ensures ok { OnOk result (self.new.map ≡ set self.old.map point.now n) }
        ensures paths { IsFor paths.now self.new }
        ensures err { OnErr result (self.new.map ≡ self.old.map) }
    {
        let count = self.count_before(paths, point);
        // There are fewer than 2^63 entries, and at most as many precursor counts.
        let _ = self.entries();
        let most = self.counts.len() + 1;
        self.precursor_counts.put(point, count, most)?;
        let Ok(()) = self.counts.put(point, n) else {
            self.precursor_counts.remove(point);
            return Err(AllocError);
        };
        shift(&mut self.precursor_counts, &self.counts, paths, point, true);
        Ok(())
    }

    // Sets the count of a pointstamp that ceases to be positive. It takes no memory.
    fn go<B: Allocator>(&mut self, paths: &Paths<B>, point: &Pointstamp, n: i64)
        requires paths { IsFor paths.now self.old }
        requires within { unsigned_abs n ≤ max_count }
        requires was { pos 0 <ℤ at self.old.map point.now }
        requires is { pos 0 <ℤ n → ⊥ }
        ensures ok { self.new.map ≡ set self.old.map point.now n }
        ensures paths { IsFor paths.now self.new }
    {
        let Ok(()) = self.counts.put(point, n) else {
            return;
        };
        self.precursor_counts.remove(point);
        shift(
            &mut self.precursor_counts,
            &self.counts,
            paths,
            point,
            false,
        );
    }

    // Sets the count of a pointstamp, which may take memory.
    fn enter<B: Allocator>(
        &mut self,
        paths: &Paths<B>,
        point: &Pointstamp,
        n: i64,
    ) -> Result<(), AllocError>
        requires paths { IsFor paths.now self.old }
        requires within { unsigned_abs n ≤ max_count }
        requires room { IsWithinRoom (at self.old.map point.now) n → ⊥ }
        ensures ok { OnOk result (self.new.map ≡ set self.old.map point.now n) }
        ensures paths { IsFor paths.now self.new }
        ensures err { OnErr result (self.new.map ≡ self.old.map) }
    {
        if n > 0 {
            self.come(paths, point, n)
        } else {
            self.stay(point, n)
        }
    }

    // Sets the count of a pointstamp from `was` to `n`, which takes no memory.
    fn leave<B: Allocator>(&mut self, paths: &Paths<B>, point: &Pointstamp, was: i64, n: i64)
        requires paths { IsFor paths.now self.old }
        requires within { unsigned_abs n ≤ max_count }
        requires was { was ≡ at self.old.map point.now }
        requires room { IsWithinRoom was n }
        ensures ok { self.new.map ≡ set self.old.map point.now n }
        ensures paths { IsFor paths.now self.new }
    {
        if was > 0 && n <= 0 {
            self.go(paths, point, n);
        } else {
            let Ok(()) = self.stay(point, n) else {
                return;
            };
        }
    }

    // Adds the entries of a change or, if `minus`, subtracts them, and returns whether it did: it changes all
    // entries or, if one exceeds the limit or memory runs out, none.
    //
    // It calls itself for the entries after the first. The entries that may take memory are changed before
    // that call, the others after it.
    pub(crate) fn add<B: Allocator>(
        &mut self,
        paths: &Paths<B>,
        entries: &[(Pointstamp, i64)],
        minus: bool,
    ) -> bool
        requires paths { IsFor paths.now self.old }
        requires listed { IsListed point_cmp entries.now }
        requires within { AreWithin entries.now }
        ensures added { IsTrue result → IsAdded minus entries.now self.old.map self.new.map }
        ensures none { (IsTrue result → ⊥) → self.new.map ≡ self.old.map }
        ensures paths { IsFor paths.now self.new }
    {
        let Some((entry, others)) = first_and_rest(entries) else {
            return true;
        };
        let was = self.get(&entry.0);
        let n = counted(was, entry.1, minus);
        if !is_within(n) {
            return false;
        }
        if !takes_room(was, n) {
            if !self.add(paths, others, minus) {
                return false;
            }
            self.leave(paths, &entry.0, was, n);
            return true;
        }
        let Ok(()) = self.enter(paths, &entry.0, n) else {
            return false;
        };
        if !self.add(paths, others, minus) {
            self.leave(paths, &entry.0, n, was);
            return false;
        }
        true
    }
}
