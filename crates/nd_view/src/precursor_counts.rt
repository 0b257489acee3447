//! The precursor counts of pointstamps, and the list of the pointstamps whose count is 0, changed together.

ghost use Rattle.std.specs.Prelude.{◌≡◌, ◌≢◌, [], ◌↔◌, ◌≤◌, ◌<◌, ℕ, Contains, IfOk, IfSome, IsTrue, None, OnErr, OnOk, Some, length, vec_capacity};
ghost use Rattle.std.proofs.Common.{get_or};
ghost use Rattle.std.specs.FinMap.{find, put};
ghost use Rattle.nd_map.specs.Listed.{IsListed, without};
ghost use Rattle.nd_paths.specs.Point.{point_cmp};
ghost use Rattle.nd_paths.specs.declared.point.Pointstamp.{Pointstamp};
ghost use Rattle.nd_view.specs.Counting.{AreSameBut};
ghost use Rattle.nd_view.specs.Kept.{IsFrontierBut, IsFrontierList};
ghost use Rattle.nd_view.specs.Links.{IsRun};
ghost use Rattle.nd_view.specs.Rows.{IsPutIn, joined, points_by_row, row_of};

use crate::rows::Rows;
use nd_paths::Pointstamp;
use std::alloc::{AllocError, Allocator, Global};
use std::marker::Model;

/// A map from pointstamps to numbers, seen as the list of its rows: the entries at each location that has
/// had one, in the order of listing.
///
/// The pointstamps with number 0 are also in a list of their own, in no order, so that reading them does
/// not visit the others.
#[derive(Drop)]
pub struct PrecursorCounts<A: Allocator = Global> {
    counts: Rows<A>,
    frontier: Vec<Pointstamp, A>,
}

impl<A: Allocator> Model for PrecursorCounts<A> {
    ghost use Rattle.std.specs.Prelude.{List, vec_capacity};
    ghost use Rattle.nd_view.specs.Kept.{IsFrontierList};
    ghost use Rattle.nd_view.specs.Rows.{Row, joined};

    ghost Value = { List Row };

    ghost view = { λ a. a.counts };

    ghost invariant = { λ a. IsFrontierList (joined a.counts) a.frontier.items
        (vec_capacity a.frontier) };
}

// Lists the pointstamps whose count is 0. It takes no memory.
fn list_zeros<A: Allocator + Copy>(counts: &Rows<A>, frontier: &mut Vec<Pointstamp, A>)
    requires { length (joined counts.now) ≤ vec_capacity frontier.old }
    ensures { IsFrontierList (joined counts.now) frontier.new.items (vec_capacity frontier.new) }
{
    frontier.clear();
    for r in 0..counts.len() {
        for entry in counts.row(r) {
            if entry.1 == 0 {
                let Ok(()) = frontier.push(entry.0.copy()) else {
                    return;
                };
            }
        }
    }
}

// Returns the number of entries, or `None` if it exceeds a `usize`.
fn count_entries<A: Allocator + Copy>(counts: &Rows<A>) -> Option<usize>
    ensures { IfSome result (λ n. n ≡ length (joined counts.now)) }
{
    let mut count: usize = 0;
    for r in 0..counts.len() {
        count = count.checked_add(counts.row(r).len())?;
    }
    Some(count)
}

// Returns whether a pointstamp has the number 0.
fn is_zero_at<A: Allocator + Copy>(counts: &Rows<A>, point: &Pointstamp) -> bool
    ensures listed { IsListed point_cmp (joined counts.now) }
    ensures zero { IsTrue result ↔ (find point_cmp point.now (joined counts.now) ≡ Some 0) }
{
    match counts.get(point) {
        Some(n) => n == 0,
        None => false,
    }
}

// Removes a pointstamp from a list, if the list has it.
fn forget<A: Allocator>(frontier: &mut Vec<Pointstamp, A>, point: &Pointstamp, is_there: bool)
    requires { (IsTrue is_there → ⊥) → Contains frontier.old.items point.now → ⊥ }
    ensures gone { Contains frontier.new.items point.now → ⊥ }
    ensures others { AreSameBut point.now frontier.old.items frontier.new.items }
    ensures room { vec_capacity frontier.new ≡ vec_capacity frontier.old }
{
    if !is_there {
        return;
    }
    frontier.retain(
        |other: &Pointstamp| -> bool
            ensures { IsTrue result ↔ (other.now ≢ point.entry.now) }
        { *other != *point },
    );
}

// Restores the frontier list after the count at `point` changed. It takes no memory.
fn set_right<A: Allocator + Copy>(
    counts: &Rows<A>,
    frontier: &mut Vec<Pointstamp, A>,
    point: &Pointstamp,
    was_zero: bool,
    is_zero: bool,
)
    requires room { length (joined counts.now) ≤ vec_capacity frontier.old }
    requires others { IsFrontierBut (joined counts.now) frontier.old.items point.now }
    requires fresh { (IsTrue was_zero → ⊥) → Contains frontier.old.items point.now → ⊥ }
    requires zero { IsTrue is_zero ↔ (find point_cmp point.now (joined counts.now) ≡ Some 0) }
    ensures { IsFrontierList (joined counts.now) frontier.new.items (vec_capacity frontier.new) }
{
    forget(frontier, point, was_zero);
    if !is_zero {
        return;
    }
    // There is room for all entries, so a list without room is too long and is rebuilt.
    if frontier.len() == frontier.capacity() {
        list_zeros(counts, frontier);
        return;
    }
    let Ok(()) = frontier.push(point.copy()) else {
        return;
    };
}

impl<A: Allocator + Copy> PrecursorCounts<A> {
    /// Returns the map with no entry. It takes no memory.
    pub fn new(alloc: A) -> PrecursorCounts<A>
        ensures { result ≡ [] }
    {
        PrecursorCounts {
            counts: Rows::new(alloc),
            frontier: Vec::new(alloc),
        }
    }

    /// Returns the number of a pointstamp, if it has one.
    pub fn get(&self, point: &Pointstamp) -> Option<u64>
        ensures value { result ≡ find point_cmp point.now (joined self.now) }
        ensures listed { IsListed point_cmp (joined self.now) }
    {
        self.counts.get(point)
    }

    /// Returns the number of rows.
    pub fn len(&self) -> usize
        ensures value { result ≡ length self.now }
        ensures listed { IsListed point_cmp (joined self.now) }
    {
        self.counts.len()
    }

    /// Returns the entries of a row, which are at one location, in the order of listing.
    #[inline(always)]
    pub fn row(&self, r: usize) -> &[(Pointstamp, u64)]
        requires { r < length self.now }
        ensures value { result.now ≡ row_of self.now r }
        ensures listed { IsListed point_cmp result.now }
        ensures run { IsRun result.now 0 (length result.now) }
        ensures all { IsListed point_cmp (joined self.now) }
    {
        self.counts.row(r)
    }

    /// Returns the entries at a location, in the order of listing.
    pub fn at_location(&self, location: usize) -> &[(Pointstamp, u64)]
        ensures listed { IsListed point_cmp result.now }
        ensures among { (e : _) → Contains result.now e → Contains (joined self.now) e }
        ensures all { IsListed point_cmp (joined self.now) }
    {
        self.counts.at_location(location)
    }

    /// Returns the pointstamps whose number is 0.
    pub fn frontier(&self) -> &[Pointstamp]
        ensures { IsFrontierList (joined self.now) result.now (length (joined self.now)) }
    {
        &self.frontier
    }

    /// Sets the number of a pointstamp that has none. `most` exceeds the number of entries.
    pub fn put(&mut self, point: &Pointstamp, n: u64, most: usize) -> Result<(), AllocError>
        requires most { length (joined self.old) < most }
        requires fresh { find point_cmp point.now (joined self.old) ≡ None }
        ensures ok { OnOk result (joined self.new ≡ put point_cmp point.now n (joined self.old)) }
        ensures err { OnErr result (joined self.new ≡ joined self.old) }
        ensures listed { IsListed point_cmp (joined self.new) }
        ensures was_listed { IsListed point_cmp (joined self.old) }
    {
        // The entries are in the order of listing.
        let _ = self.counts.len();
        self.frontier
            .reserve(most.saturating_sub(self.frontier.len()))?;
        self.counts.put(point, n)?;
        set_right(&self.counts, &mut self.frontier, point, false, n == 0);
        Ok(())
    }

    /// Sets the number of an entry of a row. It takes no memory.
    #[inline(always)]
    pub fn put_at(&mut self, r: usize, k: usize, n: u64)
        requires row { r < length self.old }
        requires entry { k < length (row_of self.old r) }
        ensures value { IsPutIn r k n self.old self.new }
        ensures points { points_by_row self.new ≡ points_by_row self.old }
        ensures listed { IsListed point_cmp (joined self.new) }
        ensures was_listed { IsListed point_cmp (joined self.old) }
    {
        let was = self.counts.row(r)[k].1;
        self.counts.put_at(r, k, n);
        // The list stays as it is if the number neither was nor is 0.
        if was == 0 || n == 0 {
            let point = &self.counts.row(r)[k].0;
            set_right(&self.counts, &mut self.frontier, point, was == 0, n == 0);
        }
    }

    /// Sets the number of an entry of a row, which was not 0 and is not. It takes no memory.
    #[inline(always)]
    pub fn put_off_frontier(&mut self, r: usize, k: usize, n: u64)
        requires row { r < length self.old }
        requires entry { k < length (row_of self.old r) }
        requires was { (d : Pointstamp × ℕ) → (get_or (row_of self.old r) k d).1 ≢ 0 }
        requires is { n ≢ 0 }
        ensures value { IsPutIn r k n self.old self.new }
        ensures points { points_by_row self.new ≡ points_by_row self.old }
        ensures listed { IsListed point_cmp (joined self.new) }
        ensures was_listed { IsListed point_cmp (joined self.old) }
    {
        // The list of the pointstamps with number 0 stays as it is.
        self.counts.put_at(r, k, n);
    }

    /// Removes a pointstamp and its number, if it has one. It takes no memory.
    pub fn remove(&mut self, point: &Pointstamp)
        ensures value { joined self.new ≡ without point_cmp point.now (joined self.old) }
        ensures listed { IsListed point_cmp (joined self.new) }
        ensures was_listed { IsListed point_cmp (joined self.old) }
    {
        let was_zero = is_zero_at(&self.counts, point);
        self.counts.remove(point);
        set_right(&self.counts, &mut self.frontier, point, was_zero, false);
    }

    /// Returns an equal map.
    pub fn copy(&self, alloc: A) -> Result<PrecursorCounts<A>, AllocError>
        ensures equal { IfOk result (λ m. m ≡ self.now) }
        ensures listed { IsListed point_cmp (joined self.now) }
    {
        let counts = self.counts.copy(alloc)?;
        let Some(most) = count_entries(&counts) else {
            return Err(AllocError);
        };
        let mut frontier = Vec::with_capacity(alloc, most)?;
        list_zeros(&counts, &mut frontier);
        Ok(PrecursorCounts { counts, frontier })
    }
}
