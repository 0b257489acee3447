//! The breakpoints that are set.
ghost use Rattle.std.specs.Prelude.{◌≡◌, ◌≢◌, ◌<◌, ◌≤◌, IfSome, IfOk, OnOk, OnErr, None, length, Some, slice_set};
ghost use Rattle.std.specs.FinMap as fin;
ghost use Rattle.nd_time.specs.Limits.{max_breaks};
ghost use Rattle.nd_breaks.specs.Breaks.{NoneFrom, NoHit, FirstHit, IsLeastFree, IsFull};

use crate::Condition;
use nd_cluster::Cluster;
use nd_time::limits::MAX_BREAKS;
use std::alloc::{AllocError, Allocator, Global};
use std::marker::Model;
use thiserror::Error;

/// All ids are in use.
#[derive(Clone, Copy, Debug, PartialEq, Eq, Drop, Error)]
#[error("32 breakpoints are set")]
pub struct TooManyBreaks;

/// No breakpoint with this id is set.
#[derive(Clone, Copy, Debug, PartialEq, Eq, Drop, Error)]
#[error("no such breakpoint is set")]
pub struct NoBreak;

/// The breakpoints that are set: conditions by id. All ids are below `MAX_BREAKS`.
///
/// `new` allocates the memory for `MAX_BREAKS` breakpoints. No other call allocates any.
#[derive(Drop)]
pub struct Breaks<A: Allocator = Global> {
    // The breakpoint of each id. There is capacity for all ids, and no id past the last slot is set.
    slots: Vec<Option<Condition>, A>,
}

impl<A: Allocator> Model for Breaks<A> {
    ghost use Rattle.nd_breaks.specs.Conditions.{condition_code};
    ghost use Rattle.nd_breaks.specs.Breaks.{BreakMap};
    ghost use Rattle.nd_breaks.specs.Slots.{from_slots, HasRoom};
    ghost use Rattle.std.specs.FinMap.{code};
    ghost use Rattle.std.specs.Coded.{coded_ℕ};

    ghost Value = { BreakMap };

    ghost coded = { code coded_ℕ condition_code };

    ghost view = { λ a. from_slots 0 a.slots.items };

    ghost invariant = { λ a. HasRoom a.slots };
}

// Writes a breakpoint, or `None`, to a slot.
fn write(slots: &mut [Option<Condition>], id: usize, slot: Option<Condition>)
    requires { id < length slots.old }
    ensures { slots.new ≡ slice_set slots.old id slot }
{
    slots[id] = slot;
}

impl<A: Allocator> Breaks<A> {
    /// Allocates the memory for all breakpoints, and sets none.
    pub fn new(alloc: A) -> Result<Breaks<A>, AllocError>
        ensures { IfOk result (λ b. b ≡ fin.empty) }
    {
        Ok(Breaks {
            slots: Vec::with_capacity(alloc, MAX_BREAKS)?,
        })
    }

    /// Returns the breakpoint with the id.
    pub fn get(&self, id: u64) -> Option<&Condition>
        ensures none { result ≡ None → fin.get self.now id ≡ None }
        ensures some { IfSome result (λ b. fin.get self.now id ≡ Some b.now) }
        ensures few { NoneFrom self.now max_breaks }
    {
        let slots = self.slots.as_slice();
        if id >= slots.len() as u64 {
            return None;
        }
        match &slots[id as usize] {
            Some(b) => Some(b),
            None => None,
        }
    }

    /// Returns the least id whose breakpoint holds of the cluster.
    pub fn first_hit<B: Allocator + Copy>(&self, cluster: &Cluster<B>) -> Option<u8>
        ensures none { result ≡ None → NoHit self.now cluster.now }
        ensures some { IfSome result (λ id. FirstHit self.now cluster.now id) }
        ensures within { IfSome result (λ id. id < max_breaks) }
    {
        for id in 0..self.end() {
            if let Some(b) = self.get(u64::from(id)) {
                if b.holds(cluster) {
                    return Some(id);
                }
            }
        }
        None
    }

    /// Sets the condition as a breakpoint, and returns its id, the least free one.
    pub fn set(&mut self, b: Condition) -> Result<u8, TooManyBreaks>
        ensures ok { IfOk result (λ id. self.new ≡ fin.insert self.old id b) }
        ensures least { IfOk result (λ id. IsLeastFree self.old id) }
        ensures err { OnErr result (self.new ≡ self.old) }
        ensures full { OnErr result (IsFull self.old) }
    {
        match self.first_free() {
            Some(id) => {
                self.put(id, b);
                Ok(id)
            }
            None => Err(TooManyBreaks),
        }
    }

    /// Clears the breakpoint with the id.
    pub fn clear(&mut self, id: u64) -> Result<(), NoBreak>
        ensures ok { OnOk result (self.new ≡ fin.remove self.old id) }
        ensures was { OnOk result (fin.get self.old id ≢ None) }
        ensures err { OnErr result (self.new ≡ self.old) }
        ensures none { OnErr result (fin.get self.old id ≡ None) }
    {
        if self.get(id).is_none() {
            return Err(NoBreak);
        }
        write(self.slots.as_mut_slice(), id as usize, None);
        Ok(())
    }

    // Returns an id such that neither it nor any greater id is set.
    fn end(&self) -> u8
        ensures few { result ≤ max_breaks }
        ensures past { NoneFrom self.now result }
    {
        self.slots.len() as u8
    }

    // Returns the least free id.
    fn first_free(&self) -> Option<u8>
        ensures some { IfSome result (λ id. IsLeastFree self.now id) }
        ensures none { result ≡ None → IsFull self.now }
    {
        for id in 0..MAX_BREAKS as u8 {
            if self.get(u64::from(id)).is_none() {
                return Some(id);
            }
        }
        None
    }

    // Sets a breakpoint under the least free id.
    fn put(&mut self, id: u8, b: Condition)
        requires { IsLeastFree self.old id }
        ensures { self.new ≡ fin.insert self.old id b }
    {
        let id = usize::from(id);
        if id < self.slots.len() {
            write(self.slots.as_mut_slice(), id, Some(b));
        } else {
            self.slots.push_reserved(Some(b));
        }
    }
}
