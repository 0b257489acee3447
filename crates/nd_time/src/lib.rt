//! Timestamps of a timely dataflow: an epoch and the counters of the loops around a location.
#![tactic(auto)]

ghost use Rattle.std.specs.Prelude.{◌≡◌, ◌≤◌, ◌<◌, ◌↔◌, IsTrue, IsSome, IfSome, IsOk, IfOk, length, take};
ghost use Rattle.nd_time.specs.Time.{Time, ingress_of, egress_of, feedback_of, last_of};
ghost use Rattle.nd_time.specs.Order.{IsAtOrBefore, IsAtOrBeforeBy};
ghost use Rattle.nd_time.specs.Limits.{max_depth, max_counter};
ghost use Rattle.nd_time.specs.Listing.{time_cmp};

mod faults;
pub mod limits;
mod order;

use arrayvec::ArrayVec;
pub use faults::Code;
use limits::MAX_DEPTH;
pub use order::TimeOrder;
use std::cmp::Ordering;
use std::marker::Model;
use thiserror::Error;

/// A loop counter has its greatest value, 4294967295, and cannot grow.
#[derive(Clone, Copy, Debug, PartialEq, Eq, Drop, Error)]
#[error("the loop counter is at its limit")]
pub struct CounterFull;

/// Out of memory.
#[derive(Clone, Copy, Debug, PartialEq, Eq, Drop, Error)]
#[error("out of memory")]
pub struct NoMemory;

/// An epoch and the counters of the loops around a location, outermost first (Naiad, SOSP 2013,
/// section 2.1).
///
/// Timestamps are listed by epoch, and then by counters in lexicographic order.
#[derive(Debug, PartialEq, Eq, Drop)]
pub struct Timestamp {
    epoch: u32,
    counters: ArrayVec<u32, MAX_DEPTH>,
}

// Returns the first `depth` numbers of an array.
fn front(array: [u32; MAX_DEPTH], depth: usize) -> ArrayVec<u32, MAX_DEPTH>
    ensures { result.items ≡ take depth array }
{
    let mut counters = ArrayVec::from_array_in((), array);
    counters.truncate(depth);
    counters
}

impl Model for Timestamp {
    ghost use Rattle.nd_time.specs.Time.{Time};

    ghost Value = { Time };

    ghost view = { λ a. record { epoch = a.epoch; counters = a.counters.items } };

    ghost inverse = { λ t. record { epoch = t.epoch; counters = record { items = t.counters } } };
}

impl PartialOrd for Timestamp {
    ghost use Rattle.std.specs.Prelude.{Some};
    ghost use Rattle.std.proofs.Common.{rules};
    ghost use Rattle.std.specs.Cmp.{po};
    ghost use Rattle.std.specs.Cmp.Rules.{comparing};
    ghost use Rattle.nd_time.specs.Listing.{time_cmp, time_total};

    ghost partial_cmp = { λ s t. Some (time_cmp s t) };

    ghost laws = { po time_total (Prim.search (comparing, rules)) };

    fn partial_cmp(&self, other: &Timestamp) -> Option<Ordering> {
        Some(self.cmp(other))
    }
}

impl Ord for Timestamp {
    ghost use Rattle.std.specs.Prelude.{refl};
    ghost use Rattle.std.proofs.Common.{rules};
    ghost use Rattle.std.specs.Cmp.Rules.{comparing};
    ghost use Rattle.nd_time.specs.Listing.{time_cmp, time_total};

    ghost cmp = { time_cmp };

    ghost total = { time_total };

    ghost matches_partial_cmp = { λ _ _. refl };

    ghost matches_eq = { Prim.search (comparing, rules) };

    fn cmp(&self, other: &Timestamp) -> Ordering {
        let by_epoch = self.epoch.cmp(&other.epoch);
        if by_epoch.is_ne() {
            return by_epoch;
        }
        // Few loops are the common case. The comparison of two slices is slower.
        match (self.counters(), other.counters()) {
            ([], []) => Ordering::Equal,
            ([own], [of_other]) => own.cmp(of_other),
            (own, of_other) => own.cmp(of_other),
        }
    }
}

impl Timestamp {
    /// Returns a timestamp, or `None` if there are more than `MAX_DEPTH` counters.
    pub fn new(epoch: u32, counters: &[u32]) -> Option<Timestamp>
        ensures fits { IsSome result ↔ (length counters.now ≤ max_depth) }
        ensures value { IfSome result (λ t. t ≡ record { epoch = epoch; counters = counters.now }) }
    {
        let counters = ArrayVec::try_from(counters).ok()?;
        Some(Timestamp { epoch, counters })
    }

    /// Returns the epoch.
    pub fn epoch(&self) -> u32
        ensures { result ≡ self.now.epoch }
    {
        self.epoch
    }

    /// Returns the loop counters, outermost first.
    pub fn counters(&self) -> &[u32]
        ensures value { result.now ≡ self.now.counters }
        ensures few { length result.now ≤ max_depth }
    {
        self.counters.as_slice()
    }

    /// Returns the number of loop counters.
    pub fn depth(&self) -> usize
        ensures value { result ≡ length self.now.counters }
        ensures small { result ≤ max_depth }
    {
        self.counters.len()
    }

    /// Returns an equal timestamp.
    pub fn copy(&self) -> Timestamp
        ensures { result ≡ self.now }
    {
        // One fixed array per depth. A loop over counters, or a write at an unknown depth, is slower.
        let counters = match self.counters() {
            [] => front([0; MAX_DEPTH], 0),
            [a] => front([*a, 0, 0, 0, 0, 0], 1),
            [a, b] => front([*a, *b, 0, 0, 0, 0], 2),
            [a, b, c] => front([*a, *b, *c, 0, 0, 0], 3),
            [a, b, c, d] => front([*a, *b, *c, *d, 0, 0], 4),
            [a, b, c, d, e] => front([*a, *b, *c, *d, *e, 0], 5),
            [a, b, c, d, e, f] => front([*a, *b, *c, *d, *e, *f], 6),
            _ => unreachable!(),
        };
        Timestamp {
            epoch: self.epoch,
            counters,
        }
    }

    /// Returns whether this timestamp is at or before `other` by the lexicographic order. It is not if their depths differ.
    pub fn at_or_before(&self, other: &Timestamp) -> bool
        ensures { IsTrue result ↔ IsAtOrBefore self.now other.now }
    {
        self.at_or_before_by(other, TimeOrder::Lexicographic)
    }

    /// Returns whether this timestamp is at or before `other` by the order. It is not if their depths differ.
    pub fn at_or_before_by(&self, other: &Timestamp, order: TimeOrder) -> bool
        ensures { IsTrue result ↔ IsAtOrBeforeBy order self.now other.now }
    {
        self.depth() == other.depth()
            && self.epoch <= other.epoch
            && order.are_at_most(self.counters(), other.counters())
    }

    /// Returns the timestamp after an ingress vertex, or `None` if there is no room for another counter.
    pub fn ingress(&self) -> Option<Timestamp>
        ensures room { IsSome result ↔ (length self.now.counters < max_depth) }
        ensures value { IfSome result (λ t. t
            ≡ record { epoch = self.now.epoch; counters = ingress_of self.now.counters }) }
    {
        let mut next = self.copy();
        if next.counters.len() == MAX_DEPTH {
            return None;
        }
        next.counters.push(0);
        Some(next)
    }

    /// Returns the timestamp after an egress vertex, or `None` if there is no counter to drop.
    pub fn egress(&self) -> Option<Timestamp>
        ensures inside { IsSome result ↔ (0 < length self.now.counters) }
        ensures value { IfSome result (λ t. t
            ≡ record { epoch = self.now.epoch; counters = egress_of self.now.counters }) }
    {
        let mut next = self.copy();
        next.counters.pop()?;
        Some(next)
    }

    /// Returns the timestamp after a feedback vertex: 1 is added to the innermost counter.
    pub fn feedback(&self) -> Result<Timestamp, CounterFull>
        requires { 0 < length self.now.counters }
        ensures room { IsOk result ↔ (last_of self.now.counters < max_counter) }
        ensures value { IfOk result (λ t. t
            ≡ record { epoch = self.now.epoch; counters = feedback_of self.now.counters }) }
    {
        let mut next = self.copy();
        let last = next.counters.pop().unwrap();
        if last == u32::MAX {
            return Err(CounterFull);
        }
        next.counters.push(last + 1);
        Ok(next)
    }
}

/// States that timestamps compare as they are listed: by epoch, and then by counters in lexicographic
/// order. The function has no code; callers use its clause.
pub fn timestamps_are_listed()
    ensures { (s t : Time) → ⟦<Timestamp as Ord>⟧.cmp s t ≡ time_cmp s t }
{}
