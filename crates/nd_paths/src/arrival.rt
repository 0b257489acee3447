//! The times into which walks turn the time of a pointstamp.
ghost use Rattle.std.specs.Prelude.{◌≡◌, ◌≤◌, ◌↔◌, All, IsTrue, IfOk, length, map};
ghost use Rattle.nd_time.specs.Time.{Time};
ghost use Rattle.nd_time.specs.Order.{AreAtMost, IsAtOrBeforeBy, IsEachAtMost};
ghost use Rattle.nd_time.specs.Listing.{time_cmp};
ghost use Rattle.nd_time.specs.Limits.{max_depth};
ghost use Rattle.nd_summaries.specs.Summary.{left_by};
ghost use Rattle.nd_paths.specs.Arrival.{turned as turned_by};

use arrayvec::ArrayVec;
use nd_summaries::Summary;
use nd_time::limits::MAX_DEPTH;
use nd_time::{TimeOrder, Timestamp};
use std::alloc::{AllocError, Allocator};
use std::marker::Model;

/// The time at the end of a walk: an epoch and the counters of the loops around the location, outermost
/// first.
///
/// A counter may be greater than any counter of a `Timestamp`. Arrival times are listed by epoch, and
/// then by counters in lexicographic order. An `ArrayVec` fills its free places with `Default` values.
#[derive(Debug, Default, PartialEq, Eq, PartialOrd, Ord, Drop)]
pub struct ArrivalTime {
    epoch: u32,
    counters: ArrayVec<u64, MAX_DEPTH>,
}

impl Model for ArrivalTime {
    ghost use Rattle.nd_time.specs.Time.{Time};

    ghost Value = { Time };

    ghost view = { λ a. record { epoch = a.epoch; counters = a.counters.items } };

    ghost inverse = { λ t. record { epoch = t.epoch; counters = record { items = t.counters } } };
}

impl ArrivalTime {
    /// Returns the epoch.
    pub fn epoch(&self) -> u32
        ensures { result ≡ self.now.epoch }
    {
        self.epoch
    }

    /// Returns the loop counters, outermost first.
    pub fn counters(&self) -> &[u64]
        ensures value { result.now ≡ self.now.counters }
        ensures few { length result.now ≤ max_depth }
    {
        self.counters.as_slice()
    }

    /// Returns an equal time.
    pub fn copy(&self) -> ArrivalTime
        ensures { result ≡ self.now }
    {
        match ArrayVec::try_from(self.counters()) {
            Ok(counters) => ArrivalTime {
                epoch: self.epoch,
                counters,
            },
            Err(_) => unreachable!(),
        }
    }

    /// Returns the time into which a summary turns `time`.
    pub(crate) fn turned(summary: &Summary, time: &Timestamp) -> ArrivalTime
        requires keep { summary.now.keep ≤ length time.now.counters }
        requires deep { left_by summary.now ≤ max_depth }
        ensures { result ≡ turned_by summary.now time.now }
    {
        ArrivalTime {
            epoch: time.epoch(),
            counters: summary.reached(time.counters()),
        }
    }

    /// Returns the times into which summaries turn `time`.
    pub(crate) fn all_turned<A: Allocator>(
        alloc: A,
        summaries: &[Summary],
        time: &Timestamp,
    ) -> Result<Vec<ArrivalTime, A>, AllocError>
        requires keep { All (λ s. s.keep ≤ length time.now.counters) summaries.now }
        requires deep { All (λ s. left_by s ≤ max_depth) summaries.now }
        ensures { IfOk result (λ v. v.items ≡ map (λ s. turned_by s time.now) summaries.now) }
    {
        let mut times = Vec::new(alloc);
        for summary in summaries {
            times.push(ArrivalTime::turned(summary, time))?;
        }
        Ok(times)
    }

    /// Returns whether this time is at or before `other` by the order. It is not if their depths differ.
    pub fn at_or_before_by(&self, other: &ArrivalTime, order: TimeOrder) -> bool
        ensures { IsTrue result ↔ IsAtOrBeforeBy order self.now other.now }
    {
        self.counters.len() == other.counters.len()
            && self.epoch <= other.epoch
            && are_at_most(self.counters(), other.counters(), order)
    }
}

// Returns whether the counters of one time are at most those of another of the same depth.
fn are_at_most(own: &[u64], theirs: &[u64], order: TimeOrder) -> bool
    requires { length own.now ≡ length theirs.now }
    ensures { IsTrue result ↔ AreAtMost order own.now theirs.now }
{
    match order {
        TimeOrder::Lexicographic => own.cmp(theirs).is_le(),
        TimeOrder::Product => are_each_at_most(own, theirs),
    }
}

// Returns whether each number is at most the other's at its place.
fn are_each_at_most(own: &[u64], theirs: &[u64]) -> bool
    requires { length own.now ≡ length theirs.now }
    ensures { IsTrue result ↔ IsEachAtMost own.now theirs.now }
{
    for place in 0..own.len() {
        if theirs[place] < own[place] {
            return false;
        }
    }
    true
}

/// States that arrival times compare as they are listed: by epoch, and then by counters in
/// lexicographic order. The function has no code; callers use its clause.
pub fn arrival_times_are_listed()
    ensures { (s t : Time) → ⟦<ArrivalTime as Ord>⟧.cmp s t ≡ time_cmp s t }
{}
