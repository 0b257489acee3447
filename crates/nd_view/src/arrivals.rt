//! The times that can still arrive at a location, according to a view.
ghost use Rattle.std.specs.Prelude.{◌≡◌, ◌≢◌, ◌↔◌, [], IfOk, IsTrue, IsSorted, OnErr, OnOk};
ghost use Rattle.nd_time.specs.Listing.{time_cmp};
ghost use Rattle.nd_paths.specs.Arrival.{HasAtOrBefore};
ghost use Rattle.nd_paths.specs.declared.point.Pointstamp.{Pointstamp};
ghost use Rattle.nd_view.specs.View.{IsOnFrontier};
ghost use Rattle.nd_view.specs.Kept.{IsFor};
ghost use Rattle.nd_view.specs.Arrivals.{AreArrivals, AreExact, AreApart, AreReached, AreMinimal};

use crate::View;
use nd_paths::{ArrivalTime, Paths, Pointstamp, arrival_times_are_listed};
use nd_time::TimeOrder;
use std::alloc::{AllocError, Allocator};

// Returns times into which walks to the location turn those of the entries, the least ones among them.
fn reached_from<A: Allocator + Copy>(
    alloc: A,
    paths: &Paths<A>,
    entries: &[(Pointstamp, i64)],
    location: usize,
) -> Result<Vec<ArrivalTime, A>, AllocError>
    ensures value { IfOk result (λ v. AreReached paths.now entries.now location v.items) }
    ensures some { OnErr result (entries.now ≢ []) }
{
    let mut times = Vec::new(alloc);
    for entry in entries {
        let mut reached = paths.reached(alloc, &entry.0, location)?;
        times.append(&mut reached)?;
    }
    Ok(times)
}

// Returns whether one of the times is at or before `time` by the order.
fn has_at_or_before(times: &[ArrivalTime], time: &ArrivalTime, order: TimeOrder) -> bool
    ensures { IsTrue result ↔ HasAtOrBefore order times.now time.now }
{
    times.iter().any(|one| one.at_or_before_by(time, order))
}

// Returns the minimal times of a list in order of epoch, then counters. In both orders a time at or before another
// is listed before it. By product, all that were kept may have to be asked: the last one alone does not decide.
fn minimal<A: Allocator>(
    alloc: A,
    times: &[ArrivalTime],
    order: TimeOrder,
) -> Result<Vec<ArrivalTime, A>, AllocError>
    requires { IsSorted time_cmp times.now }
    ensures value { IfOk result (λ v. AreMinimal order times.now v.items) }
    ensures some { OnErr result (times.now ≢ []) }
{
    let mut kept: Vec<ArrivalTime, A> = Vec::new(alloc);
    for time in times {
        if !has_at_or_before(&kept, time, order) {
            kept.push(time.copy())?;
        }
    }
    Ok(kept)
}

impl<A: Allocator + Copy> View<A> {
    /// Returns the times that can still arrive at `location`, in order of epoch, then counters: the minimal
    /// times into which walks to it turn those of the positive pointstamps. The list is empty if there is no
    /// such location.
    ///
    /// A time is passed at the location exactly if none of the returned times is at or before it, by the graph's
    /// timestamp order. None of them is at or before another. It takes no memory if no pointstamp is positive.
    pub fn arrivals(
        &self,
        alloc: A,
        paths: &Paths<A>,
        location: usize,
    ) -> Result<Vec<ArrivalTime, A>, AllocError>
        requires { IsFor paths.now self.now }
        ensures value { IfOk result (λ v. AreArrivals paths.now self.now.map location v.items) }
        ensures exact { IfOk result (λ v. AreExact paths.now self.now.map location v.items) }
        ensures apart { IfOk result (λ v. AreApart paths.now.order v.items) }
        ensures some { OnErr result ((x : Pointstamp) × IsOnFrontier paths.now self.now.map x) }
    {
        paths.order_is_partial();
        paths.walks_lead_on();
        arrival_times_are_listed();
        let frontier = self.frontier(alloc, paths)?;
        let mut times = reached_from(alloc, paths, frontier.entries(), location)?;
        times.sort_unstable();
        minimal(alloc, &times, paths.graph().order())
    }
}
