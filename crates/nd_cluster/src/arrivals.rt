//! What a processor knows of the times that can still arrive.
ghost use Rattle.std.specs.Prelude.{◌≡◌, ◌↔◌, ◌<◌, IfOk, IsTrue, OnErr, Some, length};
ghost use Rattle.std.specs.FinMap as fin;
ghost use Rattle.nd_view.specs.View.{IsOnFrontier, IsPassedBefore};
ghost use Rattle.nd_view.specs.declared.extent.Extent.TheVariants.{StrictlyBefore};
ghost use Rattle.nd_view.specs.Arrivals.{AreArrivals, AreExact, AreApart};
ghost use Rattle.nd_paths.specs.declared.point.Pointstamp.{Pointstamp as Point};
ghost use Rattle.nd_protocol.specs.State.{processor, view};
ghost use Rattle.nd_protocol.specs.Enabled.{IsRefused};
ghost use Rattle.nd_protocol.specs.declared.step.Step.TheVariants.{Notice as Noticing};
ghost use Rattle.nd_protocol.specs.declared.refusal.Refusal.TheVariants.{NotYet};

use crate::Cluster;
use nd_paths::{ArrivalTime, Pointstamp};
use nd_protocol::NoMemory;
use std::alloc::Allocator;

impl<A: Allocator + Copy> Cluster<A> {
    /// Returns the times that can still arrive at a location according to processor `q`'s view, by epoch and then by
    /// counters: the minimal ones of those into which walks to `location` turn the times of the pointstamps at which the view
    /// is positive (a probe's frontier in timely dataflow). The list is empty if there is no such
    /// location.
    ///
    /// The view has passed a time there exactly if none of them is at or before it, and none of them is at or before another.
    pub fn frontier_at(
        &self,
        alloc: A,
        q: usize,
        location: usize,
    ) -> Result<Vec<ArrivalTime, A>, NoMemory>
        requires { q < length self.now.processors }
        ensures value { IfOk result (λ v.
            AreArrivals self.now.graph (view self.now q) location v.items) }
        ensures exact { IfOk result (λ v.
            AreExact self.now.graph (view self.now q) location v.items) }
        ensures apart { IfOk result (λ v. AreApart self.now.graph.order v.items) }
        ensures some { OnErr result
            ((x : Point) × IsOnFrontier self.now.graph (view self.now q) x) }
    {
        let Ok(times) = self.view(q).arrivals(alloc, self.paths(), location) else {
            return Err(NoMemory);
        };
        Ok(times)
    }

    /// Returns whether processor `q`'s view is positive at no pointstamp strictly before `point`. If it is positive at one, a
    /// notice on `q` of a request at `point` is refused as not yet due, and only then.
    pub fn passed_before(&self, q: usize, point: &Pointstamp) -> bool
        requires { q < length self.now.processors }
        ensures passed { IsTrue result
            ↔ IsPassedBefore self.now.graph StrictlyBefore (view self.now q) point.now }
        ensures due { IsTrue result → (b : Point)
            → IsRefused {A = A} self.now (Noticing q point.now.location point.now.time) (NotYet b)
            → ⊥ }
        ensures not_yet { (IsTrue result → ⊥)
            → fin.get (processor self.now q).requests point.now ≡ Some tt
            → (b : Point)
            × IsRefused {A = A} self.now (Noticing q point.now.location point.now.time) (NotYet b) }
    {
        let _ = self.n();
        self.view(q).blocker_before(self.paths(), point).is_none()
    }
}
