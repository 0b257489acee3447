//! Why a processor does not consider everything before a pointstamp finished, and whether it is finished.
ghost use Rattle.std.specs.Prelude.{◌≡◌, ◌↔◌, ◌<◌, [], All, IfOk, IsTrue, length};
ghost use Rattle.nd_paths.specs.declared.point.Pointstamp.{Pointstamp as Point};
ghost use Rattle.nd_view.specs.View.{IsBefore, IsPositiveBefore, IsPassedBefore};
ghost use Rattle.nd_protocol.specs.State.{view};
ghost use Rattle.nd_protocol.specs.Invariant.{KeepsProtocol};
ghost use Rattle.nd_why.specs.Why.{IsWhy, IsFinishedBefore, HasReasonBefore, IsCounted, IsBalanced};

use crate::Cluster;
use nd_paths::Pointstamp;
use nd_protocol::NoMemory;
use nd_view::Extent;
use nd_why::{Question, Reasons, finished, why};
use std::alloc::Allocator;

impl<A: Allocator + Copy> Cluster<A> {
    /// Returns why processor `asked.q` does not consider everything before a pointstamp finished: the pointstamps on the
    /// frontier of its view that are before `asked.point`, each with all that is held there and all updates of it that the
    /// processor has not received (based on FORTE 2013). A notice at `asked.point` waits for what is
    /// strictly before it.
    ///
    /// There is none exactly if the view is positive at no pointstamp before `asked.point`. If the cluster has the protocol
    /// invariant, the view's count plus the updates not received is what is held; and if nothing outstanding is before
    /// `asked.point`, nothing is held.
    pub fn why(&self, alloc: A, asked: &Question) -> Result<Reasons<A>, NoMemory>
        requires { asked.now.q < length self.now.processors }
        ensures whole { IfOk result (IsWhy self.now asked.now) }
        ensures passed { IfOk result (λ w. (w ≡ [])
            ↔ IsPassedBefore self.now.graph asked.now.extent (view self.now asked.now.q)
            asked.now.point) }
        ensures before { IfOk result (All (λ a.
            IsBefore self.now.graph asked.now.extent a.point asked.now.point)) }
        ensures covered { IfOk result (λ w. (x : Point)
            → IsPositiveBefore self.now.graph (view self.now asked.now.q)
            asked.now.extent asked.now.point x
            → HasReasonBefore self.now.graph w x) }
        ensures counted { IfOk result (All (IsCounted self.now)) }
        ensures balanced { KeepsProtocol self.now → IfOk result (All IsBalanced) }
        ensures finished { IsFinishedBefore self.now asked.now.extent asked.now.point
            → IfOk result (All (λ a. a.held ≡ [])) }
    {
        let Ok(reasons) = why(alloc, &self.parts, asked) else {
            return Err(NoMemory);
        };
        Ok(reasons)
    }

    /// Returns whether nothing outstanding is before a pointstamp.
    pub fn finished(&self, point: &Pointstamp, extent: Extent) -> bool
        ensures { IsTrue result ↔ IsFinishedBefore self.now extent point.now }
    {
        finished(&self.parts, point, extent)
    }
}
