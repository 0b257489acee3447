//! A cluster of processors, and its readers.
ghost use Rattle.std.specs.Prelude.{◌≡◌, ◌<◌, ◌↔◌, length, IfSome, IsNone, IsTrue, option_copied, slice_get};
ghost use Rattle.nd_delta.specs.Least.{IsLeast};
ghost use Rattle.nd_view.specs.View.{IsPassed, IsBlocker};
ghost use Rattle.nd_view.specs.Kept.{IsFor};
ghost use Rattle.nd_protocol.specs.State.{processor, view, queue};
ghost use Rattle.nd_protocol.specs.Fitting.{IsState};
ghost use Rattle.nd_protocol.specs.Invariant.{KeepsProtocol, IsFinished};

use nd_delta::Delta;
use nd_graph::Graph;
use nd_mesh::Mesh;
use nd_paths::{Paths, Pointstamp};
use nd_processor::Processor;
use nd_protocol::{Parts, protocol_is_safe};
use nd_view::View;
use std::alloc::{Allocator, Global};
use std::marker::Model;

/// A cluster of processors that run a dataflow graph (Naiad, SOSP 2013, section 3.3).
pub struct Cluster<A: Allocator + Copy = Global> {
    pub(crate) alloc: A,
    pub(crate) parts: Parts<A>,
}

impl<A: Allocator + Copy> Drop for Cluster<A> {
    fn drop(self) {
        let Cluster { alloc: _, parts: _ } = self;
    }
}

impl<A: Allocator + Copy> Model for Cluster<A> {
    ghost use Rattle.nd_protocol.specs.State.{ClusterState, cluster_code};
    ghost use Rattle.nd_protocol.specs.Fitting.{IsState};

    ghost Value = { ClusterState };

    ghost coded = { cluster_code };

    ghost view = { λ a. a.parts };

    ghost invariant = { λ a. IsState a.parts };
}

impl<A: Allocator + Copy> Cluster<A> {
    /// Returns the number of processors, 1 to 64. The keys, counts and depths of every cluster are within the limits.
    pub fn n(&self) -> usize
        ensures value { result ≡ length self.now.processors }
        ensures state { IsState self.now }
    {
        self.parts.n()
    }

    /// Returns the graph that the processors run.
    pub fn graph(&self) -> &Graph<A>
        ensures { result.now ≡ self.now.graph }
    {
        self.parts.graph()
    }

    /// Returns the paths of the graph.
    pub fn paths(&self) -> &Paths<A>
        ensures { result.now ≡ self.now.graph }
    {
        self.parts.paths()
    }

    /// Returns processor `p`.
    pub fn processor(&self, p: usize) -> &Processor<A>
        requires { p < length self.now.processors }
        ensures { result.now ≡ processor self.now p }
    {
        self.parts.processor(p)
    }

    // Returns the processors.
    pub(crate) fn processors(&self) -> &[Processor<A>]
        ensures value { result.now ≡ self.now.processors }
        ensures state { IsState self.now }
    {
        self.parts.processors()
    }

    /// Returns what processor `q` knows of the outstanding pointstamps.
    pub fn view(&self, q: usize) -> &View<A>
        requires { q < length self.now.processors }
        ensures map { result.now.map ≡ view self.now q }
        ensures paths { IsFor self.now.graph result.now }
    {
        self.parts.view(q)
    }

    /// Returns whether processor `q`'s view is positive at no pointstamp at or before `point` (FORTE 2013).
    pub fn passed(&self, q: usize, point: &Pointstamp) -> bool
        requires { q < length self.now.processors }
        ensures passed { IsTrue result ↔ IsPassed self.now.graph (view self.now q) point.now }
        ensures finished { IsTrue result → KeepsProtocol self.now → IsFinished self.now point.now }
    {
        protocol_is_safe::<A>();
        let _ = self.n();
        self.view(q).passed(self.paths(), point)
    }

    /// Returns the least pointstamp at or before `point` at which processor `q`'s view is positive.
    pub fn blocker(&self, q: usize, point: &Pointstamp) -> Option<Pointstamp>
        requires { q < length self.now.processors }
        ensures passed { IsNone result ↔ IsPassed self.now.graph (view self.now q) point.now }
        ensures least { IfSome result
            (IsLeast (IsBlocker self.now.graph (view self.now q) point.now)) }
        ensures finished { IsNone result → KeepsProtocol self.now → IsFinished self.now point.now }
    {
        protocol_is_safe::<A>();
        let _ = self.n();
        self.view(q).blocker(self.paths(), point)
    }

    // Returns the queues.
    pub(crate) fn mesh(&self) -> &Mesh<A>
        ensures value { result.now ≡ self.now.queues }
        ensures state { IsState self.now }
    {
        self.parts.mesh()
    }

    /// Returns the change at index `i` of the queue from one processor to another, counted from the front, or `None` if
    /// there is none.
    pub fn queued(&self, from: usize, to: usize, i: usize) -> Option<&Delta<A>>
        requires sender { from < length self.now.processors }
        requires receiver { to < length self.now.processors }
        ensures { option_copied result ≡ slice_get (queue self.now from to) i }
    {
        self.mesh().get(from, to, i)
    }

    /// Returns the number of changes in the queue from one processor to another.
    pub fn queue_len(&self, from: usize, to: usize) -> usize
        requires sender { from < length self.now.processors }
        requires receiver { to < length self.now.processors }
        ensures { result ≡ length (queue self.now from to) }
    {
        self.mesh().len(from, to)
    }
}
