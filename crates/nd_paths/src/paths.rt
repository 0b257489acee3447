//! The order of pointstamps.
ghost use Rattle.std.specs.Prelude.{◌≡◌, ◌<◌, ◌↔◌, ◌⊎◌, All, IsTrue, IfOk, IfErr, List, ◌∷◌};
ghost use Rattle.nd_paths.specs.declared.point.Pointstamp.{Pointstamp};
ghost use Rattle.nd_paths.specs.Order.{CouldResultIn, Fits, IsAccepted, IsStrictlyBefore};
ghost use Rattle.nd_paths.specs.Laws.{IsMinimalAmong};
ghost use Rattle.nd_graph.specs.declared.graph.Arc.{Arc};
ghost use Rattle.nd_graph.specs.Graph.{location_count};
ghost use Rattle.nd_time.specs.declared.order.TimeOrder.TheVariants.{Lexicographic};
ghost use Rattle.nd_summaries.specs.Walk.{IsWalk};
ghost use Rattle.nd_summaries.specs.Summary.{AreMinimalSummaries, AreLeastSummaries};
ghost use Rattle.nd_summaries.specs.Fault.{IsFault};
ghost use Rattle.nd_paths.specs.Arrival.{TurnsInto, CoverAll, WalksLeadOn};

use crate::{ArrivalTime, Pointstamp};
use nd_graph::Graph;
use nd_summaries::{PathFault, Summaries, Summary, times_are_ordered};
use std::alloc::{AllocError, Allocator, Global};
use std::marker::Model;
use std::sync::Arc as Shared;

/// An accepted graph, and the order of its pointstamps by the graph's timestamp order (Naiad, SOSP 2013, section 2.3).
///
/// All copies share one graph and one table of summaries, which decides the order.
pub struct Paths<A: Allocator = Global> {
    summaries: Shared<Summaries<A>, A>,
}

impl<A: Allocator> Drop for Paths<A> {
    fn drop(self) {
        let Paths { summaries: _ } = self;
    }
}

impl<A: Allocator> Model for Paths<A> {
    ghost use Rattle.std.specs.Arc.{arc_value};
    ghost use Rattle.nd_graph.specs.Graph.{Dataflow};

    ghost Value = { Dataflow };

    ghost view = { λ a. arc_value a.summaries };
}

impl<A: Allocator> Paths<A> {
    /// Returns the order of the pointstamps of `graph`, or why the graph is not accepted.
    pub fn of(alloc: A, graph: &Graph<A>) -> Result<Paths<A>, PathFault>
    where
        A: Copy,
        ensures graph { IfOk result (λ p. p ≡ graph.now) }
        ensures accepted { IfOk result (λ _. IsAccepted graph.now) }
        ensures fault { IfErr result (λ e. IsFault graph.now e) }
    {
        let summaries = Summaries::of(alloc, graph)?;
        match Shared::new(alloc, summaries) {
            Ok(summaries) => Ok(Paths { summaries }),
            Err(_) => Err(PathFault::Memory),
        }
    }

    /// Returns the graph.
    pub fn graph(&self) -> &Graph<A>
        ensures value { result.now ≡ self.now }
        ensures accepted { IsAccepted self.now }
    {
        self.summaries.graph()
    }

    /// Returns an equal order, with the same table.
    pub fn copy(&self) -> Result<Paths<A>, AllocError>
        ensures { IfOk result (λ p. p ≡ self.now) }
    {
        let summaries = Shared::try_clone(&self.summaries)?;
        Ok(Paths { summaries })
    }

    /// Returns whether `s` could result in `t`. It could not if one of them does not fit the graph.
    pub fn before(&self, s: &Pointstamp, t: &Pointstamp) -> bool
        ensures { IsTrue result ↔ CouldResultIn self.now s.now t.now }
    {
        self.summaries
            .before(s.location, &s.time, t.location, &t.time)
    }

    /// Returns whether `s` could result in `t` and differs from it.
    pub fn strictly_before(&self, s: &Pointstamp, t: &Pointstamp) -> bool
        ensures { IsTrue result ↔ IsStrictlyBefore self.now s.now t.now }
    {
        s != t && self.before(s, t)
    }

    /// Returns the minimal summaries of the walks between two locations: those that keep more counters first, then
    /// by what they add, then by their constants lexicographically.
    ///
    /// In the lexicographic order there is one for each number of counters that some walk keeps.
    pub fn summaries(&self, from: usize, to: usize) -> &[Summary]
        requires from { from < location_count self.now }
        requires to { to < location_count self.now }
        ensures minimal { AreMinimalSummaries self.now.order self.now from to result.now }
        ensures least { self.now.order ≡ Lexicographic
            → AreLeastSummaries self.now from to result.now }
    {
        self.summaries.summaries(from, to)
    }

    /// Returns times into which walks from `point` to the location `to` turn its time, the minimal ones among them.
    ///
    /// Each time that `point` could result in at `to` has one of them at or before it. The list is empty, and takes no
    /// memory, if `point` does not fit the graph, if there is no location `to`, or if no walk leads there.
    pub fn reached(
        &self,
        alloc: A,
        point: &Pointstamp,
        to: usize,
    ) -> Result<Vec<ArrivalTime, A>, AllocError>
        ensures each { IfOk result (λ v. All (TurnsInto self.now point.now to) v.items) }
        ensures least { IfOk result (λ v. CoverAll self.now point.now to v.items) }
    {
        let graph = self.graph();
        if !point.fits(graph) || to >= graph.location_count() {
            return Ok(Vec::new(alloc));
        }
        self.summaries.summaries_decide();
        let summaries = self.summaries.summaries(point.location, to);
        ArrivalTime::all_turned(alloc, summaries, &point.time)
    }

    /// Returns whether some walk leads from one location to another.
    pub fn leads(&self, from: usize, to: usize) -> bool
        requires from { from < location_count self.now }
        requires to { to < location_count self.now }
        ensures { IsTrue result ↔ ((walk : List Arc) × IsWalk self.now from walk to) }
    {
        self.summaries.leads(from, to)
    }

    /// States that the order is a partial order, and that among finitely many pointstamps there is one with
    /// none of the others strictly before it.
    pub fn order_is_partial(&self)
        ensures reflexive { (s : Pointstamp) → Fits self.now s → CouldResultIn self.now s s }
        ensures transitive { (s t u : Pointstamp) → CouldResultIn self.now s t
            → CouldResultIn self.now t u → CouldResultIn self.now s u }
        ensures antisymmetric { (s t : Pointstamp) → CouldResultIn self.now s t
            → CouldResultIn self.now t s → s ≡ t }
        ensures strict { (s t u : Pointstamp) → IsStrictlyBefore self.now s t
            → IsStrictlyBefore self.now t u → IsStrictlyBefore self.now s u }
        ensures minimal { (p : Pointstamp) (ps : List Pointstamp)
            → (m : Pointstamp) × IsMinimalAmong self.now (p ∷ ps) m }
    {
        let _ = self.graph();
        times_are_ordered();
        self.order_is_decided();
    }

    /// States that a pointstamp could result in each time into which a walk turns its own, at the end of
    /// the walk.
    pub fn walks_lead_on(&self)
        ensures { WalksLeadOn self.now }
    {
        self.summaries.walks_lead_on();
    }

    /// States that of two pointstamps the first is strictly before the second, or it is not.
    pub fn order_is_decided(&self)
        ensures { (s t : Pointstamp)
            → IsStrictlyBefore self.now s t ⊎ (IsStrictlyBefore self.now s t → ⊥) }
    {
        let _ = self.graph();
        times_are_ordered();
        self.summaries.order_is_decided();
    }
}
