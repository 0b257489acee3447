//! The minimal summaries of the walks between all locations of an accepted graph.
ghost use Rattle.std.specs.Prelude.{◌≡◌, ◌<◌, ◌≤◌, ◌↔◌, ◌⊎◌, ℕ, All, IsTrue, IfOk, IfErr, List, length, slice_index};
ghost use Rattle.nd_graph.specs.declared.graph.Arc.{Arc};
ghost use Rattle.nd_graph.specs.Graph.{location_count, depths as depths_of};
ghost use Rattle.nd_time.specs.Limits.{max_depth};
ghost use Rattle.nd_time.specs.Time.{Time};
ghost use Rattle.nd_time.specs.declared.order.TimeOrder.TheVariants.{Lexicographic};
ghost use Rattle.nd_summaries.specs.Walk.{LeadsBefore, IsAcceptedBy, IsWalk, HasDepth, effect};
ghost use Rattle.nd_summaries.specs.declared.summary.Summary.{Summary};
ghost use Rattle.nd_summaries.specs.Summary.{AreMinimalSummaries, AreLeastSummaries, left_by};
ghost use Rattle.nd_summaries.specs.Fault.{IsFault};
ghost use Rattle.nd_summaries.specs.Table.{Fit, IsTable};
ghost use Rattle.nd_summaries.specs.Laws.{SomeTurns};

use crate::Summary;
use crate::accept::PathFault;
use crate::list::SummaryList;
use crate::numbers::Numbers;
use crate::table::{Table, has_depth, leads_among, table_of};
use nd_graph::Graph;
use nd_time::Timestamp;
use std::alloc::{Allocator, Global};
use std::marker::Model;

/// An accepted graph, and the minimal summaries of the walks between its locations.
///
/// Each different list of summaries stands once, and each pair of locations has the number of its list.
pub struct Summaries<A: Allocator = Global> {
    graph: Graph<A>,
    lists: Vec<SummaryList<A>, A>,
    rows: Vec<Numbers<A>, A>,
}

impl<A: Allocator> Drop for Summaries<A> {
    fn drop(self) {
        let Summaries {
            graph: _,
            lists: _,
            rows: _,
        } = self;
    }
}

impl<A: Allocator> Model for Summaries<A> {
    ghost use Rattle.nd_graph.specs.Graph.{Dataflow};
    ghost use Rattle.nd_summaries.specs.Table.{IsTable};

    ghost Value = { Dataflow };

    ghost view = { λ a. a.graph };

    ghost invariant = { λ a. IsTable a.graph.order a.graph a.lists.items a.rows.items };
}

impl<A: Allocator> Summaries<A> {
    /// Returns the summaries of a graph, or why the graph is not accepted.
    pub fn of(alloc: A, graph: &Graph<A>) -> Result<Summaries<A>, PathFault>
    where
        A: Copy,
        ensures value { IfOk result (λ s. s ≡ graph.now) }
        ensures accepted { IfOk result (λ _. IsAcceptedBy graph.now.order graph.now) }
        ensures fault { IfErr result (λ e. IsFault graph.now e) }
    {
        let graph = graph.copy(alloc)?;
        let Table { lists, rows } = table_of(alloc, &graph)?;
        Ok(Summaries { graph, lists, rows })
    }

    /// Returns the graph.
    pub fn graph(&self) -> &Graph<A>
        ensures value { result.now ≡ self.now }
        ensures accepted { IsAcceptedBy self.now.order self.now }
    {
        &self.graph
    }

    /// Returns the minimal summaries of the walks between two locations: those that keep more counters first, then by
    /// what they add, then by their constants lexicographically.
    ///
    /// In the lexicographic order there is one for each number of counters that some walk keeps.
    pub fn summaries(&self, from: usize, to: usize) -> &[Summary]
        requires from { from < location_count self.now }
        requires to { to < location_count self.now }
        ensures minimal { AreMinimalSummaries self.now.order self.now from to result.now }
        ensures least { self.now.order ≡ Lexicographic
            → AreLeastSummaries self.now from to result.now }
        ensures fit { All (Fit (slice_index (depths_of self.now) from)
            (slice_index (depths_of self.now) to)) result.now }
        ensures few { All (λ s. left_by s ≤ max_depth) result.now }
    {
        self.lists[self.rows[from].as_slice()[to] as usize].as_slice()
    }

    /// Returns whether some walk leads from one location to another.
    pub fn leads(&self, from: usize, to: usize) -> bool
        requires from { from < location_count self.now }
        requires to { to < location_count self.now }
        ensures { IsTrue result ↔ ((walk : List Arc) × IsWalk self.now from walk to) }
    {
        !self.summaries(from, to).is_empty()
    }

    /// Returns whether the time `s` at one location could result in the time `t` at another. It could not if there is
    /// no such location, or if a time does not have its location's depth.
    pub fn before(&self, from: usize, s: &Timestamp, to: usize, t: &Timestamp) -> bool
        ensures { IsTrue result ↔ LeadsBefore self.now.order self.now from s.now to t.now }
    {
        if t.epoch() < s.epoch() {
            return false;
        }
        if !has_depth(&self.graph, from, s) || !has_depth(&self.graph, to, t) {
            return false;
        }
        leads_among(
            self.summaries(from, to),
            s.counters(),
            t.counters(),
            self.graph.order(),
        )
    }
    /// States that one time could result in another, or could not.
    pub fn order_is_decided(&self)
        ensures { (from to : ℕ) (s t : Time) → LeadsBefore self.now.order self.now from s to t
            ⊎ (LeadsBefore self.now.order self.now from s to t → ⊥) }
    {
        let _ = &self.graph;
    }

    /// States that a time could result in the one into which a walk turns it, at the end of the walk.
    pub fn walks_lead_on(&self)
        ensures { (from to : ℕ) (walk : List Arc) (s : Time)
            → HasDepth self.now from (length s.counters) → IsWalk self.now from walk to
            → LeadsBefore self.now.order self.now from s to
            (record { epoch = s.epoch; counters = effect walk s.counters }) }
    {
        let _ = &self.graph;
    }

    /// States that minimal summaries decide the order: if one time could result in another, one of the summaries turns the
    /// first into a time at or before the other.
    pub fn summaries_decide(&self)
        ensures { (from to : ℕ) (list : List Summary) (s t : Time)
            → AreMinimalSummaries self.now.order self.now from to list
            → LeadsBefore self.now.order self.now from s to t → SomeTurns self.now.order list s t }
    {
        let _ = &self.graph;
    }
}
