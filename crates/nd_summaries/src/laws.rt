//! The laws of summaries and of accepted graphs.
ghost use Rattle.std.specs.Prelude.{◌≡◌, ◌↔◌, ◌<◌, ℕ, List, ◌∷◌, length};
ghost use Rattle.nd_graph.specs.declared.graph.Arc.{Arc as GraphArc};
ghost use Rattle.nd_graph.specs.Graph.{location_count, Dataflow};
ghost use Rattle.nd_time.specs.Time.{Time};
ghost use Rattle.nd_time.specs.declared.order.TimeOrder.{TimeOrder};
ghost use Rattle.nd_summaries.specs.Laws.{HasShortWalk};
ghost use Rattle.nd_summaries.specs.Walk.{IsWalk, TurnsBack, PassesFeedback, FailsBy, least_depth};
ghost use Rattle.nd_summaries.specs.Walk.{HasDepth, IsAcceptedBy, LeadsBefore};

use nd_graph::Graph;
use std::alloc::Allocator;

/// States that a closed walk, which is not empty, fails in both orders exactly if it passes no feedback of its
/// least depth. So the same graphs are accepted, and the same locations fail.
pub fn closed_walks_fail_alike<A: Allocator>(graph: &Graph<A>)
    ensures closed { (order : TimeOrder) (l : ℕ) (arc : GraphArc) (walk : List GraphArc)
        → IsWalk graph.now l (arc ∷ walk) l
        → TurnsBack order graph.now l (arc ∷ walk)
        ↔ (PassesFeedback graph.now (arc ∷ walk) (least_depth graph.now l (arc ∷ walk)) → ⊥) }
    ensures alike { (order other : TimeOrder) (l : ℕ) → FailsBy order graph.now l
        → FailsBy other graph.now l }
{
    let _ = graph.all_arcs();
}

/// States that each walk has a short one with the same ends whose summary is at most its own, in both orders: a part of a
/// longer walk that leads back to its location, and keeps all counters that the rest of the walk keeps, can be cut.
pub fn short_walks_suffice<A: Allocator>(graph: &Graph<A>)
    ensures { (order : TimeOrder) (from to : ℕ) (walk : List GraphArc)
        → from < location_count graph.now → IsWalk graph.now from walk to
        → HasShortWalk order graph.now from to walk }
{
    let _ = graph.all_arcs();
}

/// States that *could result in* orders the times at the locations of a graph: it is reflexive and transitive and, if the
/// graph is accepted, antisymmetric. The function has no code; callers use its clauses.
pub fn times_are_ordered()
    ensures reflexive { (order : TimeOrder) (g : Dataflow) (l : ℕ) (s : Time)
        → HasDepth g l (length s.counters) → LeadsBefore order g l s l s }
    ensures transitive { (order : TimeOrder) (g : Dataflow) (k l m : ℕ) (s t u : Time)
        → LeadsBefore order g k s l t → LeadsBefore order g l t m u → LeadsBefore order g k s m u }
    ensures antisymmetric { (order : TimeOrder) (g : Dataflow) (k l : ℕ) (s t : Time)
        → IsAcceptedBy order g → LeadsBefore order g k s l t → LeadsBefore order g l t k s
        → (k ≡ l) × (s ≡ t) }
{}
