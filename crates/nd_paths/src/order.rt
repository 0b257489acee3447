//! The laws of the order of pointstamps, over all graphs.
ghost use Rattle.nd_graph.specs.Graph.{Dataflow};
ghost use Rattle.nd_paths.specs.Order.{CouldResultIn, IsAccepted, IsStrictlyBefore};
ghost use Rattle.nd_paths.specs.declared.point.Pointstamp.{Pointstamp};

use nd_summaries::times_are_ordered;

/// States that the order of the pointstamps of a graph is transitive, and that the strict order is
/// transitive if the graph is accepted.
pub fn order_is_transitive()
    ensures could { (g : Dataflow) (s t u : Pointstamp) → CouldResultIn g s t → CouldResultIn g t u
        → CouldResultIn g s u }
    ensures strictly { (g : Dataflow) (s t u : Pointstamp) → IsAccepted g → IsStrictlyBefore g s t
        → IsStrictlyBefore g t u → IsStrictlyBefore g s u }
{
    times_are_ordered();
}
