//! Which graphs are accepted: every walk around a loop makes the time later.
ghost use Rattle.std.specs.Prelude.{◌≡◌, ◌<◌, ◌≤◌, MatchBool, length};
ghost use Rattle.nd_graph.specs.Graph.{arcs as arcs_of, depths as depths_of};
ghost use Rattle.nd_summaries.specs.Row.{listed, Closes, ShowsFail};
ghost use Rattle.nd_summaries.specs.declared.accept.PathFault.TheVariants.{Memory};

use crate::list::SummaryList;
use nd_graph::{Arc, Graph};
use std::alloc::{AllocError, Allocator};
use thiserror::Error;

/// Why a graph is not accepted.
#[derive(Clone, Copy, Debug, PartialEq, Eq, Drop, Error)]
pub enum PathFault {
    /// A closed, non-empty walk from this location turns some time into one at or before it. No earlier location has
    /// such a walk.
    #[error("a loop through location {location} does not increase every time")]
    LoopNotStrict { location: usize },
    /// Out of memory.
    #[error("out of memory")]
    Memory,
}

impl From<AllocError> for PathFault {
    ghost from_gives = { λ _ e. e ≡ Memory };

    fn from(_error: AllocError) -> Self {
        PathFault::Memory
    }
}

/// Returns whether a closed walk from the location of the row fails.
pub fn shows_fail<A: Allocator>(row: &[SummaryList<A>], graph: &Graph<A>, location: usize) -> bool
    requires { length row.now ≡ length (depths_of graph.now) }
    ensures { MatchBool result (ShowsFail (arcs_of graph.now) location row.now)
        (ShowsFail (arcs_of graph.now) location row.now → ⊥) }
{
    for arc in graph.all_arcs() {
        if arc.to == location && closes(&row[arc.from], *arc) {
            return true;
        }
    }
    false
}

// Returns whether one of the summaries, extended by the arc, adds nothing.
fn closes<A: Allocator>(list: &SummaryList<A>, arc: Arc) -> bool
    ensures { MatchBool result (Closes list.now arc) (Closes list.now arc → ⊥) }
{
    for summary in list.as_slice() {
        if summary.adds_nothing(arc.action) {
            return true;
        }
    }
    false
}
