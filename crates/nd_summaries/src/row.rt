//! The summaries of the walks from one location, found round by round.
ghost use Rattle.std.specs.Prelude.{◌≡◌, ◌+◌, ◌*◌, ◌<◌, ◌≤◌, [], IfOk, length, replicate};
ghost use Rattle.nd_time.specs.Limits.{max_locations};
ghost use Rattle.nd_graph.specs.Graph.{arcs as arcs_of, depths as depths_of};
ghost use Rattle.nd_summaries.specs.Steps.{keeps};
ghost use Rattle.nd_summaries.specs.Row.{listed, CanFollow, Reaches, IsRound, IsRow};

use crate::Summary;
use crate::list::SummaryList;
use crate::outgoing::Outgoing;
use nd_graph::Graph;
use nd_time::TimeOrder;
use nd_time::limits::MAX_DEPTH;
use std::alloc::{AllocError, Allocator};

/// The number of values of `keep`: a walk keeps 0 to `MAX_DEPTH` counters.
pub const KEEPS: usize = MAX_DEPTH + 1;

/// The summary of a walk that leads to a location.
#[derive(Drop)]
pub struct Reached {
    location: usize,
    summary: Summary,
}

// Adds a summary to a location's list, unless one of the list is at most it.
fn reach<A: Allocator + Copy>(
    alloc: A,
    order: TimeOrder,
    row: &mut [SummaryList<A>],
    next: &mut Vec<Reached, A>,
    location: usize,
    summary: Summary,
) -> Result<(), AllocError>
    requires { location < length row.old }
    ensures { IfOk result (λ _.
        Reaches order row.old row.new next.old.items next.new.items location summary) }
{
    if row[location].covers(&summary, order) {
        return Ok(());
    }
    row[location].add(alloc, &summary, order)?;
    next.push(Reached { location, summary })?;
    Ok(())
}

// Extends each summary that the last round found by each arc out of its location. Returns what is new.
fn round<A: Allocator + Copy>(
    alloc: A,
    order: TimeOrder,
    out: &Outgoing<A>,
    row: &mut [SummaryList<A>],
    last: &[Reached],
) -> Result<Vec<Reached, A>, AllocError>
    requires { CanFollow out.now (length row.old) last.now }
    ensures { IfOk result (λ next. IsRound order out.now row.old row.new last.now next.items) }
{
    let mut next = Vec::new(alloc);
    'items: for reached in last {
        let arcs = out.leaving(reached.location);
        'arcs: for arc in arcs {
            let summary = reached.summary.past(arc.action);
            reach(alloc, order, row, &mut next, arc.to, summary)?;
        }
    }
    Ok(next)
}

// Returns a list without summaries for each location.
fn empty_row<A: Allocator + Copy>(
    alloc: A,
    count: usize,
) -> Result<Vec<SummaryList<A>, A>, AllocError>
    ensures { IfOk result (λ row. row.items ≡ replicate count []) }
{
    let mut row = Vec::with_capacity(alloc, count)?;
    for _place in 0..count {
        row.push(SummaryList::new(alloc))?;
    }
    Ok(row)
}

// Fills an empty row: finds the minimal summaries of the walks from a location to each location. In each round only the
// summaries that the last round found are extended.
fn fill<A: Allocator + Copy>(
    alloc: A,
    order: TimeOrder,
    graph: &Graph<A>,
    out: &Outgoing<A>,
    from: usize,
    row: &mut [SummaryList<A>],
) -> Result<(), AllocError>
    requires from { from < length (depths_of graph.now) }
    requires out { out.now ≡ arcs_of graph.now }
    requires empty { row.old ≡ replicate (length (depths_of graph.now)) [] }
    ensures { IfOk result (λ _. IsRow order graph.now from row.new) }
{
    let depths = graph.depths();
    let _ = graph.all_arcs();
    let mut last = Vec::new(alloc);
    let start = Summary::identity(depths[from]);
    reach(alloc, order, row, &mut last, from, start)?;
    'rounds: for _round in 0..depths.len() * KEEPS {
        if last.is_empty() {
            return Ok(());
        }
        let next = round(alloc, order, out, row, &last)?;
        last = next;
    }
    Ok(())
}

/// Returns the minimal summaries of the walks from a location to each location.
pub fn row_of<A: Allocator + Copy>(
    alloc: A,
    order: TimeOrder,
    graph: &Graph<A>,
    out: &Outgoing<A>,
    from: usize,
) -> Result<Vec<SummaryList<A>, A>, AllocError>
    requires from { from < length (depths_of graph.now) }
    requires out { out.now ≡ arcs_of graph.now }
    ensures { IfOk result (λ row. IsRow order graph.now from row.items) }
{
    let mut row = empty_row(alloc, graph.depths().len())?;
    fill(alloc, order, graph, out, from, &mut row)?;
    Ok(row)
}
