//! The table of a graph, made row by row.
ghost use Rattle.std.specs.Prelude.{◌≡◌, ◌+◌, ◌≤◌, ◌<◌, ◌↔◌, IsTrue, IfOk, IfErr, All, length};
ghost use Rattle.nd_time.specs.Order.{AreAtMost};
ghost use Rattle.nd_summaries.specs.Summary.{applied};
ghost use Rattle.nd_summaries.specs.Walk.{HasDepth};
ghost use Rattle.nd_summaries.specs.Fault.{IsFault};
ghost use Rattle.nd_summaries.specs.Table.{IsTable, SomeLeads, Fit};

use crate::Summary;
use crate::accept::{PathFault, shows_fail};
use crate::list::SummaryList;
use crate::numbers::Numbers;
use crate::outgoing::Outgoing;
use crate::row::row_of;
use crate::shared::Shared;
use nd_graph::Graph;
use nd_time::{TimeOrder, Timestamp};
use std::alloc::{Allocator, Global};

/// Lists of summaries, each different one once, and for each location a row with the numbers of its lists.
pub struct Table<A: Allocator = Global> {
    pub lists: Vec<SummaryList<A>, A>,
    pub rows: Vec<Numbers<A>, A>,
}

/// Returns the table of a graph, or the least location from which a closed walk fails.
pub fn table_of<A: Allocator + Copy>(alloc: A, graph: &Graph<A>) -> Result<Table<A>, PathFault>
    ensures table { IfOk result
        (λ t. IsTable graph.now.order graph.now t.lists.items t.rows.items) }
    ensures fault { IfErr result (λ e. IsFault graph.now e) }
{
    let order = graph.order();
    let depths = graph.depths();
    // The action of each arc agrees with the depths of its ends.
    let _ = graph.all_arcs();
    let out = Outgoing::of(alloc, graph)?;
    let mut shared = Shared::new(alloc)?;
    let mut rows = Vec::new(alloc);
    for location in 0..depths.len() {
        let row = row_of(alloc, order, graph, &out, location)?;
        if shows_fail(&row, graph, location) {
            return Err(PathFault::LoopNotStrict { location });
        }
        let numbers = shared.numbers(alloc, &row)?;
        match rows.push(numbers) {
            Ok(()) => {}
            Err(_) => return Err(PathFault::Memory),
        }
    }
    let lists = shared.into_lists();
    Ok(Table { lists, rows })
}

/// Returns whether the graph has the location, at the depth of the time.
pub fn has_depth<A: Allocator>(graph: &Graph<A>, location: usize, time: &Timestamp) -> bool
    ensures { IsTrue result ↔ HasDepth graph.now location (length time.now.counters) }
{
    location < graph.location_count() && graph.location_depth(location) == time.depth()
}

/// Returns whether one of the summaries turns the counters of one time into some that are at most those of the other.
pub fn leads_among(list: &[Summary], from: &[u32], to: &[u32], order: TimeOrder) -> bool
    requires { All (Fit (length from.now) (length to.now)) list.now }
    ensures { IsTrue result ↔ SomeLeads order list.now from.now to.now }
{
    for summary in list {
        if summary.leads(from, to, order) {
            return true;
        }
    }
    false
}
