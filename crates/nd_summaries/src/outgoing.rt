//! The arcs of a graph, by the locations that they leave.
ghost use Rattle.std.specs.Prelude.{◌≡◌, IfOk};
ghost use Rattle.nd_graph.specs.Graph.{arcs as arcs_of};
ghost use Rattle.nd_summaries.specs.Row.{leaving as leaving_of, AreLeaving};

use nd_graph::{Arc, Graph};
use std::alloc::{AllocError, Allocator, Global};
use std::marker::Model;

/// The arcs of a graph, in a list for each location that they leave.
pub struct Outgoing<A: Allocator = Global> {
    arcs: Vec<Arc, A>,
    leaving: Vec<Vec<Arc, A>, A>,
}

impl<A: Allocator> Drop for Outgoing<A> {
    fn drop(self) {
        let Outgoing {
            arcs: _,
            leaving: _,
        } = self;
    }
}

impl<A: Allocator> Model for Outgoing<A> {
    ghost use Rattle.std.specs.Prelude.{List};
    ghost use Rattle.nd_graph.specs.declared.graph.Arc.{Arc};
    ghost use Rattle.nd_summaries.specs.Row.{AreLeaving};

    ghost Value = { List Arc };

    ghost view = { λ a. a.arcs.items };

    ghost invariant = { λ a. AreLeaving a.arcs.items a.leaving.items };
}

impl<A: Allocator> Outgoing<A> {
    /// Returns the arcs of a graph.
    pub fn of(alloc: A, graph: &Graph<A>) -> Result<Outgoing<A>, AllocError>
    where
        A: Copy,
        ensures { IfOk result (λ o. o ≡ arcs_of graph.now) }
    {
        let arcs = Vec::from_slice(alloc, graph.all_arcs())?;
        let leaving = all_leaving(alloc, graph)?;
        Ok(Outgoing { arcs, leaving })
    }

    /// Returns the arcs that leave a location.
    pub fn leaving(&self, location: usize) -> &[Arc]
        ensures { result.now ≡ leaving_of location self.now }
    {
        if location >= self.leaving.len() {
            return &[];
        }
        self.leaving[location].as_slice()
    }
}

// Returns the arcs that leave each location of a graph.
fn all_leaving<A: Allocator + Copy>(
    alloc: A,
    graph: &Graph<A>,
) -> Result<Vec<Vec<Arc, A>, A>, AllocError>
    ensures { IfOk result (λ rows. AreLeaving (arcs_of graph.now) rows.items) }
{
    let arcs = graph.all_arcs();
    let mut rows = Vec::new(alloc);
    for location in 0..graph.depths().len() {
        let row = those_leaving(alloc, arcs, location)?;
        rows.push(row)?;
    }
    Ok(rows)
}

// Returns the arcs of a list that leave a location.
fn those_leaving<A: Allocator>(
    alloc: A,
    arcs: &[Arc],
    location: usize,
) -> Result<Vec<Arc, A>, AllocError>
    ensures { IfOk result (λ row. row.items ≡ leaving_of location arcs.now) }
{
    let mut row = Vec::new(alloc);
    for arc in arcs {
        if arc.from == location {
            row.push(*arc)?;
        }
    }
    Ok(row)
}
