//! The records that vertices make, and the processors that they go to.
ghost use Rattle.std.specs.Prelude.{◌≡◌, ◌<◌, ◌≤◌, ◌+◌, OnOk, length};
ghost use Rattle.nd_time.specs.Limits.{max_locations};
ghost use Rattle.nd_protocol.specs.Steps.{destination as destination_of, directed as directed_to};
ghost use Rattle.nd_steps.specs.Drafts.{made_along, made_to, emission_of, values_by, emitted_by};
ghost use Rattle.nd_steps.specs.Performers.{AddsRecords};

use crate::draft::Draft;
use crate::record_at;
use nd_graph::{Edge, Graph, Route};
use nd_time::Timestamp;
use nd_vertex::Emission;
use std::alloc::{AllocError, Allocator};

/// The performer of a step: a vertex of processor `p` out of `n`, with the graph.
pub struct Performer<'a, B: Allocator> {
    pub graph: &'a Graph<B>,
    pub n: u32,
    pub p: u32,
    pub vertex: usize,
}

impl<'a, B: Allocator> Drop for Performer<'a, B> {
    fn drop(self) {
        let Performer {
            graph: _,
            n: _,
            p: _,
            vertex: _,
        } = self;
    }
}

// Returns the processor out of `n` to which a record of `value` from processor `p` goes.
pub(crate) fn destination(route: Route, n: u32, p: u32, value: i64) -> u32
    requires { p < n }
    ensures value { result ≡ destination_of route n p value }
    ensures there { result < n }
{
    match route {
        Route::Local => p,
        Route::Exchange => value.rem_euclid(i64::from(n)) as u32,
    }
}

// Returns the same for a record that goes to the processor `dest`, if one is named: on a local edge the record stays, even if `dest` is given.
fn directed(dest: Option<u32>, route: Route, n: u32, p: u32, value: i64) -> u32
    requires { p < n }
    ensures { result ≡ directed_to dest route n p value }
{
    match (dest, route) {
        (Some(dest), Route::Exchange) => dest,
        _ => destination(route, n, p, value),
    }
}

// Returns the location of the first edge. The vertices come before it.
pub(crate) fn first_edge<B: Allocator>(graph: &Graph<B>) -> usize
    ensures first { result ≡ length graph.now.vertices }
    ensures few { length graph.now.vertices + length graph.now.edges ≤ max_locations }
{
    graph.location_count() - graph.edges().len()
}

// Adds the record of an emission on an edge, if the edge leaves the emission's port; `dest` is the processor to which it goes,
// if one is named.
fn emit_on<A: Allocator + Copy, B: Allocator>(
    by: &Performer<'_, B>,
    dest: Option<u32>,
    emission: &Emission,
    location: usize,
    edge: &Edge,
    draft: &mut Draft<A>,
) -> Result<(), AllocError>
    requires { by.now.p < by.now.n }
    ensures { OnOk result (AddsRecords draft.old draft.new
        (made_along dest by.now.n by.now.p by.now.vertex emission.now location edge.now)) }
{
    if edge.from != by.vertex || edge.port != emission.port {
        return Ok(());
    }
    let to = directed(dest, edge.route, by.n, by.p, emission.value);
    draft.add_record(to, record_at(location, &emission.time, emission.value))
}

// Adds the records of one emission of the vertex: one on each edge that leaves the port.
fn emit<A: Allocator + Copy, B: Allocator>(
    by: &Performer<'_, B>,
    dest: Option<u32>,
    emission: &Emission,
    draft: &mut Draft<A>,
) -> Result<(), AllocError>
    requires { by.now.p < by.now.n }
    ensures { OnOk result (AddsRecords draft.old draft.new
        (made_to dest by.now.graph.now by.now.n by.now.p by.now.vertex emission.now)) }
{
    let first = first_edge(by.graph);
    for (i, edge) in by.graph.edges().iter().enumerate() {
        emit_on(by, dest, emission, first + i, edge, draft)?;
    }
    Ok(())
}

/// Values that a vertex sends at once: those of a feed or of a send.
#[derive(Drop)]
pub(crate) struct Outgoing<'a> {
    /// The output port.
    pub(crate) port: u32,
    /// The time of the records.
    pub(crate) time: &'a Timestamp,
    pub(crate) values: &'a [i64],
    /// The processor to which records on exchange edges go; `None` if their values choose it.
    pub(crate) dest: Option<u32>,
}

impl<'a> Outgoing<'a> {
    // Returns the emission of one of the values.
    fn emission(&self, value: &i64) -> Emission
        ensures { result ≡ emission_of self.now.port self.now.time.now value.now }
    {
        Emission {
            port: self.port,
            time: self.time.copy(),
            value: *value,
        }
    }
}

// Adds the records of the values that the vertex sends.
pub(crate) fn emit_values<A: Allocator + Copy, B: Allocator>(
    by: &Performer<'_, B>,
    outgoing: &Outgoing<'_>,
    draft: &mut Draft<A>,
) -> Result<(), AllocError>
    requires { by.now.p < by.now.n }
    ensures { OnOk result (AddsRecords draft.old draft.new
        (values_by outgoing.now.dest by.now.graph.now by.now.n by.now.p by.now.vertex
        outgoing.now.port outgoing.now.time.now outgoing.now.values.now)) }
{
    for value in outgoing.values {
        emit(by, outgoing.dest, &outgoing.emission(value), draft)?;
    }
    Ok(())
}

// Adds the records of what the vertex emits.
pub(crate) fn emit_all<A: Allocator + Copy, B: Allocator>(
    by: &Performer<'_, B>,
    emissions: &[Emission],
    draft: &mut Draft<A>,
) -> Result<(), AllocError>
    requires { by.now.p < by.now.n }
    ensures { OnOk result (AddsRecords draft.old draft.new
        (emitted_by by.now.graph.now by.now.n by.now.p by.now.vertex emissions.now)) }
{
    for emission in emissions {
        emit(by, None, emission, draft)?;
    }
    Ok(())
}
