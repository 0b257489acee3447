//! The consequence of a take, if there is at most one.
ghost use Rattle.std.specs.Prelude.{◌≡◌, ◌≢◌, ◌<◌, ◌+◌, ◌∷◌, [], IfSome, IsNone, IsSome, length};
ghost use Rattle.std.specs.Ordering.{eq_by_cmp};
ghost use Rattle.nd_time.specs.Limits.{max_locations};
ghost use Rattle.nd_paths.specs.Point.{point_cmp};
ghost use Rattle.nd_steps.specs.Flows.{come_key};
ghost use Rattle.nd_steps.specs.Onward.{leaving};
ghost use Rattle.nd_steps.specs.Performers.{coming, ComesFor, PassesOn, FlowLeads, IsPlainTake};

use crate::consequence::Consequence;
use crate::emit::{destination, first_edge};
use crate::operator::op_at;
use crate::{Performer, Taken};
use nd_graph::{Action, Edge, Route};
use nd_paths::Pointstamp;
use nd_processor::ValueAt;
use nd_vertex::Emission;
use std::alloc::Allocator;

// Returns the one edge that leaves a port of a vertex, by its number among the edges, with its route.
fn only_edge(edges: &[Edge], vertex: usize, port: u32) -> Option<(usize, Route)>
    ensures one { IfSome result (λ r. leaving vertex port 0 edges.now ≡ r ∷ []) }
    ensures there { IfSome result (λ r. r.0 < length edges.now) }
    ensures none { IsNone result → length (leaving vertex port 0 edges.now) ≢ 1 }
{
    let mut only = None;
    for (i, edge) in edges.iter().enumerate() {
        if edge.from == vertex && edge.port == port {
            if only.is_some() {
                return None;
            }
            only = Some((i, edge.route));
        }
    }
    only
}

// Returns the location of an edge, from that of the first edge and the edge's number.
fn edge_at(first: usize, i: usize) -> u32
    requires { first + i < max_locations }
    ensures { result ≡ first + i }
{
    (first + i) as u32
}

// Returns whether two pointstamps are equal.
fn is_at(a: &Pointstamp, b: &Pointstamp) -> bool
    ensures { result ≡ eq_by_cmp point_cmp a.now b.now }
{
    a.cmp(b).is_eq()
}

// Returns whether what arrives for `gone` has the pointstamp of `gone`. A record on another edge needs no key.
fn comes_back(come: &Consequence, gone: &ValueAt) -> bool
    ensures { result ≡ eq_by_cmp point_cmp (come_key gone.now come.now).point gone.now.point }
{
    if let Consequence::Record { edge, .. } = come {
        if *edge as usize != gone.point.location {
            return false;
        }
    }
    is_at(&come.key(gone).point, &gone.point)
}

// Returns the record of an emission on an edge.
fn record_on<B: Allocator>(
    by: &Performer<'_, B>,
    emission: &Emission,
    action: Action,
    edge: u32,
    route: Route,
) -> Consequence
    requires { by.now.p < by.now.n }
    ensures { result ≡ coming by.now action edge route emission.now }
{
    Consequence::Record {
        action,
        p: destination(route, by.n, by.p, emission.value),
        edge,
        value: emission.value,
    }
}

// Returns the record that arrives for `gone`, by the one emission of its target. The record is at another pointstamp, so no place
// occurs twice among the changes.
fn come_by<B: Allocator>(
    by: &Performer<'_, B>,
    gone: &ValueAt,
    emission: &Emission,
) -> Option<Consequence>
    requires { by.now.p < by.now.n }
    ensures comes { IfSome result (ComesFor by.now gone.now emission.now) }
    ensures passes { PassesOn by.now gone.now emission.now → IsSome result }
{
    let action = op_at(by.graph, by.vertex).action();
    let (i, route) = only_edge(by.graph.edges(), by.vertex, emission.port)?;
    let edge = edge_at(first_edge(by.graph), i);
    let _ = emission.time.depth();
    let come = record_on(by, emission, action, edge, route);
    if comes_back(&come, gone) {
        return None;
    }
    Some(come)
}

/// Returns the consequence of a take, if its changes are those of the taken record and of at most one consequence: a record on
/// one edge, or a sink's count. It is never `None` for a plain take.
pub fn take_flow<A: Allocator, B: Allocator>(
    by: &Performer<'_, B>,
    taken: &Taken<'_, A>,
) -> Option<Consequence>
    requires { by.now.p < by.now.n }
    ensures leads { IfSome result (FlowLeads by.now taken.now) }
    ensures plain { IsPlainTake by.now taken.now → IsSome result }
{
    let effect = taken.effect;
    if taken.asks {
        return None;
    }
    let [] = effect.items.as_slice() else {
        return None;
    };
    match effect.emits.as_slice() {
        [] if effect.sink => Some(Consequence::Count { vertex: by.vertex }),
        [] => Some(Consequence::Nothing),
        [emission] if !effect.sink => come_by(by, taken.key, emission),
        _ => None,
    }
}
