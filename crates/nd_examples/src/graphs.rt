//! The graphs of the worked examples, and points and changes by the names of their locations.

use nd_delta::Delta;
use nd_graph::{Action, Graph, GraphDraft};
use nd_paths::{Paths, Pointstamp};
use nd_time::Timestamp;
use serde_json::Value;
use std::alloc::{Allocator, Global};

/// The JSON text of a graph: its vertices, each with its operator, its depth and its number or its ports, and its
/// edges, each from a port of a vertex to a vertex.
macro_rules! graph_text {
    (
        $vertex:ident $op:ident $depth:literal $(k $k:literal)? $(ports $ports:literal)?
        $(
            , $next:ident $next_op:ident $next_depth:literal $(k $next_k:literal)?
            $(ports $next_ports:literal)?
        )*;
        $edge:ident: $from:ident $port:literal -> $to:ident $route:ident
        $(, $more:ident: $more_from:ident $more_port:literal -> $more_to:ident $more_route:ident)*
    ) => {
        concat!(
            "{\"vertices\":[{\"name\":\"", stringify!($vertex), "\",\"op\":\"", stringify!($op),
            "\",\"depth\":", $depth, $(",\"k\":", $k,)? $(",\"ports\":", $ports,)?
            $(
                "},{\"name\":\"", stringify!($next), "\",\"op\":\"", stringify!($next_op),
                "\",\"depth\":", $next_depth, $(",\"k\":", $next_k,)?
                $(",\"ports\":", $next_ports,)?
            )*
            "}],\"edges\":[{\"name\":\"", stringify!($edge), "\",\"from\":\"", stringify!($from),
            "\",\"port\":", $port, ",\"to\":\"", stringify!($to), "\",\"route\":\"", stringify!($route),
            $(
                "\"},{\"name\":\"", stringify!($more), "\",\"from\":\"", stringify!($more_from),
                "\",\"port\":", $more_port, ",\"to\":\"", stringify!($more_to),
                "\",\"route\":\"", stringify!($more_route),
            )*
            "\"}]}"
        )
    };
}

pub const EMPTY: &str = r#"{"vertices":[],"edges":[]}"#;

pub const LINE: &str = graph_text!(a input 0, z sink 0; az: a 0 -> z local);

pub const EXCHANGE: &str = graph_text!(a input 0, z sink 0; az: a 0 -> z exchange);

pub const NESTED_LOOP: &str = graph_text!(
    a input 0, i ingress 0, m add 1 k 0, j ingress 1, f feedback 2, e egress 2, g feedback 1;
    ai: a 0 -> i local, im: i 0 -> m local, mj: m 0 -> j local, jf: j 0 -> f local, fe: f 0 -> e local,
    eg: e 0 -> g local, gm: g 0 -> m local
);

pub const TWO_WAYS: &str = graph_text!(
    a input 0, i ingress 0, x add 1 k 0, e egress 1, j ingress 0, f feedback 1, z sink 1;
    ai: a 0 -> i local, ix: i 0 -> x local, xz: x 0 -> z local, xe: x 0 -> e local, ej: e 0 -> j local,
    jf: j 0 -> f local, fz: f 0 -> z local
);

pub const SUM: &str = graph_text!(
    a input 0, s sum 0, z sink 0; as: a 0 -> s local, sz: s 0 -> z local
);

pub const ADD: &str = graph_text!(
    a input 0, m add 0 k 1, z sink 0; am: a 0 -> m local, mz: m 0 -> z local
);

pub const LOOP: &str = graph_text!(
    a input 0, i ingress 0, m add 1 k 1, s split 1 k 3, f feedback 1, e egress 1, z sink 0;
    ai: a 0 -> i local, im: i 0 -> m local, ms: m 0 -> s local, sf: s 0 -> f local, fm: f 0 -> m local,
    se: s 1 -> e local, ez: e 0 -> z local
);

/// A loop that a value leaves after a million turns.
pub const ENDLESS: &str = graph_text!(
    a input 0, i ingress 0, m add 1 k 1, s split 1 k 1000000, f feedback 1, e egress 1, z sink 0;
    ai: a 0 -> i local, im: i 0 -> m local, ms: m 0 -> s local, sf: s 0 -> f local, fm: f 0 -> m local,
    se: s 1 -> e local, ez: e 0 -> z local
);

pub const DISTINCT: &str = graph_text!(
    a input 0, d distinct 0, z sink 0; ad: a 0 -> d local, dz: d 0 -> z local
);

pub const SPLIT: &str = graph_text!(
    a input 0, p split 0 k 0, y sink 0, z sink 0; ap: a 0 -> p local, py: p 0 -> y local, pz: p 1 -> z local
);

pub const FILTER: &str = graph_text!(
    a input 0, m mul 0 k 2, b below 0 k 5, z sink 0;
    am: a 0 -> m local, mb: m 0 -> b local, bz: b 0 -> z local
);

/// A vertex that holds a capability at each time at which it got a record.
pub const HELD: &str = graph_text!(
    a input 0, h hold 0, z sink 0; ah: a 0 -> h local, hz: h 0 -> z local
);

pub const TRACED: &str = graph_text!(
    a input 0, x opaque 0 ports 2, y sink 0, z sink 0;
    ax: a 0 -> x local, xy: x 0 -> y local, xz: x 1 -> z local
);

/// Returns the graph of a JSON text.
pub fn graph_of<A: Allocator + Copy>(json: Global, alloc: A, text: &str) -> Option<Graph<A>> {
    let value = Value::from_str(json, text).ok()?;
    let draft = GraphDraft::from_value(alloc, &value).ok()?;
    draft.check(alloc).ok()
}

/// Returns the order of the pointstamps of a graph.
pub fn paths_of<A: Allocator + Copy>(json: Global, alloc: A, text: &str) -> Option<Paths<A>> {
    let graph = graph_of(json, alloc, text)?;
    Paths::of(alloc, &graph).ok()
}

/// Returns the time of a list: the epoch and then the counters.
pub fn time(list: &[u32]) -> Option<Timestamp> {
    let (epoch, counters) = list.split_first()?;
    Timestamp::new(*epoch, counters)
}

/// Returns the pointstamp at the location of a name.
pub fn point<A: Allocator>(graph: &Graph<A>, name: &str, list: &[u32]) -> Option<Pointstamp> {
    Pointstamp::new(graph, graph.location_of(name)?, time(list)?)
}

/// An entry of a change outside all loops: a location's name, an epoch and a number.
pub type Entry = (&'static str, u32, i64);

/// Returns the change of these entries.
pub fn change<A: Allocator + Copy>(
    alloc: A,
    graph: &Graph<A>,
    entries: &[Entry],
) -> Option<Delta<A>> {
    let mut change = Delta::new(alloc);
    for (name, epoch, n) in entries {
        let point = point(graph, name, &[*epoch])?;
        change.add(&point, *n).ok()?;
    }
    Some(change)
}

// Returns whether the point and the number are those of the entry.
fn is_entry<A: Allocator>(graph: &Graph<A>, found: &(Pointstamp, i64), entry: &Entry) -> bool {
    let (name, epoch, n) = entry;
    match point(graph, name, &[*epoch]) {
        Some(point) => found.0 == point && found.1 == *n,
        None => false,
    }
}

/// Returns whether these entries were found, in this order.
pub fn are_entries<A: Allocator>(
    graph: &Graph<A>,
    found: &[(Pointstamp, i64)],
    entries: &[Entry],
) -> bool {
    for (found, entry) in found.iter().zip(entries) {
        if !is_entry(graph, found, entry) {
            return false;
        }
    }
    found.len() == entries.len()
}
