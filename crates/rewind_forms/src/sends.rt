//! The send that a line asks for.
ghost use Rattle.std.specs.Prelude.{◌≡◌, ◌<◌, Ok, IfOk, IfErr, map, option_map};
ghost use Rattle.serde_json.specs.View.{view};
ghost use Rattle.nd_json.specs.Forms.{small as small_value};
ghost use Rattle.nd_graph.specs.Graph.{location_count as count_of};
ghost use Rattle.rewind_forms.specs.Forms.{FailsWith, HidesNoFault, all_read, if_any};
ghost use Rattle.rewind_forms.specs.Places.{time_of as time_in};
ghost use Rattle.rewind_forms.specs.Sends.{send_of as send_in};

use crate::LineFault;
use crate::numbers::{integers_at, values_of};
use crate::optional::{numbers_if, small_if};
use crate::places::{time_of, vertex_named};
use crate::points::named_at;
use nd_graph::Graph;
use nd_json::small_at;
use nd_protocol::{Batch, BoxedBatch, Step};
use nd_time::Timestamp;
use serde_json::Value;
use std::alloc::Global;

/// Returns the time of these numbers at a location, if there are numbers; `None` if it has another depth.
pub fn time_if(
    graph: &Graph,
    location: usize,
    numbers: Option<&[Value]>,
) -> Option<Option<Timestamp>>
    requires { location < count_of graph.now }
    ensures { result ≡ if_any (time_in graph.now location)
        (option_map (λ ns. all_read small_value (map view ns.now)) numbers.entry) }
{
    let Some(numbers) = numbers else {
        return Some(None);
    };
    Some(Some(time_of(graph, location, numbers)?))
}

/// Returns the send that the value asks for, for the graph.
#[tactic(auto, unfolding(crate::specs::Sends::send_of))]
pub fn send_of(alloc: Global, graph: &Graph, value: &Value) -> Result<Step, LineFault>
    ensures ok { IfOk result (λ c. send_in graph.now (view value.now) ≡ Ok c) }
    ensures err { IfErr result (FailsWith (send_in graph.now (view value.now))) }
    ensures memory { IfErr result (HidesNoFault (send_in graph.now (view value.now))) }
{
    let p = small_at(value, "p").ok_or(LineFault::BadShape)?;
    let named = named_at(value, "vertex").ok_or(LineFault::BadShape)?;
    let port = small_at(value, "port").ok_or(LineFault::BadShape)?;
    let values = integers_at(value, "values").ok_or(LineFault::BadShape)?;
    let numbers = numbers_if(value, "at").ok_or(LineFault::BadShape)?;
    let dest = small_if(value, "dest").ok_or(LineFault::BadShape)?;
    let vertex = vertex_named(graph, named.name).ok_or(LineFault::UnknownName)?;
    let time = time_of(graph, vertex, named.numbers).ok_or(LineFault::BadTime)?;
    let at = time_if(graph, vertex, numbers).ok_or(LineFault::BadTime)?;
    let values = values_of(alloc, values)?;
    let batch = BoxedBatch::new(
        alloc,
        Batch {
            time,
            at,
            port,
            values,
            dest,
        },
    )?;
    Ok(Step::Send { p, vertex, batch })
}
