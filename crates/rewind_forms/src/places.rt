//! The locations of a graph, by their names, and times there.
ghost use Rattle.std.specs.Prelude.{◌≡◌, ◌<◌, ◌∷◌, IfSome, map};
ghost use Rattle.serde_json.specs.View.{view};
ghost use Rattle.nd_json.specs.Forms.{small as small_in};
ghost use Rattle.nd_graph.specs.Graph.{location_count as count_of};
ghost use Rattle.rewind_forms.specs.Forms.{all_read};
ghost use Rattle.rewind_forms.specs.Places.{vertex_named as vertex_in, edge_named as edge_in, location_named as location_in, time_of as time_in, placed as placed_in};

use crate::LineFault;
use crate::numbers::time_numbers;
use nd_graph::Graph;
use nd_paths::Pointstamp;
use nd_time::Timestamp;
use serde_json::Value;

/// Returns the location of this name.
#[tactic(auto, unfolding(crate::specs::Places::location_named))]
pub fn location_named(graph: &Graph, name: &str) -> Option<usize>
    ensures place { result ≡ location_in graph.now name.now }
    ensures there { IfSome result (λ l. l < count_of graph.now) }
{
    graph.location_of(name)
}

/// Returns the location of the vertex of this name.
#[tactic(auto, unfolding(crate::specs::Places::vertex_named))]
pub fn vertex_named(graph: &Graph, name: &str) -> Option<usize>
    ensures place { result ≡ vertex_in graph.now name.now }
    ensures there { IfSome result (λ l. l < count_of graph.now) }
{
    let location = location_named(graph, name)?;
    if location < graph.vertices().len() {
        Some(location)
    } else {
        None
    }
}

/// Returns the location of the edge of this name.
#[tactic(auto, unfolding(crate::specs::Places::edge_named))]
pub fn edge_named(graph: &Graph, name: &str) -> Option<usize>
    ensures place { result ≡ edge_in graph.now name.now }
    ensures there { IfSome result (λ l. l < count_of graph.now) }
{
    let location = location_named(graph, name)?;
    if location < graph.vertices().len() {
        None
    } else {
        Some(location)
    }
}

// Returns the time of an epoch and counters, if it has the depth of the location.
#[tactic(auto, unfolding(crate::specs::Places::time_of))]
fn time_at(graph: &Graph, location: usize, epoch: &Value, counters: &[Value]) -> Option<Timestamp>
    requires { location < count_of graph.now }
    ensures { result ≡ time_in graph.now location
        (all_read small_in (view epoch.now ∷ map view counters.now)) }
{
    if counters.len() != graph.location_depth(location) {
        return None;
    }
    let (epoch, counters) = time_numbers(epoch, counters)?;
    Timestamp::new(epoch, counters.as_slice())
}

/// Returns the time of these numbers, an epoch and then counters, if it has the depth of the location.
#[tactic(auto, unfolding(crate::specs::Places::time_of))]
pub fn time_of(graph: &Graph, location: usize, numbers: &[Value]) -> Option<Timestamp>
    requires { location < count_of graph.now }
    ensures { result ≡ time_in graph.now location (all_read small_in (map view numbers.now)) }
{
    let (epoch, counters) = numbers.split_first()?;
    time_at(graph, location, epoch, counters)
}

/// Returns the pointstamp at the location that was found for a name, with the time of these numbers.
#[tactic(auto, unfolding(crate::specs::Places::placed))]
pub fn placed(
    graph: &Graph,
    found: Option<usize>,
    numbers: &[Value],
) -> Result<Pointstamp, LineFault>
    requires { IfSome found (λ l. l < count_of graph.now) }
    ensures { result
        ≡ placed_in graph.now found (all_read small_in (map view numbers.now)) }
{
    let location = found.ok_or(LineFault::UnknownName)?;
    let time = time_of(graph, location, numbers).ok_or(LineFault::BadTime)?;
    Ok(Pointstamp { location, time })
}
