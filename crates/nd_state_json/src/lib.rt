//! The state of a cluster and its parts as JSON, with the names of locations, sent to a serializer.
#![tactic(auto)]

ghost use Rattle.std.specs.Prelude.{◌≡◌};
ghost use Rattle.nd_state_json.specs.StateText.{name_at as name_in};

mod laws;
mod sent;
mod state;

pub use laws::values_determine_states;
use nd_graph::Graph;
pub use sent::{send_entries, send_integer, send_name, send_time};
pub use state::{send_counts, send_state};
use std::alloc::Allocator;

/// Returns the name of a location, or an empty text if there is no such location.
pub fn name_at<A: Allocator>(graph: &Graph<A>, location: usize) -> &str
    ensures { result.now ≡ name_in graph.now location }
{
    if location < graph.location_count() {
        graph.location_name(location)
    } else {
        ""
    }
}
