//! What one atom of a condition says.
ghost use Rattle.std.specs.Prelude.{◌≡◌};
ghost use Rattle.serde_json.specs.View.{view};
ghost use Rattle.rewind_forms.specs.Atoms.{passed_of as passed_in, count_of as count_in, queue_of as queue_in, sink_of as sink_in, first_atom_of as first_in, finished_of as finished_in, view_of as view_in, held_of as held_in, fourth_atom_of as fourth_in, atom_of as atom_in};

use crate::places::vertex_named;
use crate::points::point_there;
use crate::shapes::inner;
use crate::{LineFault, Version};
use nd_breaks::Atom;
use nd_graph::Graph;
use nd_json::{integer_at, small_at, text_at, whole_at};
use serde_json::Value;

#[tactic(auto, unfolding(crate::specs::Atoms::passed_of))]
fn passed_of(graph: &Graph, value: &Value) -> Result<Atom, LineFault>
    ensures { result ≡ passed_in graph.now (view value.now) }
{
    let q = small_at(value, "q").ok_or(LineFault::BadShape)?;
    let point = point_there(graph, value)?;
    Ok(Atom::Passed { q, point })
}

#[tactic(auto, unfolding(crate::specs::Atoms::count_of))]
fn count_of(graph: &Graph, value: &Value) -> Result<Atom, LineFault>
    ensures { result ≡ count_in graph.now (view value.now) }
{
    let at_least = whole_at(value, "at_least").ok_or(LineFault::BadShape)?;
    let point = point_there(graph, value)?;
    Ok(Atom::Count { point, at_least })
}

fn queue_of(value: &Value) -> Result<Atom, LineFault>
    ensures { result ≡ queue_in (view value.now) }
{
    let at_least = whole_at(value, "at_least").ok_or(LineFault::BadShape)?;
    let from = small_at(value, "from").ok_or(LineFault::BadShape)?;
    let to = small_at(value, "to").ok_or(LineFault::BadShape)?;
    Ok(Atom::Queue { from, to, at_least })
}

fn sink_of(graph: &Graph, value: &Value) -> Result<Atom, LineFault>
    ensures { result ≡ sink_in graph.now (view value.now) }
{
    let at_least = whole_at(value, "at_least").ok_or(LineFault::BadShape)?;
    let number = integer_at(value, "value").ok_or(LineFault::BadShape)?;
    let name = text_at(value, "vertex").ok_or(LineFault::BadShape)?;
    let vertex = vertex_named(graph, name).ok_or(LineFault::UnknownName)?;
    Ok(Atom::Sink {
        vertex,
        value: number,
        at_least,
    })
}

#[tactic(auto, unfolding(crate::specs::Atoms::finished_of))]
fn finished_of(graph: &Graph, value: &Value) -> Result<Atom, LineFault>
    ensures { result ≡ finished_in graph.now (view value.now) }
{
    let point = point_there(graph, value)?;
    Ok(Atom::Finished { point })
}

#[tactic(auto, unfolding(crate::specs::Atoms::view_of))]
fn view_of(graph: &Graph, value: &Value) -> Result<Atom, LineFault>
    ensures { result ≡ view_in graph.now (view value.now) }
{
    let at_least = integer_at(value, "at_least").ok_or(LineFault::BadShape)?;
    let q = small_at(value, "q").ok_or(LineFault::BadShape)?;
    let point = point_there(graph, value)?;
    Ok(Atom::View { q, point, at_least })
}

#[tactic(auto, unfolding(crate::specs::Atoms::held_of))]
fn held_of(graph: &Graph, value: &Value) -> Result<Atom, LineFault>
    ensures { result ≡ held_in graph.now (view value.now) }
{
    let at_least = whole_at(value, "at_least").ok_or(LineFault::BadShape)?;
    let p = small_at(value, "p").ok_or(LineFault::BadShape)?;
    let point = point_there(graph, value)?;
    Ok(Atom::Held { p, point, at_least })
}

/// Reads the atom that the value describes, for the graph; only the kinds that every version has.
#[tactic(auto, unfolding(crate::specs::Atoms::first_atom_of))]
pub fn first_atom_of(graph: &Graph, value: &Value) -> Result<Atom, LineFault>
    ensures { result ≡ first_in graph.now (view value.now) }
{
    if let Some(shown) = inner(value, "passed", &["at", "q", "time"]) {
        passed_of(graph, shown)
    } else if let Some(shown) = inner(value, "count", &["at", "at_least", "time"]) {
        count_of(graph, shown)
    } else if let Some(shown) = inner(value, "queue", &["at_least", "from", "to"]) {
        queue_of(shown)
    } else if let Some(shown) = inner(value, "sink", &["at_least", "value", "vertex"]) {
        sink_of(graph, shown)
    } else {
        Err(LineFault::BadShape)
    }
}

// Reads the atom that the value describes, for the graph; only the kinds that the fourth version has.
#[tactic(auto, unfolding(crate::specs::Atoms::fourth_atom_of))]
fn fourth_atom_of(graph: &Graph, value: &Value) -> Result<Atom, LineFault>
    ensures { result ≡ fourth_in graph.now (view value.now) }
{
    if let Some(shown) = inner(value, "finished", &["at", "time"]) {
        finished_of(graph, shown)
    } else if let Some(shown) = inner(value, "view", &["at", "at_least", "q", "time"]) {
        view_of(graph, shown)
    } else {
        first_atom_of(graph, value)
    }
}

/// Reads the atom that the value describes in a script of this version, which is at least the fourth, for the graph.
#[tactic(auto, unfolding(crate::specs::Atoms::atom_of))]
pub fn atom_of(version: Version, graph: &Graph, value: &Value) -> Result<Atom, LineFault>
    ensures { result ≡ atom_in version graph.now (view value.now) }
{
    if version.includes(Version::Ninth) {
        if let Some(shown) = inner(value, "held", &["at", "at_least", "p", "time"]) {
            return held_of(graph, shown);
        }
    }
    fourth_atom_of(graph, value)
}
