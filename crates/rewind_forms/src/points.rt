//! Pointstamps among JSON values: by their names and numbers first, and then by their locations and times.
ghost use Rattle.std.specs.Prelude.{◌≡◌, map, option_map, IfOk};
ghost use Rattle.serde_json.specs.View.{view};
ghost use Rattle.rewind_forms.specs.Forms.{all_read, are_read, name_and_numbers, named_time as named_time_in, point_of as point_in, point_at as point_at_in, listed_point as listed_in, named_at as named_at_in};
ghost use Rattle.rewind_forms.specs.Places.{listed_location as location_in, placed_point as placed_in, point_there as there_in};

use crate::LineFault;
use crate::numbers::{numbers_at, numbers_of};
use crate::places::{location_named, placed, time_of};
use nd_graph::Graph;
use nd_json::{list, list_at, text, text_at};
use nd_paths::Pointstamp;
use nd_protocol::Points;
use serde_json::Value;
use std::alloc::{AllocError, Global};

/// A name, and the numbers of a time.
#[derive(Drop)]
pub struct NamedTime<'v> {
    pub name: &'v str,
    pub numbers: &'v [Value],
}

// Returns two values as a name and the numbers of a time.
#[tactic(auto, unfolding(crate::specs::Forms::named_time))]
fn named_time<'v>(name: &'v Value, time: &'v Value) -> Option<NamedTime<'v>>
    ensures { option_map name_and_numbers result ≡ named_time_in (view name.now, view time.now) }
{
    let name = text(name)?;
    let numbers = numbers_of(list(time)?)?;
    Some(NamedTime { name, numbers })
}

/// Returns the name at the key, and the numbers of the time at the key `time`.
#[tactic(auto, unfolding(crate::specs::Forms::named_at))]
pub fn named_at<'v>(value: &'v Value, key: &str) -> Option<NamedTime<'v>>
    ensures { option_map name_and_numbers result ≡ named_at_in key.now (view value.now) }
{
    let name = text_at(value, key)?;
    let numbers = numbers_at(value, "time")?;
    Some(NamedTime { name, numbers })
}

// Returns the items as a pointstamp: its name and its numbers.
#[tactic(auto, unfolding(crate::specs::Forms::point_of))]
fn point_of(items: &[Value]) -> Option<NamedTime<'_>>
    ensures { option_map name_and_numbers result ≡ point_in (map view items.now) }
{
    match items {
        [name, time] => named_time(name, time),
        _ => None,
    }
}

/// Returns the pointstamp at the key, by its name and its numbers.
#[tactic(auto, unfolding(crate::specs::Forms::point_at))]
pub fn point_at<'v>(value: &'v Value, key: &str) -> Option<NamedTime<'v>>
    ensures { option_map name_and_numbers result ≡ point_at_in key.now (view value.now) }
{
    point_of(list_at(value, key)?)
}

// Returns the value as a pointstamp: its name and its numbers.
#[tactic(auto, unfolding(crate::specs::Forms::listed_point))]
fn listed_point(value: &Value) -> Option<NamedTime<'_>>
    ensures { option_map name_and_numbers result ≡ listed_in (view value.now) }
{
    point_of(list(value)?)
}

/// Returns whether each item is a pointstamp by its name and its numbers.
pub fn are_points(items: &[Value]) -> bool
    ensures { result ≡ are_read listed_in (map view items.now) }
{
    for item in items {
        if listed_point(item).is_none() {
            return false;
        }
    }
    true
}

// Returns the location that the value names before the numbers of a time.
#[tactic(auto, unfolding(crate::specs::Places::listed_location))]
fn listed_location(graph: &Graph, value: &Value) -> Option<usize>
    ensures { result ≡ location_in graph.now (view value.now) }
{
    let named = listed_point(value)?;
    location_named(graph, named.name)
}

/// Returns whether each item names a location.
pub fn are_known(graph: &Graph, items: &[Value]) -> bool
    ensures { result ≡ are_read (location_in graph.now) (map view items.now) }
{
    for item in items {
        if listed_location(graph, item).is_none() {
            return false;
        }
    }
    true
}

// Returns the pointstamp of the graph that the value describes.
#[tactic(auto, unfolding(crate::specs::Places::placed_point, crate::specs::Places::point_named))]
fn placed_point(graph: &Graph, value: &Value) -> Option<Pointstamp>
    ensures { result ≡ placed_in graph.now (view value.now) }
{
    let named = listed_point(value)?;
    let location = location_named(graph, named.name)?;
    let time = time_of(graph, location, named.numbers)?;
    Some(Pointstamp { location, time })
}

/// Returns whether each item is a pointstamp of the graph.
pub fn are_placed(graph: &Graph, items: &[Value]) -> bool
    ensures { result ≡ are_read (placed_in graph.now) (map view items.now) }
{
    for item in items {
        if placed_point(graph, item).is_none() {
            return false;
        }
    }
    true
}

/// Returns the items as pointstamps; nothing if one of them is not a pointstamp of the graph.
pub fn points_of(alloc: Global, graph: &Graph, items: &[Value]) -> Result<Points, AllocError>
    ensures { IfOk result (λ v. v ≡ all_read (placed_in graph.now) (map view items.now)) }
{
    let mut points = Points::new(alloc);
    for item in items {
        let Some(point) = placed_point(graph, item) else {
            return Ok(Points::new(alloc));
        };
        points.push(point)?;
    }
    Ok(points)
}

/// Returns the pointstamp with its location's name at the key `at` and its time at the key `time`.
#[tactic(auto, unfolding(crate::specs::Places::point_there))]
pub fn point_there(graph: &Graph, value: &Value) -> Result<Pointstamp, LineFault>
    ensures { result ≡ there_in graph.now (view value.now) }
{
    let named = named_at(value, "at").ok_or(LineFault::BadShape)?;
    let location = location_named(graph, named.name);
    placed(graph, location, named.numbers)
}
