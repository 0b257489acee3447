//! The step that a line asks for.
ghost use Rattle.std.specs.Prelude.{◌≡◌, Ok, IfOk, IfErr};
ghost use Rattle.serde_json.specs.View.{view};
ghost use Rattle.rewind_forms.specs.Forms.{FailsWith, HidesNoFault};
ghost use Rattle.rewind_forms.specs.Steps.{feed_of as feed_in, take_of as take_in, notice_of as notice_in, later_of as later_in, release_of as release_in, broadcast_of as broadcast_in, part_of as part_in, receive_of as receive_in, epoch_at as epoch_in, next_at as next_in, step_of as step_in, read_of as read_in};
ghost use Rattle.rewind_forms.specs.Fitting.{NamesFit};

use crate::numbers::{integers_at, values_of};
use crate::optional::{boolean_if, numbers_if};
use crate::places::{edge_named, placed, time_of, vertex_named};
use crate::points::{are_known, are_placed, are_points, named_at, points_of};
use crate::sends::{send_of, time_if};
use crate::shapes::alone;
use crate::{LineFault, LineForm, StepForm, Version};
use nd_graph::Graph;
use nd_json::{has_text, integer_at, list_at, small, small_at, text_at};
use nd_protocol::{BoxedTimes, Later, Next, Part, Step, Times};
use nd_time::Timestamp;
use serde_json::Value;
use std::alloc::Global;

// Returns the epoch that the object at the key `next` names.
#[tactic(auto, unfolding(crate::specs::Steps::epoch_at))]
fn epoch_at(value: &Value) -> Option<u32>
    ensures { result ≡ epoch_in (view value.now) }
{
    let shown = value.get("next")?;
    let number = alone(shown, "to")?;
    small(number)
}

// Returns what becomes of the token after a feed, in a script of this version.
#[tactic(auto, unfolding(crate::specs::Steps::next_at))]
fn next_at(version: Version, value: &Value) -> Option<Next>
    ensures { result ≡ next_in version (view value.now) }
{
    if has_text(value, "next", "next") {
        Some(Next::Next)
    } else if has_text(value, "next", "close") {
        Some(Next::Close)
    } else if has_text(value, "next", "stay") {
        Some(Next::Stay)
    } else if version.includes(Version::Fifth) {
        let epoch = epoch_at(value)?;
        Some(Next::To(epoch))
    } else {
        None
    }
}

#[tactic(auto, unfolding(crate::specs::Steps::feed_of))]
fn feed_of(alloc: Global, version: Version, graph: &Graph, value: &Value) -> Result<Step, LineFault>
    ensures ok { IfOk result (λ c. feed_in version graph.now (view value.now) ≡ Ok c) }
    ensures err { IfErr result (FailsWith (feed_in version graph.now (view value.now))) }
    ensures memory { IfErr result (HidesNoFault (feed_in version graph.now (view value.now))) }
{
    let p = small_at(value, "p").ok_or(LineFault::BadShape)?;
    let name = text_at(value, "vertex").ok_or(LineFault::BadShape)?;
    let values = integers_at(value, "values").ok_or(LineFault::BadShape)?;
    let next = next_at(version, value).ok_or(LineFault::BadShape)?;
    let vertex = vertex_named(graph, name).ok_or(LineFault::UnknownName)?;
    let values = values_of(alloc, values)?;
    Ok(Step::Feed {
        p,
        vertex,
        values,
        next,
    })
}

#[tactic(auto, unfolding(crate::specs::Steps::take_of))]
fn take_of(graph: &Graph, value: &Value) -> Result<Step, LineFault>
    ensures { result ≡ take_in graph.now (view value.now) }
{
    let p = small_at(value, "p").ok_or(LineFault::BadShape)?;
    let number = integer_at(value, "value").ok_or(LineFault::BadShape)?;
    let named = named_at(value, "edge").ok_or(LineFault::BadShape)?;
    let edge = edge_named(graph, named.name);
    let point = placed(graph, edge, named.numbers)?;
    Ok(Step::Take {
        p,
        edge: point.location,
        time: point.time,
        value: number,
    })
}

#[tactic(auto, unfolding(crate::specs::Steps::notice_of))]
fn notice_of(graph: &Graph, value: &Value) -> Result<Step, LineFault>
    ensures { result ≡ notice_in graph.now (view value.now) }
{
    let p = small_at(value, "p").ok_or(LineFault::BadShape)?;
    let named = named_at(value, "vertex").ok_or(LineFault::BadShape)?;
    let vertex = vertex_named(graph, named.name);
    let point = placed(graph, vertex, named.numbers)?;
    Ok(Step::Notice {
        p,
        vertex: point.location,
        time: point.time,
    })
}

// Returns the later time at which a capability is held, if there is one.
fn later_of(time: Option<Timestamp>, keep: Option<bool>) -> Option<Later>
    ensures { result ≡ later_in time keep }
{
    let time = time?;
    let keep = keep.unwrap_or(false);
    Some(Later { time, keep })
}

#[tactic(auto, unfolding(crate::specs::Steps::release_of))]
fn release_of(alloc: Global, graph: &Graph, value: &Value) -> Result<Step, LineFault>
    ensures ok { IfOk result (λ c. release_in graph.now (view value.now) ≡ Ok c) }
    ensures err { IfErr result (FailsWith (release_in graph.now (view value.now))) }
    ensures memory { IfErr result (HidesNoFault (release_in graph.now (view value.now))) }
{
    let p = small_at(value, "p").ok_or(LineFault::BadShape)?;
    let named = named_at(value, "vertex").ok_or(LineFault::BadShape)?;
    let numbers = numbers_if(value, "to").ok_or(LineFault::BadShape)?;
    let keep = boolean_if(value, "keep").ok_or(LineFault::BadShape)?;
    let vertex = vertex_named(graph, named.name).ok_or(LineFault::UnknownName)?;
    let time = time_of(graph, vertex, named.numbers).ok_or(LineFault::BadTime)?;
    let later = time_if(graph, vertex, numbers).ok_or(LineFault::BadTime)?;
    let to = later_of(later, keep);
    let times = BoxedTimes::new(alloc, Times { time, to })?;
    Ok(Step::Release { p, vertex, times })
}

// Returns a broadcast of all that is unsent.
#[tactic(auto, unfolding(crate::specs::Steps::broadcast_of))]
fn broadcast_of(value: &Value) -> Result<Step, LineFault>
    ensures { result ≡ broadcast_in (view value.now) }
{
    let p = small_at(value, "p").ok_or(LineFault::BadShape)?;
    Ok(Step::Broadcast { p, part: Part::All })
}

// Returns a broadcast of what is unsent at the pointstamps of a list.
#[tactic(auto, unfolding(crate::specs::Steps::part_of))]
fn part_of(alloc: Global, graph: &Graph, value: &Value) -> Result<Step, LineFault>
    ensures ok { IfOk result (λ c. part_in graph.now (view value.now) ≡ Ok c) }
    ensures err { IfErr result (FailsWith (part_in graph.now (view value.now))) }
    ensures memory { IfErr result (HidesNoFault (part_in graph.now (view value.now))) }
{
    let p = small_at(value, "p").ok_or(LineFault::BadShape)?;
    let items = list_at(value, "part").ok_or(LineFault::BadShape)?;
    if !are_points(items) {
        return Err(LineFault::BadShape);
    }
    if !are_known(graph, items) {
        return Err(LineFault::UnknownName);
    }
    if !are_placed(graph, items) {
        return Err(LineFault::BadTime);
    }
    let points = points_of(alloc, graph, items)?;
    Ok(Step::Broadcast {
        p,
        part: Part::Points(points),
    })
}

#[tactic(auto, unfolding(crate::specs::Steps::receive_of))]
fn receive_of(value: &Value) -> Result<Step, LineFault>
    ensures { result ≡ receive_in (view value.now) }
{
    let from = small_at(value, "from").ok_or(LineFault::BadShape)?;
    let to = small_at(value, "to").ok_or(LineFault::BadShape)?;
    Ok(Step::Receive { from, to })
}

/// Returns the step of this form that the value asks for in a script of this version, for the graph.
#[tactic(auto, unfolding(crate::specs::Steps::broadcast_of, crate::specs::Steps::receive_of))]
pub fn step_of(
    alloc: Global,
    version: Version,
    graph: &Graph,
    form: StepForm,
    value: &Value,
) -> Result<Step, LineFault>
    ensures ok { IfOk result (λ c. step_in version graph.now form (view value.now) ≡ Ok c) }
    ensures err { IfErr result (FailsWith (step_in version graph.now form (view value.now))) }
    ensures memory { IfErr result (HidesNoFault (step_in version graph.now form (view value.now))) }
{
    match form {
        StepForm::Feed => feed_of(alloc, version, graph, value),
        StepForm::Take => take_of(graph, value),
        StepForm::Notice => notice_of(graph, value),
        StepForm::Release => release_of(alloc, graph, value),
        StepForm::Send => send_of(alloc, graph, value),
        StepForm::Broadcast => broadcast_of(value),
        StepForm::Part => part_of(alloc, graph, value),
        StepForm::Receive => receive_of(value),
    }
}

/// Returns the step that the value asks for in a script of version 6 or later, for the graph, or the first of these errors that
/// applies: `BadShape` if it is not a step, `UnknownName`, `BadTime`.
///
/// Returns `Memory` only in place of a step.
#[tactic(auto, unfolding(crate::specs::Steps::read_of))]
pub fn read_step(alloc: Global, graph: &Graph, value: &Value) -> Result<Step, LineFault>
    ensures ok { IfOk result (λ x. read_in graph.now (view value.now) ≡ Ok x) }
    ensures fits { IfOk result (NamesFit graph.now) }
    ensures err { IfErr result (FailsWith (read_in graph.now (view value.now))) }
    ensures memory { IfErr result (HidesNoFault (read_in graph.now (view value.now))) }
{
    match LineForm::of(Version::Sixth, value) {
        Some(LineForm::Step(form)) => step_of(alloc, Version::Sixth, graph, form, value),
        _ => Err(LineFault::BadShape),
    }
}
