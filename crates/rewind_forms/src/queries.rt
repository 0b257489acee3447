//! Queries: lines that ask for information.
ghost use Rattle.std.specs.Prelude.{◌≡◌};
ghost use Rattle.serde_json.specs.View.{view};
ghost use Rattle.rewind_forms.specs.Queries.{count_of as count_in, before_of as before_in, view_of as view_in, frontier_of as frontier_in, passed_of as passed_in, search_of as search_in, query_of as query_in};
ghost use Rattle.rewind_forms.specs.Queries.{changes_of as changes_in, kept_step_of as kept_step_in, effect_of as effect_in, turns_of as turns_in, frontier_at_of as frontier_at_in, extent_of as extent_in, why_of as why_in, reach_of as reach_in};

use crate::allowed::NOTHING;
use crate::conditions::condition_of;
use crate::optional::{allowed_if, boolean_if, whole_if};
use crate::places::{location_named, time_of};
use crate::points::{point_at, point_there};
use crate::{LineFault, QueryForm, Version};
use nd_breaks::Condition;
use nd_cluster::{Allowed, Extent, Question};
use nd_graph::Graph;
use nd_json::{small_at, text_at, whole_at};
use nd_paths::Pointstamp;
use serde_json::Value;

/// A search of the positions from `lo` to `hi`, both included, for the least at which a condition holds.
#[derive(Drop)]
pub struct Search {
    pub when: Condition,
    pub lo: u64,
    pub hi: u64,
    pub workers: u64,
}

/// The positions after `lo` and up to `hi` at which a condition began or ceased to hold.
#[derive(Drop)]
pub struct ConditionTurns {
    pub when: Condition,
    pub lo: u64,
    pub hi: u64,
}

/// The changes of processor `q`'s view of a pointstamp, at the positions after `lo` and up to `hi`.
#[derive(Drop)]
pub struct ViewChanges {
    pub q: u32,
    pub point: Pointstamp,
    pub lo: u64,
    pub hi: u64,
}

/// A search for the shortest list of moves from the cursor to a state at which a condition holds, among the first `limit` states.
#[derive(Drop)]
pub struct Reach {
    pub when: Condition,
    pub limit: u64,
    pub allowed: Allowed,
}

/// The question why a processor does not consider something finished when all that can happen has happened, which takes at most
/// `limit` steps.
#[derive(Drop)]
pub struct WhyAtRest {
    pub asked: Question,
    pub limit: u64,
}

/// A query, which changes nothing.
#[derive(Drop)]
pub enum Query {
    /// The complete state.
    State,
    /// The true count of a pointstamp.
    Count(Pointstamp),
    /// Whether the first pointstamp could result in the second.
    Before(Pointstamp, Pointstamp),
    /// The view of a processor.
    View(u32),
    /// The frontier of a processor's view.
    Frontier(u32),
    /// Whether a processor's view has passed a pointstamp.
    Passed(u32, Pointstamp),
    /// The least of some positions at which a condition holds.
    Search(Search),
    /// All kept steps.
    Export,
    /// The reasons why a processor does not consider everything before a pointstamp finished.
    Why(Question),
    /// The kept positions at which a processor's view of a pointstamp changed.
    Changes(ViewChanges),
    /// The kept step that leads to a position.
    Step(u64),
    /// The steps that a run could try at the cursor.
    Candidates,
    /// What the kept step that leads to a position changed.
    Effect(u64),
    /// The positions at which a condition began or ceased to hold.
    Turns(ConditionTurns),
    /// The times that can still arrive at a location, according to a processor's view.
    FrontierAt(u32, usize),
    /// The steps by which a condition can still come to hold.
    Reach(Reach),
    /// The reasons that are left when all that can happen has happened.
    WhyAtRest(WhyAtRest),
}

#[tactic(auto, unfolding(crate::specs::Queries::count_of))]
fn count_of(graph: &Graph, value: &Value) -> Result<Query, LineFault>
    ensures { result ≡ count_in graph.now (view value.now) }
{
    let point = point_there(graph, value)?;
    Ok(Query::Count(point))
}

#[tactic(auto, unfolding(crate::specs::Queries::before_of))]
fn before_of(graph: &Graph, value: &Value) -> Result<Query, LineFault>
    ensures { result ≡ before_in graph.now (view value.now) }
{
    let from = point_at(value, "from").ok_or(LineFault::BadShape)?;
    let to = point_at(value, "to").ok_or(LineFault::BadShape)?;
    let first = location_named(graph, from.name).ok_or(LineFault::UnknownName)?;
    let second = location_named(graph, to.name).ok_or(LineFault::UnknownName)?;
    let earlier = time_of(graph, first, from.numbers).ok_or(LineFault::BadTime)?;
    let later = time_of(graph, second, to.numbers).ok_or(LineFault::BadTime)?;
    Ok(Query::Before(
        Pointstamp {
            location: first,
            time: earlier,
        },
        Pointstamp {
            location: second,
            time: later,
        },
    ))
}

fn view_of(value: &Value) -> Result<Query, LineFault>
    ensures { result ≡ view_in (view value.now) }
{
    let q = small_at(value, "q").ok_or(LineFault::BadShape)?;
    Ok(Query::View(q))
}

fn frontier_of(value: &Value) -> Result<Query, LineFault>
    ensures { result ≡ frontier_in (view value.now) }
{
    let q = small_at(value, "q").ok_or(LineFault::BadShape)?;
    Ok(Query::Frontier(q))
}

#[tactic(auto, unfolding(crate::specs::Queries::passed_of))]
fn passed_of(graph: &Graph, value: &Value) -> Result<Query, LineFault>
    ensures { result ≡ passed_in graph.now (view value.now) }
{
    let q = small_at(value, "q").ok_or(LineFault::BadShape)?;
    let point = point_there(graph, value)?;
    Ok(Query::Passed(q, point))
}

#[tactic(auto, unfolding(crate::specs::Queries::search_of))]
fn search_of(version: Version, graph: &Graph, value: &Value) -> Result<Query, LineFault>
    ensures { result ≡ search_in version graph.now (view value.now) }
{
    let lo = whole_at(value, "lo").ok_or(LineFault::BadShape)?;
    let hi = whole_at(value, "hi").ok_or(LineFault::BadShape)?;
    let workers = whole_at(value, "workers").ok_or(LineFault::BadShape)?;
    let shown = value.get("when").ok_or(LineFault::BadShape)?;
    let when = condition_of(version, graph, shown)?;
    Ok(Query::Search(Search {
        when,
        lo,
        hi,
        workers,
    }))
}

#[tactic(auto, unfolding(crate::specs::Queries::changes_of))]
fn changes_of(graph: &Graph, value: &Value) -> Result<Query, LineFault>
    ensures { result ≡ changes_in graph.now (view value.now) }
{
    let q = small_at(value, "q").ok_or(LineFault::BadShape)?;
    let lo = whole_at(value, "lo").ok_or(LineFault::BadShape)?;
    let hi = whole_at(value, "hi").ok_or(LineFault::BadShape)?;
    let point = point_there(graph, value)?;
    Ok(Query::Changes(ViewChanges { q, point, lo, hi }))
}

fn kept_step_of(value: &Value) -> Result<Query, LineFault>
    ensures { result ≡ kept_step_in (view value.now) }
{
    let to = whole_at(value, "to").ok_or(LineFault::BadShape)?;
    Ok(Query::Step(to))
}

fn effect_of(value: &Value) -> Result<Query, LineFault>
    ensures { result ≡ effect_in (view value.now) }
{
    let to = whole_at(value, "to").ok_or(LineFault::BadShape)?;
    Ok(Query::Effect(to))
}

#[tactic(auto, unfolding(crate::specs::Queries::turns_of))]
fn turns_of(version: Version, graph: &Graph, value: &Value) -> Result<Query, LineFault>
    ensures { result ≡ turns_in version graph.now (view value.now) }
{
    let lo = whole_at(value, "lo").ok_or(LineFault::BadShape)?;
    let hi = whole_at(value, "hi").ok_or(LineFault::BadShape)?;
    let shown = value.get("when").ok_or(LineFault::BadShape)?;
    let when = condition_of(version, graph, shown)?;
    Ok(Query::Turns(ConditionTurns { when, lo, hi }))
}

fn frontier_at_of(graph: &Graph, value: &Value) -> Result<Query, LineFault>
    ensures { result ≡ frontier_at_in graph.now (view value.now) }
{
    let q = small_at(value, "q").ok_or(LineFault::BadShape)?;
    let name = text_at(value, "at").ok_or(LineFault::BadShape)?;
    let location = location_named(graph, name).ok_or(LineFault::UnknownName)?;
    Ok(Query::FrontierAt(q, location))
}

// Returns which pointstamps a question is about.
fn extent_of(strictly: Option<bool>) -> Extent
    ensures { result ≡ extent_in strictly }
{
    match strictly {
        Some(true) => Extent::StrictlyBefore,
        _ => Extent::AtOrBefore,
    }
}

#[tactic(auto, unfolding(crate::specs::Queries::why_of))]
fn why_of(graph: &Graph, value: &Value) -> Result<Query, LineFault>
    ensures { result ≡ why_in graph.now (view value.now) }
{
    let q = small_at(value, "q").ok_or(LineFault::BadShape)?;
    let strictly = boolean_if(value, "before").ok_or(LineFault::BadShape)?;
    let limit = whole_if(value, "rest").ok_or(LineFault::BadShape)?;
    let point = point_there(graph, value)?;
    let asked = Question {
        q: q as usize,
        point,
        extent: extent_of(strictly),
    };
    match limit {
        Some(limit) => Ok(Query::WhyAtRest(WhyAtRest { asked, limit })),
        None => Ok(Query::Why(asked)),
    }
}

#[tactic(auto, unfolding(crate::specs::Queries::reach_of))]
fn reach_of(version: Version, graph: &Graph, value: &Value) -> Result<Query, LineFault>
    ensures { result ≡ reach_in version graph.now (view value.now) }
{
    let limit = whole_at(value, "limit").ok_or(LineFault::BadShape)?;
    let shown = value.get("when").ok_or(LineFault::BadShape)?;
    let allowed = allowed_if(value, "with").ok_or(LineFault::BadShape)?;
    let when = condition_of(version, graph, shown)?;
    Ok(Query::Reach(Reach {
        when,
        limit,
        allowed: allowed.unwrap_or(NOTHING),
    }))
}

/// Returns the query of this form that the value describes, for the graph.
pub fn query_of(
    version: Version,
    graph: &Graph,
    form: QueryForm,
    value: &Value,
) -> Result<Query, LineFault>
    ensures { result ≡ query_in version graph.now form (view value.now) }
{
    match form {
        QueryForm::State => Ok(Query::State),
        QueryForm::Count => count_of(graph, value),
        QueryForm::Before => before_of(graph, value),
        QueryForm::View => view_of(value),
        QueryForm::Frontier => frontier_of(value),
        QueryForm::Passed => passed_of(graph, value),
        QueryForm::Search => search_of(version, graph, value),
        QueryForm::Export => Ok(Query::Export),
        QueryForm::Why => why_of(graph, value),
        QueryForm::Changes => changes_of(graph, value),
        QueryForm::Step => kept_step_of(value),
        QueryForm::Candidates => Ok(Query::Candidates),
        QueryForm::Effect => effect_of(value),
        QueryForm::Turns => turns_of(version, graph, value),
        QueryForm::FrontierAt => frontier_at_of(graph, value),
        QueryForm::Reach => reach_of(version, graph, value),
    }
}
