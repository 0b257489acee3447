//! Sessions and commands that the tests begin with.

use nd_breaks::{Atom, BoxedCondition, Condition, Literal, Quantifier};
use nd_cluster::{Cluster, Next};
use nd_commands::Command;
use nd_examples::{StepLine, graph_of, processors_of, step_of};
use nd_graph::Graph;
use nd_session::{Session, State};
use nd_timeline::Timeline;
use std::alloc::{Allocator, Global};

/// A command, its step by the names of locations.
#[derive(Drop)]
pub enum Asked {
    Forward(StepLine),
    Back,
    Redo,
    Jump(u64),
    Run(u64),
    /// A run of the processors of a list.
    RunOnly(u64, &'static [u32]),
    /// A run by a seed.
    RunBySeed(u64, u64),
    /// The breakpoint that holds if the sink of this name has counted the value.
    Sink(&'static str, i64),
    Clear(u64),
}

/// A feed of nothing.
pub const NOTHING: Asked = Asked::Forward(StepLine::Feed(0, "a", &[], Next::Next));

/// Returns the condition that an atom holds.
pub fn only(atom: Atom) -> Condition {
    Condition::new(Quantifier::All, Literal::Is(atom))
}

/// Returns the command of this description.
pub fn command_of<A: Allocator + Copy>(
    alloc: A,
    graph: &Graph<A>,
    asked: &Asked,
) -> Option<Command<A>> {
    match asked {
        Asked::Forward(told) => Some(Command::Forward(step_of(alloc, graph, told)?)),
        Asked::Back => Some(Command::Back),
        Asked::Redo => Some(Command::Redo),
        Asked::Jump(to) => Some(Command::Jump(*to)),
        Asked::Run(limit) => Some(Command::Run {
            limit: *limit,
            only: None,
            seed: None,
        }),
        Asked::RunBySeed(limit, seed) => Some(Command::Run {
            limit: *limit,
            only: None,
            seed: Some(*seed),
        }),
        Asked::RunOnly(limit, list) => Some(Command::Run {
            limit: *limit,
            only: Some(processors_of(alloc, list)?),
            seed: None,
        }),
        Asked::Sink(name, value) => {
            let condition = only(Atom::Sink {
                vertex: graph.location_of(name)?,
                value: *value,
                at_least: 1,
            });
            Some(Command::SetBreak(BoxedCondition::new(alloc, condition).ok()?))
        }
        Asked::Clear(id) => Some(Command::ClearBreak(*id)),
    }
}

/// Returns the `State` of an initial state.
pub fn opened<A: Allocator + Copy>(json: Global, alloc: A, text: &str, n: u32) -> Option<State<A>> {
    let graph = graph_of(json, alloc, text)?;
    let Ok(cluster) = Cluster::start(alloc, graph, n) else {
        return None;
    };
    let Ok(timeline) = Timeline::new(alloc, cluster) else {
        return None;
    };
    let Ok(state) = State::new(alloc, timeline) else {
        return None;
    };
    Some(state)
}

/// Returns a session of an initial state.
pub fn session_of<A: Allocator + Copy>(
    json: Global,
    alloc: A,
    text: &str,
    n: u32,
) -> Option<Session<A>> {
    Some(Session::new(opened(json, alloc, text, n)?))
}
