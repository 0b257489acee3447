//! The run to rest.
ghost use Rattle.std.specs.Prelude.{◌≡◌, ◌≤◌, ◌+◌, IfOk, OnOk, length};
ghost use Rattle.nd_time.specs.Limits.{max_kept};
ghost use Rattle.nd_protocol.specs.Invariant.{KeepsProtocol};
ghost use Rattle.nd_at_rest.specs.Run.{IsStopOf, word_of};
ghost use Rattle.nd_at_rest.specs.Going.{Advances, HasGone};

use crate::rest::is_at_rest;
use nd_cluster::{Cluster, NoMemory};
use std::alloc::Allocator;

/// Why the run to rest stops.
#[derive(Clone, Copy, Debug, Drop, PartialEq, Eq)]
pub enum RestStop {
    /// The cluster is at rest.
    Rest,
    /// No candidate is enabled, but something is left to do: a step is refused by a limit.
    Stuck,
    /// The run has executed as many steps as it may.
    Limit,
}

impl RestStop {
    /// Returns the word by which a reply reports why the run stops.
    pub fn word(self) -> &'static str
        ensures { result.now ≡ word_of self }
    {
        match self {
            RestStop::Rest => "rest",
            RestStop::Stuck => "stuck",
            RestStop::Limit => "limit",
        }
    }
}

// Executes the first enabled candidate, and returns whether there is one.
fn advance<A: Allocator + Copy>(cluster: &mut Cluster<A>, turn: u64) -> Result<bool, NoMemory>
    ensures goes { IfOk result (Advances A turn cluster.old cluster.new) }
    ensures protocol { OnOk result (KeepsProtocol cluster.old → KeepsProtocol cluster.new) }
{
    let Some(record) = cluster.first_planned(turn, None)? else {
        return Ok(false);
    };
    cluster.commit(&record)?;
    Ok(true)
}

/// Executes the first enabled candidate at most `limit` times, and returns how many steps there are. Each step has the next turn.
pub(crate) fn advance_all<A: Allocator + Copy>(
    cluster: &mut Cluster<A>,
    turn: u64,
    limit: u64,
) -> Result<u64, NoMemory>
    requires turn { turn ≤ max_kept }
    requires limit { limit ≤ max_kept }
    ensures gone { IfOk result (HasGone A cluster.old turn limit cluster.new) }
    ensures protocol { OnOk result (KeepsProtocol cluster.old → KeepsProtocol cluster.new) }
{
    for ran in 0..limit {
        if !advance(cluster, turn + ran)? {
            return Ok(ran);
        }
    }
    Ok(limit)
}

/// Returns why a run stops in a state, in which no candidate is enabled or the run has executed as many steps as it may.
pub(crate) fn stop_in<A: Allocator + Copy>(cluster: &Cluster<A>) -> Result<RestStop, NoMemory>
    ensures { IfOk result (IsStopOf A cluster.now) }
{
    if cluster.first_enabled(0)?.is_some() {
        return Ok(RestStop::Limit);
    }
    if is_at_rest(cluster)? {
        Ok(RestStop::Rest)
    } else {
        Ok(RestStop::Stuck)
    }
}
