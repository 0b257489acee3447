//! Why a processor does not consider a pointstamp finished, when all that can happen has happened.
ghost use Rattle.std.specs.Prelude.{◌<◌, ◌≤◌, IfOk, IfErr, OnOk, length};
ghost use Rattle.nd_time.specs.Limits.{max_kept};
ghost use Rattle.nd_protocol.specs.Invariant.{KeepsProtocol};
ghost use Rattle.nd_at_rest.specs.AtRest.{IsAtRestWhy};
ghost use Rattle.nd_at_rest.specs.Faults.{MayRun, CannotAnswer};

use crate::run::{advance_all, stop_in};
use crate::{RestFault, RestStop};
use nd_cluster::{Cluster, NoMemory, Question, Reasons};
use nd_rest::{order_does_not_matter, rest_is_left_to_users};
use nd_time::limits::MAX_KEPT;
use std::alloc::{Allocator, Global};

/// What is left in the state in which the run to rest stops.
#[derive(Drop)]
pub struct AtRest<A: Allocator = Global> {
    /// The reasons why the processor does not consider everything before the pointstamp finished.
    pub reasons: Reasons<A>,
    /// Whether nothing outstanding is before the pointstamp.
    pub finished: bool,
    /// The number of steps that the run has executed.
    pub ran: u64,
    /// Why the run stops.
    pub stop: RestStop,
}

// Runs a cluster to rest, and answers there.
fn answer<A: Allocator + Copy>(
    alloc: A,
    mut cluster: Cluster<A>,
    asked: &Question,
    turn: u64,
    limit: u64,
) -> Result<AtRest<A>, NoMemory>
    requires q { asked.now.q < length cluster.processors }
    requires turn { turn ≤ max_kept }
    requires limit { limit ≤ max_kept }
    requires protocol { KeepsProtocol cluster }
    ensures { IfOk result (IsAtRestWhy cluster asked.now turn limit) }
{
    order_does_not_matter::<A>();
    rest_is_left_to_users::<A>();
    let _ = cluster.n();
    let ran = advance_all(&mut cluster, turn, limit)?;
    let _ = cluster.n();
    let stop = stop_in(&cluster)?;
    let reasons = cluster.why(alloc, asked)?;
    let finished = cluster.finished(&asked.point, asked.extent);
    Ok(AtRest {
        reasons,
        finished,
        ran,
        stop,
    })
}

/// Returns why processor `asked.q` does not consider everything before a pointstamp finished when all that can happen has
/// happened: in the state in which the run to rest stops.
///
/// The run executes the first enabled candidate at most `limit` times, the first time at `turn`, on a copy of the cluster. So
/// the cluster that is asked, which has the protocol invariant, stays as it is. If the run stops at rest, no order of the
/// steps leads anywhere else: each list of moves is as short as the run allows, and where it ends at rest, it ends there; what
/// is not passed or finished there is so after no list of moves; and the reasons name tokens and capabilities alone.
pub fn why_at_rest<A: Allocator + Copy>(
    alloc: A,
    cluster: &Cluster<A>,
    asked: &Question,
    turn: u64,
    limit: u64,
) -> Result<AtRest<A>, RestFault>
    requires q { asked.now.q < length cluster.now.processors }
    requires turn { turn ≤ max_kept }
    requires protocol { KeepsProtocol cluster.now }
    ensures may { OnOk result (MayRun limit) }
    ensures whole { IfOk result (IsAtRestWhy cluster.now asked.now turn limit) }
    ensures cannot { IfErr result (CannotAnswer limit) }
{
    if limit == 0 || limit > MAX_KEPT as u64 {
        return Err(RestFault::BadRange);
    }
    let Ok(copy) = cluster.copy(alloc) else {
        return Err(RestFault::Memory);
    };
    Ok(answer(alloc, copy, asked, turn, limit)?)
}
