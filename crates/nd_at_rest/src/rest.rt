//! Whether a cluster is at rest.
ghost use Rattle.std.specs.Prelude.{◌↔◌, IfOk, IsTrue};
ghost use Rattle.nd_rest.specs.Rest.{IsAtRest};
ghost use Rattle.nd_at_rest.specs.Waiting.{IsNotice, IsWaiting};

use nd_cluster::{Cluster, NoMemory, Refusal, Step, candidates_are_in_turn};
use std::alloc::Allocator;

// Returns whether a step is a notice.
fn is_notice<A: Allocator>(step: &Step<A>) -> bool
    ensures { IsTrue result ↔ IsNotice step.now }
{
    matches!(step, Step::Notice { .. })
}

// Returns whether a step is a notice that something outstanding delays, or that would end a held capability.
fn is_waiting<A: Allocator + Copy>(cluster: &Cluster<A>, step: &Step<A>) -> Result<bool, NoMemory>
    ensures { IfOk result (λ b. IsTrue b ↔ IsWaiting cluster.now step.now) }
{
    if !is_notice(step) {
        return Ok(false);
    }
    let Err(refusal) = cluster.plan(step) else {
        return Ok(false);
    };
    match refusal {
        Refusal::NotYet { .. } | Refusal::NotNotified => Ok(true),
        Refusal::Memory => Err(NoMemory),
        _ => Ok(false),
    }
}

/// Returns whether a cluster is at rest: nothing is left but requests that wait.
pub(crate) fn is_at_rest<A: Allocator + Copy>(cluster: &Cluster<A>) -> Result<bool, NoMemory>
    ensures { IfOk result (λ b. IsTrue b ↔ IsAtRest A cluster.now) }
{
    candidates_are_in_turn::<A>();
    let _ = cluster.n();
    let Ok(candidates) = cluster.all_candidates(None) else {
        return Err(NoMemory);
    };
    for step in &candidates {
        if !is_waiting(cluster, step)? {
            return Ok(false);
        }
    }
    Ok(true)
}
