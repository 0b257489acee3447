//! The reply to a question for what can still happen.
ghost use Rattle.std.specs.Prelude.{◌≡◌, Some, IfOk};
ghost use Rattle.rewind_replies.specs.Replies.{IsReply};
ghost use Rattle.rewind_answers.specs.Reached.{ReachReply, reach_fault, reached_data};

use nd_cluster::Cluster;
use nd_reach::{ReachFault, Reached, reach};
use rewind_forms::Reach;
use rewind_replies::{NoNames, object, text_of};
use std::alloc::{AllocError, Global};

// Replies with an answer.
fn reached_reply(alloc: Global, cluster: &Cluster, reached: &Reached) -> Result<Vec<u8>, AllocError>
    ensures reply { IfOk result (λ t.
        IsReply (λ v. v ≡ reached_data cluster.now.graph reached.now) t.items) }
{
    match reached {
        Reached::Way(steps) => {
            let reply = object! {"ok": true, "steps": steps.as_slice()};
            text_of(alloc, cluster.graph(), &reply)
        }
        Reached::Nowhere { states, whole } => {
            let none: Option<u64> = None;
            let reply = object! {"ok": true, "states": *states, "steps": none, "whole": *whole};
            text_of(alloc, &NoNames, &reply)
        }
    }
}

// Replies to a question that is not answered. Running out of memory has no reply.
fn refuse_reach(alloc: Global, fault: ReachFault) -> Result<Vec<u8>, AllocError>
    ensures reply { IfOk result (λ t. IsReply (λ v. Some v ≡ reach_fault fault) t.items) }
{
    match fault {
        ReachFault::Memory => Err(AllocError),
        ReachFault::BadRange => text_of(alloc, &NoNames, &fault.code()),
    }
}

/// Replies with the steps by which a condition can still come to hold, or how many states were looked at.
pub(crate) fn answer_reach(
    alloc: Global,
    cluster: &Cluster,
    asked: &Reach,
) -> Result<Vec<u8>, AllocError>
    ensures reply { IfOk result (λ t. IsReply (ReachReply cluster.now asked.now) t.items) }
{
    let Reach {
        when,
        limit,
        allowed,
    } = asked;
    match reach(alloc, cluster, *allowed, when, *limit) {
        Ok(reached) => reached_reply(alloc, cluster, &reached),
        Err(fault) => refuse_reach(alloc, fault),
    }
}
