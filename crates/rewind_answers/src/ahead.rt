//! The replies that say what a run could try next, and which times can still arrive at a location.
ghost use Rattle.std.specs.Prelude.{IfOk};
ghost use Rattle.rewind_replies.specs.Replies.{IsReply};
ghost use Rattle.rewind_answers.specs.Ahead.{CandidatesReply, FrontierAtReply};

use crate::query::no_processor;
use nd_cluster::Cluster;
use rewind_replies::{NoNames, object, text_of};
use std::alloc::{AllocError, Global};

/// Replies with the steps that a run could try, and why each refused step is refused.
pub(crate) fn answer_candidates(alloc: Global, cluster: &Cluster) -> Result<Vec<u8>, AllocError>
    ensures reply { IfOk result (λ t. IsReply (CandidatesReply cluster.now) t.items) }
{
    let Ok(candidates) = cluster.candidates() else {
        return Err(AllocError);
    };
    let list = candidates.list.as_slice();
    if candidates.more {
        let reply = object! {"candidates": list, "more": true, "ok": true};
        return text_of(alloc, cluster.graph(), &reply);
    }
    text_of(
        alloc,
        cluster.graph(),
        &object! {"candidates": list, "ok": true},
    )
}

/// Replies with the times that can still arrive at a location, according to a processor's view.
pub(crate) fn answer_frontier_at(
    alloc: Global,
    cluster: &Cluster,
    q: u32,
    location: usize,
) -> Result<Vec<u8>, AllocError>
    ensures reply { IfOk result (λ t. IsReply (FrontierAtReply cluster.now q location) t.items) }
{
    let q = q as usize;
    if q >= cluster.n() {
        return no_processor(alloc);
    }
    let Ok(times) = cluster.frontier_at(alloc, q, location) else {
        return Err(AllocError);
    };
    text_of(
        alloc,
        &NoNames,
        &object! {"ok": true, "times": times.as_slice()},
    )
}
