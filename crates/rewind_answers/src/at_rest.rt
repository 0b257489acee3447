//! The reply that says why a processor does not consider a pointstamp finished when all that can happen has happened.
ghost use Rattle.std.specs.Prelude.{◌≡◌, Some, IfOk};
ghost use Rattle.nd_protocol.specs.Invariant.{KeepsProtocol};
ghost use Rattle.nd_timeline.specs.Timeline.{cluster_of};
ghost use Rattle.rewind_replies.specs.Replies.{IsReply};
ghost use Rattle.rewind_answers.specs.AtRest.{WhyAtRestReply, rest_fault};

use crate::query::no_processor;
use nd_at_rest::{RestFault, why_at_rest};
use nd_timeline::Timeline;
use rewind_forms::WhyAtRest;
use rewind_replies::{NoNames, object, text_of};
use std::alloc::{AllocError, Global};

// Replies to a question that is not answered. Running out of memory has no reply.
fn refuse_rest(alloc: Global, fault: RestFault) -> Result<Vec<u8>, AllocError>
    ensures reply { IfOk result (λ t. IsReply (λ v. Some v ≡ rest_fault fault) t.items) }
{
    match fault {
        RestFault::Memory => Err(AllocError),
        RestFault::BadRange => text_of(alloc, &NoNames, &fault.code()),
    }
}

/// Replies with the reasons that are left in the state in which the run to rest stops. The cursor is the turn of its first step.
pub(crate) fn answer_why_at_rest(
    alloc: Global,
    timeline: &Timeline,
    query: &WhyAtRest,
) -> Result<Vec<u8>, AllocError>
    requires { KeepsProtocol (cluster_of timeline.now) }
    ensures reply { IfOk result (λ t.
        IsReply (WhyAtRestReply (cluster_of timeline.now) timeline.now.cursor query.now) t.items) }
{
    let cluster = timeline.cluster();
    let turn = timeline.at();
    if query.asked.q >= cluster.n() {
        return no_processor(alloc);
    }
    let answer = match why_at_rest(alloc, cluster, &query.asked, turn, query.limit) {
        Ok(answer) => answer,
        Err(fault) => return refuse_rest(alloc, fault),
    };
    let reasons = answer.reasons.as_slice();
    let reply = object! {
        "finished": answer.finished,
        "ok": true,
        "passed": reasons.is_empty(),
        "ran": answer.ran,
        "reasons": reasons,
        "stop": answer.stop.word()
    };
    text_of(alloc, cluster.graph(), &reply)
}
