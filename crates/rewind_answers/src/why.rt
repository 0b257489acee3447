//! The replies that say why a processor does not consider a pointstamp finished, when its view changed, and when a condition turned.
ghost use Rattle.std.specs.Prelude.{◌≡◌, ◌↔◌, ◌<◌, Some, IfOk, IsTrue, length};
ghost use Rattle.nd_view.specs.View.{IsPassedBefore};
ghost use Rattle.nd_protocol.specs.State.{view};
ghost use Rattle.rewind_replies.specs.Replies.{IsReply};
ghost use Rattle.rewind_answers.specs.Explained.{WhyReply, ChangesReply, changes_fault, TurnsReply, turns_fault};

use crate::query::no_processor;
use nd_cluster::{Cluster, Extent, Question};
use nd_history::{ChangesFault, TurnsFault, changes, turns};
use nd_timeline::Timeline;
use rewind_forms::{ConditionTurns, ViewChanges};
use rewind_replies::{NoNames, object, text_of};
use std::alloc::{AllocError, Global};

// Returns whether the asked processor's view is positive at no pointstamp before the asked one.
fn has_passed(cluster: &Cluster, asked: &Question) -> bool
    requires { asked.now.q < length cluster.now.processors }
    ensures { IsTrue result ↔ IsPassedBefore cluster.now.graph asked.now.extent
        (view cluster.now asked.now.q) asked.now.point }
{
    match asked.extent {
        Extent::AtOrBefore => cluster.passed(asked.q, &asked.point),
        Extent::StrictlyBefore => cluster.passed_before(asked.q, &asked.point),
    }
}

/// Replies with the reasons why a processor does not consider everything before a pointstamp finished, and whether it is finished.
pub(crate) fn answer_why(
    alloc: Global,
    cluster: &Cluster,
    asked: &Question,
) -> Result<Vec<u8>, AllocError>
    ensures reply { IfOk result (λ t. IsReply (WhyReply cluster.now asked.now) t.items) }
{
    if asked.q >= cluster.n() {
        return no_processor(alloc);
    }
    let Ok(reasons) = cluster.why(alloc, asked) else {
        return Err(AllocError);
    };
    let passed = has_passed(cluster, asked);
    let finished = cluster.finished(&asked.point, asked.extent);
    let reasons = reasons.as_slice();
    let reply = object! {"finished": finished, "ok": true, "passed": passed, "reasons": reasons};
    text_of(alloc, cluster.graph(), &reply)
}

// Replies to a query for changes that cannot be answered. Running out of memory has no reply.
fn refuse_changes(alloc: Global, fault: ChangesFault) -> Result<Vec<u8>, AllocError>
    ensures reply { IfOk result (λ t. IsReply (λ v. Some v ≡ changes_fault fault) t.items) }
{
    match fault {
        ChangesFault::Memory => Err(AllocError),
        other => text_of(alloc, &NoNames, &other.code()),
    }
}

/// Replies with the positions at which a processor's view of a pointstamp changed.
pub(crate) fn answer_changes(
    alloc: Global,
    timeline: &Timeline,
    asked: &ViewChanges,
) -> Result<Vec<u8>, AllocError>
    ensures reply { IfOk result (λ t. IsReply (ChangesReply timeline.now asked.now) t.items) }
{
    let ViewChanges { q, point, lo, hi } = asked;
    match changes(alloc, timeline, *q as usize, point, *lo, *hi) {
        Ok(told) => {
            let changes = told.changes.as_slice();
            if told.more {
                let reply = object! {"changes": changes, "more": true, "ok": true};
                return text_of(alloc, &NoNames, &reply);
            }
            text_of(alloc, &NoNames, &object! {"changes": changes, "ok": true})
        }
        Err(fault) => refuse_changes(alloc, fault),
    }
}

// Replies to a query for turns that cannot be answered. Running out of memory has no reply.
fn refuse_turns(alloc: Global, fault: TurnsFault) -> Result<Vec<u8>, AllocError>
    ensures reply { IfOk result (λ t. IsReply (λ v. Some v ≡ turns_fault fault) t.items) }
{
    match fault {
        TurnsFault::Memory => Err(AllocError),
        other => text_of(alloc, &NoNames, &other.code()),
    }
}

/// Replies with the positions at which a condition began or ceased to hold.
pub(crate) fn answer_turns(
    alloc: Global,
    timeline: &Timeline,
    asked: &ConditionTurns,
) -> Result<Vec<u8>, AllocError>
    ensures reply { IfOk result (λ t. IsReply (TurnsReply timeline.now asked.now) t.items) }
{
    let ConditionTurns { when, lo, hi } = asked;
    match turns(alloc, timeline, when, *lo, *hi) {
        Ok(listed) => {
            let (at_lo, turns) = (listed.at_lo, listed.positions.as_slice());
            if listed.more {
                let reply = object! {"at_lo": at_lo, "more": true, "ok": true, "turns": turns};
                return text_of(alloc, &NoNames, &reply);
            }
            text_of(
                alloc,
                &NoNames,
                &object! {"at_lo": at_lo, "ok": true, "turns": turns},
            )
        }
        Err(fault) => refuse_turns(alloc, fault),
    }
}
