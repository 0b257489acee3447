//! The replies to queries.
ghost use Rattle.std.specs.Prelude.{◌≡◌, Some, Ok, IfOk};
ghost use Rattle.serde_json.specs.Written.{compact_text};
ghost use Rattle.nd_protocol.specs.Invariant.{IsSettled, KeepsProtocol};
ghost use Rattle.rewind_replies.specs.Replies.{IsReply, count as count_data, no_processor as no_processor_data, state as state_reply};
ghost use Rattle.nd_state_json.specs.StateText.{state_data};
ghost use Rattle.rewind_answers.specs.Answers.{QueryReply, BeforeReply, ViewReply, FrontierReply, PassedReply, SearchReply, search_fault, true_count};

use crate::ahead::{answer_candidates, answer_frontier_at};
use crate::answer::cluster;
use crate::at_rest::answer_why_at_rest;
use crate::kept::{answer_effect, answer_export, answer_step};
use crate::reached::answer_reach;
use crate::why::{answer_changes, answer_turns, answer_why};
use nd_cluster::Cluster;
use nd_history::{OpenGate, SearchFault, search_in};
use nd_paths::Pointstamp;
use nd_protocol::Refusal;
use nd_session::State;
use rewind_forms::{Query, Search};
use rewind_replies::{Counts, Entries, NoNames, object, text_of};
use std::alloc::{AllocError, Global};
use std::thread::Threads;

/// Replies that there is no such processor.
pub(crate) fn no_processor(alloc: Global) -> Result<Vec<u8>, AllocError>
    ensures reply { IfOk result (λ t. t.items ≡ compact_text no_processor_data) }
{
    text_of(alloc, &NoNames, &Refusal::NoProcessor)
}

// Replies with the state of a cluster.
fn answer_state(alloc: Global, cluster: &Cluster) -> Result<Vec<u8>, AllocError>
    ensures reply { IfOk result (λ t.
        IsReply (λ v. v ≡ state_reply (state_data cluster.now)) t.items) }
{
    text_of(
        alloc,
        cluster.graph(),
        &object! {"ok": true, "state": cluster},
    )
}

// Replies with the true count of a pointstamp.
fn answer_count(alloc: Global, cluster: &Cluster, point: &Pointstamp) -> Result<Vec<u8>, AllocError>
    requires { IsSettled cluster.now }
    ensures reply { IfOk result (λ t.
        IsReply (λ v. v ≡ count_data (true_count cluster.now point.now)) t.items) }
{
    let Ok(count) = u64::try_from(cluster.count(point)) else {
        unreachable!()
    };
    text_of(alloc, &NoNames, &object! {"count": count, "ok": true})
}

// Replies whether one pointstamp could result in another.
fn answer_before(
    alloc: Global,
    cluster: &Cluster,
    from: &Pointstamp,
    to: &Pointstamp,
) -> Result<Vec<u8>, AllocError>
    ensures reply { IfOk result (λ t.
        IsReply (BeforeReply cluster.now.graph from.now to.now) t.items) }
{
    let before = cluster.paths().before(from, to);
    text_of(alloc, &NoNames, &object! {"before": before, "ok": true})
}

// Replies with the view of a processor.
fn answer_view(alloc: Global, cluster: &Cluster, q: u32) -> Result<Vec<u8>, AllocError>
    ensures reply { IfOk result (λ t. IsReply (ViewReply cluster.now q) t.items) }
{
    let q = q as usize;
    if q >= cluster.n() {
        return no_processor(alloc);
    }
    let view = Counts {
        graph: cluster.graph(),
        counts: cluster.view(q).counts(),
    };
    text_of(alloc, &NoNames, &object! {"ok": true, "view": view})
}

// Replies with the frontier of a processor's view.
fn answer_frontier(alloc: Global, cluster: &Cluster, q: u32) -> Result<Vec<u8>, AllocError>
    ensures reply { IfOk result (λ t. IsReply (FrontierReply cluster.now q) t.items) }
{
    let q = q as usize;
    if q >= cluster.n() {
        return no_processor(alloc);
    }
    let first = cluster.view(q).frontier(alloc, cluster.paths())?;
    let frontier = Entries {
        graph: cluster.graph(),
        entries: first.entries(),
    };
    text_of(alloc, &NoNames, &object! {"frontier": frontier, "ok": true})
}

// Replies whether a processor's view has passed a pointstamp.
fn answer_passed(
    alloc: Global,
    cluster: &Cluster,
    q: u32,
    point: &Pointstamp,
) -> Result<Vec<u8>, AllocError>
    requires { KeepsProtocol cluster.now }
    ensures reply { IfOk result (λ t. IsReply (PassedReply cluster.now q point.now) t.items) }
{
    let q = q as usize;
    if q >= cluster.n() {
        return no_processor(alloc);
    }
    match cluster.blocker(q, point) {
        None => text_of(alloc, &NoNames, &object! {"ok": true, "passed": true}),
        Some(blocker) => {
            let reply = object! {"ok": true, "passed": false, "point": blocker};
            text_of(alloc, cluster.graph(), &reply)
        }
    }
}

// Replies to a search that cannot be answered. Running out of memory outside the workers' walks has no reply.
fn refuse_search(alloc: Global, fault: &SearchFault) -> Result<Vec<u8>, AllocError>
    ensures reply { IfOk result (λ t. IsReply (λ v. Some v ≡ search_fault fault.now) t.items) }
{
    match fault {
        SearchFault::Memory => Err(AllocError),
        SearchFault::Missing { piece, claimed: _ } => {
            let code = fault.code();
            let reply = object! {"code": code.number(), "error": code.name(), "piece": *piece};
            text_of(alloc, &NoNames, &reply)
        }
        other => text_of(alloc, &NoNames, &other.code()),
    }
}

// Replies with the least position at which a condition holds. No kept step is copied for it.
fn answer_search<R: Threads + Sync>(
    rt: &R,
    alloc: Global,
    state: &State,
    search: &Search,
) -> Result<Vec<u8>, AllocError>
    ensures reply { IfOk result (λ t.
        IsReply (SearchReply state.now.machine.timeline search.now) t.items) }
{
    let timeline = state.timeline();
    let Search {
        when,
        lo,
        hi,
        workers,
    } = search;
    match search_in(rt, alloc, timeline, when, *lo, *hi, *workers, &OpenGate) {
        Ok(least) => text_of(alloc, &NoNames, &object! {"found": least, "ok": true}),
        Err(fault) => refuse_search(alloc, &fault),
    }
}

/// Answers a query, and returns the text of the reply.
pub fn answer_query<R: Threads + Sync>(
    rt: &R,
    alloc: Global,
    state: &State,
    query: &Query,
) -> Result<Vec<u8>, AllocError>
    ensures reply { IfOk result (λ t.
        IsReply (QueryReply state.now.machine.timeline query.now) t.items) }
{
    let cluster = cluster(state);
    match query {
        Query::State => answer_state(alloc, cluster),
        Query::Count(point) => answer_count(alloc, cluster, point),
        Query::Before(from, to) => answer_before(alloc, cluster, from, to),
        Query::View(q) => answer_view(alloc, cluster, *q),
        Query::Frontier(q) => answer_frontier(alloc, cluster, *q),
        Query::Passed(q, point) => answer_passed(alloc, cluster, *q, point),
        Query::Search(search) => answer_search(rt, alloc, state, search),
        Query::Export => answer_export(alloc, state.timeline()),
        Query::Why(asked) => answer_why(alloc, cluster, asked),
        Query::Changes(asked) => answer_changes(alloc, state.timeline(), asked),
        Query::Step(to) => answer_step(alloc, state.timeline(), *to),
        Query::Candidates => answer_candidates(alloc, cluster),
        Query::Effect(to) => answer_effect(alloc, state.timeline(), *to),
        Query::Turns(asked) => answer_turns(alloc, state.timeline(), asked),
        Query::FrontierAt(q, location) => answer_frontier_at(alloc, cluster, *q, *location),
        Query::Reach(asked) => answer_reach(alloc, cluster, asked),
        Query::WhyAtRest(asked) => answer_why_at_rest(alloc, state.timeline(), asked),
    }
}
