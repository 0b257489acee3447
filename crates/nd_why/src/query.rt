//! The reasons why a processor does not consider a pointstamp finished.
ghost use Rattle.std.specs.Prelude.{◌≡◌, ◌↔◌, ◌<◌, [], All, IfOk, OnOk, length, map};
ghost use Rattle.nd_paths.specs.declared.point.Pointstamp.{Pointstamp as Point};
ghost use Rattle.nd_delta.specs.Delta.{entries};
ghost use Rattle.nd_view.specs.View.{IsBefore, IsPositiveBefore, IsPartWhere, IsPassedBefore, HasFrontierBefore};
ghost use Rattle.nd_protocol.specs.State.{view};
ghost use Rattle.nd_protocol.specs.Fitting.{IsState};
ghost use Rattle.nd_protocol.specs.Invariant.{KeepsProtocol};
ghost use Rattle.nd_why.specs.Why.{account, IsReason, IsWhy, IsFinishedBefore, HasReasonBefore, IsCounted, IsBalanced};

use crate::holdings::held_at;
use crate::news::unheard_at;
use crate::{Question, Reason, Reasons};
use nd_delta::Delta;
use nd_paths::Pointstamp;
use nd_protocol::Parts;
use nd_view::is_before;
use std::alloc::{AllocError, Allocator};

// Returns the part of the view of `asked.q` at the pointstamps of its frontier that are before `asked.point`.
fn frontier_before<A: Allocator + Copy>(
    alloc: A,
    parts: &Parts<A>,
    asked: &Question,
) -> Result<Delta<A>, AllocError>
    requires { asked.now.q < length parts.now.views }
    ensures part { IfOk result (IsPartWhere
        (IsReason parts.now.graph (view parts.now asked.now.q)
        asked.now.extent asked.now.point)
        (view parts.now asked.now.q)) }
    ensures covers { OnOk result ((x : Point)
        → IsPositiveBefore parts.now.graph (view parts.now asked.now.q)
        asked.now.extent asked.now.point x
        → HasFrontierBefore parts.now.graph (view parts.now asked.now.q)
        asked.now.extent asked.now.point x) }
{
    let paths = parts.paths();
    let frontier = parts.view(asked.q).frontier(alloc, paths)?;
    let mut before = Delta::new(alloc);
    for entry in frontier.entries() {
        if is_before(&entry.0, paths, &asked.point, asked.extent) {
            before.put(&entry.0, entry.1)?;
        }
    }
    Ok(before)
}

// Returns the reasons of processor `q` at these pointstamps.
fn reasons_at<A: Allocator + Copy>(
    alloc: A,
    parts: &Parts<A>,
    q: usize,
    points: &Delta<A>,
) -> Result<Reasons<A>, AllocError>
    requires state { IsState parts.now }
    requires q { q < length parts.now.processors }
    ensures { IfOk result (λ w. w ≡ map (λ e. account parts.now q e.0) (entries points.now)) }
{
    let mut reasons = Vec::new(alloc);
    for entry in points.entries() {
        let point = entry.0.copy();
        reasons.push(Reason {
            held: held_at(alloc, parts.processors(), &point)?,
            unheard: unheard_at(alloc, parts, q, &point)?,
            known: parts.view(q).get(&point),
            point,
        })?;
    }
    Ok(Reasons { reasons })
}

/// Returns why processor `asked.q` does not consider everything before `asked.point` finished (based on FORTE 2013).
///
/// The reasons are the pointstamps on the frontier of the processor's view that are before `asked.point`. Each
/// comes with everything held there and all updates of it that the processor has not received.
pub fn why<A: Allocator + Copy>(
    alloc: A,
    parts: &Parts<A>,
    asked: &Question,
) -> Result<Reasons<A>, AllocError>
    requires state { IsState parts.now }
    requires q { asked.now.q < length parts.now.processors }
    ensures whole { IfOk result
        (IsWhy parts.now asked.now) }
    ensures passed { IfOk result (λ w. (w ≡ [])
        ↔ IsPassedBefore parts.now.graph asked.now.extent (view parts.now asked.now.q)
        asked.now.point) }
    ensures before { IfOk result (All (λ a.
        IsBefore parts.now.graph asked.now.extent a.point asked.now.point)) }
    ensures covered { IfOk result (λ w. (x : Point)
        → IsPositiveBefore parts.now.graph (view parts.now asked.now.q)
        asked.now.extent asked.now.point x
        → HasReasonBefore parts.now.graph w x) }
    ensures counted { IfOk result (All (IsCounted parts.now)) }
    ensures balanced { KeepsProtocol parts.now → IfOk result (All IsBalanced) }
    ensures finished { IsFinishedBefore parts.now asked.now.extent asked.now.point
        → IfOk result (All (λ a. a.held ≡ [])) }
{
    let points = frontier_before(alloc, parts, asked)?;
    reasons_at(alloc, parts, asked.q, &points)
}
