//! Broadcasts: a part of what is unsent goes to the back of the queues from a processor.
ghost use Rattle.std.specs.Prelude.{◌≡◌, ◌≢◌, ◌↔◌, IfErr, IfOk, IfSome, IsNone, IsTrue, OnErr, OnOk};
ghost use Rattle.nd_delta.specs.Delta.{none, part as part_at, IsPartOf};
ghost use Rattle.nd_protocol.specs.Steps.{chosen};
ghost use Rattle.nd_protocol.specs.Exchange.{sent};
ghost use Rattle.nd_protocol.specs.Fitting.{IsState};
ghost use Rattle.nd_steps.specs.Refusals.{LeavesUpright, LeavesAlone, PartFails, supporting_points as points_that_support};
ghost use Rattle.nd_steps.specs.Records.{CanSend, Sends, CameFrom, IsBackAt};

use crate::operator::op_at;
use nd_delta::{Delta, LargeDelta};
use nd_graph::Graph;
use nd_paths::{Paths, Pointstamp};
use nd_processor::Processor;
use nd_protocol::{Part, Parts, Refusal};
use std::alloc::{AllocError, Allocator};

// Returns whether `change` has no entry at any of the pointstamps.
fn lacks_all<A: Allocator>(change: &LargeDelta<A>, points: &[Pointstamp]) -> bool
    ensures { IsTrue result ↔ (part_at change.now points.now ≡ none) }
{
    for point in points {
        if change.get(point) != 0 {
            return false;
        }
    }
    true
}

// Returns whether a part of `change` has no entry. It takes no memory.
fn is_nothing<A: Allocator>(change: &LargeDelta<A>, part: &Part<A>) -> bool
    ensures { IsTrue result ↔ (chosen part.now change.now ≡ none) }
{
    match part {
        Part::All => change.len() == 0,
        Part::Points(points) => lacks_all(change, points.as_slice()),
    }
}

// Returns the part of `change`.
fn part_of<A: Allocator + Copy>(
    alloc: A,
    change: &LargeDelta<A>,
    part: &Part<A>,
) -> Result<Delta<A>, AllocError>
    ensures { IfOk result (λ c. c ≡ chosen part.now change.now) }
{
    match part {
        Part::All => change.whole(alloc),
        Part::Points(points) => change.part(alloc, points.as_slice()),
    }
}

// Returns the pointstamps that support what a processor has not sent: those of its tokens, and of the capabilities that it holds
// at vertices whose capabilities support.
fn supporting_points<A: Allocator + Copy>(
    alloc: A,
    graph: &Graph<A>,
    processor: &Processor<A>,
) -> Result<Vec<Pointstamp, A>, AllocError>
    ensures { IfOk result (λ v. v.items ≡ points_that_support graph.now processor.now) }
{
    let Ok(mut points) = processor.token_points(alloc) else {
        return Err(AllocError);
    };
    for (point, _) in processor.requests() {
        if op_at(graph, point.location).supports() {
            points.push(point.copy())?;
        }
    }
    Ok(points)
}

// Returns the least pointstamp whose entry would stay without support after `change` is sent.
fn left_alone<A: Allocator + Copy>(
    alloc: A,
    paths: &Paths<A>,
    processor: &Processor<A>,
    change: &Delta<A>,
) -> Result<Option<Pointstamp>, AllocError>
    requires { IsPartOf change.now processor.now.unsent }
    ensures upright { IfOk result (λ x. IsNone x
        → LeavesUpright paths.now processor.now change.now) }
    ensures least { IfOk result (λ x. IfSome x (LeavesAlone paths.now processor.now change.now)) }
{
    let unsent = processor.unsent();
    // If everything is sent, nothing stays.
    if change.len() == unsent.len() {
        return Ok(None);
    }
    let Ok(stays) = unsent.without(alloc, change) else {
        return Err(AllocError);
    };
    let held = supporting_points(alloc, paths.graph(), processor)?;
    Ok(stays.unsupported_by(paths, &held))
}

/// Returns the change that a broadcast of `part` sends, or why the broadcast is refused. It doesn't test whether the queues are full.
pub fn planned_part<A: Allocator + Copy>(
    alloc: A,
    paths: &Paths<A>,
    processor: &Processor<A>,
    part: &Part<A>,
) -> Result<Delta<A>, Refusal>
    ensures part { IfOk result (λ c. c ≡ chosen part.now processor.now.unsent) }
    ensures some { IfOk result (λ c. c ≢ none) }
    ensures upright { IfOk result (LeavesUpright paths.now processor.now) }
    ensures there { IfOk result (λ c. IsPartOf c processor.now.unsent) }
    ensures refused { IfErr result (PartFails paths.now processor.now part.now) }
{
    if is_nothing(processor.unsent(), part) {
        return Err(Refusal::NothingToSend);
    }
    let Ok(change) = part_of(alloc, processor.unsent(), part) else {
        return Err(Refusal::Memory);
    };
    let Ok(alone) = left_alone(alloc, paths, processor, &change) else {
        return Err(Refusal::Memory);
    };
    if let Some(point) = alone {
        return Err(Refusal::NotAdmissible { point });
    }
    Ok(change)
}

// Processor p sends a part of what is unsent to every processor. What may be refused comes first.
pub(crate) fn send<A: Allocator + Copy>(
    parts: &mut Parts<A>,
    p: usize,
    part: &Delta<A>,
) -> Result<(), AllocError>
    requires state { IsState parts.old }
    requires sends { CanSend parts.old p part.now }
    ensures ok { OnOk result (parts.new ≡ sent parts.old p part.now) }
    ensures err { OnErr result (parts.new ≡ parts.old) }
{
    let Ok(()) = parts.mesh.push_all(p, part) else {
        return Err(AllocError);
    };
    let processor = &mut parts.processors[p];
    processor.take_part(part);
    Ok(())
}

// Takes back what p sent last. What may be refused comes first.
pub(crate) fn unsend<A: Allocator + Copy>(
    parts: &mut Parts<A>,
    p: usize,
    part: &Delta<A>,
) -> Result<(), AllocError>
    requires { CameFrom (λ s. Sends s p part.now parts.old) }
    ensures ok { OnOk result (IsBackAt (λ s. Sends s p part.now parts.old) parts.new) }
    ensures err { OnErr result (parts.new ≡ parts.old) }
{
    let processor = &mut parts.processors[p];
    processor.put_part(part)?;
    // No queue is empty.
    let Ok(()) = parts.mesh.unpush_all(p) else {
        return Ok(());
    };
    Ok(())
}
