//! Receives: the front of a queue is added to the receiver's view.
ghost use Rattle.std.specs.Prelude.{◌≡◌, ◌<◌, ◌≤◌, ◌*◌, ◌+ℤ◌, unsigned_abs, length, slice_get, Some, IfErr, IfOk, OnErr, OnOk};
ghost use Rattle.nd_time.specs.Limits.{max_count};
ghost use Rattle.nd_delta.specs.Delta.{at, plus, IsTooLarge};
ghost use Rattle.nd_protocol.specs.State.{view, queue};
ghost use Rattle.nd_protocol.specs.Exchange.{received};
ghost use Rattle.nd_protocol.specs.Fitting.{IsState};
ghost use Rattle.nd_steps.specs.Refusals.{FrontFails};
ghost use Rattle.nd_steps.specs.Records.{CanReceive, Receives, CameFrom, IsBackAt};

use nd_delta::Delta;
use nd_paths::Pointstamp;
use nd_protocol::{Parts, Refusal};
use nd_view::View;
use std::alloc::{AllocError, Allocator};

// Returns the count of an entry's pointstamp if the entry were added to a view.
pub(crate) fn count_after<A: Allocator + Copy>(view: &View<A>, entry: &(Pointstamp, i64)) -> i64
    requires { unsigned_abs entry.now.1 ≤ max_count }
    ensures value { result ≡ at view.now.map entry.now.0 +ℤ entry.now.1 }
    ensures fits { unsigned_abs result ≤ 2 * max_count }
{
    view.get(&entry.0) + entry.1
}

/// Returns the change that processor `to` receives from processor `from`, or why the receive is refused.
pub fn planned_front<A: Allocator + Copy>(
    alloc: A,
    parts: &Parts<A>,
    from: usize,
    to: usize,
) -> Result<Delta<A>, Refusal>
    requires state { IsState parts.now }
    requires sender { from < length parts.now.processors }
    requires receiver { to < length parts.now.processors }
    ensures front { IfOk result (λ c. slice_get (queue parts.now from to) 0 ≡ Some c) }
    ensures room { IfOk result (λ c. IsTooLarge (plus (view parts.now to) c) → ⊥) }
    ensures refused { IfErr result (FrontFails (view parts.now to) (queue parts.now from to)) }
{
    let mesh = parts.mesh();
    let Some(front) = mesh.get(from, to, 0) else {
        return Err(Refusal::QueueEmpty);
    };
    if parts.view(to).counts().is_overfull(front, false) {
        return Err(Refusal::DeltaFull);
    }
    let Ok(change) = front.copy(alloc) else {
        return Err(Refusal::Memory);
    };
    Ok(change)
}

// Processor `to` receives the front of the queue from `from`. What may be refused comes first.
pub(crate) fn receive<A: Allocator + Copy>(
    parts: &mut Parts<A>,
    from: usize,
    to: usize,
    change: &Delta<A>,
) -> Result<(), AllocError>
    requires state { IsState parts.old }
    requires receives { CanReceive parts.old from to change.now }
    ensures ok { OnOk result (parts.new ≡ received parts.old from to) }
    ensures err { OnErr result (parts.new ≡ parts.old) }
{
    let view = &mut parts.views[to];
    let Ok(()) = view.apply(&parts.paths, change) else {
        return Err(AllocError);
    };
    // The queue is not empty.
    let Ok(_front) = parts.mesh.pop(from, to) else {
        return Ok(());
    };
    Ok(())
}

// Gives back what `to` received last, from the view to the front of its queue. If memory runs out after
// the change is in the queue, the change is removed again.
pub(crate) fn unreceive<A: Allocator + Copy>(
    alloc: A,
    parts: &mut Parts<A>,
    from: usize,
    to: usize,
    change: &Delta<A>,
) -> Result<(), AllocError>
    requires { CameFrom (λ s. Receives s from to change.now parts.old) }
    ensures ok { OnOk result (IsBackAt
        (λ s. Receives s from to change.now parts.old) parts.new) }
    ensures err { OnErr result (parts.new ≡ parts.old) }
{
    let copied = change.copy(alloc)?;
    let Ok(()) = parts.mesh.unpop(from, to, copied) else {
        return Err(AllocError);
    };
    let view = &mut parts.views[to];
    let Ok(()) = view.unapply(&parts.paths, change) else {
        // The queue is not empty.
        let _taken = parts.mesh.pop(from, to);
        return Err(AllocError);
    };
    Ok(())
}
