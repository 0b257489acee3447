//! The effect of a record, for every kind of changes.
ghost use Rattle.std.specs.Prelude.{◌≡◌, ◌<◌, ◌≤◌, IfOk, length, map, unsigned_abs};
ghost use Rattle.std.specs.List.Sorted.{IsPermutation};
ghost use Rattle.nd_time.specs.Limits.{max_count, max_processors};
ghost use Rattle.nd_delta.specs.Delta.{entries};
ghost use Rattle.nd_mesh.specs.Mesh.{queue};
ghost use Rattle.nd_protocol.specs.State.{ClusterState};
ghost use Rattle.nd_protocol.specs.Exchange.{sent, received};
ghost use Rattle.nd_protocol.specs.Fitting.{IsState};
ghost use Rattle.nd_steps.specs.Integers.{changed};
ghost use Rattle.nd_steps.specs.Changes.{AreByPlace};
ghost use Rattle.nd_steps.specs.Records.{RunsTo, CanSend, CanReceive, Makes};
ghost use Rattle.nd_steps.specs.Effect.{lists_of, effect_of, altered_count, MakesExactly};
ghost use Rattle.nd_steps.specs.Alterations.{sent_row, longer_row, longer_rows, received_row, shorter_row, IsEffectTo, RunsExactly};

use crate::draft::sorted;
use crate::keyed::Keyed;
use crate::receive::count_after;
use crate::record::copied;
use crate::{Altered, Change, Changes, Effect, Record};
use nd_delta::Delta;
use nd_mesh::Mesh;
use nd_paths::Pointstamp;
use nd_protocol::Parts;
use nd_view::View;
use std::alloc::{AllocError, Allocator};

// Returns the changes in the order of their places.
fn in_order<A: Allocator + Copy>(
    alloc: A,
    changes: &Keyed<'_>,
) -> Result<Vec<Change, A>, AllocError>
    ensures same { IfOk result (λ v. IsPermutation changes.now v.items) }
    ensures order { IfOk result (λ v. AreByPlace v.items) }
{
    Ok(sorted(copied(alloc, changes)?))
}

// Returns the effect at an entry of a part that `p` sends: the entry is no longer unsent.
fn sent_altered(p: u32, entry: &(Pointstamp, i64)) -> Altered<Pointstamp, i64>
    ensures { result ≡ sent_row p entry.now }
{
    Altered {
        p,
        key: entry.0.copy(),
        old: entry.1,
        new: 0,
    }
}

// Lists the effect of a part that `p` sends.
fn sent_list<A: Allocator + Copy>(
    alloc: A,
    p: u32,
    part: &Delta<A>,
) -> Result<Vec<Altered<Pointstamp, i64>, A>, AllocError>
    ensures { IfOk result (λ v. v.items ≡ map (sent_row p) (entries part.now)) }
{
    let mut rows = Vec::new(alloc);
    for entry in part.entries() {
        rows.push(sent_altered(p, entry))?;
    }
    Ok(rows)
}

// Returns the effect on the queue from `p` to another processor, which becomes one change longer.
fn longer<A: Allocator + Copy>(mesh: &Mesh<A>, p: u32, to: usize) -> Altered<u32, usize>
    requires sender { p < length mesh.now }
    requires receiver { to < length mesh.now }
    requires few { length mesh.now ≤ max_processors }
    ensures { result ≡ longer_row mesh.now p to }
{
    let old = mesh.len(p as usize, to);
    Altered {
        p,
        key: to as u32,
        old,
        new: old + 1,
    }
}

// Lists the queues from `p`, each one change longer.
fn longer_list<A: Allocator + Copy>(
    alloc: A,
    mesh: &Mesh<A>,
    p: u32,
) -> Result<Vec<Altered<u32, usize>, A>, AllocError>
    requires there { p < length mesh.now }
    requires few { length mesh.now ≤ max_processors }
    ensures { IfOk result (λ v. v.items ≡ longer_rows mesh.now p (length mesh.now)) }
{
    let mut rows = Vec::new(alloc);
    for to in 0..mesh.n() {
        rows.push(longer(mesh, p, to))?;
    }
    Ok(rows)
}

// Returns the effect on `q`'s view of an entry of a change that `q` receives.
fn received_altered<A: Allocator + Copy>(
    q: u32,
    view: &View<A>,
    entry: &(Pointstamp, i64),
) -> Altered<Pointstamp, i64>
    requires { unsigned_abs entry.now.1 ≤ max_count }
    ensures { result ≡ received_row q view.now.map entry.now }
{
    Altered {
        p: q,
        key: entry.0.copy(),
        old: view.get(&entry.0),
        new: count_after(view, entry),
    }
}

// Lists the effect on `q`'s view of a change that `q` receives.
fn received_list<A: Allocator + Copy>(
    alloc: A,
    q: u32,
    view: &View<A>,
    change: &Delta<A>,
) -> Result<Vec<Altered<Pointstamp, i64>, A>, AllocError>
    ensures { IfOk result (λ v. v.items ≡ map (received_row q view.now.map) (entries change.now)) }
{
    let mut rows = Vec::new(alloc);
    for entry in change.entries() {
        rows.push(received_altered(q, view, entry))?;
    }
    Ok(rows)
}

// Returns the effect on a queue whose front is removed.
fn shorter<A: Allocator + Copy>(mesh: &Mesh<A>, from: u32, to: u32) -> Altered<u32, usize>
    requires sender { from < length mesh.now }
    requires receiver { to < length mesh.now }
    requires some { 0 < length (queue mesh.now from to) }
    ensures { result ≡ shorter_row mesh.now from to }
{
    let old = mesh.len(from as usize, to as usize);
    Altered {
        p: from,
        key: to,
        old,
        new: old - 1,
    }
}

// Returns the effect of changes of the processors.
fn changes_effect<A: Allocator + Copy>(
    alloc: A,
    parts: &Parts<A>,
    changes: &Keyed<'_>,
) -> Result<Effect<A>, AllocError>
    requires { (t : ClusterState) × RunsExactly parts.now changes.now t }
    ensures { IfOk result (IsEffectTo parts.now (RunsTo parts.now changes.now)) }
{
    let changes = in_order(alloc, changes)?;
    let mut effect = Effect::new(alloc);
    effect.add_all(parts.processors(), &changes)?;
    Ok(effect)
}

// Returns the effect of a part that processor `p` sends.
fn sent_effect<A: Allocator + Copy>(
    alloc: A,
    parts: &Parts<A>,
    p: u32,
    part: &Delta<A>,
) -> Result<Effect<A>, AllocError>
    requires state { IsState parts.now }
    requires sends { CanSend parts.now p part.now }
    ensures { IfOk result (λ e. lists_of e ≡ effect_of parts.now (sent parts.now p part.now)) }
{
    let mut effect = Effect::new(alloc);
    effect.unsent = sent_list(alloc, p, part)?;
    effect.queues = longer_list(alloc, parts.mesh(), p)?;
    Ok(effect)
}

// Returns the effect of the change that processor `to` receives from the front of a queue.
fn received_effect<A: Allocator + Copy>(
    alloc: A,
    parts: &Parts<A>,
    from: u32,
    to: u32,
    change: &Delta<A>,
) -> Result<Effect<A>, AllocError>
    requires state { IsState parts.now }
    requires receives { CanReceive parts.now from to change.now }
    ensures { IfOk result (λ e. lists_of e ≡ effect_of parts.now (received parts.now from to)) }
{
    let mut effect = Effect::new(alloc);
    effect.views = received_list(alloc, to, parts.view(to as usize), change)?;
    effect.queues.push(shorter(parts.mesh(), from, to))?;
    Ok(effect)
}

// Lists the effect of a record.
fn listed_effect<A: Allocator + Copy>(
    alloc: A,
    parts: &Parts<A>,
    planned: &Record<A>,
) -> Result<Effect<A>, AllocError>
    requires state { IsState parts.now }
    requires makes { (t : ClusterState) × MakesExactly parts.now planned.now t }
    ensures { IfOk result (IsEffectTo parts.now (Makes parts.now planned.now)) }
{
    match &planned.changes {
        Changes::Each(_) | Changes::Flowed(_) | Changes::Fed(_) => {
            changes_effect(alloc, parts, &planned.keyed())
        }
        Changes::Sent { p, part } => sent_effect(alloc, parts, *p, part),
        Changes::Received { from, to, change } => {
            received_effect(alloc, parts, *from, *to, change)
        }
    }
}

/// Returns the effect of a record on these parts, if the record names no more than it changes: each key
/// and each queue at which the states before and after it differ, with the values in both.
pub fn record_effect<A: Allocator + Copy>(
    alloc: A,
    parts: &Parts<A>,
    planned: &Record<A>,
) -> Result<Effect<A>, AllocError>
    requires state { IsState parts.now }
    requires makes { (t : ClusterState) × MakesExactly parts.now planned.now t }
    ensures effect { IfOk result (λ e. (t : ClusterState)
        → Makes parts.now planned.now t → lists_of e ≡ effect_of parts.now t) }
    ensures count { IfOk result (λ e. (t : ClusterState)
        → Makes parts.now planned.now t → altered_count (lists_of e) ≡ changed parts.now t) }
{
    listed_effect(alloc, parts, planned)
}
