//! The updates of a pointstamp that a processor has not received.
ghost use Rattle.std.specs.Prelude.{◌≡◌, ◌<◌, ◌++◌, IfOk, OnOk, length};
ghost use Rattle.nd_mesh.specs.Mesh.{queue};
ghost use Rattle.nd_protocol.specs.Fitting.{IsState};
ghost use Rattle.nd_why.specs.Why.{unless_zero, queued_at, unheard_at as all_unheard};

use crate::Unheard;
use nd_mesh::Mesh;
use nd_paths::Pointstamp;
use nd_protocol::Parts;
use std::alloc::{AllocError, Allocator};

// Appends an update to the list if its number is not 0.
fn push_unless_zero<A: Allocator>(
    unheard: &mut Vec<Unheard, A>,
    n: i64,
    one: Unheard,
) -> Result<(), AllocError>
    ensures { OnOk result (unheard.new.items ≡ unheard.old.items ++ unless_zero n one) }
{
    if n != 0 {
        unheard.push(one)?;
    }
    Ok(())
}

// Appends the updates of a pointstamp that are queued from `p` to `q` to the list.
fn push_queued<A: Allocator + Copy>(
    unheard: &mut Vec<Unheard, A>,
    p: usize,
    q: usize,
    mesh: &Mesh<A>,
    point: &Pointstamp,
) -> Result<(), AllocError>
    requires sender { p < length mesh.now }
    requires receiver { q < length mesh.now }
    ensures { OnOk result (unheard.new.items
        ≡ unheard.old.items ++ queued_at p (queue mesh.now p q) point.now) }
{
    for behind in 0..mesh.len(p, q) {
        let n = mesh.get(p, q, behind).unwrap().get(point);
        push_unless_zero(unheard, n, Unheard::Queued { p, behind, n })?;
    }
    Ok(())
}

/// Returns all updates of a pointstamp that processor `q` has not received, sender by sender.
pub(crate) fn unheard_at<A: Allocator + Copy>(
    alloc: A,
    parts: &Parts<A>,
    q: usize,
    point: &Pointstamp,
) -> Result<Vec<Unheard, A>, AllocError>
    requires state { IsState parts.now }
    requires q { q < length parts.now.processors }
    ensures { IfOk result (λ v. v.items ≡ all_unheard parts.now q point.now) }
{
    let mut unheard = Vec::new(alloc);
    for p in 0..parts.n() {
        let n = parts.processor(p).unsent().get(point);
        push_unless_zero(&mut unheard, n, Unheard::Unsent { p, n })?;
        push_queued(&mut unheard, p, q, parts.mesh(), point)?;
    }
    Ok(unheard)
}
