//! Calls of queues between processors that may not be there.

use nd_delta::Delta;
use nd_mesh::{Mesh, PushFault};
use std::alloc::Allocator;

/// Puts a change into each queue from a processor, `None` if there is no such processor.
pub fn push<A: Allocator + Copy>(
    mesh: &mut Mesh<A>,
    from: usize,
    change: &Delta<A>,
) -> Option<Result<(), PushFault>> {
    if from < mesh.n() {
        Some(mesh.push_all(from, change))
    } else {
        None
    }
}

/// Returns whether each queue of the sender had a change to take back.
pub fn unpush<A: Allocator + Copy>(mesh: &mut Mesh<A>, from: usize) -> Option<bool> {
    if from < mesh.n() {
        Some(mesh.unpush_all(from).is_ok())
    } else {
        None
    }
}

/// Removes and returns the oldest change of a queue, if there is one.
pub fn pop<A: Allocator + Copy>(mesh: &mut Mesh<A>, from: usize, to: usize) -> Option<Delta<A>> {
    if from < mesh.n() && to < mesh.n() {
        mesh.pop(from, to).ok()
    } else {
        None
    }
}

/// Puts a change at the front of a queue, `None` if there is no such queue.
pub fn unpop<A: Allocator + Copy>(
    mesh: &mut Mesh<A>,
    from: usize,
    to: usize,
    change: Delta<A>,
) -> Option<Result<(), PushFault>> {
    if from >= mesh.n() || to >= mesh.n() {
        return None;
    }
    match mesh.unpop(from, to, change) {
        Ok(()) => Some(Ok(())),
        Err(refused) => Some(Err(refused.fault)),
    }
}

/// Returns how many changes a queue has.
pub fn len<A: Allocator + Copy>(mesh: &Mesh<A>, from: usize, to: usize) -> Option<usize> {
    if from < mesh.n() && to < mesh.n() {
        Some(mesh.len(from, to))
    } else {
        None
    }
}
