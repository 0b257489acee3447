//! How many entries a cluster has, counted no further than a limit.
#![tactic(auto, using(std::proofs::lemmas::List::Sums::sum_by_more, std::proofs::lemmas::List::Sums::sum_by_more_le))]

ghost use Rattle.std.specs.Prelude.{◌≤◌, ◌+◌, ◌<◌, ◌↔◌, ◌≡◌, length, slice_index_or, sum_by, IsTrue};
ghost use Rattle.nd_map.specs.Counts.{entries as counts_of};
ghost use Rattle.nd_mesh.specs.Mesh.{row, queue};
ghost use Rattle.nd_delta.specs.Delta.{none, size};
ghost use Rattle.nd_cluster.specs.Size.{processor_size, queue_size, queues_size, size_of, Leaves};

use crate::Cluster;
use nd_map::Iter;
use nd_mesh::Mesh;
use nd_processor::Processor;
use nd_protocol::Parts;
use nd_view::View;
use std::alloc::Allocator;

// Returns `left - n`, or none if `n` is greater than `left`.
fn less(left: u64, n: usize) -> Option<u64>
    ensures { Leaves left n result }
{
    left.checked_sub(n as u64)
}

// Returns what is left after the entries of a map are subtracted. Counts at most one entry more than `left`.
fn after_map<K, V>(mut left: u64, entries: Iter<'_, K, V>) -> Option<u64>
    ensures { Leaves left (length entries.entry) result }
{
    for _one in entries {
        left = less(left, 1)?;
    }
    Some(left)
}

// Returns what is left after the items of a processor's vertices.
fn after_items<A: Allocator + Copy>(mut left: u64, processor: &Processor<A>) -> Option<u64>
    ensures { Leaves left (sum_by (λ m. length (counts_of m)) processor.now.items) result }
{
    for vertex in 0..processor.vertex_count() {
        left = after_map(left, processor.vertex_state(vertex).entries())?;
    }
    Some(left)
}

// Returns what is left after a processor.
fn after_processor<A: Allocator + Copy>(left: u64, processor: &Processor<A>) -> Option<u64>
    ensures { Leaves left (processor_size processor.now) result }
{
    let mut rest = after_map(left, processor.records())?;
    rest = after_map(rest, processor.requests())?;
    rest = less(rest, processor.tokens().len())?;
    rest = after_map(rest, processor.sinks())?;
    rest = less(rest, processor.unsent().len())?;
    rest = less(rest, processor.vertex_count())?;
    after_items(rest, processor)
}

// Returns what is left after processors.
fn after_processors<A: Allocator + Copy>(mut left: u64, processors: &[Processor<A>]) -> Option<u64>
    ensures { Leaves left (sum_by processor_size processors.now) result }
{
    for processor in processors {
        left = after_processor(left, processor)?;
    }
    Some(left)
}

// Returns what is left after views.
fn after_views<A: Allocator + Copy>(mut left: u64, views: &[View<A>]) -> Option<u64>
    ensures { Leaves left (sum_by (λ v. size v.map) views.now) result }
{
    for view in views {
        left = less(left, view.counts().len())?;
    }
    Some(left)
}

// Returns the number of entries of the change at a position of a queue.
fn change_len<A: Allocator + Copy>(mesh: &Mesh<A>, from: usize, to: usize, i: usize) -> usize
    requires sender { from < length mesh.now }
    requires receiver { to < length mesh.now }
    requires there { i < length (queue mesh.now from to) }
    ensures { result ≡ size (slice_index_or (queue mesh.now from to) i none) }
{
    mesh.get(from, to, i).unwrap().len()
}

// Returns what is left after a queue.
fn after_queue<A: Allocator + Copy>(
    left: u64,
    mesh: &Mesh<A>,
    from: usize,
    to: usize,
) -> Option<u64>
    requires sender { from < length mesh.now }
    requires receiver { to < length mesh.now }
    ensures { Leaves left (queue_size (queue mesh.now from to)) result }
{
    let n = mesh.len(from, to);
    let mut rest = less(left, n)?;
    for i in 0..n {
        rest = less(rest, change_len(mesh, from, to, i))?;
    }
    Some(rest)
}

// Returns what is left after the queues from a processor.
fn after_row<A: Allocator + Copy>(left: u64, mesh: &Mesh<A>, from: usize) -> Option<u64>
    requires { from < length mesh.now }
    ensures { Leaves left
        (length (row mesh.now from) + sum_by queue_size (row mesh.now from)) result }
{
    let n = mesh.n();
    let mut rest = less(left, n)?;
    for to in 0..n {
        rest = after_queue(rest, mesh, from, to)?;
    }
    Some(rest)
}

// Returns what is left after all queues.
fn after_mesh<A: Allocator + Copy>(mut left: u64, mesh: &Mesh<A>) -> Option<u64>
    ensures { Leaves left (queues_size mesh.now) result }
{
    for from in 0..mesh.n() {
        left = after_row(left, mesh, from)?;
    }
    Some(left)
}

// Returns what is left after everything in a cluster that steps change.
fn after_cluster<A: Allocator + Copy>(left: u64, parts: &Parts<A>) -> Option<u64>
    ensures { Leaves left (size_of parts.now) result }
{
    let mut rest = after_processors(left, parts.processors())?;
    rest = after_views(rest, parts.views())?;
    after_mesh(rest, parts.mesh())
}

impl<A: Allocator + Copy> Cluster<A> {
    /// Returns whether what steps change has at most `limit` entries. Takes no memory, and counts at most one entry
    /// more than `limit`.
    pub fn has_at_most(&self, limit: u64) -> bool
        ensures { IsTrue result ↔ (size_of self.now ≤ limit) }
    {
        after_cluster(limit, &self.parts).is_some()
    }
}
