//! The form of a cluster's state, written part by part.
ghost use Rattle.std.specs.Prelude.{◌≡◌, ◌≢◌, ◌<◌, ◌≤◌, ◌++◌, [], MatchBool, OnOk, drop, length, slice_index_or};
ghost use Rattle.nd_map.specs.Counts.{entries as counts_of};
ghost use Rattle.nd_processor.specs.State.{items_at};
ghost use Rattle.nd_protocol.specs.State.{queue as queue_in};
ghost use Rattle.nd_protocol.specs.Fitting.{IsState};
ghost use Rattle.nd_reach.specs.Bytes.{list};
ghost use Rattle.nd_reach.specs.Forms.{change_form, form as form_of, in_common, items_form, longer_of, longest, newest_first, processor_form, queue_form, row_form, rows_newest, vertex_form};

use crate::bytes::put_number;
use crate::entries::{count_of, put_list, put_map};
use crate::form::Form;
use nd_cluster::Cluster;
use nd_delta::{Delta, LargeDelta};
use nd_processor::Processor;
use std::alloc::{AllocError, Allocator};

type Bytes<A> = Vec<u8, A>;

// Appends the form of the items of a vertex of a processor.
fn put_vertex<A: Allocator + Copy>(
    bytes: &mut Bytes<A>,
    processor: &Processor<A>,
    vertex: usize,
) -> Result<(), AllocError>
    requires { vertex < length processor.now.items }
    ensures { OnOk result (bytes.new.items ≡ bytes.old.items
        ++ vertex_form vertex (counts_of (items_at processor.now vertex))) }
{
    let count = count_of(processor.vertex_state(vertex).entries());
    if count == 0 {
        return Ok(());
    }
    let _ = processor.vertex_count();
    put_number(bytes, vertex as u64 + 1)?;
    put_map(bytes, count, processor.vertex_state(vertex).entries())
}

// Appends the form of the items of a processor.
fn put_items<A: Allocator + Copy>(
    bytes: &mut Bytes<A>,
    processor: &Processor<A>,
) -> Result<(), AllocError>
    ensures { OnOk result (bytes.new.items ≡ bytes.old.items ++ items_form processor.now.items) }
{
    for vertex in 0..processor.vertex_count() {
        put_vertex(bytes, processor, vertex)?;
    }
    put_number(bytes, 0)
}

// Appends the form of a view or of what is unsent.
fn put_counts<A: Allocator + Copy>(
    bytes: &mut Bytes<A>,
    counts: &LargeDelta<A>,
) -> Result<(), AllocError>
    ensures { OnOk result (bytes.new.items ≡ bytes.old.items ++ change_form counts.now) }
{
    put_map(bytes, counts.len(), counts.iter())
}

// Appends the form of a processor.
fn put_processor<A: Allocator + Copy>(
    bytes: &mut Bytes<A>,
    processor: &Processor<A>,
) -> Result<(), AllocError>
    ensures { OnOk result (bytes.new.items ≡ bytes.old.items ++ processor_form processor.now) }
{
    put_map(bytes, count_of(processor.records()), processor.records())?;
    put_map(bytes, count_of(processor.requests()), processor.requests())?;
    put_list(bytes, processor.tokens())?;
    put_items(bytes, processor)?;
    put_map(bytes, count_of(processor.sinks()), processor.sinks())?;
    put_counts(bytes, processor.unsent())
}

// Appends the form of a change in a queue.
fn put_change<A: Allocator + Copy>(
    bytes: &mut Bytes<A>,
    change: &Delta<A>,
) -> Result<(), AllocError>
    ensures { OnOk result (bytes.new.items ≡ bytes.old.items ++ change_form change.now) }
{
    put_list(bytes, change.entries())
}

// Returns a change of a queue: of the newest that with index 0.
fn newest<A: Allocator + Copy>(cluster: &Cluster<A>, from: usize, to: usize, i: usize) -> &Delta<A>
    requires from { from < length cluster.now.processors }
    requires to { to < length cluster.now.processors }
    requires there { i < length (queue_in cluster.now from to) }
    ensures { slice_index_or (newest_first cluster.now from to) i result.now ≡ result.now }
{
    let last = cluster.queue_len(from, to) - 1;
    cluster.queued(from, to, last - i).unwrap()
}

// Returns the receiver with the longer queue from a processor: `longest`, unless the queue to `to` is longer.
fn longer_to<A: Allocator + Copy>(
    cluster: &Cluster<A>,
    from: usize,
    longest: usize,
    to: usize,
) -> usize
    requires from { from < length cluster.now.processors }
    requires longest { longest < length cluster.now.processors }
    requires to { to < length cluster.now.processors }
    ensures there { result < length cluster.now.processors }
    ensures longer { newest_first cluster.now from result
        ≡ longer_of (newest_first cluster.now from longest) (newest_first cluster.now from to) }
{
    if cluster.queue_len(from, longest) < cluster.queue_len(from, to) {
        to
    } else {
        longest
    }
}

// Returns a receiver whose queue from a processor is one of the longest.
fn longest_to<A: Allocator + Copy>(cluster: &Cluster<A>, from: usize) -> usize
    requires { from < length cluster.now.processors }
    ensures there { result < length cluster.now.processors }
    ensures longest { newest_first cluster.now from result
        ≡ longest (rows_newest cluster.now from) }
{
    let mut longest = 0;
    for to in 0..cluster.n() {
        longest = longer_to(cluster, from, longest, to);
    }
    longest
}

// Returns whether two changes are equal.
fn are_equal<A: Allocator>(first: &Delta<A>, second: &Delta<A>) -> bool
    ensures { MatchBool result (first.now ≡ second.now) (first.now ≢ second.now) }
{
    first.entries() == second.entries()
}

// Returns how many of the newest changes two queues from a processor have in common.
fn common_to<A: Allocator + Copy>(
    cluster: &Cluster<A>,
    from: usize,
    longest: usize,
    to: usize,
) -> usize
    requires from { from < length cluster.now.processors }
    requires longest { longest < length cluster.now.processors }
    requires to { to < length cluster.now.processors }
    ensures common { result ≡ in_common (newest_first cluster.now from longest)
        (newest_first cluster.now from to) }
    ensures within { result ≤ length (queue_in cluster.now from to) }
{
    let len = cluster.queue_len(from, to);
    if longest == to {
        return len;
    }
    for i in 0..len.min(cluster.queue_len(from, longest)) {
        let first = newest(cluster, from, longest, i);
        if !are_equal(first, newest(cluster, from, to, i)) {
            return i;
        }
    }
    len.min(cluster.queue_len(from, longest))
}

// Appends the forms of the changes of a queue, the newest first, without the newest `count`.
fn put_older<A: Allocator + Copy>(
    bytes: &mut Bytes<A>,
    cluster: &Cluster<A>,
    from: usize,
    to: usize,
    count: usize,
) -> Result<(), AllocError>
    requires from { from < length cluster.now.processors }
    requires to { to < length cluster.now.processors }
    requires count { count ≤ length (queue_in cluster.now from to) }
    ensures { OnOk result (bytes.new.items ≡ bytes.old.items
        ++ list change_form (drop count (newest_first cluster.now from to))) }
{
    let len = cluster.queue_len(from, to);
    put_number(bytes, (len - count) as u64)?;
    for i in count..len {
        put_change(bytes, newest(cluster, from, to, i))?;
    }
    Ok(())
}

// Appends the form of a queue from a processor, with what it has in common with the queue to `longest`.
fn put_queue<A: Allocator + Copy>(
    bytes: &mut Bytes<A>,
    cluster: &Cluster<A>,
    from: usize,
    longest: usize,
    to: usize,
) -> Result<(), AllocError>
    requires from { from < length cluster.now.processors }
    requires longest { longest < length cluster.now.processors }
    requires to { to < length cluster.now.processors }
    ensures { OnOk result (bytes.new.items ≡ bytes.old.items
        ++ queue_form (newest_first cluster.now from longest) (newest_first cluster.now from to)) }
{
    let common = common_to(cluster, from, longest, to);
    put_number(bytes, common as u64)?;
    put_older(bytes, cluster, from, to, common)
}

// Appends the form of the queues from a processor.
fn put_row<A: Allocator + Copy>(
    bytes: &mut Bytes<A>,
    cluster: &Cluster<A>,
    from: usize,
) -> Result<(), AllocError>
    requires { from < length cluster.now.processors }
    ensures { OnOk result (bytes.new.items
        ≡ bytes.old.items ++ row_form (slice_index_or cluster.now.queues from [])) }
{
    let longest = longest_to(cluster, from);
    put_older(bytes, cluster, from, longest, 0)?;
    for to in 0..cluster.n() {
        put_queue(bytes, cluster, from, longest, to)?;
    }
    Ok(())
}

impl<A: Allocator + Copy> Form<A> {
    // Becomes the form of a cluster's state.
    pub(crate) fn write(&mut self, cluster: &Cluster<A>) -> Result<(), AllocError>
        ensures form { OnOk result (self.new ≡ form_of cluster.now) }
        ensures state { IsState cluster.now }
    {
        self.bytes.clear();
        let bytes = &mut self.bytes;
        for p in 0..cluster.n() {
            put_processor(bytes, cluster.processor(p))?;
        }
        for q in 0..cluster.n() {
            put_counts(bytes, cluster.view(q).counts())?;
        }
        for from in 0..cluster.n() {
            put_row(bytes, cluster, from)?;
        }
        Ok(())
    }
}
