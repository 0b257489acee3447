//! The state of a cluster, sent to a serializer without a value in memory.
ghost use Rattle.std.specs.Prelude.{◌≡◌, ◌<◌, ◌^◌, IfSome, OnOk, length, map, sum_by};
ghost use Rattle.std.specs.List.{zip};
ghost use Rattle.serde_json.specs.Events.{SendsValue};
ghost use Rattle.nd_map.specs.Counts.{entries as numbers};
ghost use Rattle.nd_delta.specs.Delta.{entries};
ghost use Rattle.nd_mesh.specs.Mesh.{queue, row as queues_from};
ghost use Rattle.nd_state_json.specs.Sent.{SendsEach};
ghost use Rattle.nd_state_json.specs.StateText.{entries_data, item_data, items_data, queue_data, queues_data, processor_data, row, state_data};

use crate::sent::{Listed, send_entries, send_integer, send_list, send_name, send_time};
use nd_delta::LargeDelta;
use nd_graph::Graph;
use nd_map::{Iter, Key};
use nd_mesh::Mesh;
use nd_processor::Processor;
use nd_protocol::Parts;
use nd_vertex::ItemKey;
use nd_view::View;
use serde::Serializer;
use std::alloc::Allocator;

// Returns the number of entries that an iterator has not yet returned.
fn count_of<K: Key, V: Copy>(entries: Iter<'_, K, V>) -> usize
    requires { length entries < 2 ^ 63 }
    ensures { result ≡ length entries.entry }
{
    entries.count()
}

// Sends the entries of a map, of which there are `count`, in the order of their keys.
fn send_map<S: Serializer, K: Listed<V>, V: Copy, A: Allocator>(
    out: &mut S,
    graph: &Graph<A>,
    count: usize,
    entries: Iter<'_, K, V>,
) -> Result<(), S::Error>
    requires { count ≡ length entries }
    ensures { OnOk result (SendsValue (row (map (K.listed graph.now) entries.entry))
        (S.written out.old) (S.written out.new)) }
{
    out.begin_seq(Some(count))?;
    for (key, value) in entries {
        key.send(value, out, graph)?;
    }
    out.end_seq()
}

/// Sends the entries of a change that may be large, in the order of listing, as [`send_entries`] does.
pub fn send_counts<S: Serializer, A: Allocator>(
    out: &mut S,
    graph: &Graph<A>,
    counts: &LargeDelta<A>,
) -> Result<(), S::Error>
    ensures { OnOk result (SendsValue (entries_data graph.now (entries counts.now))
        (S.written out.old) (S.written out.new)) }
{
    send_map(out, graph, counts.len(), counts.iter())
}

// ---- items

// Sends an item of a vertex, with its number.
fn send_item<S: Serializer, A: Allocator>(
    out: &mut S,
    graph: &Graph<A>,
    vertex: usize,
    key: &ItemKey,
    number: i64,
) -> Result<(), S::Error>
    ensures { OnOk result (SendsValue (item_data graph.now vertex (key.now, number))
        (S.written out.old) (S.written out.new)) }
{
    out.begin_seq(Some(4))?;
    send_name(out, graph, vertex)?;
    send_time(out, &key.time)?;
    send_integer(out, key.item)?;
    send_integer(out, number)?;
    out.end_seq()
}

// Sends the items of one vertex.
fn send_items_of<S: Serializer, A: Allocator>(
    out: &mut S,
    graph: &Graph<A>,
    vertex: usize,
    entries: Iter<'_, ItemKey, i64>,
) -> Result<(), S::Error>
    ensures { OnOk result (SendsEach (map (item_data graph.now vertex) entries.entry)
        (S.written out.old) (S.written out.new)) }
{
    for (key, number) in entries {
        send_item(out, graph, vertex, key, *number)?;
    }
    Ok(())
}

// Returns the number of items of all vertices, or `None` if it is no `usize`.
fn item_count<A: Allocator + Copy>(processor: &Processor<A>) -> Option<usize>
    ensures { IfSome result (λ n. n ≡ sum_by (λ i. length (numbers i)) processor.now.items) }
{
    let mut count: usize = 0;
    for vertex in 0..processor.vertex_count() {
        count = count.checked_add(count_of(processor.vertex_state(vertex).entries()))?;
    }
    Some(count)
}

// Sends the items of all vertices of a processor, vertex by vertex.
fn send_items<S: Serializer, A: Allocator + Copy>(
    out: &mut S,
    graph: &Graph<A>,
    processor: &Processor<A>,
) -> Result<(), S::Error>
    ensures { OnOk result (SendsValue (row (items_data graph.now processor.now))
        (S.written out.old) (S.written out.new)) }
{
    let Some(count) = item_count(processor) else {
        return Err(out.custom("more items than a list can have"));
    };
    out.begin_seq(Some(count))?;
    for vertex in 0..processor.vertex_count() {
        send_items_of(out, graph, vertex, processor.vertex_state(vertex).entries())?;
    }
    out.end_seq()
}

// ---- processors

// Sends a processor with its view.
fn send_processor<S: Serializer, A: Allocator + Copy>(
    out: &mut S,
    graph: &Graph<A>,
    processor: &Processor<A>,
    known: &View<A>,
) -> Result<(), S::Error>
    ensures { OnOk result (SendsValue
        (processor_data graph.now processor.now known.now.map)
        (S.written out.old) (S.written out.new)) }
{
    out.begin_map(Some(7))?;
    out.key("items")?;
    send_items(out, graph, processor)?;
    out.key("records")?;
    send_map(
        out,
        graph,
        count_of(processor.records()),
        processor.records(),
    )?;
    out.key("requests")?;
    send_map(
        out,
        graph,
        count_of(processor.requests()),
        processor.requests(),
    )?;
    out.key("sinks")?;
    send_map(out, graph, count_of(processor.sinks()), processor.sinks())?;
    out.key("tokens")?;
    send_list(out, graph, processor.tokens())?;
    out.key("unsent")?;
    send_counts(out, graph, processor.unsent())?;
    out.key("view")?;
    send_counts(out, graph, known.counts())?;
    out.end_map()
}

// Sends the processors, each with its view.
fn send_processors<S: Serializer, A: Allocator + Copy>(
    out: &mut S,
    parts: &Parts<A>,
) -> Result<(), S::Error>
    requires { length parts.now.views ≡ length parts.now.processors }
    ensures { OnOk result (SendsValue (row (map
        (λ e. processor_data parts.now.graph e.0 e.1)
        (zip parts.now.processors parts.now.views)))
        (S.written out.old) (S.written out.new)) }
{
    out.begin_seq(Some(parts.n()))?;
    for p in 0..parts.n() {
        send_processor(out, parts.graph(), parts.processor(p), parts.view(p))?;
    }
    out.end_seq()
}

// ---- queues

// Sends the changes in the queue from a sender to a receiver, from front to back.
fn send_queue<S: Serializer, A: Allocator + Copy>(
    out: &mut S,
    graph: &Graph<A>,
    mesh: &Mesh<A>,
    from: usize,
    to: usize,
) -> Result<(), S::Error>
    requires sender { from < length mesh.now }
    requires receiver { to < length mesh.now }
    ensures { OnOk result (SendsValue (queue_data graph.now (queue mesh.now from to))
        (S.written out.old) (S.written out.new)) }
{
    out.begin_seq(Some(mesh.len(from, to)))?;
    for i in 0..mesh.len(from, to) {
        let change = mesh.get(from, to, i).unwrap();
        send_entries(out, graph, change.entries())?;
    }
    out.end_seq()
}

// Sends the queues of one sender, one for each receiver.
fn send_queues_from<S: Serializer, A: Allocator + Copy>(
    out: &mut S,
    graph: &Graph<A>,
    mesh: &Mesh<A>,
    from: usize,
) -> Result<(), S::Error>
    requires { from < length mesh.now }
    ensures { OnOk result (SendsValue (queues_data graph.now (queues_from mesh.now from))
        (S.written out.old) (S.written out.new)) }
{
    out.begin_seq(Some(mesh.n()))?;
    for to in 0..mesh.n() {
        send_queue(out, graph, mesh, from, to)?;
    }
    out.end_seq()
}

// Sends the queues of all senders.
fn send_queues<S: Serializer, A: Allocator + Copy>(
    out: &mut S,
    graph: &Graph<A>,
    mesh: &Mesh<A>,
) -> Result<(), S::Error>
    ensures { OnOk result (SendsValue (row (map (queues_data graph.now) mesh.now))
        (S.written out.old) (S.written out.new)) }
{
    out.begin_seq(Some(mesh.n()))?;
    for from in 0..mesh.n() {
        send_queues_from(out, graph, mesh, from)?;
    }
    out.end_seq()
}

/// Sends the state of a cluster: its processors, each with its view, and its queues. Each list is in the
/// order of its keys.
pub fn send_state<S: Serializer, A: Allocator + Copy>(
    out: &mut S,
    parts: &Parts<A>,
) -> Result<(), S::Error>
    requires { length parts.now.views ≡ length parts.now.processors }
    ensures { OnOk result
        (SendsValue (state_data parts.now) (S.written out.old) (S.written out.new)) }
{
    out.begin_map(Some(2))?;
    out.key("processors")?;
    send_processors(out, parts)?;
    out.key("queues")?;
    send_queues(out, parts.graph(), parts.mesh())?;
    out.end_map()
}
