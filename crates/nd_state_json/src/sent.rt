//! The parts of a state and of other replies, each sent to a serializer without a value in memory.
ghost use Rattle.std.specs.Prelude.{◌≡◌, OnOk, map};
ghost use Rattle.serde_json.specs.Data.{Data};
ghost use Rattle.serde_json.specs.Events.{SendsValue};
ghost use Rattle.nd_graph.specs.Graph.{Dataflow};
ghost use Rattle.nd_state_json.specs.Sent.{SendsEach};
ghost use Rattle.nd_state_json.specs.StateText.{entries_data, entry_data, natural, place, point_data, record_data, row, sink_data, time_data, token_data, whole};

use crate::name_at;
use nd_graph::Graph;
use nd_map::Key;
use nd_paths::Pointstamp;
use nd_processor::{SinkKey, ValueAt};
use nd_time::Timestamp;
use serde::Serializer;
use std::alloc::Allocator;

/// Sends the number `n`, which may be negative.
pub fn send_integer<S: Serializer>(out: &mut S, n: i64) -> Result<(), S::Error>
    ensures { OnOk result (SendsValue (whole n) (S.written out.old) (S.written out.new)) }
{
    match u64::try_from(n) {
        Ok(natural) => out.u64(natural),
        Err(_) => out.i64(n),
    }
}

// Sends the counters of a time.
fn send_counters<S: Serializer>(out: &mut S, counters: &[u32]) -> Result<(), S::Error>
    ensures { OnOk result (SendsEach (map natural counters.now)
        (S.written out.old) (S.written out.new)) }
{
    for counter in counters {
        out.u64(u64::from(*counter))?;
    }
    Ok(())
}

/// Sends a time as a list: its epoch, then its counters.
pub fn send_time<S: Serializer>(out: &mut S, time: &Timestamp) -> Result<(), S::Error>
    ensures { OnOk result
        (SendsValue (time_data time.now) (S.written out.old) (S.written out.new)) }
{
    let counters = time.counters();
    out.begin_seq(Some(1 + counters.len()))?;
    out.u64(u64::from(time.epoch()))?;
    send_counters(out, counters)?;
    out.end_seq()
}

/// Sends the name of a location, or an empty text if there is no such location.
pub fn send_name<S: Serializer, A: Allocator>(
    out: &mut S,
    graph: &Graph<A>,
    location: usize,
) -> Result<(), S::Error>
    ensures { OnOk result (SendsValue (place graph.now location)
        (S.written out.old) (S.written out.new)) }
{
    out.str(name_at(graph, location))
}

// Sends a pointstamp as a list: the name of its location, then its time.
fn send_point<S: Serializer, A: Allocator>(
    out: &mut S,
    graph: &Graph<A>,
    point: &Pointstamp,
) -> Result<(), S::Error>
    ensures { OnOk result (SendsValue (point_data graph.now point.now)
        (S.written out.old) (S.written out.new)) }
{
    out.begin_seq(Some(2))?;
    send_name(out, graph, point.location)?;
    send_time(out, &point.time)?;
    out.end_seq()
}

// ---- entries

/// A key of a map in the state. An entry is sent as a list: the name of the key's location, the rest of
/// the key, and the value, if there is one.
pub(crate) trait Listed<V>: Key {
    ghost listed: { Dataflow → Self × V → Data };

    /// Sends an entry of the map.
    fn send<S: Serializer, A: Allocator>(
        &self,
        value: &V,
        out: &mut S,
        graph: &Graph<A>,
    ) -> Result<(), S::Error>
        ensures { OnOk result (SendsValue (listed graph.now (self.now, value.now))
            (S.written out.old) (S.written out.new)) };
}

impl Listed<()> for Pointstamp {
    ghost listed = { λ g e. point_data g e.0 };

    fn send<S: Serializer, A: Allocator>(
        &self,
        _value: &(),
        out: &mut S,
        graph: &Graph<A>,
    ) -> Result<(), S::Error> {
        send_point(out, graph, self)
    }
}

impl Listed<i64> for Pointstamp {
    ghost listed = { entry_data };

    fn send<S: Serializer, A: Allocator>(
        &self,
        count: &i64,
        out: &mut S,
        graph: &Graph<A>,
    ) -> Result<(), S::Error> {
        out.begin_seq(Some(3))?;
        send_name(out, graph, self.location)?;
        send_time(out, &self.time)?;
        send_integer(out, *count)?;
        out.end_seq()
    }
}

impl Listed<u64> for ValueAt {
    ghost listed = { record_data };

    fn send<S: Serializer, A: Allocator>(
        &self,
        count: &u64,
        out: &mut S,
        graph: &Graph<A>,
    ) -> Result<(), S::Error> {
        out.begin_seq(Some(4))?;
        send_name(out, graph, self.point.location)?;
        send_time(out, &self.point.time)?;
        send_integer(out, self.value)?;
        out.u64(*count)?;
        out.end_seq()
    }
}

impl Listed<u64> for SinkKey {
    ghost listed = { sink_data };

    fn send<S: Serializer, A: Allocator>(
        &self,
        count: &u64,
        out: &mut S,
        graph: &Graph<A>,
    ) -> Result<(), S::Error> {
        out.begin_seq(Some(3))?;
        send_name(out, graph, self.vertex)?;
        send_integer(out, self.value)?;
        out.u64(*count)?;
        out.end_seq()
    }
}

impl Listed<u32> for usize {
    ghost listed = { token_data };

    fn send<S: Serializer, A: Allocator>(
        &self,
        epoch: &u32,
        out: &mut S,
        graph: &Graph<A>,
    ) -> Result<(), S::Error> {
        out.begin_seq(Some(2))?;
        send_name(out, graph, *self)?;
        out.u64(u64::from(*epoch))?;
        out.end_seq()
    }
}

/// Sends the entries of a list in the given order.
pub(crate) fn send_list<S: Serializer, K: Listed<V>, V, A: Allocator>(
    out: &mut S,
    graph: &Graph<A>,
    entries: &[(K, V)],
) -> Result<(), S::Error>
    ensures { OnOk result (SendsValue (row (map (K.listed graph.now) entries.now))
        (S.written out.old) (S.written out.new)) }
{
    out.begin_seq(Some(entries.len()))?;
    for entry in entries {
        entry.0.send(&entry.1, out, graph)?;
    }
    out.end_seq()
}

/// Sends the counts of pointstamps in the given order, each as a list: the name of the location, the time
/// and the count.
pub fn send_entries<S: Serializer, A: Allocator>(
    out: &mut S,
    graph: &Graph<A>,
    entries: &[(Pointstamp, i64)],
) -> Result<(), S::Error>
    ensures { OnOk result (SendsValue (entries_data graph.now entries.now)
        (S.written out.old) (S.written out.new)) }
{
    send_list(out, graph, entries)
}
