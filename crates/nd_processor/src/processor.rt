//! A processor: its maps, readers of the maps, and pairs of edits that undo each other.
ghost use Rattle.std.specs.Prelude.{◌≡◌, ◌≢◌, ◌↔◌, ◌≤◌, ◌<◌, ◌^◌, ◌+◌, ◌+ℤ◌, ℕ, ℤ, pos, neg_ℤ, unsigned_abs, Err, None, Some, IfOk, OnOk, OnErr, IsTrue, length, map, slice_set};
ghost use Rattle.std.specs.FinMap as fin;
ghost use Rattle.std.specs.Map.Iter.{ShowsInOrder, deref_pair};
ghost use Rattle.nd_time.specs.Limits.{max_count};
ghost use Rattle.nd_map.specs.Counts.{at, entries as counts_of};
ghost use Rattle.nd_paths.specs.declared.point.Pointstamp.{Pointstamp as Point};
ghost use Rattle.nd_delta.specs.Delta.{IsWithin, IsPartOf, IsApart};
ghost use Rattle.nd_vertex.specs.Items.{item_key};
ghost use Rattle.nd_vertex.specs.Edits.{item_of};
ghost use Rattle.nd_processor.specs.State.{in_records, items_at};
ghost use Rattle.nd_processor.specs.Start.{start_processor};
ghost use Rattle.nd_processor.specs.Edits.{less, IsTooMany, counted_at, with_records, with_counted, with_request, without_request, ComesBack, GoesBack};
ghost use Rattle.nd_processor.specs.Edits.{with_token, with_number, with_more_unsent, with_fewer_unsent, HasUnsent, IsUnsentTooLarge, with_part, without_part};
ghost use Rattle.nd_processor.specs.Edits.{token_points as points_of_tokens};
ghost use Rattle.nd_processor.specs.declared.tally.CountFault.TheVariants.{CountFull, Memory as CountMemory};
ghost use Rattle.nd_processor.specs.declared.key.ValueAt.{ValueAt as Value};
ghost use Rattle.nd_processor.specs.declared.key.SinkKey.{SinkKey as Counted};

use crate::start::{copied_items, first_requests, first_tokens, no_items, points_of};
use crate::tally::{CountFault, Tally};
use crate::{SinkKey, ValueAt};
use nd_delta::{Delta, DeltaFault, LargeDelta};
use nd_graph::Graph;
use nd_map::{GrowingMap, Iter, SortedMap};
use nd_paths::Pointstamp;
use nd_time::{NoMemory, Timestamp};
use nd_vertex::VertexState;
use std::alloc::{AllocError, Allocator, Global};
use std::marker::Model;

/// One processor of a cluster, without its view (Naiad, SOSP 2013, section 3.3).
pub struct Processor<A: Allocator + Copy = Global> {
    records: Tally<ValueAt, A>,
    requests: GrowingMap<Pointstamp, (), A>,
    tokens: SortedMap<usize, u32, A>,
    items: Vec<VertexState<A>, A>,
    sinks: Tally<SinkKey, A>,
    unsent: LargeDelta<A>,
}

impl<A: Allocator + Copy> Drop for Processor<A> {
    fn drop(self) {
        let Processor {
            records: _,
            requests: _,
            tokens: _,
            items: _,
            sinks: _,
            unsent: _,
        } = self;
    }
}

impl<A: Allocator + Copy> Model for Processor<A> {
    ghost use Rattle.nd_processor.specs.State.{ProcessorState, processor_code};
    ghost use Rattle.nd_processor.specs.Kept.{AreRecords, seen};

    ghost Value = { ProcessorState };

    ghost coded = { processor_code };

    ghost view = { λ a. seen a.records a.requests a.tokens a.items.items a.sinks a.unsent };

    ghost invariant = { λ a. AreRecords a.records };
}

impl<A: Allocator + Copy> Processor<A> {
    /// Returns a processor in the initial state of a cluster: each input's token is at epoch 0, an opaque vertex that
    /// starts with a capability holds it at the first time, and everything else is empty.
    pub fn start(alloc: A, graph: &Graph<A>) -> Result<Processor<A>, AllocError>
        ensures { IfOk result (λ p. p ≡ start_processor graph.now) }
    {
        Ok(Processor {
            records: Tally::new(alloc),
            requests: first_requests(alloc, graph)?,
            tokens: first_tokens(alloc, graph)?,
            items: no_items(alloc, graph.vertices().len())?,
            sinks: Tally::new(alloc),
            unsent: LargeDelta::new(alloc),
        })
    }

    /// Returns an equal processor.
    pub fn copy(&self, alloc: A) -> Result<Processor<A>, AllocError>
        ensures { IfOk result (λ p. p ≡ self.now) }
    {
        Ok(Processor {
            records: self.records.copy(alloc)?,
            requests: self.requests.copy(alloc)?,
            tokens: self.tokens.copy(alloc)?,
            items: copied_items(alloc, &self.items)?,
            sinks: self.sinks.copy(alloc)?,
            unsent: self.unsent.copy(alloc)?,
        })
    }

    // ---- readers

    /// Returns the number of records with a value at an edge's pointstamp.
    pub fn count_of(&self, key: &ValueAt) -> u64
        ensures value { result ≡ at self.now.records key.now }
        ensures within { result ≤ max_count }
    {
        self.records.count_of(key)
    }

    /// Returns the number of records at a pointstamp, over all values. It reads only these records.
    pub fn records_at(&self, point: &Pointstamp) -> u128
        ensures value { result ≡ in_records self.now.records point.now }
        ensures fits { result < 2 ^ 120 }
    {
        let first = ValueAt {
            point: point.copy(),
            value: i64::MIN,
        };
        let last = ValueAt {
            point: point.copy(),
            value: i64::MAX,
        };
        let mut total = 0;
        for (_, count) in self.records.between(&first, &last) {
            total += u128::from(*count);
        }
        total
    }

    /// Returns the records with their counts, ordered by pointstamp and then by value.
    pub fn records(&self) -> Iter<'_, ValueAt, u64>
        ensures rest { result ≡ counts_of self.now.records }
        ensures runs { ShowsInOrder (deref_pair {K = Value} {X = ℕ}) }
        ensures fits { length (counts_of self.now.records) < 2 ^ 63 }
        ensures within { (k : Value) → at self.now.records k ≤ max_count }
    {
        self.records.iter()
    }

    /// Returns whether there is a request at a vertex's pointstamp.
    pub fn has_request(&self, point: &Pointstamp) -> bool
        ensures { IsTrue result ↔ (fin.get self.now.requests point.now ≡ Some tt) }
    {
        self.requests.get(point).is_some()
    }

    /// Returns the pointstamps of the requests, in order.
    pub fn requests(&self) -> Iter<'_, Pointstamp, ()>
        ensures rest { result ≡ fin.entries self.now.requests }
        ensures runs { ShowsInOrder (deref_pair {K = Point} {X = Unit {0}}) }
        ensures fits { length (fin.entries self.now.requests) < 2 ^ 63 }
    {
        self.requests.iter()
    }

    /// Returns the epoch of an input vertex's token, or `None` if the input is closed.
    pub fn token(&self, vertex: usize) -> Option<u32>
        ensures { result ≡ fin.get self.now.tokens vertex }
    {
        self.tokens.get(&vertex)
    }

    /// Returns the open input vertices with the epochs of their tokens, in order.
    pub fn tokens(&self) -> &[(usize, u32)]
        ensures { result.now ≡ fin.entries self.now.tokens }
    {
        self.tokens.entries()
    }

    /// Returns the pointstamps of the tokens, in order.
    pub fn token_points(&self, alloc: A) -> Result<Vec<Pointstamp, A>, NoMemory>
        ensures { IfOk result (λ v. v.items ≡ points_of_tokens self.now) }
    {
        let Ok(points) = points_of(alloc, self.tokens()) else {
            return Err(NoMemory);
        };
        Ok(points)
    }

    /// Returns the number of vertices for which items are stored, which is the number of vertices of the graph.
    pub fn vertex_count(&self) -> usize
        ensures { result ≡ length self.now.items }
    {
        self.items.len()
    }

    /// Returns the items of a vertex.
    pub fn vertex_state(&self, vertex: usize) -> &VertexState<A>
        requires { vertex < length self.now.items }
        ensures { result.now ≡ items_at self.now vertex }
    {
        &self.items[vertex]
    }

    /// Returns how often a sink vertex has counted a value.
    pub fn sink_count(&self, vertex: usize, value: i64) -> u64
        ensures value { result ≡ counted_at self.now vertex value }
        ensures within { result ≤ max_count }
    {
        self.sinks.count_of(&SinkKey { vertex, value })
    }

    /// Returns the values that sink vertices have counted with their counts, ordered by vertex and then by value.
    pub fn sinks(&self) -> Iter<'_, SinkKey, u64>
        ensures rest { result ≡ counts_of self.now.sinks }
        ensures runs { ShowsInOrder (deref_pair {K = Counted} {X = ℕ}) }
        ensures fits { length (counts_of self.now.sinks) < 2 ^ 63 }
        ensures within { (k : Counted) → at self.now.sinks k ≤ max_count }
    {
        self.sinks.iter()
    }

    /// Returns the progress updates that are not sent yet.
    pub fn unsent(&self) -> &LargeDelta<A>
        ensures { result.now ≡ self.now.unsent }
    {
        &self.unsent
    }

    // ---- edits

    /// Adds `n` records at a key.
    pub fn add_records(&mut self, key: &ValueAt, n: u64) -> Result<(), CountFault>
        ensures ok { OnOk result (self.new ≡ with_records self.old key.now (pos n)) }
        ensures undone { OnOk result (with_records self.new key.now (less n) ≡ self.old) }
        ensures err { OnErr result (self.new ≡ self.old) }
        ensures full { (result ≡ Err CountFull) ↔ IsTooMany (at self.old.records key.now) n }
        ensures memory { result ≡ Err CountMemory → at self.old.records key.now ≡ 0 }
    {
        // (reading the value shows that it is in the range of its type)
        let _value = key.value;
        self.records.add(key, n)
    }

    /// Removes `n` records at a key. The call allocates no memory.
    pub fn take_records(&mut self, key: &ValueAt, n: u64)
        requires { n ≤ at self.old.records key.now }
        ensures taken { self.new ≡ with_records self.old key.now (less n) }
        ensures undone { with_records self.new key.now (pos n) ≡ self.old }
    {
        self.records.take(key, n);
    }

    /// Adds a request.
    pub fn add_request(&mut self, point: &Pointstamp) -> Result<(), AllocError>
        ensures ok { OnOk result (self.new ≡ with_request self.old point.now) }
        ensures undone { OnOk result (ComesBack self.old self.new point.now) }
        ensures err { OnErr result (self.new ≡ self.old) }
        ensures absent { OnErr result (fin.get self.old.requests point.now ≡ None) }
    {
        let Ok(()) = self.requests.put(point, ()) else {
            return Err(AllocError);
        };
        Ok(())
    }

    /// Removes a request. The call allocates no memory.
    pub fn drop_request(&mut self, point: &Pointstamp)
        ensures dropped { self.new ≡ without_request self.old point.now }
        ensures undone { GoesBack self.old self.new point.now }
    {
        self.requests.remove(point);
    }

    /// Moves, adds or removes the token of an input vertex. Only adding one allocates memory.
    pub fn move_token(
        &mut self,
        vertex: usize,
        old: Option<u32>,
        new: Option<u32>,
    ) -> Result<(), AllocError>
        requires { fin.get self.old.tokens vertex ≡ old }
        ensures ok { OnOk result (self.new ≡ with_token self.old vertex new) }
        ensures undone { OnOk result (with_token self.new vertex old ≡ self.old) }
        ensures err { OnErr result (self.new ≡ self.old) }
        ensures absent { OnErr result (old ≡ None) }
        ensures growing { OnErr result (new ≢ None) }
    {
        let _ = old;
        let Some(epoch) = new else {
            self.tokens.remove(&vertex);
            return Ok(());
        };
        let Ok(()) = self.tokens.put(&vertex, epoch) else {
            return Err(AllocError);
        };
        Ok(())
    }

    /// Changes, adds or removes the number of a vertex's item. Only adding one allocates memory.
    pub fn set_item(
        &mut self,
        vertex: usize,
        time: &Timestamp,
        item: i64,
        old: Option<i64>,
        new: Option<i64>,
    ) -> Result<(), AllocError>
        requires in_range { vertex < length self.old.items }
        requires there { item_of (items_at self.old vertex) (item_key time.now item) ≡ old }
        requires some { new ≢ Some (pos 0) }
        ensures ok { OnOk result (self.new ≡ with_number self.old vertex time.now item new) }
        ensures undone { OnOk result (with_number self.new vertex time.now item old ≡ self.old) }
        ensures err { OnErr result (self.new ≡ self.old) }
        ensures absent { OnErr result (old ≡ None) }
        ensures growing { OnErr result (new ≢ None) }
    {
        self.items[vertex].set(time, item, old, new)?;
        Ok(())
    }

    /// Adds `n` to a sink vertex's count of a value.
    pub fn add_sink(&mut self, vertex: usize, value: i64, n: u64) -> Result<(), CountFault>
        ensures ok { OnOk result (self.new ≡ with_counted self.old vertex value (pos n)) }
        ensures undone { OnOk result (with_counted self.new vertex value (less n) ≡ self.old) }
        ensures err { OnErr result (self.new ≡ self.old) }
        ensures full { (result ≡ Err CountFull) ↔ IsTooMany (counted_at self.old vertex value) n }
        ensures memory { result ≡ Err CountMemory → counted_at self.old vertex value ≡ 0 }
    {
        self.sinks.add(&SinkKey { vertex, value }, n)
    }

    /// Subtracts `n` from a sink vertex's count of a value. The call allocates no memory.
    pub fn take_sink(&mut self, vertex: usize, value: i64, n: u64)
        requires { n ≤ counted_at self.old vertex value }
        ensures taken { self.new ≡ with_counted self.old vertex value (less n) }
        ensures undone { with_counted self.new vertex value (pos n) ≡ self.old }
    {
        self.sinks.take(&SinkKey { vertex, value }, n);
    }

    /// Adds an integer to the unsent entry at a pointstamp. The call allocates no memory if there is an entry.
    pub fn add_unsent(&mut self, point: &Pointstamp, n: i64) -> Result<(), DeltaFault>
        ensures ok { OnOk result (self.new ≡ with_more_unsent self.old point.now n) }
        ensures undone { OnOk result (with_fewer_unsent self.new point.now n ≡ self.old) }
        ensures err { OnErr result (self.new ≡ self.old) }
        ensures full { (result ≡ Err (DeltaFault.DeltaFull))
            ↔ IsUnsentTooLarge self.old point.now n }
        ensures no_growth { HasUnsent self.old point.now → result ≢ Err (DeltaFault.Memory) }
    {
        self.unsent.add(point, n)?;
        Ok(())
    }

    /// Removes these entries from the unsent change. The call allocates no memory.
    pub fn take_part(&mut self, part: &Delta<A>)
        requires { IsPartOf part.now self.old.unsent }
        ensures taken { self.new ≡ without_part self.old part.now }
        ensures undone { with_part self.new part.now ≡ self.old }
    {
        self.unsent.take_part(part);
    }

    /// Adds these entries to the unsent change, which has none at their pointstamps.
    pub fn put_part(&mut self, part: &Delta<A>) -> Result<(), AllocError>
        requires { IsApart part.now self.old.unsent }
        ensures ok { OnOk result (self.new ≡ with_part self.old part.now) }
        ensures undone { OnOk result (without_part self.new part.now ≡ self.old) }
        ensures err { OnErr result (self.new ≡ self.old) }
    {
        self.unsent.put_part(part)?;
        Ok(())
    }
}
