//! What a vertex does on records and notifications: the table of operators.
ghost use Rattle.std.specs.Prelude.{◌≡◌, ◌≢◌, ◌↔◌, Some, Err, IfOk, IfErr, IsErr, pos, length};
ghost use Rattle.nd_graph.specs.Graph.{action_of};
ghost use Rattle.nd_vertex.specs.Items.{item_key};
ghost use Rattle.nd_vertex.specs.Table.{plain_emissions, on_record as recorded, on_notice as noticed, time_past as past_of, without_time};
ghost use Rattle.nd_vertex.specs.Edits.{LeadsTo, number_of, with_item};
ghost use Rattle.nd_vertex.specs.Effects.{IsEffect, IsReaction, IsCounterFull, AreEmittable, IsInRange, IsOutOfRange, MayReact, MayActAt, emitted, listed};

use crate::{Effect, Emission, ItemEdit, ItemKey, VertexFault, VertexState};
use nd_graph::{Action, Op};
use nd_time::{CounterFull, Timestamp};
use std::alloc::{AllocError, Allocator};

// Returns the timestamp after the vertex.
fn time_past(op: Op, time: &Timestamp) -> Result<Timestamp, CounterFull>
    requires { MayActAt (action_of op) (length time.now.counters) }
    ensures ok { IfOk result (λ t. t ≡ past_of op time.now) }
    ensures full { IsErr result ↔ IsCounterFull op time.now }
{
    match op.action() {
        Action::Identity => Ok(time.copy()),
        Action::Ingress => Ok(time.ingress().unwrap()),
        Action::Egress => Ok(time.egress().unwrap()),
        Action::Feedback => time.feedback(),
    }
}

// Returns the number, or `None` if it is 0.
fn nonzero(n: i64) -> Option<i64>
    ensures number { number_of result ≡ n }
    ensures some { result ≢ Some (pos 0) }
{
    if n == 0 { None } else { Some(n) }
}

// Returns a list of the item, or an empty list if there is none.
fn list_of<T: Drop, A: Allocator>(alloc: A, item: Option<T>) -> Result<Vec<T, A>, AllocError>
    ensures { IfOk result (λ v. v.items ≡ listed item) }
{
    let mut list = Vec::new(alloc);
    if let Some(item) = item {
        list.push(item)?;
    }
    Ok(list)
}

// Returns the emission of an output at `time`, if there is an output.
fn emission_of(time: Timestamp, output: Option<(u32, i64)>) -> Option<Emission>
    ensures { listed result ≡ emitted time (listed output) }
{
    match output {
        Some((port, value)) => Some(Emission { port, time, value }),
        None => None,
    }
}

// What a vertex does on a record, apart from requesting a notification and counting.
struct Reaction {
    // The port and the value that it emits.
    output: Option<(u32, i64)>,
    // The edit of the item that it changes.
    edit: Option<ItemEdit>,
}

// Returns the port and the value that an operator emits on a record, for operators that do not depend on items.
fn plain_output(op: Op, value: i64) -> Result<Option<(u32, i64)>, VertexFault>
    ensures ok { IfOk result (λ e. listed e ≡ plain_emissions op value) }
    ensures fits { IfOk result (λ _. AreEmittable (plain_emissions op value)) }
    ensures fault { IfErr result (λ f. f ≡ VertexFault.ValueRange) }
    ensures range { IfErr result (λ _. ¬ AreEmittable (plain_emissions op value)) }
{
    match op {
        Op::Input | Op::Sum | Op::Distinct | Op::Opaque { .. } | Op::Sink => Ok(None),
        Op::Ingress | Op::Egress | Op::Feedback | Op::Hold => Ok(Some((0, value))),
        Op::Add(k) => match value.checked_add(k) {
            Some(sum) => Ok(Some((0, sum))),
            None => Err(VertexFault::ValueRange),
        },
        Op::Mul(k) => match value.checked_mul(k) {
            Some(product) => Ok(Some((0, product))),
            None => Err(VertexFault::ValueRange),
        },
        Op::Below(k) => {
            if value < k {
                Ok(Some((0, value)))
            } else {
                Ok(None)
            }
        }
        Op::Split(k) => {
            if value < k {
                Ok(Some((0, value)))
            } else {
                Ok(Some((1, value)))
            }
        }
    }
}

impl<A: Allocator + Copy> VertexState<A> {
    // Returns the edit that sets an item to `new` or removes it, or `None` if that changes nothing.
    fn change(&self, time: &Timestamp, item: i64, new: Option<i64>) -> Option<ItemEdit>
        requires { new ≢ Some (pos 0) }
        ensures { LeadsTo self.now (listed result)
            (with_item self.now (item_key time.now item) new) }
    {
        let old = self.get(time, item);
        if old == new {
            return None;
        }
        let key = ItemKey {
            time: time.copy(),
            item,
        };
        Some(ItemEdit { key, old, new })
    }

    // Adds the value to the stored sum, and emits nothing yet.
    fn sum(&self, time: &Timestamp, value: i64) -> Result<Reaction, VertexFault>
        ensures ok { IfOk result (λ r. IsReaction self.now Op.Sum time.now value r) }
        ensures fits { IfOk result (λ _. IsInRange (recorded Op.Sum self.now time.now value)) }
        ensures fault { IfErr result (λ f. f ≡ VertexFault.ValueRange) }
        ensures range { IfErr result (λ _. ¬ IsInRange (recorded Op.Sum self.now time.now value)) }
    {
        match self.get(time, 0).unwrap_or(0).checked_add(value) {
            Some(sum) => Ok(Reaction {
                output: None,
                edit: self.change(time, 0, nonzero(sum)),
            }),
            None => Err(VertexFault::ValueRange),
        }
    }

    // Emits and stores a value that is new at its timestamp.
    fn distinct(&self, time: &Timestamp, value: i64) -> Reaction
        ensures ok { IsReaction self.now Op.Distinct time.now value result }
        ensures fits { IsInRange (recorded Op.Distinct self.now time.now value) }
    {
        match self.get(time, value) {
            Some(_) => Reaction {
                output: None,
                edit: None,
            },
            None => Reaction {
                output: Some((0, value)),
                edit: self.change(time, value, Some(1)),
            },
        }
    }

    // Returns what a vertex emits on a record, and which item it changes.
    fn reaction(&self, op: Op, time: &Timestamp, value: i64) -> Result<Reaction, VertexFault>
        ensures ok { IfOk result (λ r. IsReaction self.now op time.now value r) }
        ensures fits { IfOk result (λ _. IsInRange (recorded op self.now time.now value)) }
        ensures fault { IfErr result (λ f. f ≡ VertexFault.ValueRange) }
        ensures range { IfErr result (λ _. ¬ IsInRange (recorded op self.now time.now value)) }
    {
        let _ = &self.map;
        match op {
            Op::Sum => self.sum(time, value),
            Op::Distinct => Ok(self.distinct(time, value)),
            _ => Ok(Reaction {
                output: plain_output(op, value)?,
                edit: None,
            }),
        }
    }

    /// Returns the effect of a record on the operator, by the table and the items of this vertex.
    ///
    /// The items stay as they are until the effect is committed. Returns CounterFull (11) if the last counter of a
    /// feedback's timestamp is at its limit, and otherwise ValueRange (12) if an emission or an item does not fit 64
    /// bits.
    pub fn on_record(
        &self,
        alloc: A,
        op: Op,
        time: &Timestamp,
        value: i64,
    ) -> Result<Effect<A>, VertexFault>
        requires { MayActAt (action_of op) (length time.now.counters) }
        ensures ok { IfOk result
            (IsEffect self.now op time.now (recorded op self.now time.now value)) }
        ensures full { (result ≡ Err VertexFault.CounterFull) ↔ IsCounterFull op time.now }
        ensures range { (result ≡ Err VertexFault.ValueRange)
            ↔ IsOutOfRange self.now op time.now value }
        ensures memory { result ≡ Err VertexFault.Memory → MayReact self.now op time.now value }
    {
        let past = time_past(op, time)?;
        let Reaction { output, edit } = self.reaction(op, time, value)?;
        Ok(Effect {
            emits: list_of(alloc, emission_of(past, output))?,
            asks: op.asks_for_notices(),
            items: list_of(alloc, edit)?,
            sink: op.counts_values(),
        })
    }

    // Returns the port and the value that a vertex emits on a notification.
    fn noticed_output(&self, op: Op, time: &Timestamp) -> Option<(u32, i64)>
        ensures { listed result ≡ (noticed op self.now time.now).emissions }
    {
        if op != Op::Sum {
            return None;
        }
        match self.get(time, 0) {
            Some(sum) => Some((0, sum)),
            None => None,
        }
    }

    // Returns the edits that remove all items at a timestamp. It reads no other items.
    fn removals(&self, alloc: A, time: &Timestamp) -> Result<Vec<ItemEdit, A>, AllocError>
        ensures { IfOk result (λ v. LeadsTo self.now v.items (without_time self.now time.now)) }
    {
        let first = ItemKey {
            time: time.copy(),
            item: i64::MIN,
        };
        let last = ItemKey {
            time: time.copy(),
            item: i64::MAX,
        };
        let mut edits = Vec::new(alloc);
        for (key, number) in self.map.between(&first, &last) {
            edits.push(ItemEdit {
                key: key.copy(),
                old: Some(*number),
                new: None,
            })?;
        }
        Ok(edits)
    }

    // Returns the edits of the items that a notification changes.
    fn noticed_edits(
        &self,
        alloc: A,
        op: Op,
        time: &Timestamp,
    ) -> Result<Vec<ItemEdit, A>, AllocError>
        ensures { IfOk result (λ v. LeadsTo self.now v.items (noticed op self.now time.now).items) }
    {
        match op {
            Op::Sum => list_of(alloc, self.change(time, 0, None)),
            Op::Distinct => self.removals(alloc, time),
            _ => Ok(Vec::new(alloc)),
        }
    }

    /// Returns the effect of a notification on the operator, by the table and the items of this vertex.
    ///
    /// The items stay as they are until the effect is committed. The only error is Memory.
    pub fn on_notice(&self, alloc: A, op: Op, time: &Timestamp) -> Result<Effect<A>, VertexFault>
        ensures ok { IfOk result (IsEffect self.now op time.now (noticed op self.now time.now)) }
        ensures err { IfErr result (λ e. e ≡ VertexFault.Memory) }
    {
        let output = self.noticed_output(op, time);
        Ok(Effect {
            emits: list_of(alloc, emission_of(time.copy(), output))?,
            asks: false,
            items: self.noticed_edits(alloc, op, time)?,
            sink: false,
        })
    }
}
