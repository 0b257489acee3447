//! The effect of changes on processors, with the values before and after.
ghost use Rattle.std.specs.Prelude.{◌≡◌, ◌≤◌, ◌≤ℤ◌, ◌+ℤ◌, pos, unsigned_abs, OnOk};
ghost use Rattle.nd_time.specs.Limits.{max_count};
ghost use Rattle.nd_map.specs.Counts.{natural};
ghost use Rattle.nd_protocol.specs.Ranges.{IsValue};
ghost use Rattle.nd_steps.specs.declared.slot.Slot.TheVariants.{Records, Token, State, Sink, Unsent};
ghost use Rattle.nd_vertex.specs.Edits.{number_of};
ghost use Rattle.nd_steps.specs.Changes.{FitsIn, Fits};
ghost use Rattle.nd_steps.specs.Plans.{Each};
ghost use Rattle.nd_steps.specs.Alterations.{only, altered_at, altered_of, altered_by, number_from, Appends};
ghost use Rattle.nd_steps.specs.Alterations.{item_row, record_row, request_row, sink_row, token_row, unsent_row};

use crate::amounts::{epoch_number, item_number, number, number_epoch};
use crate::{Altered, Change, Effect, ItemAt, Slot};
use nd_paths::Pointstamp;
use nd_processor::{Processor, SinkKey, ValueAt};
use nd_vertex::ItemKey;
use std::alloc::{AllocError, Allocator};

// Returns a count with `n` added.
fn count_after(old: u64, n: i128) -> u64
    requires some { pos 0 ≤ℤ (pos old +ℤ n) }
    requires within { unsigned_abs (pos old +ℤ n) ≤ max_count }
    ensures { result ≡ natural (pos old +ℤ n) }
{
    (i128::from(old) + n) as u64
}

// Returns the effect of adding `n` records of a key.
fn record_altered<A: Allocator + Copy>(
    processor: &Processor<A>,
    p: u32,
    key: &ValueAt,
    n: i128,
) -> Altered<ValueAt, u64>
    requires { FitsIn processor.now (Records key.now) n }
    ensures { result ≡ record_row processor.now p key.now n }
{
    let old = processor.count_of(key);
    Altered {
        p,
        key: key.copy(),
        old,
        new: count_after(old, n),
    }
}

// Returns the effect of adding or removing a request.
fn request_altered<A: Allocator + Copy>(
    processor: &Processor<A>,
    p: u32,
    point: &Pointstamp,
) -> Altered<Pointstamp, bool>
    ensures { result ≡ request_row processor.now p point.now }
{
    let old = processor.has_request(point);
    Altered {
        p,
        key: point.copy(),
        old,
        new: !old,
    }
}

// Returns the effect of adding `n` to the number of a token.
fn token_altered<A: Allocator + Copy>(
    processor: &Processor<A>,
    p: u32,
    vertex: usize,
    n: i128,
) -> Altered<usize, Option<u32>>
    requires { FitsIn processor.now (Token vertex) n }
    ensures { result ≡ token_row processor.now p vertex n }
{
    let old = processor.token(vertex);
    Altered {
        p,
        key: vertex,
        old,
        new: number_epoch(epoch_number(old) + n),
    }
}

// Returns an item's number with `n` added.
fn number_after(old: Option<i64>, n: i128) -> Option<i64>
    requires { IsValue (number_of old +ℤ n) }
    ensures { result ≡ number_from (number_of old +ℤ n) }
{
    item_number(number(old) + n)
}

// Returns the effect of adding `n` to the number of an item.
fn item_altered<A: Allocator + Copy>(
    processor: &Processor<A>,
    p: u32,
    at: ItemAt,
    n: i128,
) -> Altered<ItemAt, Option<i64>>
    requires { FitsIn processor.now (State at.vertex at.key) n }
    ensures { result ≡ item_row processor.now p at.vertex at.key n }
{
    let old = processor
        .vertex_state(at.vertex)
        .get(&at.key.time, at.key.item);
    Altered {
        p,
        key: at,
        old,
        new: number_after(old, n),
    }
}

// Returns the effect of a sink that counts a value `n` times more.
fn sink_altered<A: Allocator + Copy>(
    processor: &Processor<A>,
    p: u32,
    key: SinkKey,
    n: i128,
) -> Altered<SinkKey, u64>
    requires { FitsIn processor.now (Sink key) n }
    ensures { result ≡ sink_row processor.now p key n }
{
    let old = processor.sink_count(key.vertex, key.value);
    Altered {
        p,
        key,
        old,
        new: count_after(old, n),
    }
}

// Returns the effect of adding `n` to an entry of what is unsent.
fn unsent_altered<A: Allocator + Copy>(
    processor: &Processor<A>,
    p: u32,
    point: &Pointstamp,
    n: i128,
) -> Altered<Pointstamp, i64>
    requires { FitsIn processor.now (Unsent point.now) n }
    ensures { result ≡ unsent_row processor.now p point.now n }
{
    let old = processor.unsent().get(point);
    Altered {
        p,
        key: point.copy(),
        old,
        new: (i128::from(old) + n) as i64,
    }
}

impl<A: Allocator + Copy> Effect<A> {
    // Appends the effect of adding `n` at a key of processor `p`.
    fn add_at(
        &mut self,
        processor: &Processor<A>,
        p: u32,
        slot: &Slot,
        n: i128,
    ) -> Result<(), AllocError>
        requires { FitsIn processor.now slot.now n }
        ensures { OnOk result (Appends self.old self.new (altered_at processor.now p slot.now n)) }
    {
        match slot {
            Slot::Records(key) => self.records.push(record_altered(processor, p, key, n))?,
            Slot::Request(point) => self.requests.push(request_altered(processor, p, point))?,
            Slot::Token(vertex) => self.tokens.push(token_altered(processor, p, *vertex, n))?,
            Slot::State { vertex, key } => {
                let at = ItemAt {
                    vertex: *vertex,
                    key: key.copy(),
                };
                self.items.push(item_altered(processor, p, at, n))?
            }
            Slot::Sink(key) => self.sinks.push(sink_altered(processor, p, *key, n))?,
            Slot::Unsent(point) => self.unsent.push(unsent_altered(processor, p, point, n))?,
        }
        Ok(())
    }

    // Appends the effect of a change.
    fn add(&mut self, processors: &[Processor<A>], change: &Change) -> Result<(), AllocError>
        requires { Fits (only processors.now) change.now }
        ensures { OnOk result (Appends self.old self.new (altered_of processors.now change.now)) }
    {
        let processor = &processors[change.p as usize];
        self.add_at(processor, change.p, &change.slot, change.n)
    }

    // Appends the effects of changes, each as if it were the first.
    pub(crate) fn add_all(
        &mut self,
        processors: &[Processor<A>],
        changes: &[Change],
    ) -> Result<(), AllocError>
        requires { Each (Fits (only processors.now)) changes.now }
        ensures { OnOk result (Appends self.old self.new (altered_by processors.now changes.now)) }
    {
        for change in changes {
            self.add(processors, change)?;
        }
        Ok(())
    }
}
