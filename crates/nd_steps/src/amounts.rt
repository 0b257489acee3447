//! Adding an amount at a key of a processor's maps.
ghost use Rattle.std.specs.Prelude.{◌≡◌, ◌≢◌, ◌≤◌, ◌+◌, ◌≤ℤ◌, ◌+ℤ◌, Some, pos, unsigned_abs, OnOk, OnErr};
ghost use Rattle.nd_time.specs.Limits.{max_counter};
ghost use Rattle.nd_vertex.specs.Edits.{number_of};
ghost use Rattle.nd_protocol.specs.Ranges.{IsValue};
ghost use Rattle.nd_steps.specs.declared.slot.Slot.TheVariants.{Records, Token, State, Sink, Unsent};
ghost use Rattle.nd_steps.specs.Slots.{from_epoch, stands};
ghost use Rattle.nd_steps.specs.Changes.{made_in, FitsIn};
ghost use Rattle.nd_steps.specs.Borrowed.{slot_of};

use crate::slot::KeyRef;
use nd_delta::DeltaFault;
use nd_paths::Pointstamp;
use nd_processor::{CountFault, Processor, SinkKey, ValueAt};
use nd_vertex::ItemKey;
use std::alloc::{AllocError, Allocator};

// Adds `n` records at a key, or removes them if `n` is negative. It takes no memory for a key that
// is there.
fn more_records<A: Allocator + Copy>(
    processor: &mut Processor<A>,
    key: &ValueAt,
    n: i128,
) -> Result<(), AllocError>
    requires { FitsIn processor.old (Records key.now) n }
    ensures ok { OnOk result (processor.new ≡ made_in processor.old (Records key.now) n) }
    ensures err { OnErr result (processor.new ≡ processor.old) }
    ensures absent { OnErr result (stands processor.old (Records key.now) ≡ pos 0) }
{
    let many = n.unsigned_abs() as u64;
    if n < 0 {
        processor.take_records(key, many);
        return Ok(());
    }
    match processor.add_records(key, many) {
        Ok(()) => Ok(()),
        Err(CountFault::Memory) => Err(AllocError),
        Err(CountFault::CountFull) => unreachable!(),
    }
}

// Adds `n` to a sink's count of a value. It takes no memory for a value that the sink has counted.
fn count_more<A: Allocator + Copy>(
    processor: &mut Processor<A>,
    key: &SinkKey,
    n: i128,
) -> Result<(), AllocError>
    requires { FitsIn processor.old (Sink key.now) n }
    ensures ok { OnOk result (processor.new ≡ made_in processor.old (Sink key.now) n) }
    ensures err { OnErr result (processor.new ≡ processor.old) }
    ensures absent { OnErr result (stands processor.old (Sink key.now) ≡ pos 0) }
{
    let many = n.unsigned_abs() as u64;
    if n < 0 {
        processor.take_sink(key.vertex, key.value, many);
        return Ok(());
    }
    match processor.add_sink(key.vertex, key.value, many) {
        Ok(()) => Ok(()),
        Err(CountFault::Memory) => Err(AllocError),
        Err(CountFault::CountFull) => unreachable!(),
    }
}

// Adds `n` at a pointstamp of what is unsent. It takes no memory for a pointstamp that has an
// entry.
fn more_unsent<A: Allocator + Copy>(
    processor: &mut Processor<A>,
    point: &Pointstamp,
    n: i128,
) -> Result<(), AllocError>
    requires { FitsIn processor.old (Unsent point.now) n }
    ensures ok { OnOk result (processor.new ≡ made_in processor.old (Unsent point.now) n) }
    ensures err { OnErr result (processor.new ≡ processor.old) }
    ensures absent { OnErr result (stands processor.old (Unsent point.now) ≡ pos 0) }
{
    match processor.add_unsent(point, n as i64) {
        Ok(()) => Ok(()),
        Err(DeltaFault::Memory) => Err(AllocError),
        Err(DeltaFault::DeltaFull) => unreachable!(),
    }
}

// Returns 1 more than a token's epoch, 0 for no token.
pub(crate) fn epoch_number(epoch: Option<u32>) -> i128
    ensures { result ≡ from_epoch epoch }
{
    match epoch {
        None => 0,
        Some(epoch) => i128::from(epoch) + 1,
    }
}

// Returns the epoch that is 1 less than `n`, `None` for 0.
pub(crate) fn number_epoch(n: i128) -> Option<u32>
    requires some { pos 0 ≤ℤ n }
    requires within { unsigned_abs n ≤ max_counter + 1 }
    ensures { from_epoch result ≡ n }
{
    if n == 0 {
        return None;
    }
    Some((n - 1) as u32)
}

// Adds `n` to the number of a vertex's token. Only a new token takes memory.
fn move_token<A: Allocator + Copy>(
    processor: &mut Processor<A>,
    vertex: usize,
    n: i128,
) -> Result<(), AllocError>
    requires { FitsIn processor.old (Token vertex) n }
    ensures ok { OnOk result (processor.new ≡ made_in processor.old (Token vertex) n) }
    ensures err { OnErr result (processor.new ≡ processor.old) }
    ensures absent { OnErr result (stands processor.old (Token vertex) ≡ pos 0) }
{
    let old = processor.token(vertex);
    let new = number_epoch(epoch_number(old) + n);
    processor.move_token(vertex, old, new)
}

// Returns the number of an item, 0 if it is not there.
pub(crate) fn number(n: Option<i64>) -> i128
    ensures value { result ≡ number_of n }
    ensures ranged { IsValue (number_of n) }
{
    match n {
        Some(n) => i128::from(n),
        None => 0,
    }
}

// Returns `n` as an item's number, `None` for 0.
pub(crate) fn item_number(n: i128) -> Option<i64>
    requires { IsValue n }
    ensures number { number_of result ≡ n }
    ensures some { result ≢ Some (pos 0) }
{
    if n == 0 {
        return None;
    }
    Some(n as i64)
}

// Adds `n` to the number of a vertex's item. Only a new item takes memory.
fn more_of_item<A: Allocator + Copy>(
    processor: &mut Processor<A>,
    vertex: usize,
    key: &ItemKey,
    n: i128,
) -> Result<(), AllocError>
    requires { FitsIn processor.old (State vertex key.now) n }
    ensures ok { OnOk result (processor.new ≡ made_in processor.old (State vertex key.now) n) }
    ensures err { OnErr result (processor.new ≡ processor.old) }
    ensures absent { OnErr result (stands processor.old (State vertex key.now) ≡ pos 0) }
{
    let old = processor.vertex_state(vertex).get(&key.time, key.item);
    let new = item_number(number(old) + n);
    processor.set_item(vertex, &key.time, key.item, old, new)
}

// Adds `n` at a key. It takes no memory if the integer at the key is not 0.
pub(crate) fn make_in<A: Allocator + Copy>(
    processor: &mut Processor<A>,
    key: &KeyRef<'_>,
    n: i128,
) -> Result<(), AllocError>
    requires { FitsIn processor.old (slot_of key.now) n }
    ensures ok { OnOk result (processor.new ≡ made_in processor.old (slot_of key.now) n) }
    ensures err { OnErr result (processor.new ≡ processor.old) }
    ensures absent { OnErr result (stands processor.old (slot_of key.now) ≡ pos 0) }
{
    match key {
        KeyRef::Records(key) => more_records(processor, key, n),
        KeyRef::Request(point) => {
            if n > 0 {
                return processor.add_request(point);
            }
            processor.drop_request(point);
            Ok(())
        }
        KeyRef::Token(vertex) => move_token(processor, *vertex, n),
        KeyRef::State { vertex, key } => more_of_item(processor, *vertex, key, n),
        KeyRef::Sink(key) => count_more(processor, key, n),
        KeyRef::Unsent(point) => more_unsent(processor, point, n),
    }
}
