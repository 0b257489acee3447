//! The integer at a key, and what is read about a change before it is applied: whether the integer at its place is not
//! 0 afterwards, and whether it is within its limit.
ghost use Rattle.std.specs.Prelude.{◌≡◌, ◌≤◌, ◌^◌, unsigned_abs};
ghost use Rattle.nd_steps.specs.Slots.{stands, SlotIsThere};
ghost use Rattle.nd_steps.specs.Limits.{ReadsAs, ReadsChange};
ghost use Rattle.nd_steps.specs.Turns.{IsReadable};
ghost use Rattle.nd_steps.specs.Borrowed.{change_of, slot_of};

use crate::amounts::epoch_number;
use crate::change::ChangeRef;
use crate::slot::KeyRef;
use nd_processor::Processor;
use nd_time::limits::MAX_COUNT;
use std::alloc::Allocator;

// Returns the integer at a key. Looks it up once.
fn number_at<A: Allocator + Copy>(processor: &Processor<A>, key: &KeyRef<'_>) -> i128
    requires { SlotIsThere processor.now (slot_of key.now) }
    ensures value { result ≡ stands processor.now (slot_of key.now) }
    ensures small { unsigned_abs result ≤ 2 ^ 64 }
{
    match key {
        KeyRef::Records(key) => i128::from(processor.count_of(key)),
        KeyRef::Request(point) => i128::from(processor.has_request(point)),
        KeyRef::Token(vertex) => epoch_number(processor.token(*vertex)),
        KeyRef::State { vertex, key } => {
            let number = processor.vertex_state(*vertex).get(&key.time, key.item);
            i128::from(number.unwrap_or(0))
        }
        KeyRef::Sink(key) => i128::from(processor.sink_count(key.vertex, key.value)),
        KeyRef::Unsent(point) => i128::from(processor.unsent().get(point)),
    }
}

// What one look-up says about a change.
#[derive(Drop)]
pub(crate) struct Reading {
    // Whether the integer at its place is not 0 afterwards.
    pub(crate) leaves: bool,
    // Whether the count at its place, if it is a count, is within its limit afterwards.
    pub(crate) count_stays: bool,
    // Whether the entry at its place, if it is an entry, is within its limit afterwards.
    pub(crate) entry_stays: bool,
}

// Reads a change after which `after` is the integer at its key.
fn reading_after(key: &KeyRef<'_>, after: i128) -> Reading
    ensures { ReadsAs result (slot_of key.now) after }
{
    let leaves = after != 0;
    let stays = after.unsigned_abs() <= u128::from(MAX_COUNT);
    match key {
        KeyRef::Records(_) | KeyRef::Sink(_) => Reading {
            leaves,
            count_stays: stays,
            entry_stays: true,
        },
        KeyRef::Unsent(_) => Reading {
            leaves,
            count_stays: true,
            entry_stays: stays,
        },
        KeyRef::Request(_) | KeyRef::Token(_) | KeyRef::State { .. } => Reading {
            leaves,
            count_stays: true,
            entry_stays: true,
        },
    }
}

// Reads a change in its processor.
pub(crate) fn reading_of<A: Allocator + Copy>(
    processors: &[Processor<A>],
    change: &ChangeRef<'_>,
) -> Reading
    requires { IsReadable processors.now (change_of change.now) }
    ensures { ReadsChange processors.now (change_of change.now) result }
{
    let before = number_at(&processors[change.p as usize], &change.key);
    reading_after(&change.key, before + change.n)
}
