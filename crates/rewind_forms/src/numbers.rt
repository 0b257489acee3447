//! Lists of numbers among JSON values.
ghost use Rattle.std.specs.Prelude.{◌≡◌, ◌≤◌, ◌∷◌, length, map, option_map, IfOk};
ghost use Rattle.serde_json.specs.View.{view};
ghost use Rattle.nd_json.specs.Forms.{small as small_in, integer as integer_in};
ghost use Rattle.nd_graph.specs.Draft.{every};
ghost use Rattle.nd_time.specs.Limits.{max_depth};
ghost use Rattle.rewind_forms.specs.Forms.{all_read, are_read, numbers_of as numbers_from, numbers_at as numbers_in, values_at as values_in, processors_of as processors_from};

use arrayvec::ArrayVec;
use nd_json::{integer, list_at, small};
use nd_protocol::{Processors, Values};
use nd_time::limits::MAX_DEPTH;
use serde_json::Value;
use std::alloc::{AllocError, Global};

// Returns whether each item is a number from 0 to 2^32 - 1.
fn are_small(items: &[Value]) -> bool
    ensures { result ≡ are_read small_in (map view items.now) }
{
    for item in items {
        if small(item).is_none() {
            return false;
        }
    }
    true
}

// Returns whether each item is an integer of 64 bits.
fn are_integers(items: &[Value]) -> bool
    ensures { result ≡ are_read integer_in (map view items.now) }
{
    for item in items {
        if integer(item).is_none() {
            return false;
        }
    }
    true
}

// Returns the items, if each is a number from 0 to 2^32 - 1.
fn smalls(items: &[Value]) -> Option<&[Value]>
    ensures { option_map (λ ns. all_read small_in (map view ns.now)) result
        ≡ every small_in (map view items.now) }
{
    if are_small(items) { Some(items) } else { None }
}

// Returns the items, if each is an integer of 64 bits.
fn integers(items: &[Value]) -> Option<&[Value]>
    ensures { option_map (λ vs. all_read integer_in (map view vs.now)) result
        ≡ every integer_in (map view items.now) }
{
    if are_integers(items) {
        Some(items)
    } else {
        None
    }
}

/// Returns the items if they are the numbers of a time: an epoch and any number of counters.
pub fn numbers_of(items: &[Value]) -> Option<&[Value]>
    ensures { option_map (λ ns. all_read small_in (map view ns.now)) result
        ≡ numbers_from (map view items.now) }
{
    if items.is_empty() {
        return None;
    }
    smalls(items)
}

/// Returns the numbers of the time at the key.
#[tactic(auto, unfolding(crate::specs::Forms::numbers_at))]
pub fn numbers_at<'v>(value: &'v Value, key: &str) -> Option<&'v [Value]>
    ensures { option_map (λ ns. all_read small_in (map view ns.now)) result
        ≡ numbers_in key.now (view value.now) }
{
    let items = list_at(value, key)?;
    numbers_of(items)
}

// Returns the items as counters, if each is a number from 0 to 2^32 - 1.
fn counters_of(items: &[Value]) -> Option<ArrayVec<u32, MAX_DEPTH>>
    requires { length items.now ≤ max_depth }
    ensures { option_map (λ v. v.items) result ≡ every small_in (map view items.now) }
{
    let mut counters = ArrayVec::new();
    for item in items {
        let number = small(item)?;
        counters.push(number);
    }
    Some(counters)
}

/// Returns an epoch and counters, if each is a number from 0 to 2^32 - 1.
pub fn time_numbers(epoch: &Value, counters: &[Value]) -> Option<(u32, ArrayVec<u32, MAX_DEPTH>)>
    requires { length counters.now ≤ max_depth }
    ensures { option_map (λ t. t.0 ∷ t.1.items) result
        ≡ every small_in (view epoch.now ∷ map view counters.now) }
{
    let epoch = small(epoch)?;
    let counters = counters_of(counters)?;
    Some((epoch, counters))
}

/// Returns the items in the list at the key, if each is an integer of 64 bits.
#[tactic(auto, unfolding(crate::specs::Forms::values_at))]
pub fn integers_at<'v>(value: &'v Value, key: &str) -> Option<&'v [Value]>
    ensures { option_map (λ vs. all_read integer_in (map view vs.now)) result
        ≡ values_in key.now (view value.now) }
{
    integers(list_at(value, key)?)
}

/// Returns the items as values; nothing if one of them is not an integer of 64 bits.
pub fn values_of(alloc: Global, items: &[Value]) -> Result<Values, AllocError>
    ensures { IfOk result (λ v. v ≡ all_read integer_in (map view items.now)) }
{
    let mut values = Values::new(alloc);
    for item in items {
        let Some(number) = integer(item) else {
            return Ok(Values::new(alloc));
        };
        values.push(number)?;
    }
    Ok(values)
}

/// Returns the items, if each is a number from 0 to 2^32 - 1 and they are at least one, and at most `most`.
pub fn smalls_of(items: &[Value], most: usize) -> Option<&[Value]>
    ensures { option_map (λ ns. all_read small_in (map view ns.now)) result
        ≡ processors_from most (map view items.now) }
{
    if items.is_empty() || items.len() > most {
        return None;
    }
    smalls(items)
}

/// Returns the items as processors; nothing if one of them is not a number from 0 to 2^32 - 1.
pub fn processors_of(alloc: Global, items: &[Value]) -> Result<Processors, AllocError>
    ensures { IfOk result (λ v. v ≡ all_read small_in (map view items.now)) }
{
    let mut processors = Processors::new(alloc);
    for item in items {
        let Some(number) = small(item) else {
            return Ok(Processors::new(alloc));
        };
        processors.push(number)?;
    }
    Ok(processors)
}
