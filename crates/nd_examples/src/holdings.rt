//! What processors hold: items of a vertex, the token of another, and parts of what is unsent.

ghost use Rattle.std.specs.Prelude.{IfSome};
ghost use Rattle.nd_delta.specs.Delta.{IsApart};

use crate::graphs::time;
use nd_delta::Delta;
use nd_processor::Processor;
use nd_time::Timestamp;
use nd_vertex::VertexState;
use std::alloc::{AllocError, Allocator};

/// Sets the number of an item; `None` if the number is 0.
pub fn set<A: Allocator + Copy>(
    state: &mut VertexState<A>,
    time: &Timestamp,
    item: i64,
    number: Option<i64>,
) -> Option<Result<(), AllocError>> {
    if number == Some(0) {
        return None;
    }
    let old = state.get(time, item);
    Some(state.set(time, item, old, number))
}

/// Moves the token of the first vertex from its present epoch.
pub fn move_token<A: Allocator + Copy>(
    processor: &mut Processor<A>,
    new: Option<u32>,
) -> Result<(), AllocError> {
    let old = processor.token(0);
    processor.move_token(0, old, new)?;
    Ok(())
}

/// Returns the number of the item 7 of the second vertex at epoch 0.
pub fn item<A: Allocator + Copy>(processor: &Processor<A>) -> Option<i64> {
    if processor.vertex_count() < 2 {
        return None;
    }
    processor.vertex_state(1).get(&time(&[0])?, 7)
}

/// Sets the number of that item. `None` if the number is 0, or if there is no such vertex.
pub fn set_item<A: Allocator + Copy>(
    processor: &mut Processor<A>,
    new: Option<i64>,
) -> Option<Result<(), AllocError>> {
    if new == Some(0) || processor.vertex_count() < 2 {
        return None;
    }
    let time = time(&[0])?;
    let old = processor.vertex_state(1).get(&time, 7);
    Some(processor.set_item(1, &time, 7, old, new))
}

/// Removes and returns all that is unsent.
#[tactic(auto, using(crate::proofs::Parts::is_all, crate::proofs::Parts::all_apart))]
pub fn take_all<A: Allocator + Copy>(processor: &mut Processor<A>, alloc: A) -> Option<Delta<A>>
    ensures { IfSome result (λ d. IsApart d processor.new.unsent) }
{
    let part = processor.unsent().whole(alloc).ok()?;
    processor.take_part(&part);
    Some(part)
}
