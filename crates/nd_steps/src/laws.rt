//! A law of refusals: a function without code, to be called if its clause is needed.
ghost use Rattle.nd_steps.specs.Laws.{FreeMeansEnabled};

use nd_paths::Paths;
use std::alloc::Allocator;

/// Proves that on a cluster of this graph a step is enabled if no condition of a refusal holds. For a broadcast this implies
/// that what stays is supported.
pub fn free_steps_are_enabled<A: Allocator, B: Allocator>(paths: &Paths<A>)
    ensures { FreeMeansEnabled B paths.now }
{
    paths.order_is_decided();
}
