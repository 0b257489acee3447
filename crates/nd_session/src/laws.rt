//! What a log determines: a clause of a function without code, to be called if the clause is needed.
ghost use Rattle.nd_session.specs.Laws.{LogsDetermineMachines};

use nd_machine::replies_determine_machines;
use std::alloc::Allocator;

/// States that the entries of a log determine the machine after them.
pub fn logs_determine_machines<A: Allocator>()
    ensures { LogsDetermineMachines A }
{
    replies_determine_machines::<A>();
}
