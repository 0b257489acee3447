//! The theorems of states at rest, for every state of a cluster with the protocol invariant. Each is a clause of a function
//! without code; a caller that needs the clause calls the function.
ghost use Rattle.nd_rest.specs.Laws.{OneEnd, RestHasPassed, RestHasFinished, MovesEnd, EndIsThere};
ghost use Rattle.nd_rest.specs.Laws.{RestIsLeftToUsers};

use nd_paths::order_is_transitive;
use nd_protocol::{protocol_is_safe, steps_keep_protocol};
use std::alloc::Allocator;

/// States that all lists of moves from a state that lead to a state at rest lead to the same one, and that what is passed or
/// finished after any list of moves is passed or finished there; and, if one list leads there, how long a list can be, and
/// that a list after which there is no move leads there, too, unless a limit refuses a step.
pub fn order_does_not_matter<A: Allocator>()
    ensures end { OneEnd A }
    ensures passed { RestHasPassed A }
    ensures finished { RestHasFinished A }
    ensures moves { MovesEnd A }
    ensures there { EndIsThere A }
{
    order_is_transitive();
    steps_keep_protocol::<A>();
    protocol_is_safe::<A>();
}

/// States that at rest each reason why a processor does not consider something finished is left to users: no update of it is
/// under way, and it is held by tokens and capabilities alone.
pub fn rest_is_left_to_users<A: Allocator>()
    ensures { RestIsLeftToUsers A }
{}
