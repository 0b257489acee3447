//! What every move of the debugger machine preserves, and what its replies determine: functions without
//! code, to be called if their clauses are needed.
ghost use Rattle.nd_machine.specs.Laws.{MovesKeepBase, MovesKeepTimelines, ChoicesAreUnique, RepliesDetermineMachines};
ghost use Rattle.nd_machine.specs.Laws.{RunsJoin, RunsRepeat};

use nd_cluster::candidates_are_in_turn;
use std::alloc::Allocator;

/// Shows that every move preserves the base, and that each kept step stays enabled in the state to
/// which the steps before it lead.
pub fn moves_keep_timelines<A: Allocator>()
    ensures base { MovesKeepBase A }
    ensures timeline { MovesKeepTimelines A }
{}

/// Shows that the candidates and the state determine the choice among them, and that a command and its
/// reply determine the machine after them.
pub fn replies_determine_machines<A: Allocator>()
    ensures choice { ChoicesAreUnique A }
    ensures machine { RepliesDetermineMachines A }
{
    candidates_are_in_turn::<A>();
}

/// Shows that two runs one after the other make the steps of one run with both limits, and that after the
/// cursor is back the same run makes the same steps, also by a seed.
pub fn runs_repeat<A: Allocator>()
    ensures join { RunsJoin A }
    ensures repeat { RunsRepeat A }
{
    candidates_are_in_turn::<A>();
}
