//! The theorems of the protocol, for every cluster and every step. Each is a clause of a function without code; a caller
//! that needs the clause calls the function.
ghost use Rattle.nd_protocol.specs.Laws.{StartIsState, StartKeepsProtocol, TruthIsSmall};
ghost use Rattle.nd_protocol.specs.Laws.{StepLeadsToState, StepKeepsSettled, StepKeepsProtocol, RunKeepsProtocol};
ghost use Rattle.nd_protocol.specs.Laws.{PassedMeansFinished, HeldIsNotPassed, NothingIsBefore, NoticeComesLast, FinishedStaysFinished};
ghost use Rattle.nd_protocol.specs.Laws.{SentIsLater, SentIsNotPassed, SendIsExact};

use nd_paths::order_is_transitive;
use std::alloc::Allocator;

/// States that the initial state is a state that a cluster may be in, and that it has the protocol invariant.
pub fn starts_keep_protocol()
    ensures state { StartIsState }
    ensures protocol { StartKeepsProtocol }
{
    order_is_transitive();
}

/// States that the number outstanding at a pointstamp fits 63 bits, if the cluster is settled and its numbers are within
/// their limits.
pub fn truth_is_small()
    ensures { TruthIsSmall }
{}

/// States that an enabled step leads from a state to a state and keeps the protocol invariant, and that so does a list of
/// such steps.
pub fn steps_keep_protocol<A: Allocator>()
    ensures state { StepLeadsToState A }
    ensures settled { StepKeepsSettled A }
    ensures protocol { StepKeepsProtocol A }
    ensures run { RunKeepsProtocol A }
{
    order_is_transitive();
}

/// States that no view is ahead of what is really outstanding, if the protocol invariant holds (FORTE 2013).
pub fn protocol_is_safe<A: Allocator>()
    ensures passed { PassedMeansFinished }
    ensures held { HeldIsNotPassed }
    ensures before { NothingIsBefore }
    ensures last { NoticeComesLast A }
    ensures finished { FinishedStaysFinished A }
{
    order_is_transitive();
}

/// States that what is sent from a capability is strictly after it, that no view has passed it, if the protocol invariant
/// holds, and that a send makes one record for each value on each edge of its port and changes nothing else but what its
/// processor has to send.
pub fn sends_are_later<A: Allocator>()
    ensures later { SentIsLater A }
    ensures not_passed { SentIsNotPassed A }
    ensures exact { SendIsExact A }
{
    order_is_transitive();
}
