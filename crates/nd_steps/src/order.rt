//! The order in which changes are applied, and the limits that they may exceed.
ghost use Rattle.std.specs.Prelude.{IsTrue, IfOk, IfErr, OnOk};
ghost use Rattle.nd_steps.specs.Plans.{Each};
ghost use Rattle.nd_steps.specs.Orders.{FailsFirst, StayWithin, StayFails, CanReach, AreOrdered, PassLimit};
ghost use Rattle.nd_steps.specs.Turns.{IsReadable, IsInOrder};

use crate::Change;
use crate::reading::reading_of;
use nd_processor::Processor;
use nd_protocol::Refusal;
use std::alloc::Allocator;

// Returns the limit that is exceeded: that of counts before that of entries.
pub(crate) fn within(counts_stay: bool, entries_stay: bool) -> Result<(), Refusal>
    ensures ok { OnOk result (IsTrue counts_stay × IsTrue entries_stay) }
    ensures err { IfErr result (FailsFirst counts_stay entries_stay) }
{
    if !counts_stay {
        return Err(Refusal::CountFull);
    }
    if !entries_stay {
        return Err(Refusal::DeltaFull);
    }
    Ok(())
}

// Puts the changes after which the integer at their place is not 0 before the others, and tests the limits. Looks each place up
// once.
fn put_in_order<A: Allocator + Copy>(
    processors: &[Processor<A>],
    changes: &mut [Change],
) -> Result<(), Refusal>
    requires { Each (IsReadable processors.now) changes.old }
    ensures order { IsInOrder processors.now changes.old changes.new }
    ensures within { OnOk result (StayWithin processors.now changes.old) }
    ensures refused { IfErr result (StayFails processors.now changes.old) }
{
    let mut counts_stay = true;
    let mut entries_stay = true;
    let mut turn = 0;
    for i in 0..changes.len() {
        let reading = reading_of(processors, &changes[i].borrowed());
        counts_stay &= reading.count_stays;
        entries_stay &= reading.entry_stays;
        if reading.leaves {
            changes.swap(turn, i);
            turn += 1;
        }
    }
    within(counts_stay, entries_stay)
}

/// Returns the changes in the order in which they are applied, so that everything is added before anything is removed; or the
/// limit because of which they are refused: that of counts before that of entries.
pub fn planned_changes<A: Allocator + Copy>(
    processors: &[Processor<A>],
    all: Vec<Change, A>,
) -> Result<Vec<Change, A>, Refusal>
    requires { CanReach processors.now all.items }
    ensures ok { IfOk result (λ v. AreOrdered processors.now all.items v.items) }
    ensures refused { IfErr result (PassLimit processors.now all.items) }
{
    let mut changes = all;
    put_in_order(processors, &mut changes)?;
    Ok(changes)
}
