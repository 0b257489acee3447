//! The turns of a condition: the history of whether it holds.
ghost use Rattle.std.specs.Prelude.{◌≤◌, length, IfOk, IfErr, OnOk};
ghost use Rattle.nd_breaks.specs.Conditions.{Holds};
ghost use Rattle.nd_history.specs.History.{ShowsIf};
ghost use Rattle.nd_history.specs.Least.{HoldsAt, IsLeast};
ghost use Rattle.nd_history.specs.Turns.{AreListed, first_hit_of, MayTurn, CannotTurn};

use crate::history::{Observation, history, walk_at};
use crate::{PositionList, TurnList, TurnsFault};
use nd_breaks::Condition;
use nd_cluster::Cluster;
use nd_timeline::Timeline;
use std::alloc::Allocator;

/// A condition is observed as 1 if it holds, and as 0 if it does not.
impl Observation for Condition {
    ghost Shows = { λ c s. ShowsIf (Holds s c) };

    fn of<A: Allocator + Copy>(&self, cluster: &Cluster<A>) -> i64 {
        if self.holds(cluster) { 1 } else { 0 }
    }
}

// Checks that the range is one of kept steps.
fn check<A: Allocator + Copy>(timeline: &Timeline<A>, lo: u64, hi: u64) -> Result<(), TurnsFault>
    ensures may { OnOk result (MayTurn timeline.now lo hi) }
    ensures cannot { IfErr result (CannotTurn timeline.now lo hi) }
{
    if lo > hi {
        return Err(TurnsFault::BadRange);
    }
    if hi > timeline.kept() {
        return Err(TurnsFault::NoSuchPoint);
    }
    Ok(())
}

/// Lists the turns of the condition above `lo` and up to `hi` in order: the positions at which it holds
/// and did not hold one kept step before, or the other way round.
///
/// At most 1,000 are listed. If there are more, `more` is true. The least position from `lo` to `hi` at
/// which the condition holds, which `search` finds, is `lo` if the condition holds there, and otherwise
/// the first turn.
pub fn turns<A: Allocator + Copy>(
    alloc: A,
    timeline: &Timeline<A>,
    condition: &Condition,
    lo: u64,
    hi: u64,
) -> Result<TurnList<A>, TurnsFault>
    ensures listed { IfOk result (AreListed (HoldsAt timeline.now condition.now) lo hi) }
    ensures least { IfOk result (λ t.
        IsLeast (HoldsAt timeline.now condition.now) lo hi (first_hit_of lo t)) }
    ensures may { OnOk result (MayTurn timeline.now lo hi) }
    ensures cannot { IfErr result (CannotTurn timeline.now lo hi) }
{
    check(timeline, lo, hi)?;
    let mut walk = walk_at(alloc, timeline, lo)?;
    let at_lo = condition.holds(&walk.cluster);
    let told = history(alloc, timeline, &mut walk, condition, hi)?;
    let positions = PositionList::of(alloc, told.changes.as_slice())?;
    Ok(TurnList {
        at_lo,
        positions,
        more: told.more,
    })
}
