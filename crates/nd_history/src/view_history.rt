//! The changes of a processor's view: the history of its entry at a pointstamp.
ghost use Rattle.std.specs.Prelude.{◌≡◌, ◌≤◌, ℤ, length, IfOk, IfErr, OnOk};
ghost use Rattle.nd_delta.specs.Delta.{at};
ghost use Rattle.nd_protocol.specs.State.{view};
ghost use Rattle.nd_history.specs.ChangeList.{AreFirstChanges};
ghost use Rattle.nd_history.specs.ViewChanges.{changes_of, CanList, CannotList};

use crate::history::{Observation, history, walk_at};
use crate::{ChangeList, ChangesFault};
use nd_cluster::Cluster;
use nd_paths::Pointstamp;
use nd_timeline::Timeline;
use std::alloc::Allocator;

/// The entry of processor `q`'s view at the pointstamp, 0 if there is none.
#[derive(Drop)]
struct ViewEntry<'a> {
    q: usize,
    point: &'a Pointstamp,
}

impl Observation for ViewEntry<'_> {
    ghost Shows = { λ e s n. n ≡ at (view s e.q) e.point.now };

    fn of<A: Allocator + Copy>(&self, cluster: &Cluster<A>) -> i64 {
        if self.q >= cluster.n() {
            return 0;
        }
        cluster.view(self.q).get(self.point)
    }
}

// Checks that there is such a processor, and that the range is one of kept steps.
fn check<A: Allocator + Copy>(
    timeline: &Timeline<A>,
    q: usize,
    lo: u64,
    hi: u64,
) -> Result<(), ChangesFault>
    ensures may { OnOk result (CanList timeline.now q lo hi) }
    ensures cannot { IfErr result (CannotList timeline.now q lo hi) }
{
    if q >= timeline.cluster().n() {
        return Err(ChangesFault::NoProcessor);
    }
    if lo > hi {
        return Err(ChangesFault::BadRange);
    }
    if hi > timeline.kept() {
        return Err(ChangesFault::NoSuchPoint);
    }
    Ok(())
}

/// Lists the positions above `lo` and up to `hi` at which the entry of processor `q`'s view at the
/// pointstamp differs from the entry one kept step before, in order, each with the entry there.
///
/// At most 1,000 are listed. If there are more, `more` is true.
pub fn changes<A: Allocator + Copy>(
    alloc: A,
    timeline: &Timeline<A>,
    q: usize,
    point: &Pointstamp,
    lo: u64,
    hi: u64,
) -> Result<ChangeList<A>, ChangesFault>
    ensures told { IfOk result (AreFirstChanges (changes_of timeline.now q point.now lo hi)) }
    ensures may { OnOk result (CanList timeline.now q lo hi) }
    ensures cannot { IfErr result (CannotList timeline.now q lo hi) }
{
    check(timeline, q, lo, hi)?;
    let mut walk = walk_at(alloc, timeline, lo)?;
    Ok(history(alloc, timeline, &mut walk, &ViewEntry { q, point }, hi)?)
}
