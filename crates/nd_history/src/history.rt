//! The history of an observation, by one walk over the kept steps of a timeline.
ghost use Rattle.std.specs.Prelude.{◌≡◌, ◌≤◌, ℤ, length, IfOk, OnOk};
ghost use Rattle.nd_protocol.specs.State.{ClusterState};
ghost use Rattle.nd_timeline.specs.Walks.{IsOn};
ghost use Rattle.nd_history.specs.History.{IsHistory, shown_at};

use crate::{ChangeList, EntryChanges};
use nd_cluster::Cluster;
use nd_time::limits::MAX_TOLD;
use nd_timeline::{Changed, Timeline, Walk};
use std::alloc::{AllocError, Allocator};

/// What is observed of a cluster, as a number.
pub(crate) trait Observation {
    ghost Shows: { Self → ClusterState → ℤ → Type 0 };

    // Returns the number.
    fn of<A: Allocator + Copy>(&self, cluster: &Cluster<A>) -> i64
        ensures { Shows self.now cluster.now result };
}

// Moves the walk to position `n`.
fn go<A: Allocator + Copy>(
    timeline: &Timeline<A>,
    walk: &mut Walk<A>,
    n: u64,
) -> Result<(), AllocError>
    requires on { IsOn timeline.now walk.old }
    requires within { n ≤ length timeline.now.kept }
    ensures on { IsOn timeline.now walk.new }
    ensures there { OnOk result (walk.new.at ≡ n) }
{
    let Ok(()) = timeline.walk_to(walk, n) else {
        return Err(AllocError);
    };
    Ok(())
}

// Returns a walk that is at position `n`.
pub(crate) fn walk_at<A: Allocator + Copy>(
    alloc: A,
    timeline: &Timeline<A>,
    n: u64,
) -> Result<Walk<A>, AllocError>
    requires { n ≤ length timeline.now.kept }
    ensures on { IfOk result (IsOn timeline.now) }
    ensures there { IfOk result (λ w. w.at ≡ n) }
{
    let mut walk = timeline.walk_near(alloc, n)?;
    go(timeline, &mut walk, n)?;
    Ok(walk)
}

// Moves the walk forward to position `hi` step by step, and lists the changes of what is observed on the way.
// It stops at the first change that is not listed.
pub(crate) fn history<A: Allocator + Copy, O: Observation>(
    alloc: A,
    timeline: &Timeline<A>,
    walk: &mut Walk<A>,
    observation: &O,
    hi: u64,
) -> Result<ChangeList<A>, AllocError>
    requires on { IsOn timeline.now walk.old }
    requires ahead { walk.old.at ≤ hi }
    requires within { hi ≤ length timeline.now.kept }
    ensures { IfOk result
        (IsHistory (shown_at timeline.now (O.Shows observation.now)) walk.old.at hi) }
{
    let mut changes = EntryChanges::new(alloc);
    let mut before = observation.of(&walk.cluster);
    for at in walk.at..hi {
        go(timeline, walk, at + 1)?;
        let after = observation.of(&walk.cluster);
        if after != before {
            if changes.as_slice().len() == MAX_TOLD {
                return Ok(ChangeList {
                    changes,
                    more: true,
                });
            }
            changes.push(Changed {
                position: at + 1,
                entry: after,
            })?;
        }
        before = after;
    }
    Ok(ChangeList {
        changes,
        more: false,
    })
}
