//! The records of the kept steps.
ghost use Rattle.std.specs.Prelude.{◌≡◌, ◌+◌, ◌≤◌, length, None, IfSome};
ghost use Rattle.nd_cluster.specs.Records.{Leads};
ghost use Rattle.nd_timeline.specs.Timeline.{cluster_of, moved_to};

use crate::Timeline;
use nd_cluster::Record;
use std::alloc::Allocator;

impl<A: Allocator + Copy> Timeline<A> {
    /// Returns the record of the kept step that leads from position `i` to the next, `None` if there is no
    /// such step.
    pub fn record(&self, i: u64) -> Option<&Record<A>>
        ensures none { result ≡ None → length self.now.kept ≤ i }
        ensures leads { IfSome result (λ r. Leads r.now (cluster_of (moved_to self.now i))
            (cluster_of (moved_to self.now (i + 1)))) }
    {
        if i >= self.kept() {
            return None;
        }
        Some(self.kept.record(i))
    }
}
