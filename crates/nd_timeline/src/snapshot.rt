//! A snapshot: a copy of a timeline, and the number of log entries that led to it.
ghost use Rattle.std.specs.Prelude.{◌≡◌, ◌<◌, ◌↔◌, length, IfOk, IsTrue};
ghost use Rattle.nd_view.specs.View.{IsPassed};
ghost use Rattle.nd_protocol.specs.State.{view};
ghost use Rattle.nd_protocol.specs.Invariant.{KeepsProtocol, IsFinished};
ghost use Rattle.nd_timeline.specs.Timeline.{cluster_of, IsTimeline};
ghost use Rattle.nd_timeline.specs.Snapshot.{snapshot_of};

use crate::Timeline;
use nd_cluster::Cluster;
use nd_paths::Pointstamp;
use std::alloc::{AllocError, Allocator, Global};
use std::marker::Model;

/// A copy of a timeline, which no later command changes, and the length of the log that led to it.
///
/// No call takes a lock.
pub struct Snapshot<A: Allocator + Copy = Global> {
    index: u64,
    timeline: Timeline<A>,
}

impl<A: Allocator + Copy> Model for Snapshot<A> {
    ghost use Rattle.nd_timeline.specs.Snapshot.{SnapshotValue, snapshot_code};

    ghost Value = { SnapshotValue A };

    ghost coded = { snapshot_code A };

    ghost view = { λ a. record { index = a.index; timeline = a.timeline } };
}

impl<A: Allocator + Copy> Drop for Snapshot<A> {
    fn drop(self) {
        let Snapshot {
            index: _,
            timeline: _,
        } = self;
    }
}

impl<A: Allocator + Copy> Snapshot<A> {
    /// Copies a timeline, with `index` as the index of the snapshot.
    pub fn of(alloc: A, timeline: &Timeline<A>, index: u64) -> Result<Snapshot<A>, AllocError>
        ensures { IfOk result (λ s. s ≡ snapshot_of timeline.now index) }
    {
        Ok(Snapshot {
            index,
            timeline: timeline.copy(alloc)?,
        })
    }

    /// Returns the index.
    pub fn index(&self) -> u64
        ensures { result ≡ self.now.index }
    {
        self.index
    }

    /// Returns the timeline.
    pub fn timeline(&self) -> &Timeline<A>
        ensures { result.now ≡ self.now.timeline }
    {
        &self.timeline
    }

    /// Returns the position of the cursor: how many of the kept steps lead to the cluster.
    pub fn at(&self) -> u64
        ensures value { result ≡ self.now.timeline.cursor }
        ensures timeline { IsTimeline self.now.timeline }
    {
        self.timeline.at()
    }

    /// Returns the number of kept steps.
    pub fn kept(&self) -> u64
        ensures { result ≡ length self.now.timeline.kept }
    {
        self.timeline.kept()
    }

    /// Returns the cluster at the cursor.
    pub fn cluster(&self) -> &Cluster<A>
        ensures value { result.now ≡ cluster_of self.now.timeline }
        ensures protocol { KeepsProtocol self.now.timeline.base → KeepsProtocol result.now }
    {
        self.timeline.cluster()
    }

    /// Returns whether processor `q`'s view at the cursor has no positive entry at or before the pointstamp
    /// (FORTE 2013).
    pub fn passed(&self, q: usize, point: &Pointstamp) -> bool
        requires { q < length (cluster_of self.now.timeline).processors }
        ensures passed { IsTrue result ↔ IsPassed (cluster_of self.now.timeline).graph
            (view (cluster_of self.now.timeline) q) point.now }
        ensures finished { IsTrue result → KeepsProtocol self.now.timeline.base
            → IsFinished (cluster_of self.now.timeline) point.now }
    {
        self.timeline.passed(q, point)
    }

    /// Returns an equal snapshot.
    pub fn copy(&self, alloc: A) -> Result<Snapshot<A>, AllocError>
        ensures { IfOk result (λ s. s ≡ self.now) }
    {
        let Snapshot { index, timeline } = self;
        Snapshot::of(alloc, timeline, *index)
    }
}
