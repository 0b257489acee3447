//! Checkpoints: saved states of a timeline's cluster, so that a walk to any position can begin near it.
ghost use Rattle.std.specs.Prelude.{◌≡◌, ◌∷◌, ◌++◌, ◌<◌, ◌≤◌, [], Contains, IfOk, IfSome, IsNone, length, take, vec_len, vec_capacity};
ghost use Rattle.nd_timeline.specs.Reached.{IsReached};
ghost use Rattle.nd_timeline.specs.Walks.{cluster_at};
ghost use Rattle.nd_timeline.specs.Checkpoints.{AreKept, IsCheckpoint, IsNearest, IsAmong, IsLast, IsGap, IsNoFarther};

use crate::Walk;
use crate::walk::Kept;
use nd_cluster::{Cluster, Record, Saved};
use std::alloc::{AllocError, Allocator};

/// The minimum number of steps between two checkpoints. A jump over at most this many steps begins at
/// the cursor.
pub(crate) const SPACING: u64 = 1024;

/// The minimum number of steps between two checkpoints per entry of the later one's state.
const STEPS_PER_ENTRY: u64 = 4;

/// The saved state of a timeline's cluster at a position.
#[derive(Drop)]
pub(crate) struct Checkpoint<A: Allocator + Copy> {
    pub(crate) at: u64,
    pub(crate) saved: Saved<A>,
}

/// Where a walk begins.
#[derive(Drop)]
pub(crate) enum Start<'a, A: Allocator + Copy> {
    Base,
    Cursor,
    Checkpoint(&'a Checkpoint<A>),
}

impl<A: Allocator + Copy> Kept<A> {
    // Returns the distance of checkpoint `i` from position `n`.
    fn gap(&self, i: usize, n: u64) -> u64
        requires { i < length self.now.checkpoints.items }
        ensures { IsGap self.now.checkpoints.items i n result }
    {
        self.checkpoints[i].at.abs_diff(n)
    }

    // Returns the checkpoint that is nearest to position `n`, `None` if there are no checkpoints.
    fn nearest(&self, n: u64) -> Option<&Checkpoint<A>>
        ensures among { IfSome result (λ c. Contains self.now.checkpoints.items c.now) }
        ensures near { IfSome result (λ c. IsNoFarther self.now.checkpoints.items c.now.at n) }
        ensures none { IsNone result → self.now.checkpoints.items ≡ [] }
    {
        let mut best = 0;
        for i in 1..self.checkpoints.len() {
            if self.gap(i, n) < self.gap(best, n) {
                best = i;
            }
        }
        self.checkpoints.get(best)
    }

    /// Returns which of the base, the cursor and the checkpoints is nearest to position `n`. The cursor
    /// wins a tie, then the base.
    pub(crate) fn start_near(&self, cursor: u64, n: u64) -> Start<'_, A>
        ensures among { IsAmong self.now.checkpoints.items result }
        ensures near { IsNearest self.now.checkpoints.items cursor n result }
    {
        let from_cursor = cursor.abs_diff(n);
        match self.nearest(n) {
            Some(checkpoint) if checkpoint.at.abs_diff(n) < from_cursor.min(n) => {
                Start::Checkpoint(checkpoint)
            }
            _ if n < from_cursor => Start::Base,
            _ => Start::Cursor,
        }
    }

    /// Returns the cluster that was saved in a checkpoint.
    pub(crate) fn restored(
        &self,
        alloc: A,
        checkpoint: &Checkpoint<A>,
    ) -> Result<Cluster<A>, AllocError>
        requires { IsCheckpoint self.now.base self.now.steps.items checkpoint.now }
        ensures { IfOk result (λ c. c ≡ cluster_at self.now checkpoint.now.at) }
    {
        self.base.restored(alloc, &checkpoint.saved)
    }

    // Returns the position of the last checkpoint, 0 if there are no checkpoints.
    fn last_checkpoint(&self) -> u64
        ensures { IsLast self.now.checkpoints.items result }
    {
        match self.checkpoints.last() {
            Some(checkpoint) => checkpoint.at,
            None => 0,
        }
    }

    // Returns the position before which no checkpoint is due after a cut at position `at`.
    fn due_behind(&self, at: u64) -> u64 {
        if at < self.steps.len() as u64 {
            self.due.min(at.saturating_add(SPACING))
        } else {
            self.due
        }
    }

    // Drops the steps and the checkpoints after position `at`.
    fn cut(&mut self, at: u64)
        requires within { at ≤ length self.old.steps.items }
        requires checkpoints { AreKept self.old }
        ensures base { self.new.base ≡ self.old.base }
        ensures steps { self.new.steps.items ≡ take at self.old.steps.items }
        ensures capacity { vec_capacity self.new.steps ≡ vec_capacity self.old.steps }
        ensures len { vec_len self.new.steps ≤ vec_len self.old.steps }
        ensures checkpoints { AreKept self.new }
    {
        let due = self.due_behind(at);
        self.steps.truncate(at as usize);
        let mut last = self.last_checkpoint();
        while last > at {
            let _past = self.checkpoints.pop();
            last = self.last_checkpoint();
        }
        self.due = due;
    }

    /// Keeps a step at position `at`, and drops all steps and checkpoints after that position. The
    /// caller has reserved the memory.
    pub(crate) fn keep(&mut self, at: u64, planned: Record<A>)
        requires room { vec_len self.old.steps < vec_capacity self.old.steps }
        requires within { at ≤ length self.old.steps.items }
        requires checkpoints { AreKept self.old }
        ensures base { self.new.base ≡ self.old.base }
        ensures steps { self.new.steps.items ≡ take at self.old.steps.items ++ planned ∷ [] }
        ensures checkpoints { AreKept self.new }
    {
        self.cut(at);
        self.steps.push_reserved(planned);
    }

    // Saves the cluster of a walk that is at the last position, if the steps since the last checkpoint
    // are enough for the entries of the cluster. If an allocation fails, no checkpoint is added.
    //
    // If the steps are too few, the entries are counted again after as many further steps.
    fn save(&mut self, walk: &Walk<A>)
        requires on { IsReached self.old.base walk.now.cluster self.old.steps.items walk.now.at }
        requires last { walk.now.at ≡ length self.old.steps.items }
        requires checkpoints { AreKept self.old }
        ensures base { self.new.base ≡ self.old.base }
        ensures steps { self.new.steps.items ≡ self.old.steps.items }
        ensures checkpoints { AreKept self.new }
    {
        let last = self.last_checkpoint();
        let since = walk.at.saturating_sub(last);
        if since < SPACING || !walk.cluster.has_at_most(since / STEPS_PER_ENTRY) {
            self.due = walk.at.saturating_add(since.max(SPACING));
            return;
        }
        self.due = walk.at.saturating_add(SPACING);
        let Ok(()) = self.checkpoints.reserve(1) else {
            return;
        };
        let alloc = *self.steps.allocator();
        let Ok(saved) = walk.cluster.saved(alloc) else {
            return;
        };
        self.checkpoints
            .push_reserved(Checkpoint { at: walk.at, saved });
    }

    /// Saves the cluster of a walk that is at the last position, if a checkpoint is due there.
    pub(crate) fn save_if_due(&mut self, walk: &Walk<A>)
        requires on { IsReached self.old.base walk.now.cluster self.old.steps.items walk.now.at }
        requires last { walk.now.at ≡ length self.old.steps.items }
        requires checkpoints { AreKept self.old }
        ensures base { self.new.base ≡ self.old.base }
        ensures steps { self.new.steps.items ≡ self.old.steps.items }
        ensures checkpoints { AreKept self.new }
    {
        if walk.at >= self.due {
            self.save(walk);
        }
    }
}
