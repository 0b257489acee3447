//! What a timeline keeps, and walks over the kept steps: the timeline's own, and those of its callers.
ghost use Rattle.std.specs.Prelude.{◌≡◌, ◌+◌, ◌-◌, ◌<◌, length, IfOk, OnOk, OnErr};
ghost use Rattle.nd_timeline.specs.Reached.{ArePlanned, IsReached};
ghost use Rattle.nd_timeline.specs.Walks.{BeginsNear, IsOn, LeadsFrom, WalksTo, timeline_at};

use crate::Timeline;
use crate::checkpoint::{Checkpoint, Start};
use nd_cluster::{Cluster, Record};
use nd_protocol::NoMemory;
use nd_replies::Fault;
use std::alloc::{AllocError, Allocator, Global};

/// A cluster that moves over the kept steps of a timeline. The timeline does not change, so several walks can
/// share it.
#[derive(Drop)]
pub struct Walk<A: Allocator + Copy = Global> {
    /// The position: how many of the kept steps lead to the cluster.
    pub at: u64,
    pub cluster: Cluster<A>,
}

/// The base of a timeline, its kept steps and its checkpoints.
#[derive(Drop)]
pub(crate) struct Kept<A: Allocator + Copy> {
    pub(crate) base: Cluster<A>,
    pub(crate) steps: Vec<Record<A>, A>,
    pub(crate) checkpoints: Vec<Checkpoint<A>, A>,
    /// No checkpoint is due before this position.
    pub(crate) due: u64,
}

impl<A: Allocator + Copy> Kept<A> {
    // Returns the record of the kept step that leads from position `i` to the next.
    pub(crate) fn record(&self, i: u64) -> &Record<A>
        requires planned { ArePlanned self.now.base self.now.steps.items }
        requires there { i < length self.now.steps.items }
        ensures { LeadsFrom self.now i result.now }
    {
        &self.steps[i as usize]
    }

    // Executes the kept step after the walk's position.
    pub(crate) fn walk_on(&self, walk: &mut Walk<A>) -> Result<(), NoMemory>
        requires on { IsReached self.now.base walk.old.cluster self.now.steps.items walk.old.at }
        requires behind { walk.old.at < length self.now.steps.items }
        ensures on { IsReached self.now.base walk.new.cluster self.now.steps.items walk.new.at }
        ensures ok { OnOk result (walk.new.at ≡ walk.old.at + 1) }
        ensures err { OnErr result (walk.new.at ≡ walk.old.at) }
    {
        let Ok(()) = walk.cluster.commit(self.record(walk.at)) else {
            return Err(NoMemory);
        };
        walk.at += 1;
        Ok(())
    }

    // Undoes the kept step before the walk's position.
    pub(crate) fn walk_back(&self, walk: &mut Walk<A>) -> Result<(), NoMemory>
        requires on { IsReached self.now.base walk.old.cluster self.now.steps.items walk.old.at }
        requires before { 0 < walk.old.at }
        ensures on { IsReached self.now.base walk.new.cluster self.now.steps.items walk.new.at }
        ensures ok { OnOk result (walk.new.at ≡ walk.old.at - 1) }
        ensures err { OnErr result (walk.new.at ≡ walk.old.at) }
    {
        let last = walk.at - 1;
        let Ok(()) = walk.cluster.back(self.record(last)) else {
            return Err(NoMemory);
        };
        walk.at = last;
        Ok(())
    }

    // Moves the walk to position `n`, step by step.
    pub(crate) fn walk_to(&self, walk: &mut Walk<A>, n: u64) -> Result<(), Fault>
        requires { IsReached self.now.base walk.old.cluster self.now.steps.items walk.old.at }
        ensures on { IsReached self.now.base walk.new.cluster self.now.steps.items walk.new.at }
        ensures jump { WalksTo (timeline_at self.now 0) walk.old.at n result walk.new.at }
    {
        if n > self.steps.len() as u64 {
            return Err(Fault::NoSuchPoint);
        }
        let from = walk.at;
        if from <= n {
            for at in from..n {
                if let Err(NoMemory) = self.walk_on(walk) {
                    return Err(Fault::Memory { at });
                }
            }
        } else {
            for undone in 0..from - n {
                if let Err(NoMemory) = self.walk_back(walk) {
                    return Err(Fault::Memory { at: from - undone });
                }
            }
        }
        Ok(())
    }
}

impl<A: Allocator + Copy> Timeline<A> {
    /// Returns a walk that begins near position `n`: at the base, the cursor or a checkpoint, whichever is
    /// nearest.
    pub fn walk_near(&self, alloc: A, n: u64) -> Result<Walk<A>, AllocError>
        ensures on { IfOk result (IsOn self.now) }
        ensures near { IfOk result (BeginsNear self.now n) }
    {
        match self.kept.start_near(self.at(), n) {
            Start::Base => Ok(Walk {
                at: 0,
                cluster: self.base().copy(alloc)?,
            }),
            Start::Cursor => Ok(Walk {
                at: self.at(),
                cluster: self.cluster().copy(alloc)?,
            }),
            Start::Checkpoint(checkpoint) => Ok(Walk {
                at: checkpoint.at,
                cluster: self.kept.restored(alloc, checkpoint)?,
            }),
        }
    }

    /// Moves the walk to position `n`, step by step, as a jump would move the cursor. The timeline does
    /// not change.
    pub fn walk_to(&self, walk: &mut Walk<A>, n: u64) -> Result<(), Fault>
        requires { IsOn self.now walk.old }
        ensures on { IsOn self.now walk.new }
        ensures jump { WalksTo self.now walk.old.at n result walk.new.at }
    {
        self.kept.walk_to(walk, n)
    }
}
