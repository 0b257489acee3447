//! The timeline: a cluster, the steps that are kept, and a cursor.
ghost use Rattle.std.specs.Prelude.{◌≡◌, ◌<◌, ◌≤◌, ◌+◌, ◌-◌, ◌↔◌, length, slice_get, None, IfOk, IfErr, IfSome, OnOk, OnErr, IsTrue};
ghost use Rattle.nd_time.specs.Limits.{max_kept};
ghost use Rattle.nd_view.specs.View.{IsPassed};
ghost use Rattle.nd_protocol.specs.State.{view};
ghost use Rattle.nd_protocol.specs.Invariant.{KeepsProtocol, IsFinished};
ghost use Rattle.nd_cluster.specs.Records.{IsPlanned};
ghost use Rattle.nd_timeline.specs.Timeline.{opened, cluster_of, extended, moved_to, IsTimeline};
ghost use Rattle.nd_timeline.specs.Reached.{AreCopies};
ghost use Rattle.nd_timeline.specs.Moves.{moved_reply, StepFails, ForwardMoves, BackMoves, RedoMoves, JumpMoves};
ghost use Rattle.nd_timeline.specs.Walks.{IsOn};

use crate::Walk;
use crate::checkpoint::{SPACING, Start};
use crate::walk::Kept;
use nd_cluster::{Cluster, Record};
use nd_paths::Pointstamp;
use nd_protocol::{NoMemory, Refusal, Step, steps_keep_protocol};
use nd_replies::Fault;
use nd_time::limits::MAX_KEPT;
use std::alloc::{AllocError, Allocator, Global};
use std::marker::Model;

/// A base, the steps that are kept, and the cluster that the steps up to the cursor lead to.
pub struct Timeline<A: Allocator + Copy = Global> {
    pub(crate) kept: Kept<A>,
    // Its position is the cursor.
    walk: Walk<A>,
}

impl<A: Allocator + Copy> Model for Timeline<A> {
    ghost use Rattle.nd_timeline.specs.Timeline.{TimelineValue};
    ghost use Rattle.nd_timeline.specs.Reached.{timeline_code, steps_of};
    ghost use Rattle.nd_timeline.specs.Checkpoints.{IsKept};

    ghost Value = { TimelineValue A };

    ghost coded = { timeline_code A };

    ghost view = { λ a.
        record { base = a.kept.base; kept = steps_of a.kept.steps.items; cursor = a.walk.at } };

    ghost invariant = { λ a.
        IsKept a.kept.base a.walk.cluster a.kept.steps.items a.kept.checkpoints.items a.walk.at };
}

impl<A: Allocator + Copy> Drop for Timeline<A> {
    fn drop(self) {
        let Timeline { kept: _, walk: _ } = self;
    }
}

// Returns records of equal steps.
fn copied_steps<A: Allocator + Copy>(
    alloc: A,
    steps: &[Record<A>],
) -> Result<Vec<Record<A>, A>, AllocError>
    ensures { IfOk result (λ v. AreCopies steps.now v.items) }
{
    let mut list = Vec::with_capacity(alloc, steps.len())?;
    for record in steps {
        list.push(record.copy(alloc)?)?;
    }
    Ok(list)
}

impl<A: Allocator + Copy> Timeline<A> {
    /// Creates a timeline without kept steps, whose base is the cluster.
    pub fn new(alloc: A, cluster: Cluster<A>) -> Result<Timeline<A>, AllocError>
        ensures { IfOk result (λ m. m ≡ opened A cluster) }
    {
        let base = cluster.copy(alloc)?;
        let steps = Vec::new(alloc);
        let checkpoints = Vec::new(alloc);
        Ok(Timeline {
            kept: Kept {
                base,
                steps,
                checkpoints,
                due: SPACING,
            },
            walk: Walk { at: 0, cluster },
        })
    }

    /// Returns an equal timeline. The copy has no checkpoints, so it takes no more memory than its
    /// steps and clusters.
    pub fn copy(&self, alloc: A) -> Result<Timeline<A>, AllocError>
        ensures { IfOk result (λ m. m ≡ self.now) }
    {
        let checkpoints = Vec::new(alloc);
        Ok(Timeline {
            kept: Kept {
                base: self.kept.base.copy(alloc)?,
                steps: copied_steps(alloc, &self.kept.steps)?,
                checkpoints,
                due: self.kept.due,
            },
            walk: Walk {
                at: self.walk.at,
                cluster: self.walk.cluster.copy(alloc)?,
            },
        })
    }

    /// Returns the cluster at position 0.
    pub fn base(&self) -> &Cluster<A>
        ensures { result.now ≡ self.now.base }
    {
        &self.kept.base
    }

    /// Returns the cluster at the cursor.
    pub fn cluster(&self) -> &Cluster<A>
        ensures value { result.now ≡ cluster_of self.now }
        ensures protocol { KeepsProtocol self.now.base → KeepsProtocol result.now }
    {
        steps_keep_protocol::<A>();
        &self.walk.cluster
    }

    /// Returns whether processor `q`'s view at the cursor has no positive entry at or before the pointstamp
    /// (FORTE 2013).
    pub fn passed(&self, q: usize, point: &Pointstamp) -> bool
        requires { q < length (cluster_of self.now).processors }
        ensures passed { IsTrue result ↔ IsPassed (cluster_of self.now).graph
            (view (cluster_of self.now) q) point.now }
        ensures finished { IsTrue result → KeepsProtocol self.now.base
            → IsFinished (cluster_of self.now) point.now }
    {
        self.cluster().passed(q, point)
    }

    /// Returns the position of the cursor: how many of the kept steps lead to the cluster.
    pub fn at(&self) -> u64
        ensures value { result ≡ self.now.cursor }
        ensures timeline { IsTimeline self.now }
    {
        self.walk.at
    }

    /// Returns the number of kept steps.
    pub fn kept(&self) -> u64
        ensures { result ≡ length self.now.kept }
    {
        self.kept.steps.len() as u64
    }

    /// Returns the kept step that leads from position `i` to the next, `None` if there is no such step.
    pub fn step(&self, i: u64) -> Option<&Step<A>>
        ensures none { result ≡ None → length self.now.kept ≤ i }
        ensures some { IfSome result (λ x. slice_get self.now.kept i ≡ Some x.now) }
    {
        if i >= self.kept() {
            return None;
        }
        Some(&self.kept.steps[i as usize].step)
    }

    // Plans a step, and returns its record, or why the step cannot be executed.
    fn plan(&self, step: &Step<A>) -> Result<Record<A>, Fault>
        ensures planned { IfOk result (λ r. IsPlanned r (cluster_of self.now)) }
        ensures step { IfOk result (λ r. r.step ≡ step.now) }
        ensures fails { IfErr result (λ e. StepFails self.now step.now e) }
    {
        match self.cluster().plan(step) {
            Ok(record) => Ok(record),
            Err(refusal) => match refusal {
                Refusal::Memory => Err(Fault::Memory { at: self.at() }),
                _ => Err(Fault::Step(refusal)),
            },
        }
    }

    /// Executes a planned step, and keeps its small record in place of all steps after the cursor.
    pub fn commit(&mut self, planned: Record<A>) -> Result<(), NoMemory>
        requires room { self.old.cursor < max_kept }
        requires planned { IsPlanned planned (cluster_of self.old) }
        ensures ok { OnOk result (self.new ≡ extended self.old planned.step) }
        ensures err { OnErr result (self.new ≡ self.old) }
    {
        let Ok(()) = self.kept.steps.reserve(1) else {
            return Err(NoMemory);
        };
        let Ok(()) = self.walk.cluster.commit(&planned) else {
            return Err(NoMemory);
        };
        self.kept.keep(self.walk.at, planned.small());
        self.walk.at += 1;
        self.kept.save_if_due(&self.walk);
        Ok(())
    }

    /// Executes a step, and keeps it in place of all steps after the cursor.
    pub fn forward(&mut self, step: &Step<A>) -> Result<(), Fault>
        ensures { ForwardMoves self.old step.now (moved_reply result self.new) self.new }
    {
        let at = self.at();
        if at >= MAX_KEPT as u64 {
            return Err(Fault::TimelineFull);
        }
        let record = self.plan(step)?;
        match self.commit(record) {
            Ok(()) => Ok(()),
            Err(NoMemory) => Err(Fault::Memory { at }),
        }
    }

    /// Undoes the step before the cursor. The step is still kept.
    pub fn back(&mut self) -> Result<(), Fault>
        ensures { BackMoves self.old (moved_reply result self.new) self.new }
    {
        let at = self.at();
        if at == 0 {
            return Err(Fault::AtStart);
        }
        match self.kept.walk_back(&mut self.walk) {
            Ok(()) => Ok(()),
            Err(NoMemory) => Err(Fault::Memory { at }),
        }
    }

    /// Executes the kept step after the cursor again.
    pub fn redo(&mut self) -> Result<(), Fault>
        ensures { RedoMoves self.old (moved_reply result self.new) self.new }
    {
        let at = self.at();
        if at >= self.kept() {
            return Err(Fault::AtEnd);
        }
        match self.kept.walk_on(&mut self.walk) {
            Ok(()) => Ok(()),
            Err(NoMemory) => Err(Fault::Memory { at }),
        }
    }

    // Returns a walk that has gone to position `n` from the base or a checkpoint. Returns `None` if the
    // cursor is at least as near or at most `SPACING` steps away, if `n` is greater than the number of
    // kept steps, or if an allocation fails.
    fn landed(&self, n: u64) -> Option<Walk<A>>
        ensures on { IfSome result (IsOn self.now) }
        ensures there { IfSome result (λ w. w.at ≡ n) }
    {
        let at = self.at();
        if n > self.kept() || at.abs_diff(n) <= SPACING {
            return None;
        }
        if let Start::Cursor = self.kept.start_near(at, n) {
            return None;
        }
        let alloc = *self.kept.steps.allocator();
        let Ok(mut walk) = self.walk_near(alloc, n) else {
            return None;
        };
        let Ok(()) = self.walk_to(&mut walk, n) else {
            return None;
        };
        Some(walk)
    }

    /// Moves the cursor to position `n`, step by step. A jump of more than `SPACING` steps begins at a
    /// copy of the base or of a checkpoint if one of them is nearer than the cursor. If an allocation
    /// for that fails, the jump begins at the cursor after all.
    pub fn jump(&mut self, n: u64) -> Result<(), Fault>
        ensures { JumpMoves self.old n (moved_reply result self.new) self.new }
    {
        if let Some(walk) = self.landed(n) {
            self.walk = walk;
            return Ok(());
        }
        self.kept.walk_to(&mut self.walk, n)
    }
}
