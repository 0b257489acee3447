//! Records of steps: the changes of each.
ghost use Rattle.std.specs.Prelude.{◌≡◌, IfOk, IfSome};
ghost use Rattle.nd_protocol.specs.State.{ClusterState};
ghost use Rattle.nd_steps.specs.Keyed.{taken_in};
ghost use Rattle.nd_steps.specs.Records.{keyed, named, AreEqual, AreExchanged, Makes, MakesWhat, RunsTo, StandFor};

use crate::flow::TakeChanges;
use crate::keyed::Keyed;
use crate::listing::Listing;
use crate::{Change, FedAt, Flow};
use nd_delta::Delta;
use nd_protocol::Step;
use std::alloc::{AllocError, Allocator, Global};

/// The changes of the record of a step.
#[derive(Drop)]
pub enum Changes<A: Allocator + Copy = Global> {
    /// Changes of a step other than a broadcast or a receive: one for each key of a map.
    Each(Vec<Change, A>),
    /// The part of a take's changes that the step doesn't determine: so small that many steps can be kept.
    Flowed(Flow),
    /// The same of a feed's changes, if they list its values in order.
    Fed(FedAt),
    /// A part of what is unsent is appended to every queue from `p`.
    Sent {
        p: u32,
        part: Delta<A>,
    },
    /// The front of a queue is added to the receiver's view.
    Received {
        from: u32,
        to: u32,
        change: Delta<A>,
    },
}

/// A step that a cluster can execute, and its changes.
pub struct Record<A: Allocator + Copy = Global> {
    pub step: Step<A>,
    pub changes: Changes<A>,
}

impl<A: Allocator + Copy> Drop for Record<A> {
    fn drop(self) {
        let Record {
            step: _,
            changes: _,
        } = self;
    }
}

// Copies changes.
pub(crate) fn copied<A: Allocator + Copy>(
    alloc: A,
    changes: &Keyed<'_>,
) -> Result<Vec<Change, A>, AllocError>
    ensures { IfOk result (λ v. v.items ≡ changes.now) }
{
    let count = changes.len();
    let mut list = Vec::with_capacity(alloc, count)?;
    for i in 0..count {
        list.push(changes.at(i).borrowed().owned())?;
    }
    Ok(list)
}

impl<A: Allocator + Copy> Changes<A> {
    // Returns equal changes.
    fn copy(&self, alloc: A) -> Result<Changes<A>, AllocError>
        ensures { IfOk result (AreEqual self.now) }
    {
        match self {
            Changes::Each(changes) => { Ok(Changes::Each(copied(alloc, &Keyed::listed(changes))?)) }
            Changes::Flowed(flow) => Ok(Changes::Flowed(*flow)),
            Changes::Fed(at) => Ok(Changes::Fed(*at)),
            Changes::Sent { p, part } => Ok(Changes::Sent {
                p: *p,
                part: part.copy(alloc)?,
            }),
            Changes::Received { from, to, change } => Ok(Changes::Received {
                from: *from,
                to: *to,
                change: change.copy(alloc)?,
            }),
        }
    }

    // Returns the same changes of a step, with a `FedAt` in place of a list if one stands for it.
    fn small(self, step: &Step<A>) -> Changes<A>
        ensures { StandFor step.now self result }
    {
        if let Changes::Each(list) = &self {
            if let Some(at) = FedAt::of(step, list) {
                return Changes::Fed(at);
            }
        }
        self
    }
}

impl<A: Allocator + Copy> Record<A> {
    // Returns the changes at single keys, in order; none of a broadcast or a receive.
    pub(crate) fn keyed(&self) -> Keyed<'_>
        ensures { result ≡ keyed self.now.step self.now.changes }
    {
        match &self.changes {
            Changes::Each(changes) => Keyed::listed(changes),
            Changes::Flowed(flow) => flow.keyed(&self.step),
            Changes::Fed(at) => at.keyed(&self.step),
            Changes::Sent { .. } | Changes::Received { .. } => Keyed::listed(&[]),
        }
    }

    // Returns the changes of a take, if a flow stands for them.
    pub(crate) fn taken(&self) -> Option<TakeChanges>
        ensures { IfSome result (λ t. (u v : ClusterState)
            → Makes u self.now v → RunsTo u (taken_in t) v) }
    {
        match &self.changes {
            Changes::Flowed(flow) => flow.taken(&self.step),
            _ => None,
        }
    }

    /// Returns the number of entries: the keys of maps and the ends of queues that the changes name. The common end of a broadcast's
    /// queues counts once.
    pub fn entries(&self) -> usize
        ensures { result ≡ named self.now }
    {
        match &self.changes {
            Changes::Each(_) | Changes::Flowed(_) | Changes::Fed(_) => self.keyed().len(),
            Changes::Sent { p: _, part } => part.entries().len() + 1,
            Changes::Received {
                from: _,
                to: _,
                change,
            } => change.entries().len() + 1,
        }
    }

    /// Returns the step alone.
    pub fn into_step(self) -> Step<A>
        ensures { result ≡ self.step }
    {
        let Record { step, changes: _ } = self;
        step
    }

    /// Returns an equal record, with the same changes.
    pub fn copy(&self, alloc: A) -> Result<Record<A>, AllocError>
        ensures step { IfOk result (λ r. r.step ≡ self.now.step) }
        ensures changes { IfOk result (λ r. AreEqual self.now.changes r.changes) }
        ensures makes { IfOk result (MakesWhat self.now) }
    {
        Ok(Record {
            step: self.step.copy(alloc)?,
            changes: self.changes.copy(alloc)?,
        })
    }

    /// Returns a record of the same step with the same changes in the same order. It holds a [`FedAt`] in
    /// place of a list for which it finds one.
    pub fn small(self) -> Record<A>
        ensures step { result.step ≡ self.step }
        ensures changes { keyed result.step result.changes ≡ keyed self.step self.changes }
        ensures left { AreExchanged self.changes → result.changes ≡ self.changes }
        ensures many { named result ≡ named self }
        ensures makes { MakesWhat self result }
    {
        let Record { step, changes } = self;
        let changes = changes.small(&step);
        Record { step, changes }
    }
}
