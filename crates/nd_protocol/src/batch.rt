//! What a vertex sends at once.
ghost use Rattle.std.specs.Prelude.{◌≡◌, ◌≢◌, IfOk, MatchBool};
ghost use Rattle.nd_protocol.specs.Steps.{batch_time};

use crate::Values;
use nd_time::Timestamp;
use std::alloc::{AllocError, Allocator, Global};
use std::marker::Model;

/// Values that a vertex sends at once on one port, from a capability that it keeps.
#[derive(Drop)]
pub struct Batch<A: Allocator = Global> {
    /// The time at which the capability is held.
    pub time: Timestamp,
    /// The time of the records; `None` for that of the capability.
    pub at: Option<Timestamp>,
    /// The output port.
    pub port: u32,
    /// The values, in the order in which they are sent.
    pub values: Values<A>,
    /// The processor to which records on exchange edges go; `None` if their values choose it.
    pub dest: Option<u32>,
}

impl<A: Allocator> Batch<A> {
    /// Returns the time of the records.
    pub fn records_time(&self) -> &Timestamp
        ensures { result.now ≡ batch_time self.now }
    {
        match &self.at {
            Some(at) => at,
            None => &self.time,
        }
    }

    /// Returns an equal batch.
    pub fn copy(&self, alloc: A) -> Result<Batch<A>, AllocError>
        ensures { IfOk result (λ b. b ≡ self.now) }
    {
        let at = match &self.at {
            Some(at) => Some(at.copy()),
            None => None,
        };
        Ok(Batch {
            time: self.time.copy(),
            at,
            port: self.port,
            values: self.values.copy(alloc)?,
            dest: self.dest,
        })
    }

    // Returns whether the batches are equal.
    fn same(&self, other: &Batch<A>) -> bool
        ensures { MatchBool result (self.now ≡ other.now) (self.now ≢ other.now) }
    {
        self.time == other.time
            && self.at == other.at
            && self.port == other.port
            && self.values.same(&other.values)
            && self.dest == other.dest
    }
}

/// A batch on the heap, so that a step stays small.
#[derive(Drop)]
pub struct BoxedBatch<A: Allocator = Global> {
    boxed: Box<Batch<A>, A>,
}

impl<A: Allocator> Model for BoxedBatch<A> {
    ghost use Rattle.nd_protocol.specs.Batches.{batch_code};
    ghost use Rattle.nd_protocol.specs.declared.batch.Batch.{Batch as Sent};

    ghost Value = { Sent A };

    ghost coded = { batch_code };

    ghost view = { λ a. a.boxed.value };
}

impl<A: Allocator> BoxedBatch<A> {
    /// Moves a batch to the heap.
    pub fn new(alloc: A, batch: Batch<A>) -> Result<BoxedBatch<A>, AllocError>
        ensures { IfOk result (λ b. b ≡ batch) }
    {
        Ok(BoxedBatch {
            boxed: Box::new(alloc, batch)?,
        })
    }

    /// Returns the batch.
    pub fn get(&self) -> &Batch<A>
        ensures { result.now ≡ self.now }
    {
        &self.boxed
    }

    /// Returns an equal batch on the heap.
    pub fn copy(&self, alloc: A) -> Result<BoxedBatch<A>, AllocError>
    where
        A: Copy,
        ensures { IfOk result (λ b. b ≡ self.now) }
    {
        BoxedBatch::new(alloc, self.get().copy(alloc)?)
    }

    // Returns whether the batches are equal.
    pub(crate) fn same(&self, other: &BoxedBatch<A>) -> bool
        ensures { MatchBool result (self.now ≡ other.now) (self.now ≢ other.now) }
    {
        self.get().same(other.get())
    }
}
