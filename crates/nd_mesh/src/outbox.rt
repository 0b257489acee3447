//! The queues from one processor.
#![tactic(auto)]

ghost use Rattle.std.specs.Prelude.{◌≡◌, ◌↔◌, ◌∷◌, ◌<◌, ◌≤◌, [], length, map, replicate, slice_get, slice_index_or, slice_set, option_copied, IfErr, IfOk, OnErr, OnOk, IsTrue};
ghost use Rattle.nd_mesh.specs.Mesh.{appended, without_newest, without_oldest, first_mapped, HasQueue, IsFull, IsVacant};

use crate::fifo::Queue;
use nd_delta::Delta;
use nd_time::limits::MAX_QUEUE;
use std::alloc::{AllocError, Allocator, Global};
use std::marker::Model;

/// The queues from one processor, one per receiver.
pub struct Outbox<A: Allocator + Copy = Global> {
    queues: Vec<Queue<A>, A>,
}

impl<A: Allocator + Copy> Drop for Outbox<A> {
    fn drop(self) {
        let Outbox { queues: _ } = self;
    }
}

impl<A: Allocator + Copy> Model for Outbox<A> {
    ghost use Rattle.std.specs.Prelude.{List};
    ghost use Rattle.std.specs.Coded.{coded_list};
    ghost use Rattle.nd_delta.specs.Delta.{DeltaValue, delta_code};

    ghost Value = { List (List DeltaValue) };

    ghost coded = { coded_list (coded_list delta_code) };

    ghost view = { λ a. a.queues.items };
}

impl<A: Allocator + Copy> Outbox<A> {
    /// Returns `n` empty queues.
    pub fn new(alloc: A, n: usize) -> Result<Outbox<A>, AllocError>
        ensures { IfOk result (λ o. o ≡ replicate n []) }
    {
        let mut queues = Vec::with_capacity(alloc, n)?;
        for _ in 0..n {
            queues.push(Queue::new(alloc))?;
        }
        Ok(Outbox { queues })
    }

    /// Returns the number of queues.
    pub fn len(&self) -> usize
        ensures { result ≡ length self.now }
    {
        self.queues.len()
    }

    /// Returns whether one of the queues contains `MAX_QUEUE` changes.
    pub fn has_full(&self) -> bool
        ensures { IsTrue result ↔ HasQueue IsFull self.now }
    {
        for queue in &self.queues {
            if queue.len() >= MAX_QUEUE {
                return true;
            }
        }
        false
    }

    /// Returns whether one of the queues is empty.
    pub fn has_vacant(&self) -> bool
        ensures { IsTrue result ↔ HasQueue IsVacant self.now }
    {
        for queue in &self.queues {
            if queue.len() == 0 {
                return true;
            }
        }
        false
    }

    /// Returns the number of changes in one queue.
    pub fn queue_len(&self, to: usize) -> usize
        requires { to < length self.now }
        ensures { result ≡ length (slice_index_or self.now to []) }
    {
        self.queues[to].len()
    }

    /// Returns the change at index `i` of one queue, counted from the front, or `None` if there is none.
    pub fn get(&self, to: usize, i: usize) -> Option<&Delta<A>>
        requires { to < length self.now }
        ensures { option_copied result ≡ slice_get (slice_index_or self.now to []) i }
    {
        self.queues[to].get(i)
    }

    // Appends a copy of `change` to one queue.
    fn append(&mut self, alloc: A, to: usize, change: &Delta<A>) -> Result<(), AllocError>
        requires { to < length self.old }
        ensures ok { OnOk result (self.new
            ≡ slice_set self.old to (appended change.now (slice_index_or self.old to []))) }
        ensures err { OnErr result (self.new ≡ self.old) }
    {
        let copied = change.copy(alloc)?;
        self.queues[to].append(copied)
    }

    // Removes the newest change from one queue.
    fn drop_newest(&mut self, to: usize)
        requires { to < length self.old }
        ensures { self.new
            ≡ slice_set self.old to (without_newest (slice_index_or self.old to [])) }
    {
        self.queues[to].drop_newest();
    }

    // Removes the newest change from each of the first `count` queues.
    fn drop_first_newest(&mut self, count: usize)
        requires { count ≤ length self.old }
        ensures { self.new ≡ first_mapped without_newest count self.old }
    {
        for to in 0..count {
            self.drop_newest(to);
        }
    }

    /// Appends a copy of `change` to each queue.
    pub fn push_all(&mut self, alloc: A, change: &Delta<A>) -> Result<(), AllocError>
        ensures ok { OnOk result (self.new ≡ map (appended change.now) self.old) }
        ensures err { OnErr result (self.new ≡ self.old) }
    {
        for to in 0..self.len() {
            let Ok(()) = self.append(alloc, to, change) else {
                self.drop_first_newest(to);
                return Err(AllocError);
            };
        }
        Ok(())
    }

    /// Removes the newest change from each queue.
    pub fn unpush_all(&mut self)
        ensures { self.new ≡ map without_newest self.old }
    {
        self.drop_first_newest(self.len());
    }

    /// Removes and returns the oldest change of one queue, if there is one.
    pub fn pop(&mut self, to: usize) -> Option<Delta<A>>
        requires { to < length self.old }
        ensures value { result ≡ slice_get (slice_index_or self.old to []) 0 }
        ensures rest { self.new
            ≡ slice_set self.old to (without_oldest (slice_index_or self.old to [])) }
    {
        self.queues[to].take_oldest()
    }

    /// Inserts a change at the front of one queue. If memory runs out, returns the change.
    pub fn unpop(&mut self, to: usize, change: Delta<A>) -> Result<(), Delta<A>>
        requires { to < length self.old }
        ensures ok { OnOk result
            (self.new ≡ slice_set self.old to (change ∷ slice_index_or self.old to [])) }
        ensures err { OnErr result (self.new ≡ self.old) }
        ensures back { IfErr result (λ c. c ≡ change) }
    {
        self.queues[to].put_front(change)
    }

    /// Returns a copy of the queues.
    pub fn copy(&self, alloc: A) -> Result<Outbox<A>, AllocError>
        ensures { IfOk result (λ o. o ≡ self.now) }
    {
        let mut queues = Vec::with_capacity(alloc, self.queues.len())?;
        for queue in &self.queues {
            queues.push(queue.copy(alloc)?)?;
        }
        Ok(Outbox { queues })
    }
}
