//! The queues between all processors.
#![tactic(auto)]

ghost use Rattle.std.specs.Prelude.{◌≡◌, ◌↔◌, ◌<◌, ◌≤◌, [], length, replicate, slice_get, option_copied, Err, IfErr, IfOk, IsErr, IsErrAnd, IsTrue, OnErr, OnOk};
ghost use Rattle.std.specs.Result.{result_ok};
ghost use Rattle.nd_mesh.specs.Mesh.{row, queue, pushed, unpushed, popped, unpopped, HasQueue, IsFull, IsVacant, AreVacant, IsMesh};

use crate::outbox::Outbox;
use nd_delta::Delta;
use nd_time::limits::MAX_QUEUE;
use std::alloc::{AllocError, Allocator, Global};
use std::marker::Model;

/// Why a change was not put into a queue.
#[derive(Debug, Clone, Copy, PartialEq, Eq)]
pub enum PushFault {
    /// A queue contains `MAX_QUEUE` changes.
    QueueFull,
    /// Out of memory.
    Memory,
}

/// The queue is empty.
#[derive(Debug, Clone, Copy, PartialEq, Eq)]
pub struct QueueEmpty;

/// A change that was not put into a queue, and why.
pub struct NotPut<A: Allocator + Copy = Global> {
    /// Why the change was not put into the queue.
    pub fault: PushFault,
    /// The change itself.
    pub change: Delta<A>,
}

impl<A: Allocator + Copy> Drop for NotPut<A> {
    fn drop(self) {
        let NotPut {
            fault: _,
            change: _,
        } = self;
    }
}

/// The queues between `n` processors: for each sender and each receiver, the changes on their way from
/// the sender to the receiver, the oldest first.
pub struct Mesh<A: Allocator + Copy = Global> {
    rows: Vec<Outbox<A>, A>,
    // The number of changes in all queues: it is 0 if and only if all are empty.
    waiting: usize,
    alloc: A,
}

impl<A: Allocator + Copy> Drop for Mesh<A> {
    fn drop(self) {
        let Mesh {
            rows: _,
            waiting: _,
            alloc: _,
        } = self;
    }
}

impl<A: Allocator + Copy> Model for Mesh<A> {
    ghost use Rattle.std.specs.Prelude.{List};
    ghost use Rattle.std.specs.Coded.{coded_list};
    ghost use Rattle.nd_delta.specs.Delta.{DeltaValue, delta_code};
    ghost use Rattle.nd_mesh.specs.Mesh.{IsCounted};

    ghost Value = { List (List (List DeltaValue)) };

    ghost coded = { coded_list (coded_list (coded_list delta_code)) };

    ghost view = { λ a. a.rows.items };

    ghost invariant = { λ a. IsCounted a.waiting a.rows.items };
}

impl<A: Allocator + Copy> Mesh<A> {
    /// Returns empty queues between `n` processors.
    pub fn new(alloc: A, n: usize) -> Result<Mesh<A>, AllocError>
        ensures { IfOk result (λ m. m ≡ replicate n (replicate n [])) }
    {
        let mut rows = Vec::with_capacity(alloc, n)?;
        for _ in 0..n {
            rows.push(Outbox::new(alloc, n)?)?;
        }
        Ok(Mesh {
            rows,
            waiting: 0,
            alloc,
        })
    }

    /// Returns the number of processors.
    pub fn n(&self) -> usize
        ensures value { result ≡ length self.now }
        ensures mesh { IsMesh self.now }
    {
        self.rows.len()
    }

    /// Returns the number of changes in the queue from one processor to another.
    pub fn len(&self, from: usize, to: usize) -> usize
        requires sender { from < length self.now }
        requires receiver { to < length self.now }
        ensures value { result ≡ length (queue self.now from to) }
        ensures mesh { IsMesh self.now }
    {
        self.rows[from].queue_len(to)
    }

    /// Returns the change at index `i` of a queue, counted from the front, or `None` if there is none.
    pub fn get(&self, from: usize, to: usize, i: usize) -> Option<&Delta<A>>
        requires sender { from < length self.now }
        requires receiver { to < length self.now }
        ensures value { option_copied result ≡ slice_get (queue self.now from to) i }
        ensures mesh { IsMesh self.now }
    {
        self.rows[from].get(to, i)
    }

    /// Returns whether all queues are empty, in constant time.
    pub fn is_vacant(&self) -> bool
        ensures vacant { IsTrue result ↔ AreVacant self.now }
        ensures mesh { IsMesh self.now }
    {
        self.waiting == 0
    }

    /// Returns whether a queue from this processor contains `MAX_QUEUE` changes.
    pub fn is_full(&self, from: usize) -> bool
        requires { from < length self.now }
        ensures full { IsTrue result ↔ HasQueue IsFull (row self.now from) }
        ensures mesh { IsMesh self.now }
    {
        self.rows[from].has_full()
    }

    /// Appends a copy of `change` to each queue from a processor.
    pub fn push_all(&mut self, from: usize, change: &Delta<A>) -> Result<(), PushFault>
        requires { from < length self.old }
        ensures ok { OnOk result (self.new ≡ pushed self.old from change.now) }
        ensures undone { OnOk result (unpushed self.new from ≡ self.old) }
        ensures err { OnErr result (self.new ≡ self.old) }
        ensures full { (result ≡ Err (PushFault.QueueFull)) ↔ HasQueue IsFull (row self.old from) }
        ensures mesh { IsMesh self.new }
    {
        if self.rows[from].has_full() {
            return Err(PushFault::QueueFull);
        }
        // More than `usize::MAX` changes do not fit into memory.
        let Some(waiting) = self.waiting.checked_add(self.rows.len()) else {
            return Err(PushFault::Memory);
        };
        let alloc = self.alloc;
        let Ok(()) = self.rows[from].push_all(alloc, change) else {
            return Err(PushFault::Memory);
        };
        self.waiting = waiting;
        Ok(())
    }

    /// Removes the newest change from each queue from a processor. It does not allocate.
    pub fn unpush_all(&mut self, from: usize) -> Result<(), QueueEmpty>
        requires { from < length self.old }
        ensures ok { OnOk result (self.new ≡ unpushed self.old from) }
        ensures err { OnErr result (self.new ≡ self.old) }
        ensures empty { IsErr result ↔ HasQueue IsVacant (row self.old from) }
        ensures mesh { IsMesh self.new }
    {
        if self.rows[from].has_vacant() {
            return Err(QueueEmpty);
        }
        self.rows[from].unpush_all();
        self.waiting -= self.rows.len();
        Ok(())
    }

    /// Removes and returns the oldest change of a queue. It does not allocate.
    pub fn pop(&mut self, from: usize, to: usize) -> Result<Delta<A>, QueueEmpty>
        requires sender { from < length self.old }
        requires receiver { to < length self.old }
        ensures value { result_ok result ≡ slice_get (queue self.old from to) 0 }
        ensures empty { IsErr result ↔ IsVacant (queue self.old from to) }
        ensures ok { OnOk result (self.new ≡ popped self.old from to) }
        ensures undone { IfOk result (λ c. unpopped self.new from to c ≡ self.old) }
        ensures err { OnErr result (self.new ≡ self.old) }
        ensures mesh { IsMesh self.new }
    {
        let Some(change) = self.rows[from].pop(to) else {
            return Err(QueueEmpty);
        };
        self.waiting -= 1;
        Ok(change)
    }

    /// Inserts a change at the front of a queue. If that fails, returns the change.
    pub fn unpop(&mut self, from: usize, to: usize, change: Delta<A>) -> Result<(), NotPut<A>>
        requires sender { from < length self.old }
        requires receiver { to < length self.old }
        ensures ok { OnOk result (self.new ≡ unpopped self.old from to change) }
        ensures undone { OnOk result (popped self.new from to ≡ self.old) }
        ensures err { OnErr result (self.new ≡ self.old) }
        ensures back { IfErr result (λ e. e.change ≡ change) }
        ensures full { IsErrAnd result (λ e. e.fault ≡ PushFault.QueueFull)
            ↔ IsFull (queue self.old from to) }
        ensures mesh { IsMesh self.new }
    {
        if self.rows[from].queue_len(to) >= MAX_QUEUE {
            return Err(NotPut {
                fault: PushFault::QueueFull,
                change,
            });
        }
        // More than `usize::MAX` changes do not fit into memory.
        let Some(waiting) = self.waiting.checked_add(1) else {
            return Err(NotPut {
                fault: PushFault::Memory,
                change,
            });
        };
        if let Err(change) = self.rows[from].unpop(to, change) {
            return Err(NotPut {
                fault: PushFault::Memory,
                change,
            });
        }
        self.waiting = waiting;
        Ok(())
    }

    /// Returns a copy of the queues.
    pub fn copy(&self, alloc: A) -> Result<Mesh<A>, AllocError>
        ensures equal { IfOk result (λ m. m ≡ self.now) }
        ensures mesh { IsMesh self.now }
    {
        let mut rows = Vec::with_capacity(alloc, self.rows.len())?;
        for row in &self.rows {
            rows.push(row.copy(alloc)?)?;
        }
        Ok(Mesh {
            rows,
            waiting: self.waiting,
            alloc,
        })
    }
}
