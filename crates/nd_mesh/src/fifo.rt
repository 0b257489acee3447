//! One queue of changes.
#![tactic(auto)]

ghost use Rattle.std.specs.Prelude.{◌≡◌, ◌∷◌, ◌<◌, [], length, slice_get, option_copied, IfErr, IfOk, OnErr, OnOk};
ghost use Rattle.nd_mesh.specs.Mesh.{appended, without_newest, without_oldest};

use nd_delta::Delta;
use std::alloc::{AllocError, Allocator, Global};
use std::collections::VecDeque;
use std::marker::Model;

/// A queue of changes, seen as the list of its changes from front to back. Access at either end takes constant time.
pub struct Queue<A: Allocator + Copy = Global> {
    changes: VecDeque<Delta<A>, A>,
}

impl<A: Allocator + Copy> Drop for Queue<A> {
    fn drop(self) {
        let Queue { changes: _ } = self;
    }
}

impl<A: Allocator + Copy> Model for Queue<A> {
    ghost use Rattle.std.specs.Prelude.{List};
    ghost use Rattle.std.specs.Coded.{coded_list};
    ghost use Rattle.nd_delta.specs.Delta.{DeltaValue, delta_code};

    ghost Value = { List DeltaValue };

    ghost coded = { coded_list delta_code };

    ghost view = { λ a. a.changes.items };
}

impl<A: Allocator + Copy> Queue<A> {
    /// Returns an empty queue. It does not allocate.
    pub fn new(alloc: A) -> Queue<A>
        ensures { result ≡ [] }
    {
        Queue {
            changes: VecDeque::new(alloc),
        }
    }

    /// Returns the number of changes.
    pub fn len(&self) -> usize
        ensures { result ≡ length self.now }
    {
        self.changes.len()
    }

    /// Returns the change at index `i`, counted from the front, or `None` if there is none.
    pub fn get(&self, i: usize) -> Option<&Delta<A>>
        ensures { option_copied result ≡ slice_get self.now i }
    {
        self.changes.get(i)
    }

    /// Appends a change at the back.
    pub fn append(&mut self, change: Delta<A>) -> Result<(), AllocError>
        ensures ok { OnOk result (self.new ≡ appended change self.old) }
        ensures err { OnErr result (self.new ≡ self.old) }
    {
        let Ok(()) = self.changes.push_back(change) else {
            return Err(AllocError);
        };
        Ok(())
    }

    /// Removes the newest change, if there is one.
    pub fn drop_newest(&mut self)
        ensures { self.new ≡ without_newest self.old }
    {
        let _newest = self.changes.pop_back();
    }

    /// Removes and returns the oldest change, if there is one.
    pub fn take_oldest(&mut self) -> Option<Delta<A>>
        ensures value { result ≡ slice_get self.old 0 }
        ensures rest { self.new ≡ without_oldest self.old }
    {
        self.changes.pop_front()
    }

    /// Inserts a change at the front. If memory runs out, returns the change.
    pub fn put_front(&mut self, change: Delta<A>) -> Result<(), Delta<A>>
        ensures ok { OnOk result (self.new ≡ change ∷ self.old) }
        ensures err { OnErr result (self.new ≡ self.old) }
        ensures back { IfErr result (λ c. c ≡ change) }
    {
        match self.changes.push_front(change) {
            Ok(()) => Ok(()),
            Err(refused) => Err(refused.value),
        }
    }

    /// Returns a copy of the queue.
    pub fn copy(&self, alloc: A) -> Result<Queue<A>, AllocError>
        ensures { IfOk result (λ q. q ≡ self.now) }
    {
        let mut changes = VecDeque::with_capacity(alloc, self.changes.len())?;
        for i in 0..self.changes.len() {
            changes.push_back(self.changes[i].copy(alloc)?)?;
        }
        Ok(Queue { changes })
    }
}
