//! The times of a capability that is released.
ghost use Rattle.std.specs.Prelude.{◌≡◌, ◌≢◌, IfOk, MatchBool};
ghost use Rattle.nd_protocol.specs.Times.{is_kept};

use nd_time::Timestamp;
use std::alloc::{AllocError, Allocator, Global};
use std::marker::Model;

/// A later time at which a capability is held after a release.
#[derive(Debug, PartialEq, Eq, Drop)]
pub struct Later {
    pub time: Timestamp,
    /// Whether the capability at the earlier time stays beside it.
    pub keep: bool,
}

impl Later {
    /// Returns an equal later time.
    pub fn copy(&self) -> Later
        ensures { result ≡ self.now }
    {
        Later {
            time: self.time.copy(),
            keep: self.keep,
        }
    }
}

/// The time at which a capability is held, and the later time to which it moves; `None` if it is dropped.
#[derive(Debug, PartialEq, Eq, Drop)]
pub struct Times {
    pub time: Timestamp,
    pub to: Option<Later>,
}

impl Times {
    /// Returns whether the capability stays beside one at a later time.
    pub fn keeps(&self) -> bool
        ensures { result ≡ is_kept self.now.to }
    {
        match &self.to {
            Some(to) => to.keep,
            None => false,
        }
    }

    /// Returns equal times.
    pub fn copy(&self) -> Times
        ensures { result ≡ self.now }
    {
        let to = match &self.to {
            Some(to) => Some(to.copy()),
            None => None,
        };
        Times {
            time: self.time.copy(),
            to,
        }
    }
}

/// The times of a release on the heap, so that a step stays small.
#[derive(Drop)]
pub struct BoxedTimes<A: Allocator = Global> {
    boxed: Box<Times, A>,
}

impl<A: Allocator> Model for BoxedTimes<A> {
    ghost use Rattle.nd_protocol.specs.Times.{times_code};
    ghost use Rattle.nd_protocol.specs.declared.times.Times.{Times};

    ghost Value = { Times };

    ghost coded = { times_code };

    ghost view = { λ a. a.boxed.value };
}

impl<A: Allocator> BoxedTimes<A> {
    /// Moves times to the heap.
    pub fn new(alloc: A, times: Times) -> Result<BoxedTimes<A>, AllocError>
        ensures { IfOk result (λ b. b ≡ times) }
    {
        Ok(BoxedTimes {
            boxed: Box::new(alloc, times)?,
        })
    }

    /// Returns the times.
    pub fn get(&self) -> &Times
        ensures { result.now ≡ self.now }
    {
        &self.boxed
    }

    /// Returns equal times on the heap.
    pub fn copy(&self, alloc: A) -> Result<BoxedTimes<A>, AllocError>
        ensures { IfOk result (λ b. b ≡ self.now) }
    {
        BoxedTimes::new(alloc, self.get().copy())
    }

    // Returns whether the times are equal.
    pub(crate) fn same(&self, other: &BoxedTimes<A>) -> bool
        ensures { MatchBool result (self.now ≡ other.now) (self.now ≢ other.now) }
    {
        *self.get() == *other.get()
    }
}
