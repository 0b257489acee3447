//! A change at one place of a cluster's state: a place, and a number.
ghost use Rattle.std.specs.Prelude.{◌≡◌, IsTrue, neg_ℤ, pos};
ghost use Rattle.nd_steps.specs.Undos.{IsGain};
ghost use Rattle.nd_steps.specs.Borrowed.{change_of};

use crate::Slot;
use crate::slot::KeyRef;

/// Adds `n` at a key of processor `p`'s maps. The difference of two items' numbers, each of 64 bits, needs more than
/// 64 bits.
#[derive(Debug, PartialEq, Eq, Drop)]
pub struct Change {
    pub p: u32,
    pub slot: Slot,
    pub n: i128,
}

// A change whose key is not copied.
#[derive(Clone, Copy, Drop)]
pub(crate) struct ChangeRef<'a> {
    pub(crate) p: u32,
    pub(crate) key: KeyRef<'a>,
    pub(crate) n: i128,
}

impl Default for Change {
    /// Returns a change that adds 0.
    fn default() -> Change
        ensures { result.n ≡ pos 0 }
    {
        Change {
            p: 0,
            slot: Slot::Token(0),
            n: 0,
        }
    }
}

impl Change {
    // Returns the change without a copy of its key.
    pub(crate) fn borrowed(&self) -> ChangeRef<'_>
        ensures { change_of result ≡ self.now }
    {
        ChangeRef {
            p: self.p,
            key: self.slot.key(),
            n: self.n,
        }
    }

    /// Returns an equal change.
    pub fn copy(&self) -> Change
        ensures { result ≡ self.now }
    {
        self.borrowed().owned()
    }
}

impl<'a> ChangeRef<'a> {
    // Returns the change with a copy of its key.
    pub(crate) fn owned(&self) -> Change
        ensures { result ≡ change_of self.now }
    {
        Change {
            p: self.p,
            slot: self.key.owned(),
            n: self.n,
        }
    }

    // Returns whether the two changes are equal.
    pub(crate) fn same(&self, other: &ChangeRef<'_>) -> bool
        ensures { IsTrue result → change_of self.now ≡ change_of other.now }
    {
        self.p == other.p && self.key.same(&other.key) && self.n == other.n
    }

    // Returns the number of the inverse, which undoes the change.
    pub(crate) fn opposite(&self) -> i128
        requires { IsGain self.now.n }
        ensures { result ≡ neg_ℤ self.now.n }
    {
        -self.n
    }
}
