//! The values that a step feeds.
ghost use Rattle.std.specs.Prelude.{◌≡◌, ◌≢◌, [], ◌∷◌, ◌++◌, IfOk, OnOk, OnErr, MatchBool};

use arrayvec::ArrayVec;
use std::alloc::{AllocError, Allocator, Global};
use std::marker::Model;

// The largest number of values that are held in place.
const FEW: usize = 3;

// Values in place, or in memory of their own.
#[derive(Drop)]
pub(crate) enum Held<A: Allocator> {
    Few(A, ArrayVec<i64, FEW>),
    Many(Vec<i64, A>),
}

/// A list of values, in the order in which they are fed. Up to three values take no memory of their own.
#[derive(Drop)]
pub struct Values<A: Allocator = Global> {
    held: Held<A>,
}

impl<A: Allocator> Model for Values<A> {
    ghost use Rattle.std.specs.Prelude.{List, ℤ};
    ghost use Rattle.nd_protocol.specs.Values.{held_in};

    ghost Value = { List ℤ };

    ghost view = { λ a. held_in a.held };
}

impl<A: Allocator> Values<A> {
    /// Returns an empty list.
    pub fn new(alloc: A) -> Values<A>
        ensures { result ≡ [] }
    {
        Values {
            held: Held::Few(alloc, ArrayVec::new()),
        }
    }

    /// Returns the values.
    pub fn as_slice(&self) -> &[i64]
        ensures { result.now ≡ self.now }
    {
        match &self.held {
            Held::Few(_, few) => few.as_slice(),
            Held::Many(many) => many.as_slice(),
        }
    }

    /// Returns an equal list.
    pub fn copy(&self, alloc: A) -> Result<Values<A>, AllocError>
        ensures { IfOk result (λ v. v ≡ self.now) }
    {
        let values = self.as_slice();
        let held = match ArrayVec::try_from(values) {
            Ok(few) => Held::Few(alloc, few),
            Err(_) => Held::Many(Vec::from_slice(alloc, values)?),
        };
        Ok(Values { held })
    }

    // Returns whether the two lists are equal.
    pub(crate) fn same(&self, other: &Values<A>) -> bool
        ensures { MatchBool result (self.now ≡ other.now) (self.now ≢ other.now) }
    {
        self.as_slice() == other.as_slice()
    }
}

impl<A: Allocator + Copy> Values<A> {
    /// Appends a value.
    pub fn push(&mut self, value: i64) -> Result<(), AllocError>
        ensures ok { OnOk result (self.new ≡ self.old ++ value ∷ []) }
        ensures err { OnErr result (self.new ≡ self.old) }
    {
        match &mut self.held {
            Held::Few(alloc, few) => {
                if few.len() < FEW {
                    few.push(value);
                    return Ok(());
                }
                let mut many = Vec::from_slice(*alloc, few.as_slice())?;
                many.push(value)?;
                self.held = Held::Many(many);
                Ok(())
            }
            Held::Many(many) => {
                many.push(value)?;
                Ok(())
            }
        }
    }
}
