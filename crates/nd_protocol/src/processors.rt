//! Lists of processors.
ghost use Rattle.std.specs.Prelude.{◌≡◌, ◌≢◌, [], ◌∷◌, ◌++◌, IfOk, OnOk, OnErr, MatchBool};

use std::alloc::{AllocError, Allocator, Global};
use std::marker::Model;

/// A list of processors' numbers, in the order in which they are named.
#[derive(Drop)]
pub struct Processors<A: Allocator = Global> {
    items: Vec<u32, A>,
}

impl<A: Allocator> Model for Processors<A> {
    ghost use Rattle.std.specs.Prelude.{List, ℕ};

    ghost Value = { List ℕ };

    ghost view = { λ a. a.items.items };
}

impl<A: Allocator> Processors<A> {
    /// Returns an empty list.
    pub fn new(alloc: A) -> Processors<A>
        ensures { result ≡ [] }
    {
        Processors {
            items: Vec::new(alloc),
        }
    }

    /// Returns the numbers.
    pub fn as_slice(&self) -> &[u32]
        ensures { result.now ≡ self.now }
    {
        &self.items
    }

    /// Appends a number.
    pub fn push(&mut self, p: u32) -> Result<(), AllocError>
        ensures ok { OnOk result (self.new ≡ self.old ++ p ∷ []) }
        ensures err { OnErr result (self.new ≡ self.old) }
    {
        self.items.push(p)?;
        Ok(())
    }

    /// Returns an equal list.
    pub fn copy(&self, alloc: A) -> Result<Processors<A>, AllocError>
        ensures { IfOk result (λ v. v ≡ self.now) }
    {
        Ok(Processors {
            items: Vec::from_slice(alloc, &self.items)?,
        })
    }

    /// Returns whether the two lists are equal.
    pub fn same(&self, other: &Processors<A>) -> bool
        ensures { MatchBool result (self.now ≡ other.now) (self.now ≢ other.now) }
    {
        self.items.as_slice() == other.items.as_slice()
    }
}
