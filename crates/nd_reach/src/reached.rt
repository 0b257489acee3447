//! What a question for what can still happen is answered.
ghost use Rattle.std.specs.Prelude.{◌≡◌, ◌++◌, ◌∷◌, [], OnOk, reverse};

use nd_protocol::Step;
use std::alloc::{AllocError, Allocator, Global};
use std::marker::Model;

/// A list of steps.
#[derive(Drop)]
pub struct Steps<A: Allocator = Global> {
    items: Vec<Step<A>, A>,
}

impl<A: Allocator> Model for Steps<A> {
    ghost use Rattle.std.specs.Prelude.{List};
    ghost use Rattle.nd_protocol.specs.declared.step.Step.{Step};

    ghost Value = { List (Step A) };

    ghost view = { λ a. a.items.items };
}

impl<A: Allocator> Steps<A> {
    // Returns an empty list.
    pub(crate) fn new(alloc: A) -> Steps<A>
        ensures { result ≡ [] }
    {
        Steps {
            items: Vec::new(alloc),
        }
    }

    /// Returns the steps.
    pub fn as_slice(&self) -> &[Step<A>]
        ensures { result.now ≡ self.now }
    {
        &self.items
    }

    // Appends a step.
    pub(crate) fn push(&mut self, step: Step<A>) -> Result<(), AllocError>
        ensures { OnOk result (self.new ≡ self.old ++ step ∷ []) }
    {
        self.items.push(step)?;
        Ok(())
    }

    // Reverses the list.
    pub(crate) fn reverse(&mut self)
        ensures { self.new ≡ reverse self.old }
    {
        self.items.reverse();
    }
}

/// What can still happen.
#[derive(Drop)]
pub enum Reached<A: Allocator = Global> {
    /// The steps of the least way to the first state at which the condition holds.
    Way(Steps<A>),
    /// The condition holds at none of the states that were looked at.
    Nowhere {
        /// How many states were looked at.
        states: u64,
        /// Whether these are all that are reached.
        whole: bool,
    },
}
