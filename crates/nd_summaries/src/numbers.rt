//! Lists of numbers.
ghost use Rattle.std.specs.Prelude.{◌≡◌, [], ◌∷◌, ◌++◌, IfOk};

use std::alloc::{AllocError, Allocator, Global};
use std::marker::Model;

/// The numbers of lists of summaries.
pub struct Numbers<A: Allocator = Global> {
    numbers: Vec<u32, A>,
}

impl<A: Allocator> Drop for Numbers<A> {
    fn drop(self) {
        let Numbers { numbers: _ } = self;
    }
}

impl<A: Allocator> Model for Numbers<A> {
    ghost use Rattle.std.specs.Prelude.{ℕ, List};

    ghost Value = { List ℕ };

    ghost view = { λ a. a.numbers.items };
}

impl<A: Allocator> Numbers<A> {
    /// Returns no numbers, with room for this many.
    pub fn with_capacity(alloc: A, count: usize) -> Result<Numbers<A>, AllocError>
        ensures { IfOk result (λ n. n ≡ []) }
    {
        let numbers = Vec::with_capacity(alloc, count)?;
        Ok(Numbers { numbers })
    }

    /// Returns the numbers.
    pub fn as_slice(&self) -> &[u32]
        ensures { result.now ≡ self.now }
    {
        self.numbers.as_slice()
    }

    /// Appends a number.
    pub fn push(&mut self, number: u32) -> Result<(), AllocError>
        ensures { IfOk result (λ _. self.new ≡ self.old ++ number ∷ []) }
    {
        self.numbers.push(number)?;
        Ok(())
    }
}
