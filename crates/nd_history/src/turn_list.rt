//! What is listed of the positions at which a condition begins or ceases to hold.
ghost use Rattle.std.specs.Prelude.{◌≡◌, map, IfOk};

use nd_timeline::Changed;
use std::alloc::{AllocError, Allocator, Global};
use std::marker::Model;

/// A list of positions.
#[derive(Drop)]
pub struct PositionList<A: Allocator = Global> {
    items: Vec<u64, A>,
}

impl<A: Allocator> Model for PositionList<A> {
    ghost use Rattle.std.specs.Prelude.{List, ℕ};

    ghost Value = { List ℕ };

    ghost view = { λ a. a.items.items };
}

impl<A: Allocator> PositionList<A> {
    // Returns the positions of the changes.
    pub(crate) fn of(alloc: A, changes: &[Changed]) -> Result<PositionList<A>, AllocError>
        ensures { IfOk result (λ ks. ks ≡ map (λ c. c.position) changes.now) }
    {
        let mut items = Vec::with_capacity(alloc, changes.len())?;
        for changed in changes {
            items.push(changed.position)?;
        }
        Ok(PositionList { items })
    }

    /// Returns the positions.
    pub fn as_slice(&self) -> &[u64]
        ensures { result.now ≡ self.now }
    {
        &self.items
    }
}

/// Where a condition begins and ceases to hold in a range of positions.
#[derive(Drop)]
pub struct TurnList<A: Allocator = Global> {
    /// Whether the condition holds at the first position of the range.
    pub at_lo: bool,
    /// The turns, the positions at which it begins or ceases to hold, in order: the first 1,000, or all
    /// if there are no more.
    pub positions: PositionList<A>,
    /// Whether there are more.
    pub more: bool,
}
