//! Lists of the changes of an entry.
ghost use Rattle.std.specs.Prelude.{◌≡◌, [], ◌∷◌, ◌++◌, OnOk};

use nd_timeline::Changed;
use std::alloc::{AllocError, Allocator, Global};
use std::marker::Model;

/// A list of changes, in the order of their positions.
#[derive(Drop)]
pub struct EntryChanges<A: Allocator = Global> {
    items: Vec<Changed, A>,
}

impl<A: Allocator> Model for EntryChanges<A> {
    ghost use Rattle.std.specs.Prelude.{List};
    ghost use Rattle.std.specs.Coded.{coded_list};
    ghost use Rattle.nd_history.specs.Changes.{changed_code};
    ghost use Rattle.nd_timeline.specs.declared.changed.Changed.{Changed as Item};

    ghost Value = { List Item };

    ghost coded = { coded_list changed_code };

    ghost view = { λ a. a.items.items };
}

impl<A: Allocator> EntryChanges<A> {
    // Returns an empty list.
    pub(crate) fn new(alloc: A) -> EntryChanges<A>
        ensures { result ≡ [] }
    {
        EntryChanges {
            items: Vec::new(alloc),
        }
    }

    /// Returns the changes.
    pub fn as_slice(&self) -> &[Changed]
        ensures { result.now ≡ self.now }
    {
        &self.items
    }

    // Adds a change at the end.
    pub(crate) fn push(&mut self, changed: Changed) -> Result<(), AllocError>
        ensures { OnOk result (self.new ≡ self.old ++ changed ∷ []) }
    {
        self.items.push(changed)?;
        Ok(())
    }
}

/// What is listed of the changes in a range of positions.
#[derive(Drop)]
pub struct ChangeList<A: Allocator = Global> {
    /// The first 1,000 changes, or all if there are no more.
    pub changes: EntryChanges<A>,
    /// Whether there are more.
    pub more: bool,
}
