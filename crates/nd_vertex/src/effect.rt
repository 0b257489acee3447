//! What a vertex does on a record or a notification.
ghost use Rattle.std.specs.Prelude.{◌≡◌, cond};
ghost use Rattle.nd_vertex.specs.Edits.{turned};

use crate::ItemKey;
use nd_time::Timestamp;
use std::alloc::{Allocator, Global};

/// A value that a vertex emits.
#[derive(Debug, PartialEq, Eq, Drop)]
pub struct Emission {
    pub port: u32,
    /// The timestamp after the vertex.
    pub time: Timestamp,
    pub value: i64,
}

/// A change of the number of one item; `None` means that the item is not there.
#[derive(Debug, PartialEq, Eq, Drop)]
pub struct ItemEdit {
    pub key: ItemKey,
    pub old: Option<i64>,
    pub new: Option<i64>,
}

impl ItemEdit {
    /// Returns a copy of the edit.
    pub fn copy(&self) -> ItemEdit
        ensures { result ≡ self.now }
    {
        ItemEdit {
            key: self.key.copy(),
            old: self.old,
            new: self.new,
        }
    }

    /// Returns the inverse of the edit.
    pub fn turned(&self) -> ItemEdit
        ensures { result ≡ turned self.now }
    {
        ItemEdit {
            key: self.key.copy(),
            old: self.new,
            new: self.old,
        }
    }

    // Returns the edit, or its inverse if `back`.
    pub(crate) fn directed(&self, back: bool) -> ItemEdit
        ensures { result ≡ cond back (turned self.now) self.now }
    {
        if back { self.turned() } else { self.copy() }
    }
}

/// What a vertex does on a record or a notification.
pub struct Effect<A: Allocator = Global> {
    pub emits: Vec<Emission, A>,
    /// Whether the vertex requests a notification at the timestamp.
    pub asks: bool,
    /// The edits of items, at most one per item.
    pub items: Vec<ItemEdit, A>,
    /// Whether the value is counted at a sink.
    pub sink: bool,
}

impl<A: Allocator> Drop for Effect<A> {
    fn drop(self) {
        let Effect {
            emits: _,
            asks: _,
            items: _,
            sink: _,
        } = self;
    }
}
