//! The state of a vertex: numbers for items at timestamps.
ghost use Rattle.std.specs.Prelude.{◌≡◌, ◌≢◌, ◌<◌, ◌^◌, None, Some, OnOk, OnErr, IfOk, ℤ, pos, length};
ghost use Rattle.std.specs.Map.Iter.{ShowsInOrder, deref_pair};
ghost use Rattle.nd_map.specs.Counts.{none, entries as listed};
ghost use Rattle.nd_vertex.specs.Items.{item_key};
ghost use Rattle.nd_vertex.specs.Edits.{item_of, with_item};
ghost use Rattle.nd_vertex.specs.Effects.{AreValues};

use crate::ItemKey;
use nd_map::{GrowingMap, Iter};
use nd_time::Timestamp;
use std::alloc::{AllocError, Allocator, Global};
use std::marker::Model;

/// A finite map from items at timestamps to numbers other than 0.
pub struct VertexState<A: Allocator = Global> {
    pub(crate) map: GrowingMap<ItemKey, i64, A>,
}

impl<A: Allocator> Drop for VertexState<A> {
    fn drop(self) {
        let VertexState { map: _ } = self;
    }
}

impl<A: Allocator> Model for VertexState<A> {
    ghost use Rattle.nd_map.specs.Counts.{integers, of_entries};
    ghost use Rattle.nd_vertex.specs.Items.{Items, items_code, item_total};
    ghost use Rattle.nd_vertex.specs.Kept.{IsKept};

    ghost Value = { Items };

    ghost coded = { items_code };

    ghost view = { λ a. of_entries {N = integers} item_total a.map };

    ghost invariant = { λ a. IsKept a.map };
}

impl<A: Allocator + Copy> VertexState<A> {
    /// Returns a state without items. It does not allocate.
    pub fn new(alloc: A) -> VertexState<A>
        ensures { result ≡ none }
    {
        VertexState {
            map: GrowingMap::new(alloc),
        }
    }

    /// Returns the number of an item at a timestamp, or `None` if the item is not there.
    pub fn get(&self, time: &Timestamp, item: i64) -> Option<i64>
        ensures value { result ≡ item_of self.now (item_key time.now item) }
        ensures values { AreValues self.now }
    {
        let key = ItemKey {
            time: time.copy(),
            item,
        };
        self.map.get(&key)
    }

    /// Returns an iterator over the items and their numbers, ordered by timestamp and then by item.
    pub fn entries(&self) -> Iter<'_, ItemKey, i64>
        ensures listed { result ≡ listed self.now }
        ensures runs { ShowsInOrder (deref_pair {K = ItemKey} {X = ℤ}) }
        ensures fits { length (listed self.now) < 2 ^ 63 }
    {
        self.map.iter()
    }

    /// Sets the number of an item, or removes the item. It does not allocate for an item that is there.
    pub fn set(
        &mut self,
        time: &Timestamp,
        item: i64,
        old: Option<i64>,
        new: Option<i64>,
    ) -> Result<(), AllocError>
        requires there { item_of self.old (item_key time.now item) ≡ old }
        requires some { new ≢ Some (pos 0) }
        ensures ok { OnOk result (self.new ≡ with_item self.old (item_key time.now item) new) }
        ensures err { OnErr result (self.new ≡ self.old) }
        ensures absent { OnErr result (old ≡ None) }
        ensures growing { OnErr result (new ≢ None) }
    {
        let _ = old;
        let key = ItemKey {
            time: time.copy(),
            item,
        };
        match new {
            Some(number) => self.map.put(&key, number)?,
            None => self.map.remove(&key),
        }
        Ok(())
    }

    /// Returns a copy of the items.
    pub fn copy(&self, alloc: A) -> Result<VertexState<A>, AllocError>
        ensures { IfOk result (λ s. s ≡ self.now) }
    {
        Ok(VertexState {
            map: self.map.copy(alloc)?,
        })
    }
}
