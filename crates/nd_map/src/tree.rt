//! Finite maps stored in a tree, for maps that have grown large.
ghost use Rattle.std.specs.Prelude.{◌≡◌, ◌<◌, ◌^◌, [], OnOk, OnErr, IfOk, None, length};
ghost use Rattle.std.specs.Option.{ForSome};
ghost use Rattle.std.specs.FinMap.{find, put};
ghost use Rattle.std.specs.Map.Iter.{ShowsInOrder, deref_pair};
ghost use Rattle.std.specs.BTreeMap.Range.{IsLeBy, entries_between};
ghost use Rattle.std.specs.declared.ops.Bound.TheVariants.{Included};
ghost use Rattle.nd_map.specs.Listed.{IsListed, without};
ghost use Rattle.nd_map.specs.Edits.{IsSaid, edited};

use crate::Key;
use std::alloc::{AllocError, Allocator, Global};
use std::collections::BTreeMap;
use std::collections::btree_map::{Entry, Iter, Range};
use std::marker::Model;

/// What to do with the value at a key.
#[derive(Clone, Copy)]
pub enum Edit<V: Copy> {
    /// Keep the value.
    Keep,
    /// Replace the value by this one.
    Put(V),
    /// Remove the key and its value.
    Remove,
}

// A finite map, seen as the list of its entries in the order of their keys.
//
// A lookup, an edit and finding the first entry each take time logarithmic in the number of entries.
#[derive(Drop)]
pub(crate) struct TreeMap<K: Key, V: Copy, A: Allocator = Global> {
    tree: BTreeMap<K, V, A>,
}

impl<K: Key, V: Copy, A: Allocator> Model for TreeMap<K, V, A> {
    ghost use Rattle.std.specs.Prelude.{List};
    ghost use Rattle.nd_map.specs.Listed.{IsListed};

    ghost Value = { List (K × V) };

    ghost view = { λ a. a.tree.entries };

    ghost invariant = { λ a. IsListed K.cmp a.tree.entries };
}

impl<K: Key, V: Copy, A: Allocator> TreeMap<K, V, A> {
    // Returns an empty map. It does not allocate.
    pub(crate) fn new(alloc: A) -> TreeMap<K, V, A>
        ensures { result ≡ [] }
    {
        TreeMap {
            tree: BTreeMap::new(alloc),
        }
    }

    // Returns the value at `key`, if there is one.
    pub(crate) fn get(&self, key: &K) -> Option<V>
        ensures value { result ≡ find K.cmp key.now self.now }
        ensures listed { IsListed K.cmp self.now }
    {
        self.tree.get(key).copied()
    }

    // Returns an iterator over the entries, in the order of their keys.
    pub(crate) fn iter(&self) -> Iter<'_, K, V>
        ensures rest { result ≡ self.now }
        ensures runs { ShowsInOrder (deref_pair {K = K} {X = V}) }
        ensures fits { length self.now < 2 ^ 63 }
        ensures listed { IsListed K.cmp self.now }
    {
        self.tree.iter()
    }

    // Returns an iterator over the entries from the key `first` to the key `last`, both included, in the order of their keys.
    //
    // Finding the first entry takes time logarithmic in the number of entries.
    pub(crate) fn between(&self, first: &K, last: &K) -> Range<'_, K, V>
        requires { IsLeBy K.cmp first.now last.now }
        ensures rest { result
            ≡ entries_between K.cmp (Included first.now) (Included last.now) self.now }
        ensures runs { ShowsInOrder (deref_pair {K = K} {X = V}) }
        ensures fits { length result < 2 ^ 63 }
        ensures listed { IsListed K.cmp self.now }
    {
        self.tree.range(first..=last)
    }

    // Returns the number of entries.
    pub(crate) fn len(&self) -> usize
        ensures { result ≡ length self.now }
    {
        self.tree.len()
    }

    // Removes `key` and its value, if the key is there.
    pub(crate) fn remove(&mut self, key: &K)
        ensures value { self.new ≡ without K.cmp key.now self.old }
        ensures listed { IsListed K.cmp self.new }
        ensures was_listed { IsListed K.cmp self.old }
    {
        self.tree.remove(key);
    }
}

impl<K: Key, V: Copy, A: Allocator + Clone> TreeMap<K, V, A> {
    // Sets the value at `key`. It does not allocate if the key has a value.
    pub(crate) fn put(&mut self, key: &K, value: V) -> Result<(), AllocError>
        ensures ok { OnOk result (self.new ≡ put K.cmp key.now value self.old) }
        ensures err { OnErr result (self.new ≡ self.old) }
        ensures absent { OnErr result (find K.cmp key.now self.old ≡ None) }
        ensures listed { IsListed K.cmp self.new }
        ensures was_listed { IsListed K.cmp self.old }
    {
        let Ok(_) = self.tree.insert(key.duplicate(), value) else {
            return Err(AllocError);
        };
        Ok(())
    }

    // Puts `value` at `key` if the key has no value, and otherwise applies what `edit` returns for the value there. It searches
    // once, returns what `edit` returned, and does not allocate if the key has a value.
    pub(crate) fn put_or_edit<F: FnOnce(V) -> Edit<V>>(
        &mut self,
        key: &K,
        value: V,
        edit: F,
    ) -> Result<Option<Edit<V>>, AllocError>
        requires { ForSome (find K.cmp key.now self.old) (F.pre edit) }
        ensures said { IfOk result (IsSaid (F.post edit) (find K.cmp key.now self.old)) }
        ensures done { IfOk result (λ said. self.new ≡ edited K.cmp key.now value said self.old) }
        ensures err { OnErr result (self.new ≡ self.old) }
        ensures absent { OnErr result (find K.cmp key.now self.old ≡ None) }
        ensures listed { IsListed K.cmp self.new }
        ensures was_listed { IsListed K.cmp self.old }
    {
        let Ok(entry) = self.tree.entry(key.duplicate()) else {
            return Err(AllocError);
        };
        match entry {
            Entry::Vacant(place) => {
                place.insert(value);
                Ok(None)
            }
            Entry::Occupied(mut held) => match edit(*held.get()) {
                Edit::Keep => Ok(Some(Edit::Keep)),
                Edit::Put(other) => {
                    held.insert(other);
                    Ok(Some(Edit::Put(other)))
                }
                Edit::Remove => {
                    held.remove();
                    Ok(Some(Edit::Remove))
                }
            },
        }
    }

    // Returns a copy of the map. It takes time linear in the number of entries.
    pub(crate) fn copy(&self, alloc: A) -> Result<TreeMap<K, V, A>, AllocError>
        ensures equal { IfOk result (λ m. m ≡ self.now) }
        ensures listed { IsListed K.cmp self.now }
    {
        let left = self.iter();
        let mut entries = Vec::with_capacity(alloc.clone()?, self.len())?;
        for (key, value) in left {
            entries.push((key.duplicate(), *value))?;
        }
        Ok(TreeMap {
            tree: BTreeMap::from_iter(alloc, entries)?,
        })
    }
}
