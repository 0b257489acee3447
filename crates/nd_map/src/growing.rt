//! Finite maps that may grow large: sorted lists while they are small, trees from then on.
ghost use Rattle.std.specs.Prelude.{◌≡◌, ◌↔◌, ◌<◌, ◌^◌, [], OnOk, OnErr, IfOk, IsTrue, None, length};
ghost use Rattle.std.specs.Option.{ForSome};
ghost use Rattle.std.specs.FinMap.{find, put};
ghost use Rattle.std.specs.Iterator.{at_most};
ghost use Rattle.std.specs.Map.Iter.{ShowsInOrder, TakesFirst, deref_pair};
ghost use Rattle.std.specs.BTreeMap.Range.{IsLeBy, entries_between};
ghost use Rattle.std.specs.declared.ops.Bound.TheVariants.{Included};
ghost use Rattle.nd_map.specs.Listed.{IsListed, without};
ghost use Rattle.nd_map.specs.Edits.{IsSaid, edited};

use crate::tree::{Edit, TreeMap};
use crate::{Key, SortedMap};
use std::alloc::{AllocError, Allocator, Global};
use std::collections::btree_map;
use std::marker::Model;

// The largest number of entries held in a list, in which an edit moves the entries after it.
const FEW: usize = 16;

// The entries, in a list or in a tree.
#[derive(Drop)]
pub(crate) enum Held<K: Key, V: Copy, A: Allocator> {
    Few(SortedMap<K, V, A>),
    Many(TreeMap<K, V, A>),
}

/// A finite map that may grow large, seen as the list of its entries in the order of their keys.
///
/// A map with few entries is a sorted list; a larger one is a tree. A lookup and an edit each take time logarithmic in the
/// number of entries.
#[derive(Drop)]
pub struct GrowingMap<K: Key, V: Copy, A: Allocator = Global> {
    alloc: A,
    held: Held<K, V, A>,
}

impl<K: Key, V: Copy, A: Allocator> Model for GrowingMap<K, V, A> {
    ghost use Rattle.std.specs.Prelude.{List};
    ghost use Rattle.nd_map.specs.Growing.{held_in};
    ghost use Rattle.nd_map.specs.Listed.{IsListed};

    ghost Value = { List (K × V) };

    ghost view = { λ a. held_in a.held };

    ghost invariant = { λ a. IsListed K.cmp (held_in a.held) };
}

// The entries that an iterator has not yet returned.
#[derive(Drop)]
pub(crate) enum Left<'a, K, V> {
    Few(&'a [(K, V)]),
    Many(btree_map::Iter<'a, K, V>),
}

/// An iterator over the entries of a map, in the order of their keys.
#[derive(Drop)]
pub struct Iter<'a, K, V> {
    left: Left<'a, K, V>,
}

impl<'a, K, V> Model for Iter<'a, K, V> {
    ghost use Rattle.std.specs.Prelude.{List};
    ghost use Rattle.nd_map.specs.Growing.{left_in};

    ghost Value = { List (K × V) };

    ghost view = { λ a. left_in a.left };
}

impl<'a, K, V> Iterator for Iter<'a, K, V> {
    type Item = (&'a K, &'a V);

    ghost next_gives = { TakesFirst deref_pair };

    ghost remaining = { λ s. at_most (length s) };

    fn next(&mut self) -> Option<(&'a K, &'a V)> {
        match &mut self.left {
            Left::Few(entries) => {
                let (first, others) = entries.split_first()?;
                *entries = others;
                Some((&first.0, &first.1))
            }
            Left::Many(entries) => entries.next(),
        }
    }
}

// The entries that an iterator over a range of keys has not yet returned.
#[derive(Drop)]
pub(crate) enum LeftBetween<'a, K, V> {
    Few(&'a [(K, V)]),
    Many(btree_map::Range<'a, K, V>),
}

/// An iterator over the entries in a range of keys, in the order of their keys.
#[derive(Drop)]
pub struct Between<'a, K, V> {
    left: LeftBetween<'a, K, V>,
}

impl<'a, K, V> Model for Between<'a, K, V> {
    ghost use Rattle.std.specs.Prelude.{List};
    ghost use Rattle.nd_map.specs.Growing.{left_between};

    ghost Value = { List (K × V) };

    ghost view = { λ a. left_between a.left };
}

impl<'a, K, V> Iterator for Between<'a, K, V> {
    type Item = (&'a K, &'a V);

    ghost next_gives = { TakesFirst deref_pair };

    ghost remaining = { λ s. at_most (length s) };

    fn next(&mut self) -> Option<(&'a K, &'a V)> {
        match &mut self.left {
            LeftBetween::Few(part) => {
                let (first, others) = part.split_first()?;
                *part = others;
                Some((&first.0, &first.1))
            }
            LeftBetween::Many(part) => part.next(),
        }
    }
}

impl<K: Key, V: Copy, A: Allocator> GrowingMap<K, V, A> {
    /// Returns the value at `key`, if there is one.
    pub fn get(&self, key: &K) -> Option<V>
        ensures value { result ≡ find K.cmp key.now self.now }
        ensures listed { IsListed K.cmp self.now }
    {
        match &self.held {
            Held::Few(list) => list.get(key),
            Held::Many(tree) => tree.get(key),
        }
    }

    /// Returns an iterator over the entries, in the order of their keys.
    pub fn iter(&self) -> Iter<'_, K, V>
        ensures rest { result ≡ self.now }
        ensures runs { ShowsInOrder (deref_pair {K = K} {X = V}) }
        ensures fits { length self.now < 2 ^ 63 }
        ensures listed { IsListed K.cmp self.now }
    {
        let left = match &self.held {
            Held::Few(list) => Left::Few(list.listed()),
            Held::Many(tree) => Left::Many(tree.iter()),
        };
        Iter { left }
    }

    /// Returns an iterator over the entries from the key `first` to the key `last`, both included, in the order of their keys.
    ///
    /// Finding the first entry takes time logarithmic in the number of entries.
    pub fn between(&self, first: &K, last: &K) -> Between<'_, K, V>
        requires { IsLeBy K.cmp first.now last.now }
        ensures rest { result
            ≡ entries_between K.cmp (Included first.now) (Included last.now) self.now }
        ensures runs { ShowsInOrder (deref_pair {K = K} {X = V}) }
        ensures fits { length result < 2 ^ 63 }
        ensures listed { IsListed K.cmp self.now }
    {
        let left = match &self.held {
            Held::Few(list) => LeftBetween::Few(list.between(first, last)),
            Held::Many(tree) => LeftBetween::Many(tree.between(first, last)),
        };
        Between { left }
    }

    /// Returns the number of entries.
    pub fn len(&self) -> usize
        ensures { result ≡ length self.now }
    {
        match &self.held {
            Held::Few(list) => list.len(),
            Held::Many(tree) => tree.len(),
        }
    }

    /// Returns whether the map has no entries.
    pub fn is_empty(&self) -> bool
        ensures { IsTrue result ↔ (self.now ≡ []) }
    {
        self.len() == 0
    }

    /// Removes `key` and its value, if the key is there.
    pub fn remove(&mut self, key: &K)
        ensures value { self.new ≡ without K.cmp key.now self.old }
        ensures listed { IsListed K.cmp self.new }
        ensures was_listed { IsListed K.cmp self.old }
    {
        match &mut self.held {
            Held::Few(list) => list.remove(key),
            Held::Many(tree) => tree.remove(key),
        }
    }
}

impl<K: Key, V: Copy, A: Allocator + Copy> GrowingMap<K, V, A> {
    /// Returns an empty map. It does not allocate.
    pub fn new(alloc: A) -> GrowingMap<K, V, A>
        ensures { result ≡ [] }
    {
        GrowingMap {
            alloc,
            held: Held::Few(SortedMap::new(alloc)),
        }
    }

    // Turns a list that has no room for `key` into a tree.
    fn make_room(&mut self, key: &K) -> Result<(), AllocError>
        ensures same { self.new ≡ self.old }
        ensures absent { OnErr result (find K.cmp key.now self.old ≡ None) }
        ensures was_listed { IsListed K.cmp self.old }
    {
        if let Held::Few(list) = &self.held {
            if list.len() >= FEW && list.get(key).is_none() {
                self.held = Held::Many(as_tree(self.alloc, list.entries())?);
            }
        }
        Ok(())
    }

    /// Sets the value at `key`. It does not allocate if the key has a value.
    pub fn put(&mut self, key: &K, value: V) -> Result<(), AllocError>
        ensures ok { OnOk result (self.new ≡ put K.cmp key.now value self.old) }
        ensures err { OnErr result (self.new ≡ self.old) }
        ensures absent { OnErr result (find K.cmp key.now self.old ≡ None) }
        ensures listed { IsListed K.cmp self.new }
        ensures was_listed { IsListed K.cmp self.old }
    {
        self.make_room(key)?;
        match &mut self.held {
            Held::Few(list) => list.put(key, value),
            Held::Many(tree) => tree.put(key, value),
        }
    }

    /// Puts `value` at `key` if the key has no value, and otherwise applies what `edit` returns for the value there. It searches
    /// once, returns what `edit` returned, and does not allocate if the key has a value.
    pub fn put_or_edit<F: FnOnce(V) -> Edit<V>>(
        &mut self,
        key: &K,
        value: V,
        edit: F,
    ) -> Result<Option<Edit<V>>, AllocError>
        requires { ForSome (find K.cmp key.now self.old) (F.pre edit) }
        ensures said { IfOk result (IsSaid (F.post edit) (find K.cmp key.now self.old)) }
        ensures done { IfOk result (λ said. self.new ≡ edited K.cmp key.now value said self.old) }
        ensures err { OnErr result (self.new ≡ self.old) }
        ensures absent { OnErr result (find K.cmp key.now self.old ≡ None) }
        ensures listed { IsListed K.cmp self.new }
        ensures was_listed { IsListed K.cmp self.old }
    {
        self.make_room(key)?;
        match &mut self.held {
            Held::Few(list) => list.put_or_edit(key, value, edit),
            Held::Many(tree) => tree.put_or_edit(key, value, edit),
        }
    }

    /// Returns a copy of the map.
    pub fn copy(&self, alloc: A) -> Result<GrowingMap<K, V, A>, AllocError>
        ensures equal { IfOk result (λ m. m ≡ self.now) }
        ensures listed { IsListed K.cmp self.now }
    {
        let held = match &self.held {
            Held::Few(list) => Held::Few(list.copy(alloc)?),
            Held::Many(tree) => Held::Many(tree.copy(alloc)?),
        };
        Ok(GrowingMap { alloc, held })
    }
}

// Returns a tree of these entries.
fn as_tree<K: Key, V: Copy, A: Allocator + Copy>(
    alloc: A,
    entries: &[(K, V)],
) -> Result<TreeMap<K, V, A>, AllocError>
    requires { IsListed K.cmp entries.now }
    ensures { IfOk result (λ m. m ≡ entries.now) }
{
    let mut tree = TreeMap::new(alloc);
    for entry in entries {
        tree.put(&entry.0, entry.1)?;
    }
    Ok(tree)
}
