//! Finite maps, seen as lists of entries in the order of their keys: sorted lists, and trees.
#![tactic(auto)]

ghost use Rattle.std.specs.Prelude.{◌≡◌, ◌<◌, ◌≤◌, ◌↔◌, ◌^◌, [], OnOk, OnErr, IfOk, IfErr, IsTrue, None, length, not};
ghost use Rattle.std.specs.Option.{ForSome};
ghost use Rattle.std.specs.FinMap.{IsAntisymmetric, find, nat_cmp-IsAntisymmetric, put};
ghost use Rattle.std.specs.List.{filter};
ghost use Rattle.std.specs.BTreeMap.Range.{IsLeBy, is_from_start, is_past_end, entries_between};
ghost use Rattle.std.specs.declared.ops.Bound.TheVariants.{Included};
ghost use Rattle.std.proofs.Common.{get_or};
ghost use Rattle.nd_map.specs.Counts.{keys_of};
ghost use Rattle.nd_map.specs.Edits.{IsSaid, edited};
ghost use Rattle.nd_map.specs.Listed.{IsListed, without};
ghost use Rattle.nd_map.specs.Place.{IsAt, IsGap};

mod growing;
mod tree;

pub use growing::{Between, GrowingMap, Iter};
use std::alloc::{AllocError, Allocator, Global};
use std::cmp::Ordering;
use std::marker::Model;
pub use tree::Edit;

/// The keys of a map: ordered, and copied without allocating.
pub trait Key: Ord + Drop {
    /// Returns an equal key.
    fn duplicate(&self) -> Self
        ensures { result ≡ self.now };

    /// Keys that compare equal are equal.
    ghost exact: { IsAntisymmetric Self.Ord.cmp };
}

impl Key for usize {
    fn duplicate(&self) -> usize {
        *self
    }

    ghost exact = { nat_cmp-IsAntisymmetric };
}

/// A finite map, seen as the list of its entries in the order of their keys.
///
/// A lookup takes time logarithmic in the number of entries. An edit that adds or removes an entry moves the entries
/// after it.
#[derive(Drop)]
pub struct SortedMap<K: Key, V: Copy, A: Allocator = Global> {
    entries: Vec<(K, V), A>,
}

impl<K: Key, V: Copy, A: Allocator> Model for SortedMap<K, V, A> {
    ghost use Rattle.std.specs.Prelude.{List};
    ghost use Rattle.nd_map.specs.Listed.{IsListed};

    ghost Value = { List (K × V) };

    ghost view = { λ a. a.entries.items };

    ghost invariant = { λ a. IsListed K.cmp a.entries.items };
}

// Returns the index of the entry at `key`, or as an error the index at which it would be inserted.
fn place<K: Key, V>(entries: &[(K, V)], key: &K) -> Result<usize, usize>
    requires { IsListed K.cmp entries.now }
    ensures in_range { IfOk result (λ i. i < length entries.now) }
    ensures within { IfErr result (λ i. i ≤ length entries.now) }
    ensures found { IfOk result (IsAt K.cmp key.now entries.now) }
    ensures absent { IfErr result (IsGap K.cmp key.now entries.now) }
{
    entries.binary_search_by(
        |entry: &(K, V)| -> Ordering
            ensures { result ≡ K.cmp entry.now.0 key.entry.now }
        { entry.0.cmp(key) },
    )
}

// Returns the entries from `key` to the end.
fn from<'a, K: Key, V>(entries: &'a [(K, V)], key: &K) -> &'a [(K, V)]
    requires { IsListed K.cmp entries.now }
    ensures value { result.now
        ≡ filter (λ e. is_from_start K.cmp (Included key.now) e.0) entries.now }
    ensures within { length result.now ≤ length entries.now }
    ensures listed { IsListed K.cmp result.now }
{
    match place(entries, key) {
        Ok(i) => &entries[i..],
        Err(i) => &entries[i..],
    }
}

// Returns the entries up to `key`, included.
fn up_to<'a, K: Key, V>(entries: &'a [(K, V)], key: &K) -> &'a [(K, V)]
    requires { IsListed K.cmp entries.now }
    ensures value { result.now
        ≡ filter (λ e. not (is_past_end K.cmp (Included key.now) e.0)) entries.now }
    ensures within { length result.now ≤ length entries.now }
{
    match place(entries, key) {
        Ok(i) => &entries[..=i],
        Err(i) => &entries[..i],
    }
}

impl<K: Key, V: Copy, A: Allocator> SortedMap<K, V, A> {
    /// Returns an empty map. It does not allocate.
    pub fn new(alloc: A) -> SortedMap<K, V, A>
        ensures { result ≡ [] }
    {
        SortedMap {
            entries: Vec::new(alloc),
        }
    }

    /// Returns the value at `key`, if there is one.
    pub fn get(&self, key: &K) -> Option<V>
        ensures value { result ≡ find K.cmp key.now self.now }
        ensures listed { IsListed K.cmp self.now }
    {
        match place(&self.entries, key) {
            Ok(i) => Some(self.entries[i].1),
            Err(_) => None,
        }
    }

    /// Returns the entries, in the order of their keys.
    pub fn entries(&self) -> &[(K, V)]
        ensures value { result.now ≡ self.now }
        ensures listed { IsListed K.cmp self.now }
    {
        &self.entries
    }

    /// Returns the number of entries.
    pub fn len(&self) -> usize
        ensures { result ≡ length self.now }
    {
        self.entries().len()
    }

    /// Returns whether the map has no entries.
    pub fn is_empty(&self) -> bool
        ensures { IsTrue result ↔ (self.now ≡ []) }
    {
        self.len() == 0
    }

    /// Sets the value at `key`. It does not allocate if the key has a value.
    pub fn put(&mut self, key: &K, value: V) -> Result<(), AllocError>
        ensures ok { OnOk result (self.new ≡ put K.cmp key.now value self.old) }
        ensures err { OnErr result (self.new ≡ self.old) }
        ensures absent { OnErr result (find K.cmp key.now self.old ≡ None) }
        ensures listed { IsListed K.cmp self.new }
        ensures was_listed { IsListed K.cmp self.old }
    {
        match place(&self.entries, key) {
            Ok(i) => {
                self.entries[i].1 = value;
                Ok(())
            }
            Err(i) => {
                let Ok(()) = self.entries.insert(i, (key.duplicate(), value)) else {
                    return Err(AllocError);
                };
                Ok(())
            }
        }
    }

    /// Replaces the value of the entry at `index`, in the order of the keys. It does not allocate.
    pub fn put_at(&mut self, index: usize, value: V)
        requires { index < length self.old }
        ensures value { (d : K × V)
            → self.new ≡ put K.cmp (get_or self.old index d).0 value self.old }
        ensures keys { keys_of self.new ≡ keys_of self.old }
        ensures listed { IsListed K.cmp self.new }
        ensures was_listed { IsListed K.cmp self.old }
    {
        self.entries[index].1 = value;
    }

    /// Removes `key` and its value, if the key is there.
    pub fn remove(&mut self, key: &K)
        ensures value { self.new ≡ without K.cmp key.now self.old }
        ensures listed { IsListed K.cmp self.new }
        ensures was_listed { IsListed K.cmp self.old }
    {
        if let Ok(i) = place(&self.entries, key) {
            self.entries.remove(i);
        }
    }

    // Returns the entries; their number is within what an iterator can count.
    pub(crate) fn listed(&self) -> &[(K, V)]
        ensures value { result.now ≡ self.now }
        ensures fits { length self.now < 2 ^ 63 }
        ensures listed { IsListed K.cmp self.now }
    {
        self.entries.as_slice()
    }

    // Returns the entries from the key `first` to the key `last`, both included.
    pub(crate) fn between(&self, first: &K, last: &K) -> &[(K, V)]
        requires { IsLeBy K.cmp first.now last.now }
        ensures value { result.now
            ≡ entries_between K.cmp (Included first.now) (Included last.now) self.now }
        ensures fits { length result.now < 2 ^ 63 }
        ensures listed { IsListed K.cmp self.now }
    {
        up_to(from(self.listed(), first), last)
    }

    // Does what `GrowingMap::put_or_edit` does.
    pub(crate) fn put_or_edit<F: FnOnce(V) -> Edit<V>>(
        &mut self,
        key: &K,
        value: V,
        edit: F,
    ) -> Result<Option<Edit<V>>, AllocError>
        requires { ForSome (find K.cmp key.now self.old) (F.pre edit) }
        ensures said { IfOk result (IsSaid (F.post edit) (find K.cmp key.now self.old)) }
        ensures done { IfOk result (λ said. self.new ≡ edited K.cmp key.now value said self.old) }
        ensures err { OnErr result (self.new ≡ self.old) }
        ensures absent { OnErr result (find K.cmp key.now self.old ≡ None) }
        ensures listed { IsListed K.cmp self.new }
        ensures was_listed { IsListed K.cmp self.old }
    {
        match place(&self.entries, key) {
            Ok(index) => {
                let held = self.entries[index].1;
                match edit(held) {
                    Edit::Keep => Ok(Some(Edit::Keep)),
                    Edit::Put(other) => {
                        self.entries[index].1 = other;
                        Ok(Some(Edit::Put(other)))
                    }
                    Edit::Remove => {
                        self.entries.remove(index);
                        Ok(Some(Edit::Remove))
                    }
                }
            }
            Err(i) => {
                let Ok(()) = self.entries.insert(i, (key.duplicate(), value)) else {
                    return Err(AllocError);
                };
                Ok(None)
            }
        }
    }

    /// Returns a copy of the map.
    pub fn copy(&self, alloc: A) -> Result<SortedMap<K, V, A>, AllocError>
        ensures equal { IfOk result (λ m. m ≡ self.now) }
        ensures listed { IsListed K.cmp self.now }
    {
        Ok(SortedMap {
            entries: copy_entries(alloc, &self.entries)?,
        })
    }
}

// Returns a copy of the entries.
fn copy_entries<K: Key, V: Copy, A: Allocator>(
    alloc: A,
    entries: &[(K, V)],
) -> Result<Vec<(K, V), A>, AllocError>
    ensures { IfOk result (λ v. v.items ≡ entries.now) }
{
    let mut copied = Vec::with_capacity(alloc, entries.len())?;
    for entry in entries {
        copied.push((entry.0.duplicate(), entry.1))?;
    }
    Ok(copied)
}
