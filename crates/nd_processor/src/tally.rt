//! Counts of keys.
ghost use Rattle.std.specs.Prelude.{ℕ, ◌≡◌, ◌≢◌, ◌↔◌, ◌≤◌, ◌<◌, ◌^◌, ◌+◌, ◌-◌, [], None, Err, IfOk, OnOk, OnErr, length};
ghost use Rattle.std.specs.FinMap.{find};
ghost use Rattle.std.specs.Map.Iter.{ShowsInOrder, deref_pair};
ghost use Rattle.std.specs.BTreeMap.Range.{IsLeBy};
ghost use Rattle.nd_time.specs.Limits.{max_count};
ghost use Rattle.nd_map.specs.declared.tree.Edit.TheVariants.{Keep, Put, Remove};
ghost use Rattle.nd_processor.specs.Kept.{IsKept, number, put_more, put_fewer, from_to};
ghost use Rattle.nd_processor.specs.Edits.{IsTooMany};
ghost use Rattle.nd_processor.specs.declared.tally.CountFault.TheVariants.{CountFull, Memory};

use nd_map::{Between, Edit, GrowingMap, Iter, Key};
use nd_time::limits::MAX_COUNT;
use std::alloc::{AllocError, Allocator, Global};
use std::marker::Model;
use thiserror::Error;

/// Why a count was not changed.
#[derive(Clone, Copy, Debug, PartialEq, Eq, Drop, Error)]
pub enum CountFault {
    /// The count would exceed `MAX_COUNT`.
    #[error("a count would pass its limit")]
    CountFull,
    /// An allocation failed.
    #[error("out of memory")]
    Memory,
}

// A finite map from keys to counts other than 0 and within the limit. Contracts see it as the list of its entries.
pub(crate) struct Tally<K: Key, A: Allocator = Global> {
    map: GrowingMap<K, u64, A>,
}

impl<K: Key, A: Allocator> Drop for Tally<K, A> {
    fn drop(self) {
        let Tally { map: _ } = self;
    }
}

impl<K: Key, A: Allocator> Model for Tally<K, A> {
    ghost use Rattle.std.specs.Prelude.{List, ℕ};
    ghost use Rattle.nd_processor.specs.Kept.{IsKept};

    ghost Value = { List (K × ℕ) };

    ghost view = { λ a. a.map };

    ghost invariant = { λ a. IsKept K.cmp a.map };
}

// Returns the edit to the sum, or `Keep` if the sum exceeds the limit.
fn raised(count: u64, n: u64) -> Edit<u64>
    requires { count ≤ max_count }
    ensures more { count + n ≤ max_count → result ≡ Put (count + n) }
    ensures full { max_count < count + n → result ≡ Keep }
{
    if n > MAX_COUNT - count {
        return Edit::Keep;
    }
    Edit::Put(count + n)
}

// Returns the edit to the difference, or `Remove` if the difference is 0.
fn lowered(count: u64, n: u64) -> Edit<u64>
    ensures some { n < count → result ≡ Put (count - n) }
    ensures all { count ≤ n → result ≡ Remove }
{
    if n >= count {
        return Edit::Remove;
    }
    Edit::Put(count - n)
}

impl<K: Key, A: Allocator> Tally<K, A> {
    // Returns the count of a key.
    pub(crate) fn count_of(&self, key: &K) -> u64
        ensures value { result ≡ number K.cmp self.now key.now }
        ensures within { result ≤ max_count }
    {
        match self.map.get(key) {
            Some(count) => count,
            None => 0,
        }
    }

    // Returns the keys with their counts, in order.
    pub(crate) fn iter(&self) -> Iter<'_, K, u64>
        ensures rest { result ≡ self.now }
        ensures runs { ShowsInOrder (deref_pair {K = K} {X = ℕ}) }
        ensures fits { length self.now < 2 ^ 63 }
        ensures kept { IsKept K.cmp self.now }
    {
        self.map.iter()
    }

    // Returns the keys from one to another, both included, with their counts, in order.
    pub(crate) fn between(&self, first: &K, last: &K) -> Between<'_, K, u64>
        requires { IsLeBy K.cmp first.now last.now }
        ensures rest { result ≡ from_to K.cmp first.now last.now self.now }
        ensures runs { ShowsInOrder (deref_pair {K = K} {X = ℕ}) }
        ensures fits { length result < 2 ^ 63 }
        ensures kept { IsKept K.cmp self.now }
    {
        self.map.between(first, last)
    }
}

impl<K: Key, A: Allocator + Copy> Tally<K, A> {
    // Returns an empty map. The call allocates no memory.
    pub(crate) fn new(alloc: A) -> Tally<K, A>
        ensures { result ≡ [] }
    {
        Tally {
            map: GrowingMap::new(alloc),
        }
    }

    // Adds to the count of a key. The call allocates no memory if the key is there.
    pub(crate) fn add(&mut self, key: &K, n: u64) -> Result<(), CountFault>
        ensures ok { OnOk result (self.new ≡ put_more K.cmp key.now n self.old) }
        ensures err { OnErr result (self.new ≡ self.old) }
        ensures full { (result ≡ Err CountFull) ↔ IsTooMany (number K.cmp self.old key.now) n }
        ensures memory { result ≡ Err Memory → find K.cmp key.now self.old ≡ None }
    {
        let _ = &self.map;
        if n == 0 {
            return Ok(());
        }
        if n > MAX_COUNT {
            return Err(CountFault::CountFull);
        }
        match self.map.put_or_edit(key, n, |count| raised(count, n)) {
            Ok(Some(Edit::Keep)) => Err(CountFault::CountFull),
            Ok(_) => Ok(()),
            Err(_) => Err(CountFault::Memory),
        }
    }

    // Subtracts from the count of a key. The call allocates no memory.
    pub(crate) fn take(&mut self, key: &K, n: u64)
        requires { n ≤ number K.cmp self.old key.now }
        ensures { self.new ≡ put_fewer K.cmp key.now n self.old }
    {
        let _ = &self.map;
        if n == 0 {
            return;
        }
        // the key is there
        let Ok(_) = self.map.put_or_edit(key, n, |count| lowered(count, n)) else {
            return;
        };
    }

    // Returns an equal map.
    pub(crate) fn copy(&self, alloc: A) -> Result<Tally<K, A>, AllocError>
        ensures { IfOk result (λ t. t ≡ self.now) }
    {
        Ok(Tally {
            map: self.map.copy(alloc)?,
        })
    }
}
