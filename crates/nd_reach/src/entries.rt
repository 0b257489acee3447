//! The entries of maps as bytes.
ghost use Rattle.std.specs.Prelude.{◌≡◌, ◌++◌, ◌<◌, ◌^◌, OnOk, length};
ghost use Rattle.nd_reach.specs.Bytes.{entry as entry_form, list, point as point_form};
ghost use Rattle.nd_reach.specs.Forms.{item_form, record_form, sink_form, token_form};

use crate::bytes::{put_entry, put_integer, put_number, put_point, put_time};
use nd_map::{Iter, Key};
use nd_paths::Pointstamp;
use nd_processor::{SinkKey, ValueAt};
use nd_vertex::ItemKey;
use std::alloc::{AllocError, Allocator};

/// A key of a map in a state. The form of an entry is that of the key, and then that of the value, if there is one.
pub(crate) trait Formed<V>: Key {
    ghost use Rattle.std.specs.Prelude.{List, ℕ};

    ghost form: { Self × V → List ℕ };

    /// Appends the form of an entry of the map.
    fn put<A: Allocator>(&self, value: &V, bytes: &mut Vec<u8, A>) -> Result<(), AllocError>
        ensures { OnOk result (bytes.new.items ≡ bytes.old.items ++ form (self.now, value.now)) };
}

impl Formed<()> for Pointstamp {
    ghost form = { λ e. point_form e.0 };

    fn put<A: Allocator>(&self, _value: &(), bytes: &mut Vec<u8, A>) -> Result<(), AllocError> {
        put_point(bytes, self)
    }
}

impl Formed<i64> for Pointstamp {
    ghost form = { entry_form };

    fn put<A: Allocator>(&self, count: &i64, bytes: &mut Vec<u8, A>) -> Result<(), AllocError> {
        put_entry(bytes, self, *count)
    }
}

impl Formed<u64> for ValueAt {
    ghost form = { record_form };

    fn put<A: Allocator>(&self, count: &u64, bytes: &mut Vec<u8, A>) -> Result<(), AllocError> {
        put_point(bytes, &self.point)?;
        put_integer(bytes, self.value)?;
        put_number(bytes, *count)
    }
}

impl Formed<u64> for SinkKey {
    ghost form = { sink_form };

    fn put<A: Allocator>(&self, count: &u64, bytes: &mut Vec<u8, A>) -> Result<(), AllocError> {
        put_number(bytes, self.vertex as u64)?;
        put_integer(bytes, self.value)?;
        put_number(bytes, *count)
    }
}

impl Formed<u32> for usize {
    ghost form = { token_form };

    fn put<A: Allocator>(&self, epoch: &u32, bytes: &mut Vec<u8, A>) -> Result<(), AllocError> {
        put_number(bytes, *self as u64)?;
        put_number(bytes, u64::from(*epoch))
    }
}

impl Formed<i64> for ItemKey {
    ghost form = { item_form };

    fn put<A: Allocator>(&self, number: &i64, bytes: &mut Vec<u8, A>) -> Result<(), AllocError> {
        put_time(bytes, &self.time)?;
        put_integer(bytes, self.item)?;
        put_integer(bytes, *number)
    }
}

/// Appends the forms of the entries of a list.
pub(crate) fn put_list<K: Formed<V>, V, A: Allocator>(
    bytes: &mut Vec<u8, A>,
    entries: &[(K, V)],
) -> Result<(), AllocError>
    ensures { OnOk result (bytes.new.items ≡ bytes.old.items ++ list K.form entries.now) }
{
    put_number(bytes, entries.len() as u64)?;
    for entry in entries {
        entry.0.put(&entry.1, bytes)?;
    }
    Ok(())
}

/// Returns the number of entries that an iterator has not yet returned.
pub(crate) fn count_of<K: Key, V: Copy>(entries: Iter<'_, K, V>) -> usize
    requires { length entries < 2 ^ 63 }
    ensures { result ≡ length entries.entry }
{
    entries.count()
}

/// Appends the forms of the entries of a map, of which there are `count`, in the order of their keys.
pub(crate) fn put_map<K: Formed<V>, V: Copy, A: Allocator>(
    bytes: &mut Vec<u8, A>,
    count: usize,
    entries: Iter<'_, K, V>,
) -> Result<(), AllocError>
    requires { count ≡ length entries }
    ensures { OnOk result (bytes.new.items ≡ bytes.old.items ++ list K.form entries.entry) }
{
    put_number(bytes, count as u64)?;
    for (key, value) in entries {
        key.put(value, bytes)?;
    }
    Ok(())
}
