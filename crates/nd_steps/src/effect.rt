//! What a step changes, with the values before and after.
ghost use Rattle.nd_steps.specs.Alterations.{nothing};
ghost use Rattle.nd_steps.specs.Effect.{lists_of};
ghost use Rattle.std.specs.Prelude.{◌≡◌};

use nd_paths::Pointstamp;
use nd_processor::{SinkKey, ValueAt};
use nd_vertex::ItemKey;
use std::alloc::{Allocator, Global};

/// A key of processor `p` at which a step changes the value: `old` is the value before the step, `new` the
/// value after it.
#[derive(Debug, PartialEq, Eq, Drop)]
pub struct Altered<K, V> {
    pub p: u32,
    pub key: K,
    pub old: V,
    pub new: V,
}

/// The key of an item among those of all vertices.
#[derive(Debug, PartialEq, Eq, Drop)]
pub struct ItemAt {
    pub vertex: usize,
    pub key: ItemKey,
}

/// The effect of a step: each key of a map and each queue that has another value after it. Each list is by
/// processor, and then in the order of listing of the keys.
pub struct Effect<A: Allocator + Copy = Global> {
    /// The numbers of vertices' items; `None` if the item is absent.
    pub items: Vec<Altered<ItemAt, Option<i64>>, A>,
    /// The lengths of queues; `p` is the sender, and the key the receiver.
    pub queues: Vec<Altered<u32, usize>, A>,
    /// The counts of records.
    pub records: Vec<Altered<ValueAt, u64>, A>,
    /// Whether there is a request.
    pub requests: Vec<Altered<Pointstamp, bool>, A>,
    /// How often sink vertices have counted values.
    pub sinks: Vec<Altered<SinkKey, u64>, A>,
    /// The epochs of the tokens of input vertices; `None` if the input is closed.
    pub tokens: Vec<Altered<usize, Option<u32>>, A>,
    /// The entries of what is unsent.
    pub unsent: Vec<Altered<Pointstamp, i64>, A>,
    /// The entries of the processors' views.
    pub views: Vec<Altered<Pointstamp, i64>, A>,
}

impl<A: Allocator + Copy> Drop for Effect<A> {
    fn drop(self) {
        let Effect {
            items: _,
            queues: _,
            records: _,
            requests: _,
            sinks: _,
            tokens: _,
            unsent: _,
            views: _,
        } = self;
    }
}

impl<A: Allocator + Copy> Effect<A> {
    // Returns the effect that changes nothing. It takes no memory.
    pub(crate) fn new(alloc: A) -> Effect<A>
        ensures { lists_of result ≡ nothing }
    {
        Effect {
            items: Vec::new(alloc),
            queues: Vec::new(alloc),
            records: Vec::new(alloc),
            requests: Vec::new(alloc),
            sinks: Vec::new(alloc),
            tokens: Vec::new(alloc),
            unsent: Vec::new(alloc),
            views: Vec::new(alloc),
        }
    }
}
