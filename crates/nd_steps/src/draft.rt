//! The changes of a step, as they are found: a place may occur more than once, and the changes are
//! in no order.
ghost use Rattle.std.specs.Prelude.{◌≡◌, ◌≤◌, ◌^◌, ◌++◌, ◌∷◌, ◌-ℤ◌, [], All, FitsSigned, IfOk, OnOk, length};
ghost use Rattle.std.specs.Int.{w128};
ghost use Rattle.std.specs.List.Sorted.{IsPermutation};
ghost use Rattle.nd_protocol.specs.Steps.{flat, point_at};
ghost use Rattle.nd_vertex.specs.Edits.{number_of};
ghost use Rattle.nd_steps.specs.Places.{parts, place_cmp};
ghost use Rattle.nd_steps.specs.Changes.{at_key, place_of, AreByPlace};
ghost use Rattle.nd_steps.specs.Drafts.{item_changes, ask_changes, sink_changes, HasValues, some_of, both, joined, AreJoined};
ghost use Rattle.nd_steps.specs.Performers.{Adds, AddsRecords};

use crate::amounts::number;
use crate::{Change, Slot};
use nd_paths::Pointstamp;
use nd_processor::{SinkKey, ValueAt};
use nd_time::Timestamp;
use nd_vertex::ItemEdit;
use std::alloc::{AllocError, Allocator};
use std::cmp::Ordering;
use std::mem;

// The parts of a place: the map, the processor, and in the map a pointstamp and a value.
type PlaceParts = (u8, (u32, (Pointstamp, i64)));

// Returns the point of a vertex, for a key without a time.
fn timeless(vertex: usize) -> Pointstamp
    ensures { result ≡ point_at vertex (flat 0) }
{
    Pointstamp {
        location: vertex,
        time: Timestamp::new(0, &[]).unwrap(),
    }
}

// Returns the parts of a change's place.
fn parts_of(change: &Change) -> PlaceParts
    ensures { result ≡ parts (place_of change.now) }
{
    let (map, point, value) = match &change.slot {
        Slot::Records(key) => (0, key.point.copy(), key.value),
        Slot::Request(point) => (1, point.copy(), 0),
        Slot::Token(vertex) => (2, timeless(*vertex), 0),
        Slot::State { vertex, key } => {
            let point = Pointstamp {
                location: *vertex,
                time: key.time.copy(),
            };
            (3, point, key.item)
        }
        Slot::Sink(key) => (4, timeless(key.vertex), key.value),
        Slot::Unsent(point) => (5, point.copy(), 0),
    };
    (map, (change.p, (point, value)))
}

// Compares places: by map, then by processor, then by key.
fn by_place(a: &Change, b: &Change) -> Ordering
    ensures { result ≡ place_cmp (place_of a.now) (place_of b.now) }
{
    parts_of(a).cmp(&parts_of(b))
}

// Sorts changes by their places.
pub(crate) fn sorted<A: Allocator>(changes: Vec<Change, A>) -> Vec<Change, A>
    ensures same { IsPermutation changes.items result.items }
    ensures order { AreByPlace result.items }
{
    let mut changes = changes;
    changes.sort_unstable_by(|a, b| by_place(a, b));
    changes
}

// Appends a change, unless it adds 0.
fn push_some<A: Allocator>(to: &mut Vec<Change, A>, change: Change) -> Result<(), AllocError>
    ensures { OnOk result (to.new.items ≡ to.old.items ++ some_of change) }
{
    if change.n == 0 {
        return Ok(());
    }
    to.push(change)?;
    Ok(())
}

// Joins two changes at one place. More than 128 bits would be an error, but no memory could hold
// enough changes to need them.
fn add_to(last: &mut Change, change: &Change) -> Result<(), AllocError>
    ensures { OnOk result (last.new ≡ both last.old change.now) }
{
    let Some(n) = last.n.checked_add(change.n) else {
        return Err(AllocError);
    };
    last.n = n;
    Ok(())
}

// Joins neighbours at one place to one change, and drops changes that add 0.
fn join_neighbours<A: Allocator + Copy>(
    sorted: Vec<Change, A>,
) -> Result<Vec<Change, A>, AllocError>
    ensures { IfOk result (λ v. v.items ≡ joined sorted.items) }
{
    let alloc = *sorted.allocator();
    let mut joined = Vec::new(alloc);
    let mut rest = sorted.into_iter();
    let Some(mut last) = rest.next() else {
        return Ok(joined);
    };
    for change in rest {
        if by_place(&last, &change).is_eq() {
            add_to(&mut last, &change)?;
        } else {
            let before = mem::replace(&mut last, change);
            push_some(&mut joined, before)?;
        }
    }
    push_some(&mut joined, last)?;
    // (no more room than needed, since a timeline may keep the changes)
    let mut exact = Vec::with_capacity(alloc, joined.len())?;
    exact.append(&mut joined)?;
    Ok(exact)
}

// Returns the difference between an item's new number and its old one.
fn gain(item: &ItemEdit) -> i128
    ensures value { result ≡ number_of item.now.new -ℤ number_of item.now.old }
    ensures values { HasValues item.now }
    ensures fits { FitsSigned w128 result }
{
    number(item.new) - number(item.old)
}

// The changes of a step of processor p.
pub(crate) struct Draft<A: Allocator> {
    pub(crate) p: u32,
    pub(crate) changes: Vec<Change, A>,
}

impl<A: Allocator> Drop for Draft<A> {
    fn drop(self) {
        let Draft { p: _, changes: _ } = self;
    }
}

impl<A: Allocator + Copy> Draft<A> {
    // Returns an empty draft.
    pub(crate) fn new(alloc: A, p: u32) -> Draft<A>
        ensures p { result.p ≡ p }
        ensures changes { result.changes.items ≡ [] }
    {
        Draft {
            p,
            changes: Vec::new(alloc),
        }
    }

    // Adds `n` at a key of `p`'s maps.
    pub(crate) fn add(&mut self, slot: Slot, n: i128) -> Result<(), AllocError>
        ensures { OnOk result (Adds self.old self.new (at_key self.old.p slot n ∷ [])) }
    {
        let change = Change { p: self.p, slot, n };
        self.changes.push(change)?;
        Ok(())
    }

    // Adds a record at processor `to`, and its pointstamp to what `p` has to send.
    pub(crate) fn add_record(&mut self, to: u32, key: ValueAt) -> Result<(), AllocError>
        ensures { OnOk result (AddsRecords self.old self.new ((to, key) ∷ [])) }
    {
        let sent = Slot::Unsent(key.point.copy());
        let comes = Change {
            p: to,
            slot: Slot::Records(key),
            n: 1,
        };
        self.changes.push(comes)?;
        self.add(sent, 1)
    }

    // Adds the changes of a vertex's items to their new numbers.
    pub(crate) fn add_items(&mut self, vertex: usize, items: &[ItemEdit]) -> Result<(), AllocError>
        ensures adds { OnOk result (Adds self.old self.new
            (item_changes self.old.p vertex items.now)) }
        ensures values { OnOk result (All HasValues items.now) }
    {
        for item in items {
            let key = item.key.copy();
            self.add(Slot::State { vertex, key }, gain(item))?;
        }
        Ok(())
    }

    // Adds a request that was not there, if `asks`.
    pub(crate) fn ask(&mut self, point: &Pointstamp, asks: bool) -> Result<(), AllocError>
        ensures { OnOk result (Adds self.old self.new (ask_changes self.old.p point.now asks)) }
    {
        if !asks {
            return Ok(());
        }
        self.add(Slot::Request(point.copy()), 1)?;
        self.add(Slot::Unsent(point.copy()), 1)
    }

    // Adds one to a sink's count of a value, if `counts`.
    pub(crate) fn count(&mut self, key: SinkKey, counts: bool) -> Result<(), AllocError>
        ensures { OnOk result (Adds self.old self.new (sink_changes self.old.p key counts)) }
    {
        if !counts {
            return Ok(());
        }
        self.add(Slot::Sink(key), 1)
    }

    // Returns the changes with each place once, without those that add 0.
    pub(crate) fn join(self) -> Result<Vec<Change, A>, AllocError>
        ensures joined { IfOk result (λ v. AreJoined self.changes.items v.items) }
        ensures few { length self.changes.items ≤ 2 ^ 64 }
    {
        let Draft { p: _, changes } = self;
        join_neighbours(sorted(changes))
    }
}
