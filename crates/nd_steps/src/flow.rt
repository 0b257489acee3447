//! Takes that are kept in little memory: the consequence determines the changes.
ghost use Rattle.std.specs.Prelude.{◌≡◌, ◌<◌, ◌≤◌, [], IfOk, IfErr, IfSome, IsNone, OnOk, length, slice_index_or};
ghost use Rattle.nd_steps.specs.Plans.{Each};
ghost use Rattle.nd_steps.specs.Turns.{IsReadable, FirstLeaves};
ghost use Rattle.nd_steps.specs.Orders.{CanReach, IsOrderedFlow, PassLimit, StayWithin, StayFails};
ghost use Rattle.nd_steps.specs.Flows.{come_changes, flow_changes, keyed_flow};
ghost use Rattle.nd_steps.specs.Keyed.{comes_in, taken_in};
ghost use Rattle.nd_steps.specs.Borrowed.{change_of};

use crate::change::ChangeRef;
use crate::consequence::Consequence;
use crate::keyed::Keyed;
use crate::listing::{ChangeAt, Listing};
use crate::order::within;
use crate::reading::reading_of;
use crate::record_at;
use crate::slot::KeyRef;
use nd_processor::{Processor, SinkKey, ValueAt};
use nd_protocol::{Refusal, Step};
use std::alloc::Allocator;

/// The part of a take's changes that the step doesn't determine: the consequence, and the order of the changes.
#[derive(Clone, Copy, Debug, PartialEq, Eq, Drop)]
pub struct Flow {
    pub come: Consequence,
    /// Whether the record's pointstamp is removed from what is unsent after everything else was added.
    pub late: bool,
}

// The changes of a take, in order. Each is built when it is asked for, and no key is copied.
#[derive(Drop)]
pub(crate) struct TakeChanges {
    p: u32,
    gone: ValueAt,
    // The record that arrives; `gone` itself if none arrives.
    key: ValueAt,
    flow: Flow,
}

impl TakeChanges {
    // Returns the changes of processor `p`'s take of `gone`.
    fn new(p: u32, gone: ValueAt, flow: Flow) -> TakeChanges
        ensures { taken_in result ≡ flow_changes p gone flow }
    {
        let key = flow.come.key(&gone);
        TakeChanges { p, gone, key, flow }
    }

    // Returns the number of changes by which something arrives.
    fn comes(&self) -> usize
        ensures many { result ≡ length (comes_in self.now) }
        ensures few { result ≤ 2 }
    {
        match self.flow.come {
            Consequence::Nothing => 0,
            Consequence::Record { .. } => 2,
            Consequence::Count { .. } => 1,
        }
    }

    // Returns change `i` of those by which something arrives.
    fn come_at(&self, i: usize) -> ChangeRef<'_>
        requires { i < length (comes_in self.now) }
        ensures { change_of result ≡ slice_index_or (comes_in self.now) i (change_of result) }
    {
        let (p, key) = match self.flow.come {
            Consequence::Nothing => unreachable!(),
            Consequence::Record { p, .. } if i == 0 => (p, KeyRef::Records(&self.key)),
            Consequence::Record { .. } => (self.p, KeyRef::Unsent(&self.key.point)),
            Consequence::Count { vertex } => {
                let value = self.gone.value;
                (self.p, KeyRef::Sink(SinkKey { vertex, value }))
            }
        };
        ChangeRef { p, key, n: 1 }
    }

    // Returns the number of changes.
    pub(crate) fn count(&self) -> usize
        ensures { result ≡ length (taken_in self.now) }
    {
        self.comes() + 2
    }

    // Returns change `i`.
    pub(crate) fn change(&self, i: usize) -> ChangeRef<'_>
        requires { i < length (taken_in self.now) }
        ensures { change_of result ≡ slice_index_or (taken_in self.now) i (change_of result) }
    {
        let comes = self.comes();
        let before = if self.flow.late { 0 } else { 1 };
        if i >= before && i - before < comes {
            return self.come_at(i - before);
        }
        let key = if i > comes {
            KeyRef::Records(&self.gone)
        } else {
            KeyRef::Unsent(&self.gone.point)
        };
        ChangeRef {
            p: self.p,
            key,
            n: -1,
        }
    }
}

impl Listing for TakeChanges {
    ghost listed = { taken_in };

    fn len(&self) -> usize {
        self.count()
    }

    fn at(&self, i: usize) -> ChangeAt<'_> {
        ChangeAt::Borrowed(self.change(i))
    }
}

impl Flow {
    // Returns the changes of a step, if it is a take.
    pub(crate) fn taken<A: Allocator>(&self, step: &Step<A>) -> Option<TakeChanges>
        ensures some { IfSome result (λ t. taken_in t ≡ keyed_flow step.now self.now) }
        ensures none { IsNone result → keyed_flow step.now self.now ≡ [] }
    {
        match step {
            Step::Take {
                p,
                edge,
                time,
                value,
            } => Some(TakeChanges::new(*p, record_at(*edge, time, *value), *self)),
            Step::Feed { .. } | Step::Notice { .. } | Step::Release { .. } => None,
            Step::Send { .. } | Step::Broadcast { .. } | Step::Receive { .. } => None,
        }
    }

    // Lists the changes of a step, in order; none if the step is not a take.
    pub(crate) fn keyed<'a, A: Allocator>(&self, step: &'a Step<A>) -> Keyed<'a>
        ensures { result ≡ keyed_flow step.now self.now }
    {
        match self.taken(step) {
            Some(changes) => Keyed::taken(changes),
            None => Keyed::listed(&[]),
        }
    }
}

// Tests the limits of a take: that of counts before that of entries. Looks each place up once. Returns whether the integer at the
// place of the first change is not 0 afterwards.
fn read_all<A: Allocator + Copy>(
    processors: &[Processor<A>],
    changes: &TakeChanges,
) -> Result<bool, Refusal>
    requires { Each (IsReadable processors.now) (taken_in changes.now) }
    ensures first { IfOk result (FirstLeaves processors.now (taken_in changes.now)) }
    ensures within { OnOk result (StayWithin processors.now (taken_in changes.now)) }
    ensures refused { IfErr result (StayFails processors.now (taken_in changes.now)) }
{
    let mut counts_stay = true;
    let mut entries_stay = true;
    let mut first = false;
    for i in 0..changes.count() {
        let reading = reading_of(processors, &changes.change(i));
        counts_stay &= reading.count_stays;
        entries_stay &= reading.entry_stays;
        first |= (i == 0) & reading.leaves;
    }
    match within(counts_stay, entries_stay) {
        Ok(()) => Ok(first),
        Err(refusal) => Err(refusal),
    }
}

/// Returns the flow of processor `p`'s take of a record with this consequence, in an order in which everything is added before
/// anything is removed; or the limit because of which it is refused: that of counts before that of entries.
pub fn ordered_flow<A: Allocator + Copy>(
    processors: &[Processor<A>],
    p: u32,
    gone: &ValueAt,
    come: Consequence,
) -> Result<Flow, Refusal>
    requires { CanReach processors.now (come_changes p gone.now come) }
    ensures ok { IfOk result (IsOrderedFlow processors.now p gone.now come) }
    ensures refused { IfErr result (PassLimit processors.now (come_changes p gone.now come)) }
{
    let early = TakeChanges::new(p, gone.copy(), Flow { come, late: false });
    let late = !read_all(processors, &early)?;
    Ok(Flow { come, late })
}
