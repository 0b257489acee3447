//! Feeds that are kept in little memory: the step determines most of the changes.
ghost use Rattle.std.specs.Prelude.{◌≡◌, ◌≤◌, ◌+◌, ◌++◌, IfSome, length};
ghost use Rattle.nd_steps.specs.Feeds.{arrived as arrived_at, announced, moved, keyed_feed};

use crate::feed::moves;
use crate::keyed::{Keyed, MOST};
use crate::{Change, Slot, record_at};
use arrayvec::ArrayVec;
use nd_processor::token_point;
use nd_protocol::Step;
use nd_time::Timestamp;
use std::alloc::Allocator;

/// The part of a feed's changes that the step doesn't determine. The changes list the records in the order
/// of the values, each value once, on one edge and at one processor.
#[derive(Clone, Copy, Debug, Default, PartialEq, Eq, Drop)]
pub struct FedAt {
    /// The edge on which the values arrive.
    pub edge: usize,
    /// The processor at which they arrive.
    pub to: u32,
    /// The epoch of the token before the feed.
    pub epoch: u32,
    /// The epoch of the token after the feed.
    pub next: u32,
    /// Whether the token's pointstamp is removed from what is unsent after everything else was added.
    pub late: bool,
}

// Guesses from the changes of a feed into `vertex` where its records arrive and where its token moves.
fn guessed(vertex: usize, changes: &[Change]) -> FedAt {
    let mut at = FedAt::default();
    let mut next = None;
    for change in changes {
        match &change.slot {
            Slot::Records(key) => {
                at.edge = key.point.location;
                at.to = change.p;
                at.epoch = key.point.time.epoch();
            }
            Slot::Unsent(point) if point.location == vertex => {
                if change.n < 0 {
                    at.epoch = point.time.epoch();
                    at.late = next.is_some();
                } else {
                    next = Some(point.time.epoch());
                }
            }
            _ => {}
        }
    }
    at.next = next.unwrap_or(at.epoch);
    at
}

impl FedAt {
    // Returns the change by which a value arrives.
    pub(crate) fn arrived(&self, value: i64) -> Change
        ensures { result ≡ arrived_at self.now value }
    {
        let time = Timestamp::new(self.epoch, &[]).unwrap();
        Change {
            p: self.to,
            slot: Slot::Records(record_at(self.edge, &time, value)),
            n: 1,
        }
    }

    // Appends the change by which processor `p` announces the records, if there are any.
    fn announce(&self, list: &mut ArrayVec<Change, MOST>, p: u32, many: usize)
        requires { length list.old.items ≤ 3 }
        ensures list { list.new.items ≡ list.old.items ++ announced self.now p many }
        ensures few { length list.new.items ≤ length list.old.items + 1 }
    {
        if many == 0 {
            return;
        }
        list.push(Change {
            p,
            slot: Slot::Unsent(token_point(self.edge, self.epoch)),
            n: many as i128,
        });
    }

    // Lists the changes by which the token of processor `p`'s vertex moves, and the one that announces
    // the records.
    fn moved(&self, p: u32, vertex: usize, many: usize) -> ArrayVec<Change, MOST>
        ensures { result.items ≡ moved self.now p vertex many }
    {
        let mut list = ArrayVec::new();
        if self.next == self.epoch {
            self.announce(&mut list, p, many);
            return list;
        }
        list.push(Change {
            p,
            slot: Slot::Token(vertex),
            n: moves(self.epoch, self.next),
        });
        let goes = Change {
            p,
            slot: Slot::Unsent(token_point(vertex, self.epoch)),
            n: -1,
        };
        let comes = Change {
            p,
            slot: Slot::Unsent(token_point(vertex, self.next)),
            n: 1,
        };
        if self.late {
            list.push(comes);
            self.announce(&mut list, p, many);
            list.push(goes);
        } else {
            list.push(goes);
            list.push(comes);
            self.announce(&mut list, p, many);
        }
        list
    }

    // Returns the changes of a step, in order; none if the step is not a feed.
    pub(crate) fn keyed<'a, A: Allocator>(&self, step: &'a Step<A>) -> Keyed<'a>
        ensures { result ≡ keyed_feed step.now self.now }
    {
        match step {
            Step::Feed {
                p,
                vertex,
                values,
                ..
            } => {
                let values = values.as_slice();
                Keyed::fed(*self, values, self.moved(*p, *vertex, values.len()))
            }
            Step::Take { .. } | Step::Notice { .. } | Step::Release { .. } => Keyed::listed(&[]),
            Step::Send { .. } | Step::Broadcast { .. } | Step::Receive { .. } => Keyed::listed(&[]),
        }
    }

    // Returns what stands for these changes of a step, or `None` if it finds nothing that does.
    pub(crate) fn of<A: Allocator>(step: &Step<A>, changes: &[Change]) -> Option<FedAt>
        ensures { IfSome result (λ f. keyed_feed step.now f ≡ changes.now) }
    {
        let Step::Feed { vertex, .. } = step else {
            return None;
        };
        let at = guessed(*vertex, changes);
        if !at.keyed(step).is(changes) {
            return None;
        }
        Some(at)
    }
}
